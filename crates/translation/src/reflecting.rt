// Interrupts of protected mode that are reflected to real mode.
ghost use Rattle.std.specs.Prelude.{◌≡◌, ◌≢◌, ◌<◌, ◌≤◌, None, Ok, Err, MatchResult};
ghost use Rattle.arrayvec.specs.ArrayVec.{array_vec_len};
ghost use Rattle.client_world.specs.declared.limits.TheConstants.{GREATEST_DEPTH};
ghost use Rattle.client_world.specs.{declared.registers.Mode.TheVariants.{Protected as protected}, World.{depth}};
ghost use Rattle.translation.specs.SimulatedCall.{after_reflection, reflect, reflection_regs, reflection_words};

use crate::calling::{DEEPEST, StackWords, callee_regs, callee_start, enter, return_frame};
use crate::real_stack::host_real_stack;
use client_world::{Call, Exit, FarPtr, Regs};
use guest_space::Machine;
use mode_stack::depth;

// What lies on the handler's stack.
#[tactic(auto, unfolding(crate::specs::SimulatedCall::reflection_words))]
fn reflection_words(m: &Machine, n: u8) -> StackWords
    ensures words { result.items ≡ reflection_words m.now.world n }
    ensures few { array_vec_len result ≤ 3 }
{
    return_frame(Call::Reflect(n), m.regs().flags.image(m.vif()))
}

// Goes to the handler of real mode.
#[tactic(auto, unfolding(crate::specs::SimulatedCall::reflection_regs, crate::specs::SimulatedCall::after_reflection))]
fn enter_handler(m: &mut Machine, n: u8)
    requires width { m.old.world.width ≢ None }
    requires depth { depth m.old.world < GREATEST_DEPTH }
    ensures { m.new.world ≡ after_reflection m.old.world n }
{
    let call = Call::Reflect(n);
    let client = m.regs();
    let passed = Regs {
        ds: 0,
        es: 0,
        fs: 0,
        gs: 0,
        ..client
    };
    let words = reflection_words(m, n);
    let start = callee_start(m, call, &client);
    let r = callee_regs(&passed, start, host_real_stack(m), words.len());
    // A reflection has no structure.
    enter(m, call, FarPtr::NULL, r, false, &words);
}

/// Reflects an interrupt of protected mode to the handler of real mode, over the present registers: the flags and the general registers but
/// ESP are passed, on a stack of the host. `Deep` at the greatest depth, which leaves the machine as it was.
/// Source: DPMI 0.9, "Interrupts"; the exit is own.
#[tactic(auto, unfolding(crate::specs::SimulatedCall::reflect))]
pub fn reflect(m: &mut Machine, n: u8) -> Result<(), Exit>
    requires { m.old.world.mode ≡ protected }
    ensures { MatchResult result (λ _. reflect m.old.world n ≡ Ok m.new.world)
        (λ exit. (reflect m.old.world n ≡ Err exit) × (m.new ≡ m.old)) }
{
    m.soundness();
    if depth(m) == DEEPEST {
        return Err(Exit::Deep);
    }
    enter_handler(m, n);
    Ok(())
}
