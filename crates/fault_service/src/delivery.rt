// Exceptions in protected mode.
ghost use Rattle.std.specs.Prelude.{◌≡◌, ◌≢◌, ◌<◌, None, Ok, Err, MatchResult};
ghost use Rattle.client_world.specs.{declared.limits.TheConstants.{GREATEST_DEPTH}, declared.registers.Mode.TheVariants.{Protected}};
ghost use Rattle.client_world.specs.World.{depth};
ghost use Rattle.guest_space.specs.{VectorLists.{vector_at}, Far.{after_far_write}};
ghost use Rattle.fault_service.specs.Delivery.{after_delivery, exception_frame, exception_frame_start, exception_frame_size};
ghost use Rattle.fault_service.specs.Delivery.{protected_delivery};

use crate::frame::{dword_frame, exception_items, word_frame};
use client_world::limits::{EXCEPTION_VECTORS, GREATEST_DEPTH};
use client_world::selectors::{HOST_STACKS, selector_of};
use client_world::{Deep, Exit, FarPtr, Fault, Record, Regs, SegReg};
use exec_flow::{code_selector, frame_bits};
use guest_space::{
    Machine, every_write_changes_the_memory_alone, the_protected_stacks_are_reachable,
};
use mode_stack::{depth, frame_address, push};

// The greatest depth.
const DEEPEST: u8 = GREATEST_DEPTH as u8;

// Where the frame lies.
fn exception_frame_start(m: &Machine) -> FarPtr
    requires { depth m.now.world < GREATEST_DEPTH }
    ensures { result ≡ exception_frame_start m.now.world }
{
    let size = if frame_bits(m) == 16 { 16 } else { 32 };
    frame_address(m, size)
}

// Writes the frame where it lies.
#[tactic(auto, unfolding(crate::specs::Delivery::exception_frame))]
fn write_frame(m: &mut Machine, f: Fault, at: FarPtr)
    requires place { at ≡ exception_frame_start m.old.world }
    requires width { m.old.world.width ≢ None }
    requires depth { depth m.old.world < GREATEST_DEPTH }
    ensures { m.new ≡ after_far_write m.old (exception_frame_start m.old.world) (exception_frame_size m.old.world)
        (exception_frame m.old.world f) }
{
    the_protected_stacks_are_reachable();
    m.soundness();
    let items = exception_items(m, f);
    if frame_bits(m) == 16 {
        m.write_bytes(at, &word_frame(&items));
    } else {
        m.write_bytes(at, &dword_frame(&items));
    }
}

// Writes the frame of an exception and goes to its handler.
#[tactic(auto, unfolding(crate::specs::Delivery::after_delivery))]
fn enter(m: &mut Machine, f: Fault, p: FarPtr)
    requires mode { m.old.world.mode ≡ Protected }
    requires width { m.old.world.width ≢ None }
    requires depth { depth m.old.world < GREATEST_DEPTH }
    ensures { m.new ≡ after_delivery m.old f p }
{
    every_write_changes_the_memory_alone();
    let at = exception_frame_start(m);
    let handler = Regs {
        cs: code_selector(m, p.sel),
        eip: p.off,
        ss: selector_of(HOST_STACKS),
        esp: at.off,
        ..m.regs()
    };
    write_frame(m, f, at);
    let exception = Record::Exc {
        number: f.number,
        code: f.code,
    };
    match push(m, &exception) {
        Ok(()) => {
            m.set_regs(handler);
            m.set_vif(false);
        }
        Err(Deep) => unreachable!(),
    }
}

// The handler of an exception; a null pointer for a number that has no vector.
fn handler(m: &Machine, number: u8) -> FarPtr
    ensures { result ≡ vector_at m.now.world.exception_vectors number }
{
    m.soundness();
    if u32::from(number) < EXCEPTION_VECTORS {
        m.evec(number)
    } else {
        FarPtr::NULL
    }
}

/// Delivers an exception of protected mode to its handler, with the frame on the host's stack of the depth. `Deep` at the greatest depth,
/// else `Fault` of this exception where the handler's address can't be loaded; an exit leaves the machine as it was.
/// Source: DPMI 0.9, "Exceptions"; the exits are own.
#[tactic(auto, unfolding(crate::specs::Delivery::protected_delivery))]
pub fn deliver_in_protected_mode(m: &mut Machine, f: Fault) -> Result<(), Exit>
    requires mode { m.old.world.mode ≡ Protected }
    ensures { MatchResult result (λ _. protected_delivery m.old f ≡ Ok m.new)
        (λ e. (protected_delivery m.old f ≡ Err e) × (m.new ≡ m.old)) }
{
    m.soundness();
    if depth(m) == DEEPEST {
        return Err(Exit::Deep);
    }

    let p = handler(m, f.number);
    match m.loadable(SegReg::Cs, p.sel, p.off, false) {
        Ok(()) => {
            enter(m, f, p);
            Ok(())
        }
        Err(_) => Err(Exit::Fault(f.number, f.code)),
    }
}
