// The services below, as turns see them: the world alone, and frames that can still be popped after them.
ghost use Rattle.std.specs.Prelude.{◌≡◌, true, is_ok, Ok, Err, MatchResult, OnOk};
ghost use Rattle.client_world.specs.declared.registers.Mode.TheVariants.{Real};
ghost use Rattle.cpu_step.specs.Step.{client_step};
ghost use Rattle.dos_calls.specs.{Answering.{IfEnded}, Calls.{dos_call}, Multiplex.{multiplex_call}};
ghost use Rattle.host_run.specs.Windows.{HasWindow, IsFound};
ghost use Rattle.interrupts.specs.Worlds.{world_step, world_after_iret};

use client_world::{DosDone, Exit};
use cpu_step::{step_in_window, step_raised};
use dos_calls::{Console, Keys, every_dos_call_keeps_the_rest, int2f, int21};
use fault_service::pop_iret;
use guest_space::{CodeWindow, Machine};
use insn_decode::Memo;
use insn_plan::Raised;
use interrupts::{
    a_real_frame_is_popped_where_it_fits, can_pop_iret, every_answer_depends_on_the_world_alone,
};

/// The client's next instruction, or its event, which leaves the machine. Where there is no event, the window that is left is one of the
/// machine's and has no trap, or it has no starts.
#[inline(always)]
pub(crate) fn step_machine(
    m: &mut Machine,
    memo: &mut Memo,
    window: &mut CodeWindow,
    from: Option<u32>,
) -> Result<(), Raised>
    requires { IsFound m.old window.old from }
    ensures machine { MatchResult result (λ _. client_step m.old ≡ Ok m.new)
        (λ e. (client_step m.old ≡ Err e) × (m.new ≡ m.old)) }
    ensures world { MatchResult result (λ _. world_step m.old.world ≡ Ok m.new.world)
        (λ e. (world_step m.old.world ≡ Err e) × (m.new ≡ m.old)) }
    ensures window { OnOk result (HasWindow m.new window.new) }
{
    every_answer_depends_on_the_world_alone();
    match from {
        Some(start) => step_in_window(m, memo, window, start),
        None => step_raised(m),
    }
}

/// Whether the frame of an interrupt can be popped.
#[tactic(auto, using(crate::proofs::Frames::can_by_world))]
pub(crate) fn can_pop(m: &Machine) -> bool
    ensures { result ≡ is_ok (world_after_iret m.now.world) }
{
    every_answer_depends_on_the_world_alone();
    can_pop_iret(m)
}

/// The frame of an interrupt popped: the mode and the records of calls stay.
pub(crate) fn pop_in_mode(m: &mut Machine) -> Result<(), Exit>
    ensures world { MatchResult result (λ _. world_after_iret m.old.world ≡ Ok m.new.world)
        (λ e. (world_after_iret m.old.world ≡ Err e) × (m.new ≡ m.old)) }
    ensures mode { m.new.world.mode ≡ m.old.world.mode }
    ensures calls { m.new.world.calls ≡ m.old.world.calls }
    ensures bytes { m.new.bytes ≡ m.old.bytes }
{
    pop_iret(m)?;
    Ok(())
}

/// INT 21h, whose frame can be popped after it as before it. Where it ends the client, the machine is as it was.
#[tactic(auto, using(crate::proofs::Frames::still_popped))]
pub(crate) fn serve_dos(m: &mut Machine, keys: &mut Keys, console: &mut Console) -> DosDone
    requires real { m.old.world.mode ≡ Real }
    requires frame { is_ok (world_after_iret m.old.world) ≡ true }
    ensures call { record { done = result; world = m.new.world; keys = keys.new; console = console.new }
        ≡ dos_call (record { world = m.old.world; keys = keys.old; console = console.old }) }
    ensures ended { IfEnded result (m.new ≡ m.old) }
    ensures frame { is_ok (world_after_iret m.new.world) ≡ true }
{
    every_dos_call_keeps_the_rest();
    a_real_frame_is_popped_where_it_fits();
    m.soundness();
    let done = int21(m, keys, console);
    m.soundness();
    done
}

/// INT 2Fh, whose frame can be popped after it as before it.
#[tactic(auto, using(crate::proofs::Frames::still_popped))]
pub(crate) fn serve_multiplex(m: &mut Machine)
    requires real { m.old.world.mode ≡ Real }
    requires frame { is_ok (world_after_iret m.old.world) ≡ true }
    ensures world { m.new.world ≡ multiplex_call m.old.world }
    ensures frame { is_ok (world_after_iret m.new.world) ≡ true }
{
    every_dos_call_keeps_the_rest();
    a_real_frame_is_popped_where_it_fits();
    m.soundness();
    int2f(m);
    m.soundness();
}
