// The frame of a far call at a trap.
ghost use Rattle.std.specs.Prelude.{◌≡◌, Ok, Err, MatchResult};
ghost use Rattle.mode_gates.specs.FarFrames.{after_far_return, world_after_far_return};

use client_world::Exit;
use exec_flow::{frame_bits, pop_far_frame};
use guest_space::Machine;

/// Pops the frame at the stack's top that a far call pushed, in both modes. `BadFrame` where it can't be popped, which leaves the machine
/// as it was. Source: 80386 Programmer's Reference Manual, ch. 17, RET; that a frame which can't be popped ends the client is own.
#[tactic(auto, unfolding(crate::specs::FarFrames::after_far_return))]
pub fn pop_far(m: &mut Machine) -> Result<(), Exit>
    ensures machine { MatchResult result (λ _. after_far_return m.old ≡ Ok m.new)
        (λ e. (after_far_return m.old ≡ Err e) × (m.new ≡ m.old)) }
    ensures world { MatchResult result (λ _. world_after_far_return m.old.world ≡ Ok m.new.world)
        (λ e. world_after_far_return m.old.world ≡ Err e) }
{
    let bits = frame_bits(m);
    match pop_far_frame(m, bits, 0) {
        Ok(()) => Ok(()),
        Err(_) => Err(Exit::BadFrame),
    }
}
