// The return from an interrupt at a trap.
ghost use Rattle.std.specs.Prelude.{◌≡◌, is_ok, Ok, Err, MatchResult};
ghost use Rattle.interrupts.specs.{Delivery.{after_iret}, Worlds.{world_after_iret}};

use client_world::Exit;
use exec_flow::{can_pop_frame, frame_bits, pop_frame};
use guest_space::Machine;

/// Whether the frame at the stack's top, which an interrupt pushed, can be popped. Source: 80386 Programmer's Reference Manual, ch. 17,
/// IRET.
pub fn can_pop_iret(m: &Machine) -> bool
    ensures { result ≡ is_ok (after_iret m.now) }
{
    can_pop_frame(m, frame_bits(m))
}

/// Pops the frame at the stack's top, which an interrupt pushed, in both modes. `BadFrame` where it can't be popped, which leaves the
/// machine as it was. Source: 80386 Programmer's Reference Manual, ch. 17, IRET; that a frame which can't be popped ends the client is own.
#[tactic(auto, unfolding(crate::specs::Delivery::after_iret))]
pub fn pop_iret(m: &mut Machine) -> Result<(), Exit>
    ensures machine { MatchResult result (λ _. after_iret m.old ≡ Ok m.new)
        (λ e. (after_iret m.old ≡ Err e) × (m.new ≡ m.old)) }
    ensures world { MatchResult result (λ _. world_after_iret m.old.world ≡ Ok m.new.world)
        (λ e. world_after_iret m.old.world ≡ Err e) }
{
    let bits = frame_bits(m);
    match pop_frame(m, bits) {
        Ok(()) => Ok(()),
        Err(_) => Err(Exit::BadFrame),
    }
}
