// Exceptions of real mode.
ghost use Rattle.std.specs.Prelude.{◌≡◌, Ok, Err, MatchResult};
ghost use Rattle.client_world.specs.declared.registers.Mode.TheVariants.{Real};
ghost use Rattle.interrupts.specs.{Delivery.{has_real_vector, real_delivery}, Worlds.{world_delivery}};

use crate::software::soft_int;
use client_world::faults::{BOUNDS_CHECK, COPROCESSOR_NOT_AVAILABLE, DIVIDE_ERROR, INVALID_OPCODE};
use client_world::{Exit, Fault};
use guest_space::Machine;

// Whether the vectors of real mode serve an exception.
fn has_real_vector(number: u8) -> bool
    ensures { result ≡ has_real_vector number }
{
    number == DIVIDE_ERROR
        || number == BOUNDS_CHECK
        || number == INVALID_OPCODE
        || number == COPROCESSOR_NOT_AVAILABLE
}

/// Delivers an exception of real mode to the client, with the instruction pointer of its instruction. `Fault` of this exception where no
/// vector serves it, or where its frame can't be pushed, which leaves the machine as it was.
/// Source: 80386 Programmer's Reference Manual, ch. 9, "Exceptions and Interrupts", and ch. 15; which exceptions end the client is own.
#[tactic(auto, unfolding(crate::specs::Delivery::real_delivery))]
pub fn deliver_in_real_mode(m: &mut Machine, f: Fault) -> Result<(), Exit>
    requires real { m.old.world.mode ≡ Real }
    ensures machine { MatchResult result (λ _. real_delivery m.old f ≡ Ok m.new)
        (λ e. (real_delivery m.old f ≡ Err e) × (m.new ≡ m.old)) }
    ensures world { MatchResult result (λ _. world_delivery m.old.world f ≡ Ok m.new.world)
        (λ e. world_delivery m.old.world f ≡ Err e) }
{
    let unserved = Exit::Fault(f.number, f.code);
    if !has_real_vector(f.number) {
        return Err(unserved);
    }
    match soft_int(m, f.number, 0) {
        Ok(()) => Ok(()),
        Err(_) => Err(unserved),
    }
}
