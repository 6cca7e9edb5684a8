// INT 31h, functions 0200h to 0205h, 0400h and 0900h to 0902h.
ghost use Rattle.std.specs.Prelude.{◌≡◌};
ghost use Rattle.client_world.specs.declared.services.Carry.TheVariants.{Set as set};
ghost use Rattle.service_rows.specs.Reasons.{Does};
ghost use Rattle.vector_services.specs.Rows.{vector_function, vector_service};

use crate::state::{disable_interrupts, enable_interrupts, interrupt_state, version};
use crate::vectors::{
    get_exception_vector, get_protected_vector, get_real_vector, set_exception_vector,
    set_protected_vector, set_real_vector,
};
use client_world::Carry;
use guest_space::Machine;
use service_rows::{Refusal, refuse};

// What the function of that number does, or why it refuses.
#[tactic(auto, unfolding(crate::specs::Rows::vector_function, service_rows::specs::Reasons::unsupported))]
fn ask(m: &mut Machine, ax: u16) -> Result<(), Refusal>
    ensures { Does (vector_function ax m.old.world) result m.old m.new }
{
    match ax {
        0x0200 => get_real_vector(m),
        0x0201 => set_real_vector(m),
        0x0202 => get_exception_vector(m),
        0x0203 => set_exception_vector(m),
        0x0204 => get_protected_vector(m),
        0x0205 => set_protected_vector(m),
        0x0400 => version(m),
        0x0900 => disable_interrupts(m),
        0x0901 => enable_interrupts(m),
        0x0902 => interrupt_state(m),
        _ => Err(Refusal::Unsupported),
    }
}

/// Serves a function of INT 31h on vectors, on the version or on virtual interrupts. Where it refuses, the carry is set, AX is the number
/// of the first reason that applies, and nothing else changes. A number that isn't one of these sets the carry and changes nothing. Source:
/// DPMI 0.9, INT 31h functions 0200h to 0205h, 0400h and 0900h to 0902h.
#[tactic(auto, unfolding(crate::specs::Rows::vector_service))]
pub fn serve(m: &mut Machine, ax: u16) -> Carry
    ensures served { record { carry = result; world = m.new.world } ≡ vector_service ax m.old.world }
    ensures bytes { result ≡ set → m.new.bytes ≡ m.old.bytes }
{
    match ask(m, ax) {
        Ok(()) => Carry::Clear,
        Err(Refusal::Unsupported) => Carry::Set,
        Err(refusal) => refuse(m, refusal),
    }
}
