// The functions of INT 31h, by their families.
ghost use Rattle.std.specs.Prelude.{◌≡◌};
ghost use Rattle.client_world.specs.declared.registers.Mode.TheVariants.{Protected as protected};
ghost use Rattle.host_run.specs.Families.{family_of, service};

use client_world::Carry;
use guest_space::Machine;
use service_rows::{Refusal, refuse};

/// A family of functions of INT 31h, which one crate serves.
#[derive(Clone, Copy, Debug, PartialEq, Eq)]
pub enum Family {
    /// The descriptors of a client.
    Descriptors,
    /// DOS memory with descriptors.
    DosMemory,
    /// Vectors, the version and virtual interrupts.
    Vectors,
    /// Real-mode callbacks.
    Callbacks,
    /// The addresses of the raw switches and of the save/restore calls.
    Gates,
    /// Memory blocks and their pages.
    Blocks,
}

// The family of a function number, where one has it.
#[tactic(auto, unfolding(crate::specs::Families::family_of))]
fn family_of(ax: u16) -> Option<Family>
    ensures { result ≡ family_of ax }
{
    match ax {
        0x0000..=0x0003 | 0x0006..=0x000D => Some(Family::Descriptors),
        0x0100..=0x0102 => Some(Family::DosMemory),
        0x0200..=0x0205 | 0x0400 | 0x0900..=0x0902 => Some(Family::Vectors),
        0x0303 | 0x0304 => Some(Family::Callbacks),
        0x0305 | 0x0306 => Some(Family::Gates),
        0x0500..=0x0503 | 0x0600..=0x0604 | 0x0702 | 0x0703 => Some(Family::Blocks),
        _ => None,
    }
}

/// Serves a function of INT 31h by its family. A function number that no family has is refused: carry, and AX = 8001h.
#[tactic(auto, unfolding(crate::specs::Families::service))]
pub(crate) fn serve_function(m: &mut Machine, ax: u16) -> Carry
    requires { m.old.world.mode ≡ protected }
    ensures { record { carry = result; world = m.new.world } ≡ service ax m.old.world }
{
    match family_of(ax) {
        Some(Family::Descriptors) => desc_services::serve(m, ax),
        Some(Family::DosMemory) => dos_blocks::serve(m, ax),
        Some(Family::Vectors) => vector_services::serve(m, ax),
        Some(Family::Callbacks) => callbacks::serve(m, ax),
        Some(Family::Gates) => mode_gates::serve(m, ax),
        Some(Family::Blocks) => block_services::serve(m, ax),
        None => refuse(m, Refusal::Unsupported),
    }
}
