// INT 31h, functions 0303h and 0304h.
ghost use Rattle.std.specs.Prelude.{◌≡◌, ◌≢◌, None};
ghost use Rattle.client_world.specs.declared.registers.Mode.TheVariants.{Protected as protected};
ghost use Rattle.client_world.specs.declared.services.Carry.TheVariants.{Set as set};
ghost use Rattle.service_rows.specs.Reasons.{Does};
ghost use Rattle.callbacks.specs.Services.{callback_function, callback_service};

use crate::services::{allocate_callback, free_callback};
use client_world::Carry;
use guest_space::Machine;
use service_rows::{Refusal, refuse};

// What the function of that number does, or why it refuses.
#[tactic(auto, unfolding(crate::specs::Services::callback_function, service_rows::specs::Reasons::unsupported))]
fn ask(m: &mut Machine, ax: u16) -> Result<(), Refusal>
    requires { m.old.world.width ≢ None }
    ensures { Does (callback_function ax m.old.world) result m.old m.new }
{
    match ax {
        0x0303 => allocate_callback(m),
        0x0304 => free_callback(m),
        _ => Err(Refusal::Unsupported),
    }
}

/// Serves function 0303h or 0304h of INT 31h, for a client in protected mode. 0303h is refused where DS is no code selector or ES isn't
/// held, else where no callback is free; 0304h where CX:DX is the address of none. Carry is set then, AX is the number of the first of
/// these, and nothing else changes. Source: DPMI 0.9, INT 31h functions 0303h and 0304h; the numbers of the refusals are own.
#[tactic(auto, using(service_rows::proofs::WidthLaws::protected_width), unfolding(crate::specs::Services::callback_service))]
pub fn serve(m: &mut Machine, ax: u16) -> Carry
    requires { m.old.world.mode ≡ protected }
    ensures served { record { carry = result; world = m.new.world } ≡ callback_service ax m.old.world }
    ensures bytes { result ≡ set → m.new.bytes ≡ m.old.bytes }
{
    m.soundness();
    match ask(m, ax) {
        Ok(()) => Carry::Clear,
        Err(Refusal::Unsupported) => Carry::Set,
        Err(refusal) => refuse(m, refusal),
    }
}
