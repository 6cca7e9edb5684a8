// INT 31h, functions 0000h to 000Dh.
ghost use Rattle.std.specs.Prelude.{◌≡◌, ◌≢◌, None};
ghost use Rattle.client_world.specs.declared.registers.Mode.TheVariants.{Protected as protected};
ghost use Rattle.client_world.specs.declared.services.Carry.TheVariants.{Set as set};
ghost use Rattle.service_rows.specs.Reasons.{Does};
ghost use Rattle.desc_services.specs.Rows.{descriptor_function, descriptor_service};

use crate::fields::{set_access_rights, set_segment_limit};
use crate::freeing::free_descriptor;
use crate::low::{allocate_specific, selector_increment};
use crate::packed::{get_descriptor, set_descriptor};
use crate::runs::{allocate_descriptors, create_alias};
use crate::segment::segment_to_descriptor;
use crate::selector::{get_segment_base, set_segment_base};
use client_world::Carry;
use guest_space::Machine;
use service_rows::{Refusal, refuse};

// What the function of that number does, or why it refuses.
#[tactic(auto, unfolding(crate::specs::Rows::descriptor_function, service_rows::specs::Reasons::unsupported))]
fn ask(m: &mut Machine, ax: u16) -> Result<(), Refusal>
    requires { m.old.world.width ≢ None }
    ensures { Does (descriptor_function ax m.old.world) result m.old m.new }
{
    match ax {
        0x0000 => allocate_descriptors(m),
        0x0001 => free_descriptor(m),
        0x0002 => segment_to_descriptor(m),
        0x0003 => selector_increment(m),
        0x0006 => get_segment_base(m),
        0x0007 => set_segment_base(m),
        0x0008 => set_segment_limit(m),
        0x0009 => set_access_rights(m),
        0x000A => create_alias(m),
        0x000B => get_descriptor(m),
        0x000C => set_descriptor(m),
        0x000D => allocate_specific(m),
        _ => Err(Refusal::Unsupported),
    }
}

/// Serves a function of INT 31h on descriptors, for a client in protected mode. Where it refuses, the carry is set, AX is the number of the
/// first reason that applies, and nothing else changes. A number that isn't one of these sets the carry and changes nothing. Source: DPMI
/// 0.9, INT 31h functions 0000h to 000Dh.
#[tactic(auto, using(service_rows::proofs::WidthLaws::protected_width), unfolding(crate::specs::Rows::descriptor_service))]
pub fn serve(m: &mut Machine, ax: u16) -> Carry
    requires { m.old.world.mode ≡ protected }
    ensures served { record { carry = result; world = m.new.world } ≡ descriptor_service ax m.old.world }
    ensures bytes { result ≡ set → m.new.bytes ≡ m.old.bytes }
{
    m.soundness();
    match ask(m, ax) {
        Ok(()) => Carry::Clear,
        Err(Refusal::Unsupported) => Carry::Set,
        Err(refusal) => refuse(m, refusal),
    }
}
