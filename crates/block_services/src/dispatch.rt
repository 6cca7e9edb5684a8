// INT 31h, functions 0500h to 0503h, 0600h to 0604h, 0702h and 0703h.
ghost use Rattle.std.specs.Prelude.{◌≡◌, ◌≢◌, None};
ghost use Rattle.client_world.specs.declared.registers.Mode.TheVariants.{Protected as protected};
ghost use Rattle.client_world.specs.declared.services.Carry.TheVariants.{Set as set};
ghost use Rattle.service_rows.specs.Reasons.{Does};
ghost use Rattle.block_services.specs.Rows.{block_function, block_service};

use crate::blocks::{allocate_block, free_block, resize_block};
use crate::free::free_memory_information;
use crate::pages::{
    discard_pages, lock_pages, mark_pageable, mark_paging_candidates, page_size, relock_pages,
    unlock_pages,
};
use client_world::Carry;
use guest_space::Machine;
use service_rows::{Refusal, refuse};

// What the function of that number does, or why it refuses.
#[tactic(auto, unfolding(crate::specs::Rows::block_function, service_rows::specs::Reasons::unsupported))]
fn ask(m: &mut Machine, ax: u16) -> Result<(), Refusal>
    requires { m.old.world.width ≢ None }
    ensures { Does (block_function ax m.old.world) result m.old m.new }
{
    match ax {
        0x0500 => free_memory_information(m),
        0x0501 => allocate_block(m),
        0x0502 => free_block(m),
        0x0503 => resize_block(m),
        0x0600 => lock_pages(m),
        0x0601 => unlock_pages(m),
        0x0602 => mark_pageable(m),
        0x0603 => relock_pages(m),
        0x0604 => page_size(m),
        0x0702 => mark_paging_candidates(m),
        0x0703 => discard_pages(m),
        _ => Err(Refusal::Unsupported),
    }
}

/// Serves a function of INT 31h on memory blocks, for a client in protected mode. Where it refuses, the carry is set, AX is the number of
/// the first reason that applies, and nothing else changes. A number that isn't one of these sets the carry and changes nothing. Source:
/// DPMI 0.9, INT 31h functions 0500h to 0503h, 0600h to 0604h, 0702h and 0703h.
#[tactic(auto, using(service_rows::proofs::WidthLaws::protected_width), unfolding(crate::specs::Rows::block_service))]
pub fn serve(m: &mut Machine, ax: u16) -> Carry
    requires { m.old.world.mode ≡ protected }
    ensures served { record { carry = result; world = m.new.world } ≡ block_service ax m.old.world }
    ensures bytes { result ≡ set → m.new.bytes ≡ m.old.bytes }
{
    m.soundness();
    match ask(m, ax) {
        Ok(()) => Carry::Clear,
        Err(Refusal::Unsupported) => Carry::Set,
        Err(refusal) => refuse(m, refusal),
    }
}
