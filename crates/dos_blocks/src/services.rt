// INT 31h, functions 0100h to 0102h.
ghost use Rattle.std.specs.Prelude.{◌≡◌, ◌≢◌, None, OnErr, OnOk};
ghost use Rattle.client_world.specs.declared.registers.Mode.TheVariants.{Protected as protected};
ghost use Rattle.client_world.specs.declared.services.Carry.TheVariants.{Clear, Set};
ghost use Rattle.dos_blocks.specs.Services.{allocate_dos_block, served_result, dos_service, free_dos_block, resize_dos_block, with_dx};

use crate::allocating::dos_alloc;
use crate::finding::{largest, place_of_block};
use crate::freeing::dos_free;
use crate::neighbours::room_after;
use crate::resizing::dos_resize;
use crate::selectors::{has_room_to_grow, segment_of_selector};
use client_world::selectors::{index_of, selector_of};
use client_world::{Carry, DosRefusal, DosRun, low_half, with_low_half};
use guest_space::{Machine, descriptors_for};
use service_rows::{first_free, set_ax, set_bx};

/// The error code in AX where there is no room. Source: MS-DOS Programmer's Reference, functions 48h and 4Ah.
pub const NO_MEMORY: u16 = 8;

/// The error code in AX where no block starts at a segment. Source: MS-DOS Programmer's Reference, functions 49h and 4Ah.
pub const WRONG_BLOCK: u16 = 9;

// Sets DX.
fn set_dx(m: &mut Machine, v: u16)
    ensures { m.new.world ≡ with_dx v m.old.world }
{
    let mut r = m.regs();
    r.edx = with_low_half(r.edx, v);
    m.set_regs(r);
}

// Function 0100h: a block of BX paragraphs with its descriptors.
#[tactic(auto, unfolding(crate::specs::Services::allocate_dos_block))]
fn allocate_dos_block(m: &mut Machine) -> Result<(), DosRefusal>
    requires { m.old.world.width ≢ None }
    ensures answer { result ≡ (allocate_dos_block m.old.world).answer }
    ensures world { m.new.world ≡ (allocate_dos_block m.old.world).world }
    ensures refused { OnErr result (m.new ≡ m.old) }
{
    let n = low_half(m.regs().ebx);
    let refusal = DosRefusal::NoMemory {
        largest: largest(m),
    };
    if n == 0 {
        return Err(refusal);
    }
    let Some(first) = first_free(m, descriptors_for(n)) else {
        return Err(refusal);
    };
    match dos_alloc(m, n, true) {
        Ok(segment) => {
            set_ax(m, segment);
            set_dx(m, selector_of(first));
            Ok(())
        }
        Err(refusal) => Err(refusal),
    }
}

// Function 0101h: the block of DX and its descriptors become free.
#[tactic(auto, unfolding(crate::specs::Services::free_dos_block))]
fn free_dos_block(m: &mut Machine) -> Result<(), DosRefusal>
    requires { m.old.world.width ≢ None }
    ensures answer { result ≡ (free_dos_block m.old.world).answer }
    ensures world { m.new.world ≡ (free_dos_block m.old.world).world }
    ensures refused { OnErr result (m.new ≡ m.old) }
{
    match segment_of_selector(m, low_half(m.regs().edx)) {
        Some(segment) => dos_free(m, segment, true),
        None => Err(DosRefusal::WrongBlock),
    }
}

// Function 0102h: the block of DX gets BX paragraphs, and the descriptors of as many.
#[tactic(auto, unfolding(crate::specs::Services::resize_dos_block))]
fn resize_dos_block(m: &mut Machine) -> Result<(), DosRefusal>
    requires { m.old.world.width ≢ None }
    ensures answer { result ≡ (resize_dos_block m.old.world).answer }
    ensures world { m.new.world ≡ (resize_dos_block m.old.world).world }
    ensures refused { OnErr result (m.new ≡ m.old) }
{
    m.soundness();
    let n = low_half(m.regs().ebx);
    let sel = low_half(m.regs().edx);
    let Some(segment) = segment_of_selector(m, sel) else {
        return Err(DosRefusal::WrongBlock);
    };
    let Some(place) = place_of_block(m, true, segment) else {
        return Err(DosRefusal::WrongBlock);
    };
    let entry = m.arena(place);
    let possible = entry.paras + room_after(m, place);
    let run = DosRun {
        seg: entry.at + 1,
        first: index_of(sel),
        before: entry.paras,
        after: n,
    };
    if n == 0 || n > possible || !has_room_to_grow(m, run) {
        return Err(DosRefusal::NoMemory { largest: possible });
    }
    dos_resize(m, segment, n, true)
}

// Reports what a service did: a refusal by its number in AX, and in BX the most paragraphs that there could be.
#[tactic(auto, unfolding(crate::specs::Services::served_result))]
fn report(m: &mut Machine, done: Result<(), DosRefusal>) -> Carry
    ensures answer { record { carry = result; world = m.new.world } ≡ served_result (record { answer = done; world = m.old.world }) }
    ensures bytes { m.new.bytes ≡ m.old.bytes }
    ensures clear { OnOk done (result ≡ Clear) }
{
    match done {
        Ok(()) => Carry::Clear,
        Err(DosRefusal::NoMemory { largest }) => {
            set_bx(m, largest);
            set_ax(m, NO_MEMORY);
            Carry::Set
        }
        Err(DosRefusal::WrongBlock) => {
            set_ax(m, WRONG_BLOCK);
            Carry::Set
        }
    }
}

/// Serves a function of INT 31h on DOS memory, for a client in protected mode. Where it refuses, AX is 8 or 9, with 8 BX the most
/// paragraphs that there could be, and no byte of the memory changes. A number that isn't one of these sets the carry and changes nothing.
/// Source: DPMI 0.9, INT 31h functions 0100h to 0102h.
#[tactic(auto, using(service_rows::proofs::WidthLaws::protected_width), unfolding(crate::specs::Services::dos_service))]
pub fn serve(m: &mut Machine, ax: u16) -> Carry
    requires { m.old.world.mode ≡ protected }
    ensures does { record { carry = result; world = m.new.world } ≡ dos_service ax m.old.world }
    ensures refused { result ≡ Set → m.new.bytes ≡ m.old.bytes }
{
    m.soundness();
    match ax {
        0x0100 => {
            let done = allocate_dos_block(m);
            report(m, done)
        }
        0x0101 => {
            let done = free_dos_block(m);
            report(m, done)
        }
        0x0102 => {
            let done = resize_dos_block(m);
            report(m, done)
        }
        _ => Carry::Set,
    }
}
