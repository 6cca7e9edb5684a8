// A block is resized.
ghost use Rattle.std.specs.{Prelude.{◌≡◌, ◌≢◌, true, None, OnErr}, Bool.{OnTrue}};
ghost use Rattle.dos_blocks.specs.Blocks.{CanResize, resize_result};

use crate::allocating::split;
use crate::finding::place_of_block;
use crate::neighbours::{free_entries_after, room_after};
use crate::putting::{first_descriptor, put_block};
use crate::selectors::has_room_to_grow;
use client_world::{DosRefusal, DosRun};
use guest_space::Machine;

/// Whether `dos_resize` can be asked to give the block of INT 31h function 0100h at a segment that size: it isn't 0, and the descriptors
/// that the block would need besides are free. Source: own.
pub fn can_resize(m: &Machine, seg: u16, paras: u16) -> bool
    requires { m.now.world.width ≢ None }
    ensures { OnTrue result (CanResize m.now.world seg paras) }
{
    if paras == 0 {
        return false;
    }
    let Some(place) = place_of_block(m, true, seg) else {
        return true;
    };
    let entry = m.arena(place);
    let after = paras;
    let run = DosRun {
        seg: entry.at + 1,
        first: first_descriptor(m, true, seg),
        before: entry.paras,
        after,
    };
    has_room_to_grow(m, run)
}

/// Resizes the block at a segment to `paras` paragraphs in place, and with `for_dpmi` gives it the descriptors of that size. `WrongBlock`
/// where no block of that kind starts there, `NoMemory` with the largest size where it can't have that many; then nothing changes. Source:
/// MS-DOS Programmer's Reference, function 4Ah; DPMI 0.9, INT 31h function 0102h.
#[tactic(auto, unfolding(crate::specs::Blocks::resize_result))]
pub fn dos_resize(m: &mut Machine, seg: u16, paras: u16, for_dpmi: bool) -> Result<(), DosRefusal>
    requires { for_dpmi ≡ true → CanResize m.old.world seg paras }
    ensures answer { result ≡ (resize_result m.old.world for_dpmi seg paras).answer }
    ensures world { m.new.world ≡ (resize_result m.old.world for_dpmi seg paras).world }
    ensures refused { OnErr result (m.new ≡ m.old) }
{
    m.soundness();
    let Some(place) = place_of_block(m, for_dpmi, seg) else {
        return Err(DosRefusal::WrongBlock);
    };
    let entry = m.arena(place);
    let possible = entry.paras + room_after(m, place);
    if paras > possible {
        return Err(DosRefusal::NoMemory { largest: possible });
    }
    let run = DosRun {
        seg: entry.at + 1,
        first: first_descriptor(m, for_dpmi, seg),
        before: entry.paras,
        after: paras,
    };
    let old = 1 + free_entries_after(m, place);
    let entries = split(for_dpmi, entry.at, paras, possible);
    put_block(m, for_dpmi, place, old, &entries, run);
    Ok(())
}
