// A block is freed.
ghost use Rattle.std.specs.Prelude.{◌≡◌, ◌≢◌, ◌<◌, [], ◌∷◌, true, None, OnErr, length};
ghost use Rattle.dos_blocks.specs.Blocks.{free_result, joined_entry};

use crate::finding::place_of_block;
use crate::neighbours::{free_before, free_entries_after, room_after, room_before};
use crate::putting::{first_descriptor, put_block};
use arrayvec::ArrayVec;
use client_world::{DosEntry, DosRefusal, DosRun, DosState};
use guest_space::Machine;

/// One entry.
pub(crate) fn one(entry: DosEntry) -> ArrayVec<DosEntry, 3>
    ensures { result.items ≡ entry ∷ [] }
{
    let mut entries = ArrayVec::new();
    entries.push(entry);
    entries
}

/// The block at a place and the free entries beside it as one free entry.
pub(crate) fn joined_entry(m: &Machine, place: u16) -> DosEntry
    requires { place < length m.now.world.arena }
    ensures { result ≡ joined_entry m.now.world.arena place }
{
    m.soundness();
    let entry = m.arena(place);
    let room = room_before(m, place);
    DosEntry {
        at: entry.at - room,
        paras: room + (entry.paras + room_after(m, place)),
        state: DosState::Free,
    }
}

/// Frees the block at a segment, and with `for_dpmi` its descriptors. `WrongBlock` where no block of that kind starts there; then nothing
/// changes. Source: MS-DOS Programmer's Reference, function 49h; DPMI 0.9, INT 31h function 0101h.
#[tactic(auto, unfolding(crate::specs::Blocks::free_result))]
pub fn dos_free(m: &mut Machine, seg: u16, for_dpmi: bool) -> Result<(), DosRefusal>
    requires { for_dpmi ≡ true → m.old.world.width ≢ None }
    ensures answer { result ≡ (free_result m.old.world for_dpmi seg).answer }
    ensures world { m.new.world ≡ (free_result m.old.world for_dpmi seg).world }
    ensures refused { OnErr result (m.new ≡ m.old) }
{
    m.soundness();
    let Some(place) = place_of_block(m, for_dpmi, seg) else {
        return Err(DosRefusal::WrongBlock);
    };
    let entry = m.arena(place);
    let run = DosRun {
        seg: entry.at + 1,
        first: first_descriptor(m, for_dpmi, seg),
        before: entry.paras,
        after: 0,
    };
    let before = free_before(m, place);
    let old = before + (1 + free_entries_after(m, place));
    let entries = one(joined_entry(m, place));
    put_block(m, for_dpmi, place - before, old, &entries, run);
    Ok(())
}
