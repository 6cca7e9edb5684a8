// What is free beside a block.
ghost use Rattle.std.specs.Prelude.{◌≡◌, ◌≤◌, ◌<◌, length};
ghost use Rattle.client_world.specs.declared.memory_map.TheConstants.{ARENA_END};
ghost use Rattle.dos_blocks.specs.Blocks.{entry_of_place, free_entries_after, room_after, free_before, room_before};

use crate::finding::is_free;
use client_world::{DosEntry, DosState};
use guest_space::Machine;

// The entry at a place, or one that isn't free where there is none.
#[tactic(auto, using(crate::proofs::Splicing::outside))]
fn entry_of_place(m: &Machine, place: u16) -> DosEntry
    ensures entry { result ≡ entry_of_place m.now.world.arena place }
    ensures small { result.paras ≤ ARENA_END }
{
    if place < m.arena_len() {
        m.arena(place)
    } else {
        DosEntry {
            at: 0,
            paras: 0,
            state: DosState::Used,
        }
    }
}

/// How many free entries follow a place, one at most.
pub(crate) fn free_entries_after(m: &Machine, place: u16) -> u16
    requires { place < length m.now.world.arena }
    ensures { result ≡ free_entries_after m.now.world.arena place }
{
    let _count = m.arena_len();
    if is_free(entry_of_place(m, place + 1).state) {
        1
    } else {
        0
    }
}

/// Their paragraphs, with the header's.
pub(crate) fn room_after(m: &Machine, place: u16) -> u16
    requires { place < length m.now.world.arena }
    ensures { result ≡ room_after m.now.world.arena place }
{
    let _count = m.arena_len();
    let entry = entry_of_place(m, place + 1);
    if is_free(entry.state) {
        1 + entry.paras
    } else {
        0
    }
}

/// How many free entries are before a place, one at most.
pub(crate) fn free_before(m: &Machine, place: u16) -> u16
    ensures { result ≡ free_before m.now.world.arena place }
{
    if place >= 1 && is_free(entry_of_place(m, place - 1).state) {
        1
    } else {
        0
    }
}

/// Their paragraphs, with the header's.
pub(crate) fn room_before(m: &Machine, place: u16) -> u16
    ensures { result ≡ room_before m.now.world.arena place }
{
    if place >= 1 && is_free(entry_of_place(m, place - 1).state) {
        1 + entry_of_place(m, place - 1).paras
    } else {
        0
    }
}
