// The entries that are sought: a free one with room, the largest free one, and that of a block.
ghost use Rattle.std.specs.Prelude.{◌≡◌, max};
ghost use Rattle.client_world.specs.DosMemory.{is_free, IsArena};
ghost use Rattle.dos_blocks.specs.Blocks.{fits, first_fit, free_paras, largest, is_of_kind, starts_at, place_of_block};

use client_world::{DosEntry, DosState};
use guest_space::Machine;

/// Whether the state is that of a free entry.
pub(crate) fn is_free(state: DosState) -> bool
    ensures { result ≡ is_free state }
{
    match state {
        DosState::Free => true,
        DosState::Used | DosState::Dpmi => false,
    }
}

// Whether the state is that of a block of a DOS call, or of one of INT 31h function 0100h.
fn is_of_kind(for_dpmi: bool, state: DosState) -> bool
    ensures { result ≡ is_of_kind for_dpmi state }
{
    match state {
        DosState::Free => false,
        DosState::Used => !for_dpmi,
        DosState::Dpmi => for_dpmi,
    }
}

// Whether the entry is free and has n paragraphs.
fn fits(entry: DosEntry, n: u16) -> bool
    ensures { result ≡ fits entry n }
{
    is_free(entry.state) && n <= entry.paras
}

// Whether the block of that kind starts at the segment.
fn starts_at(for_dpmi: bool, entry: DosEntry, segment: u16) -> bool
    ensures { result ≡ starts_at for_dpmi entry segment }
{
    is_of_kind(for_dpmi, entry.state) && entry.at as u32 + 1 == segment as u32
}

// The larger of a number of paragraphs and that of a free entry.
fn larger(best: u16, entry: DosEntry) -> u16
    ensures { result ≡ max best (free_paras entry) }
{
    if is_free(entry.state) {
        best.max(entry.paras)
    } else {
        best
    }
}

/// The place of the first free entry with n paragraphs.
pub(crate) fn first_fit(m: &Machine, n: u16) -> Option<u16>
    ensures found { result ≡ first_fit m.now.world.arena n 0 }
    ensures sound { IsArena m.now.world.arena }
{
    for place in 0..m.arena_len() {
        if fits(m.arena(place), n) {
            return Some(place);
        }
    }
    None
}

/// The paragraphs of the largest free entry.
pub(crate) fn largest(m: &Machine) -> u16
    ensures { result ≡ largest m.now.world.arena }
{
    let mut best = 0;
    for place in 0..m.arena_len() {
        best = larger(best, m.arena(place));
    }
    best
}

/// The place of the block that starts at a segment.
pub(crate) fn place_of_block(m: &Machine, for_dpmi: bool, segment: u16) -> Option<u16>
    ensures found { result ≡ place_of_block for_dpmi m.now.world.arena segment 0 }
    ensures sound { IsArena m.now.world.arena }
{
    for place in 0..m.arena_len() {
        if starts_at(for_dpmi, m.arena(place), segment) {
            return Some(place);
        }
    }
    None
}
