// The bytes of an entry of DOS memory: in the frames of the list, and in its header.
ghost use Rattle.std.specs.Prelude.{◌≡◌};
ghost use Rattle.host_memory.specs.{DosList.{state_code, entry_bytes}, Headers.{owner_of, dos_header}};

use client_world::memory_map::PSP_SEGMENT;
use client_world::{DosEntry, DosState};

// The owner of a block of DOS memory, as its header names it.
fn owner(state: DosState) -> u16
    ensures { result ≡ owner_of state }
{
    match state {
        DosState::Free => 0,
        DosState::Used | DosState::Dpmi => PSP_SEGMENT,
    }
}

/// The sixteen bytes of an entry's header. Source: MS-DOS memory control blocks.
#[tactic(auto, unfolding(crate::specs::Headers::dos_header))]
pub fn header(letter: u8, entry: DosEntry) -> [u8; 16]
    ensures { result ≡ dos_header letter entry }
{
    let mut bytes = [0; 16];
    bytes[0] = letter;
    bytes[1..3].copy_from_slice(&owner(entry.state).to_le_bytes());
    bytes[3..5].copy_from_slice(&entry.paras.to_le_bytes());
    bytes
}

// The code of a state in the list of DOS memory.
fn code(state: DosState) -> u8
    ensures { result ≡ state_code state }
{
    match state {
        DosState::Free => 1,
        DosState::Used => 2,
        DosState::Dpmi => 3,
    }
}

/// The eight bytes of an entry in the list of DOS memory. Source: own.
pub fn listed_entry(entry: DosEntry) -> [u8; 8]
    ensures { result ≡ entry_bytes entry }
{
    let mut bytes = [0; 8];
    bytes[..2].copy_from_slice(&entry.at.to_le_bytes());
    bytes[2..4].copy_from_slice(&entry.paras.to_le_bytes());
    bytes[4] = code(entry.state);
    bytes
}
