// A block is given.
ghost use Rattle.std.specs.Prelude.{◌≡◌, ◌≤◌, ◌+◌, true, OnErr};
ghost use Rattle.client_world.specs.declared.memory_map.TheConstants.{ARENA_END};
ghost use Rattle.dos_blocks.specs.Blocks.{CanAllocate, block_state, split, allocation_result};

use crate::finding::{first_fit, largest};
use crate::putting::{new_descriptor, put_block};
use arrayvec::ArrayVec;
use client_world::{DosEntry, DosRefusal, DosRun, DosState};
use guest_space::Machine;

// The state of a block that a DOS call makes, or INT 31h function 0100h.
fn block_state(for_dpmi: bool) -> DosState
    ensures { result ≡ block_state for_dpmi }
{
    if for_dpmi {
        DosState::Dpmi
    } else {
        DosState::Used
    }
}

/// A block of n paragraphs at the start of a free entry, and the rest, less a header, as a free entry, where there is a rest.
pub(crate) fn split(for_dpmi: bool, at: u16, n: u16, paras: u16) -> ArrayVec<DosEntry, 3>
    requires fits { n ≤ paras }
    requires room { at + 1 + paras ≤ ARENA_END }
    ensures { result.items ≡ split (block_state for_dpmi) at n paras }
{
    let mut entries = ArrayVec::new();
    entries.push(DosEntry {
        at,
        paras: n,
        state: block_state(for_dpmi),
    });
    if n != paras {
        entries.push(DosEntry {
            at: at + n + 1,
            paras: paras - n - 1,
            state: DosState::Free,
        });
    }
    entries
}

/// Allocates a block of `paras` paragraphs and returns its segment, or `NoMemory` with the largest free size where no entry has room; then
/// nothing changes. With `for_dpmi` the block gets descriptors too, in the first free run. Source: MS-DOS Programmer's Reference, function
/// 48h; DPMI 0.9, INT 31h function 0100h.
#[tactic(auto, unfolding(crate::specs::Blocks::allocation_result))]
pub fn dos_alloc(m: &mut Machine, paras: u16, for_dpmi: bool) -> Result<u16, DosRefusal>
    requires { for_dpmi ≡ true → CanAllocate m.old.world paras }
    ensures answer { result ≡ (allocation_result m.old.world for_dpmi paras).answer }
    ensures world { m.new.world ≡ (allocation_result m.old.world for_dpmi paras).world }
    ensures refused { OnErr result (m.new ≡ m.old) }
{
    m.soundness();
    let Some(place) = first_fit(m, paras) else {
        return Err(DosRefusal::NoMemory {
            largest: largest(m),
        });
    };
    let entry = m.arena(place);
    let run = DosRun {
        seg: entry.at + 1,
        first: new_descriptor(m, for_dpmi, paras),
        before: 0,
        after: paras,
    };
    let entries = split(for_dpmi, entry.at, paras, entry.paras);
    put_block(m, for_dpmi, place, 1, &entries, run);
    Ok(run.seg)
}
