// The blocks of DOS memory with which a client starts.
ghost use Rattle.std.specs.Prelude.{◌≡◌, ◌≤◌};
ghost use Rattle.guest_space.specs.Arena.{with_entries};
ghost use Rattle.host_memory.specs.Blank.{blank_world};
ghost use Rattle.mz_loader.specs.{Header.{most_paras}, Start.{start_blocks}};

use crate::header::MOST_PARAS;
use arrayvec::ArrayVec;
use client_world::memory_map::{ARENA_END, ARENA_START, PSP_SEGMENT};
use client_world::{DosEntry, DosState};
use guest_space::Machine;

/// The segment of the environment.
pub(crate) const ENVIRONMENT_SEGMENT: u16 = ARENA_START as u16 + 1;

// The paragraphs of the environment's block.
const ENVIRONMENT_PARAS: u16 = 2;

// The blocks: the environment, the program with n paragraphs, and what is left.
fn start_blocks(paras: u16) -> ArrayVec<DosEntry, 3>
    requires { paras ≤ most_paras }
    ensures { result.items ≡ start_blocks paras }
{
    let mut blocks = ArrayVec::new();
    blocks.push(DosEntry {
        at: ARENA_START as u16,
        paras: ENVIRONMENT_PARAS,
        state: DosState::Used,
    });
    blocks.push(DosEntry {
        at: PSP_SEGMENT - 1,
        paras,
        state: DosState::Used,
    });
    if paras as u32 != MOST_PARAS {
        blocks.push(DosEntry {
            at: PSP_SEGMENT + paras,
            paras: ARENA_END as u16 - PSP_SEGMENT - paras - 1,
            state: DosState::Free,
        });
    }
    blocks
}

/// Makes these blocks in a machine whose DOS memory is free.
#[tactic(auto, unfolding(host_memory::specs::Blank::blank_world))]
pub(crate) fn make_blocks(m: &mut Machine, paras: u16)
    requires few { paras ≤ most_paras }
    requires blank { m.old.world ≡ blank_world m.old.world.budget }
    ensures { m.new.world ≡ with_entries m.old.world 0 1 (start_blocks paras) }
{
    let blocks = start_blocks(paras);
    m.arena_put(0, 1, &blocks);
}
