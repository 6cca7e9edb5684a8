// The rows of the blocks, and the pages of the block region.
ghost use Rattle.std.specs.Prelude.{◌≡◌, ◌≤◌, ◌<◌, ◌+◌, ◌-◌, ◌*◌, ◌/◌, length};
ghost use Rattle.client_world.specs.declared.host_frames.TheConstants.{PAGE_SIZE, BUDGET_FRAMES, BLOCK_ROWS};
ghost use Rattle.client_world.specs.{declared.limits.TheConstants.{MAX_BLOCKS}, declared.memory_map.TheConstants.{BLOCK_REGION}};
ghost use Rattle.client_world.specs.declared.memory_map.TheConstants.{BLOCK_REGION_END, BLOCK_REGION_PAGES};
ghost use Rattle.guest_ram.specs.Bytes.{put, dword_bytes};

use client_world::host_frames::{BLOCK_ROW_SIZE, BLOCK_ROWS, PAGE_SIZE};
use client_world::memory_map::BLOCK_REGION;
use guest_ram::Ram;

/// Writes the row of a block, by its handle less 1: its linear address and its number of pages. Source: own.
pub(crate) fn set_block_row(ram: &mut Ram, place: u32, base: u32, pages: u32)
    requires size { PAGE_SIZE * BUDGET_FRAMES ≤ length ram.old }
    requires place { place < MAX_BLOCKS }
    ensures { ram.new ≡ put (put ram.old (PAGE_SIZE * BLOCK_ROWS + BLOCK_ROW_SIZE * place) (dword_bytes base))
        (PAGE_SIZE * BLOCK_ROWS + BLOCK_ROW_SIZE * place + 4) (dword_bytes pages) }
{
    let row = PAGE_SIZE * BLOCK_ROWS + BLOCK_ROW_SIZE * place;
    ram.set32(row, base);
    ram.set32(row + 4, pages);
}

/// The page of a linear address of the block region, counted from the region's start. Source: own.
pub fn region_page(lin: u32) -> u32
    requires from { BLOCK_REGION ≤ lin }
    requires to { lin < BLOCK_REGION_END }
    ensures page { result ≡ (lin - BLOCK_REGION) / PAGE_SIZE }
    ensures few { result < BLOCK_REGION_PAGES }
{
    (lin - BLOCK_REGION) / PAGE_SIZE
}
