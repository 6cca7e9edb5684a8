// The pages of all blocks, and those of them that are locked.
ghost use Rattle.std.specs.Prelude.{◌≡◌, ◌≤◌, ◌<◌, ◌+◌, ◌*◌, ℕ, length, nat_eq, if◌then◌else◌};
ghost use Rattle.client_world.specs.declared.host_frames.TheConstants.{PAGE_SIZE, BUDGET_FRAMES};
ghost use Rattle.client_world.specs.declared.limits.TheConstants.{MAX_BLOCKS, MAX_PAGES};
ghost use Rattle.client_world.specs.declared.memory_map.TheConstants.{BLOCK_REGION_PAGES};
ghost use Rattle.block_memory.specs.BlockSizes.{all_locked, locked_run};
ghost use Rattle.host_memory.specs.{Holds.{all_pages}, Layout.{handles_part, locks_part, pages_of, first_page_of}};

use client_world::host_frames::{
    BLOCK_ROW_SIZE, BLOCK_ROWS, LOCK_COUNT_SIZE, LOCK_COUNTS, PAGE_SIZE,
};
use client_world::limits::MAX_BLOCKS;
use client_world::memory_map::BLOCK_REGION;
use guest_ram::Ram;

/// The number of pages of all blocks, summed row by row. Source: own.
pub fn used_pages(ram: &Ram) -> u32
    requires size { PAGE_SIZE * BUDGET_FRAMES ≤ length ram.now }
    requires few { all_pages (handles_part ram.now) ≤ MAX_PAGES }
    ensures { result ≡ all_pages (handles_part ram.now) }
{
    let _size = ram.len();
    let mut used = 0;
    for place in 0..MAX_BLOCKS {
        used += ram.get32(PAGE_SIZE * BLOCK_ROWS + BLOCK_ROW_SIZE * place + 4);
    }
    used
}

// 1 where a page with that lock count is locked, else 0.
fn is_locked(count: u16) -> u32
    ensures { result ≡ (if nat_eq count 0 then 0 else 1) }
{
    u32::from(count != 0)
}

// The number of locked pages in a run of the block region.
fn locked_in(ram: &Ram, first: u32, pages: u32) -> u32
    requires size { PAGE_SIZE * BUDGET_FRAMES ≤ length ram.now }
    requires inside { first + pages ≤ BLOCK_REGION_PAGES }
    ensures { result ≡ locked_run (locks_part ram.now) first pages }
{
    let _size = ram.len();
    let mut count = 0;
    for page in 0..pages {
        count += is_locked(ram.get16(PAGE_SIZE * LOCK_COUNTS + LOCK_COUNT_SIZE * (first + page)));
    }
    count
}

/// The number of locked pages of all blocks, counted row by row. Source: own.
pub fn locked_pages(ram: &Ram) -> u32
    requires size { PAGE_SIZE * BUDGET_FRAMES ≤ length ram.now }
    requires few { all_pages (handles_part ram.now) ≤ MAX_PAGES }
    requires inside { (place : ℕ) → place < MAX_BLOCKS →
        first_page_of (handles_part ram.now) place + pages_of (handles_part ram.now) place ≤ BLOCK_REGION_PAGES }
    ensures { result ≡ all_locked (handles_part ram.now) (locks_part ram.now) }
{
    let _size = ram.len();
    let mut locked = 0;
    for place in 0..MAX_BLOCKS {
        let row = PAGE_SIZE * BLOCK_ROWS + BLOCK_ROW_SIZE * place;
        let base = ram.get32(row);
        let pages = ram.get32(row + 4);
        locked += locked_in(ram, base.saturating_sub(BLOCK_REGION) / PAGE_SIZE, pages);
    }
    locked
}
