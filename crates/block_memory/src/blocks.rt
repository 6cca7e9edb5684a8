// The memory blocks of a memory: pages added, removed and moved. Each call keeps all else that the memory holds.
ghost use Rattle.std.specs.Prelude.{◌≡◌, ◌≤◌, ◌+◌, ◌-◌, ℕ, None, Some, nat_eq, if◌then◌else◌};
ghost use Rattle.host_memory.specs.Holds.{Holds};
ghost use Rattle.block_memory.specs.BlockChanges.{CanHoldIn, CanMoveIn, CanSizeIn, HasBlockIn, HasPagesIn, ReplacesBlock, blocks_held};
ghost use Rattle.block_memory.specs.BlockSizes.{HasPages, at_base, block_with_zero_pages, longer, sized_block, shorter};

use crate::rows::set_block_row;
use crate::slides::slide;
use client_world::host_frames::{
    BLOCK_ROW_SIZE, BLOCK_ROWS, BLOCK_TABLES, LOCK_COUNT_SIZE, LOCK_COUNTS, PAGE_ENTRY_SIZE,
    PAGE_SIZE,
};
use client_world::memory_map::BLOCK_REGION;
use guest_ram::Ram;
use page_tables::{give_frame, map, take_frame, unmap};

// The linear address in the row of a block of that many pages, 0 where there are none.
fn base_of_pages(base: u32, pages: u32) -> u32
    ensures { result ≡ (if nat_eq pages 0 then 0 else base) }
{
    if pages == 0 { 0 } else { base }
}

// Adds a page after the n pages of a block: zero, with lock count 0.
fn grow_page(ram: &mut Ram, place: u32, base: u32, n: u32)
    requires room { CanHoldIn ram.old place base n (n + 1) }
    ensures { ReplacesBlock ram.old ram.new place (λ block. Some (longer base block 1)) }
{
    match take_frame(ram) {
        Some(frame) => {
            ram.fill(PAGE_SIZE * frame, PAGE_SIZE, 0);
            map(ram, base + PAGE_SIZE * n, frame, true);
            set_block_row(ram, place, base, n + 1);
        }
        None => unreachable!(),
    }
}

// Removes the last page of a block of n + 1 pages, with its lock count.
fn drop_page(ram: &mut Ram, place: u32, base: u32, n: u32)
    requires pages { HasPagesIn ram.old place base (n + 1) }
    ensures { ReplacesBlock ram.old ram.new place (λ block. shorter block n) }
{
    let frame = unmap(ram, base + PAGE_SIZE * n);
    give_frame(ram, frame);
    let page = (base - BLOCK_REGION) / PAGE_SIZE + n;
    ram.set16(PAGE_SIZE * LOCK_COUNTS + LOCK_COUNT_SIZE * page, 0);
    set_block_row(ram, place, base_of_pages(base, n), n);
}

/// Adds zero pages with lock count 0 after those of a block, by its handle less 1, or makes one where there is none, until it has `to`
/// pages. Source: own.
pub fn extend_block(ram: &mut Ram, place: u32, base: u32, from: u32, to: u32)
    requires order { from ≤ to }
    requires room { CanHoldIn ram.old place base from to }
    ensures { ReplacesBlock ram.old ram.new place (λ block. block_with_zero_pages base block (to - from)) }
{
    for n in from..to {
        grow_page(ram, place, base, n);
    }
}

// Removes the last pages of a block, with their lock counts, until it has `to` pages.
fn cut_block(ram: &mut Ram, place: u32, base: u32, from: u32, to: u32)
    requires order { to ≤ from }
    requires pages { HasPagesIn ram.old place base from }
    ensures block { ReplacesBlock ram.old ram.new place (λ block. shorter block to) }
    ensures pages { HasPagesIn ram.new place base to }
{
    for gone in 0..from - to {
        drop_page(ram, place, base, from - 1 - gone);
    }
}

// Moves a block of n pages to a linear address, its own or another one. Its bytes stay in their frames; its lock counts move with it.
fn move_block(ram: &mut Ram, place: u32, from: u32, base: u32, n: u32)
    requires room { CanMoveIn ram.old place from base n }
    ensures { ReplacesBlock ram.old ram.new place (λ block. at_base base block) }
{
    if from == base {
        return;
    }
    let first = (from - BLOCK_REGION) / PAGE_SIZE;
    let last = (base - BLOCK_REGION) / PAGE_SIZE;
    slide(
        ram,
        PAGE_SIZE * BLOCK_TABLES + PAGE_ENTRY_SIZE * first,
        PAGE_SIZE * BLOCK_TABLES + PAGE_ENTRY_SIZE * last,
        PAGE_ENTRY_SIZE * n,
    );
    slide(
        ram,
        PAGE_SIZE * LOCK_COUNTS + LOCK_COUNT_SIZE * first,
        PAGE_SIZE * LOCK_COUNTS + LOCK_COUNT_SIZE * last,
        LOCK_COUNT_SIZE * n,
    );
    set_block_row(ram, place, base, n);
}

/// The linear address and the number of pages of a block, by its handle less 1. Source: own.
pub fn block_row(ram: &Ram, place: u32) -> (u32, u32)
    requires { HasBlockIn ram.now place }
    ensures { (budget : ℕ) → Holds ram.now budget → HasPages (blocks_held ram.now budget) place result.0 result.1 }
{
    let row = PAGE_SIZE * BLOCK_ROWS + BLOCK_ROW_SIZE * place;
    (ram.get32(row), ram.get32(row + 4))
}

/// Frees a block, by its handle less 1. Source: own.
pub fn drop_block(ram: &mut Ram, place: u32)
    requires { HasBlockIn ram.old place }
    ensures { ReplacesBlock ram.old ram.new place (λ block. None) }
{
    let (base, pages) = block_row(ram, place);
    cut_block(ram, place, base, pages, 0);
}

/// Gives a block, by its handle less 1, that linear address and that many pages. The pages that it keeps keep their contents and lock
/// counts; further pages are 0 and not locked. Source: own.
pub fn resize_block(ram: &mut Ram, place: u32, base: u32, pages: u32)
    requires { CanSizeIn ram.old place base pages }
    ensures { ReplacesBlock ram.old ram.new place (λ block. sized_block base pages block) }
{
    let (from, old) = block_row(ram, place);
    let kept = old.min(pages);
    cut_block(ram, place, from, old, kept);
    move_block(ram, place, from, base, kept);
    extend_block(ram, place, base, kept, pages);
}
