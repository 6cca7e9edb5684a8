// Pages of the block region that no memory block has, and handles that none has.
ghost use Rattle.std.specs.Prelude.{◌≡◌, ◌≤◌, ◌<◌, ◌+◌, ◌*◌, ◌%◌, ◌^◌, ℕ, min, IfSome, MatchResult, None, Some};
ghost use Rattle.client_world.specs.{declared.host_frames.TheConstants.{PAGE_SIZE}, declared.limits.TheConstants.{MAX_BLOCKS, MAX_PAGES}};
ghost use Rattle.client_world.specs.declared.memory_map.TheConstants.{BLOCK_REGION, BLOCK_REGION_END, BLOCK_REGION_PAGES};
ghost use Rattle.client_world.specs.{Soundness.{pages_of_block}, World.{block_at, base_of_block}};
ghost use Rattle.block_memory.specs.BlockSizes.{row_seen};
ghost use Rattle.service_rows.specs.declared.refusal.Refusal.TheVariants.{LinearMemoryUnavailable as no_gap};
ghost use Rattle.service_rows.specs.declared.refusal.Refusal.TheVariants.{HandleUnavailable as no_handle};
ghost use Rattle.block_services.specs.{Free.{largest_new_block}, Gaps.{block_in_way, first_gap, is_gap, is_in_way, lowest_handle}};
ghost use Rattle.block_services.specs.Gaps.{overlaps, page_address};

use crate::spans::spans_by_address;
use client_world::BlockRow;
use client_world::host_frames::PAGE_SIZE;
use client_world::limits::MAX_BLOCKS;
use client_world::memory_map::{BLOCK_REGION, BLOCK_REGION_END, BLOCK_REGION_PAGES};
use guest_space::Machine;
use service_rows::Refusal;

/// The linear address of the memory block of a handle and its number of pages, all in the block region.
pub(crate) fn row_of(m: &Machine, handle: u32) -> Option<BlockRow>
    ensures row { result ≡ row_seen (block_at m.now.world.blocks handle) }
    ensures from { IfSome result (λ row. BLOCK_REGION ≤ row.base) }
    ensures whole { IfSome result (λ row. row.base % PAGE_SIZE ≡ 0) }
    ensures to { IfSome result (λ row. row.base + PAGE_SIZE * row.pages ≤ BLOCK_REGION_END) }
    ensures handle { IfSome result (λ row. handle ≤ MAX_BLOCKS) }
    ensures base { IfSome result (λ row. row.base ≡ base_of_block (block_at m.now.world.blocks handle)) }
    ensures pages { IfSome result (λ row. row.pages ≡ pages_of_block (block_at m.now.world.blocks handle)) }
{
    m.soundness();
    if handle > MAX_BLOCKS {
        return None;
    }
    m.block(handle as u16)
}

// Whether a block overlaps a run of pages from an address.
fn overlaps(row: Option<BlockRow>, base: u32, pages: u32) -> bool
    requires row { IfSome row (λ row. row.base + PAGE_SIZE * row.pages ≤ BLOCK_REGION_END) }
    requires run { base + PAGE_SIZE * pages < 2 ^ 32 }
    ensures { result ≡ overlaps row base pages }
{
    match row {
        Some(row) => row.base < base + PAGE_SIZE * pages && base < row.base + PAGE_SIZE * row.pages,
        None => false,
    }
}

// Whether the block of a handle other than `own` overlaps a run of pages.
fn is_in_way(m: &Machine, own: u32, base: u32, pages: u32, handle: u32) -> bool
    requires run { base + PAGE_SIZE * pages < 2 ^ 32 }
    ensures { result ≡ is_in_way m.now.world.blocks own base pages handle }
{
    handle != own && overlaps(row_of(m, handle), base, pages)
}

/// The lowest handle of such a block.
fn block_in_way(m: &Machine, own: u32, base: u32, pages: u32) -> Option<u32>
    requires run { base + PAGE_SIZE * pages < 2 ^ 32 }
    ensures { result ≡ block_in_way m.now.world.blocks own base pages }
{
    for handle in 1..MAX_BLOCKS + 1 {
        if is_in_way(m, own, base, pages, handle) {
            return Some(handle);
        }
    }
    None
}

/// Whether a run of pages is free but for the block of handle `own`.
#[tactic(auto, unfolding(crate::specs::Gaps::is_gap))]
pub(crate) fn is_gap(m: &Machine, own: u32, base: u32, pages: u32) -> bool
    requires run { base + PAGE_SIZE * pages < 2 ^ 32 }
    ensures { result ≡ is_gap m.now.world.blocks own base pages }
{
    base + PAGE_SIZE * pages <= BLOCK_REGION_END && block_in_way(m, own, base, pages).is_none()
}

/// The linear address of a page of the block region.
pub(crate) fn page_address(page: u32) -> u32
    requires { page ≤ BLOCK_REGION_PAGES }
    ensures { result ≡ page_address page }
{
    BLOCK_REGION + PAGE_SIZE * page
}

/// The first page of the block region from which that many pages belong to no block, or `LinearMemoryUnavailable` where there is none.
pub(crate) fn first_gap(m: &Machine, pages: u32) -> Result<u32, Refusal>
    requires some { 0 < pages }
    requires few { pages ≤ BLOCK_REGION_PAGES + MAX_PAGES }
    ensures { MatchResult result
        (λ page. (first_gap m.now.world.blocks pages ≡ Some page) × (page < BLOCK_REGION_PAGES))
        (λ refusal. (first_gap m.now.world.blocks pages ≡ None) × (refusal ≡ no_gap)) }
{
    m.soundness();
    let sorted = spans_by_address(m);
    let spans = sorted.as_slice();
    let mut page = 0;
    for span in spans {
        if page + pages <= span.first {
            return Ok(page);
        }
        page = page.max(span.after);
    }
    if page + pages <= BLOCK_REGION_PAGES {
        return Ok(page);
    }
    Err(Refusal::LinearMemoryUnavailable)
}

/// The greatest number of pages in a row that belong to no block. A new block of up to as many finds a place, and no larger one.
pub(crate) fn widest_gap(m: &Machine) -> u32
    ensures { (most : ℕ) → largest_new_block m.now.world.blocks most ≡ min most result }
{
    m.soundness();
    let sorted = spans_by_address(m);
    let spans = sorted.as_slice();
    let mut page = 0;
    let mut widest: u32 = 0;
    for span in spans {
        widest = widest.max(span.first.saturating_sub(page));
        page = page.max(span.after);
    }
    widest.max(BLOCK_REGION_PAGES - page)
}

/// The lowest handle that isn't held.
pub(crate) fn lowest_handle(m: &Machine) -> Result<u16, Refusal>
    ensures { MatchResult result
        (λ handle. (lowest_handle m.now.world.blocks ≡ Some handle) × (0 < handle) × (handle ≤ MAX_BLOCKS)
        × (block_at m.now.world.blocks handle ≡ None))
        (λ refusal. (lowest_handle m.now.world.blocks ≡ None) × (refusal ≡ no_handle)) }
{
    for handle in 1..MAX_BLOCKS as u16 + 1 {
        if m.block(handle).is_none() {
            return Ok(handle);
        }
    }
    Err(Refusal::HandleUnavailable)
}
