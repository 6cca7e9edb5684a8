// The pages of the memory blocks in the order of their addresses: a search for free pages asks each handle once, and then goes through
// these.
ghost use Rattle.std.specs.{Prelude.{◌≡◌, ◌≤◌, ◌<◌, ◌+◌, ◌*◌, ◌++◌, IfSome, IsPermutation}, List.Sorted.{IsNonDecreasingBy}};
ghost use Rattle.arrayvec.specs.ArrayVec.{array_vec_len};
ghost use Rattle.client_world.specs.{declared.host_frames.TheConstants.{PAGE_SIZE}, declared.limits.TheConstants.{MAX_BLOCKS}};
ghost use Rattle.client_world.specs.declared.memory_map.TheConstants.{BLOCK_REGION_END};
ghost use Rattle.block_services.specs.Spans.{held_spans, span_of, spans_of_row};

use crate::gaps::row_of;
use arrayvec::ArrayVec;
use client_world::BlockRow;
use client_world::host_frames::PAGE_SIZE;
use client_world::limits::MAX_BLOCKS;
use client_world::memory_map::BLOCK_REGION;
use guest_space::Machine;

/// The pages of a memory block, counted from the start of the block region.
#[derive(Clone, Copy, Default)]
pub(crate) struct Span {
    /// The first of them.
    pub(crate) first: u32,
    /// The one after the last of them.
    pub(crate) after: u32,
}

/// As many as there are handles.
pub(crate) const MOST_SPANS: usize = MAX_BLOCKS as usize;

// The pages of a block.
fn span_of(row: BlockRow) -> Span
    requires { row.base + PAGE_SIZE * row.pages ≤ BLOCK_REGION_END }
    ensures { result ≡ span_of row }
{
    let first = row.base.saturating_sub(BLOCK_REGION) / PAGE_SIZE;
    Span {
        first,
        after: first + row.pages,
    }
}

// Adds the pages of a handle's block, if there is one.
fn add_span(spans: &mut ArrayVec<Span, MOST_SPANS>, row: Option<BlockRow>)
    requires room { array_vec_len spans.old < MAX_BLOCKS }
    requires row { IfSome row (λ row. row.base + PAGE_SIZE * row.pages ≤ BLOCK_REGION_END) }
    ensures { spans.new.items ≡ spans.old.items ++ spans_of_row row }
{
    match row {
        Some(row) => spans.push(span_of(row)),
        None => {}
    }
}

// The pages of the held blocks, in the order of their handles.
fn held_spans(m: &Machine) -> ArrayVec<Span, MOST_SPANS>
    ensures { result.items ≡ held_spans m.now.world.blocks MAX_BLOCKS }
{
    let mut spans = ArrayVec::new();
    for place in 0..MAX_BLOCKS {
        add_span(&mut spans, row_of(m, place + 1));
    }
    spans
}

/// The pages of the held blocks, in the order of their addresses.
pub(crate) fn spans_by_address(m: &Machine) -> ArrayVec<Span, MOST_SPANS>
    ensures held { IsPermutation (held_spans m.now.world.blocks MAX_BLOCKS) result.items }
    ensures ascending { IsNonDecreasingBy (λ span. span.first) result.items }
{
    let mut spans = held_spans(m);
    spans.sort_unstable_by_key(|span| span.first);
    spans
}
