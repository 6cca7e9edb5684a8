// The block whose first descriptor a selector names, and runs of descriptors that are free.
ghost use Rattle.std.specs.Prelude.{◌≡◌, ◌<◌};
ghost use Rattle.client_world.specs.{declared.host_frames.TheConstants.{DESCRIPTORS}, Selector.{row_at_index}};
ghost use Rattle.service_rows.specs.FreeRun.{is_free_run};
ghost use Rattle.dos_blocks.specs.Blocks.{descriptor_of_block, has_room_to_grow, is_of_segment, segment_of_origin, segment_of_row};
ghost use Rattle.dos_blocks.specs.Services.{segment_of_selector};

use client_world::host_frames::DESCRIPTORS;
use client_world::selectors::{index_of, is_local};
use client_world::{Desc, DosRun, Origin};
use guest_space::{Machine, descriptors_for};

// The segment of the block to which descriptors of this origin belong.
fn segment_of_origin(origin: Origin) -> Option<u16>
    ensures { result ≡ segment_of_origin origin }
{
    match origin {
        Origin::Dos(segment) => Some(segment),
        Origin::Own
        | Origin::Low
        | Origin::Entry
        | Origin::Psp
        | Origin::Segment(_)
        | Origin::Host => None,
    }
}

// The segment of the block to which a row belongs.
fn segment_of_row(row: Option<(Desc, Origin)>) -> Option<u16>
    ensures { result ≡ segment_of_row row }
{
    match row {
        Some((_, origin)) => segment_of_origin(origin),
        None => None,
    }
}

/// The segment of the block whose first descriptor a selector names.
#[tactic(auto, unfolding(crate::specs::Services::segment_of_selector))]
pub(crate) fn segment_of_selector(m: &Machine, sel: u16) -> Option<u16>
    ensures { result ≡ segment_of_selector m.now.world.descriptors sel }
{
    if !is_local(sel) {
        return None;
    }
    let index = index_of(sel);
    let segment = segment_of_row(m.desc(index))?;
    match segment_of_row(m.desc(index.saturating_sub(1))) {
        Some(before) if before == segment => None,
        _ => Some(segment),
    }
}

// Whether the descriptor at an index belongs to the block at a segment.
fn is_of_block(m: &Machine, index: u16, segment: u16) -> bool
    requires { index < DESCRIPTORS }
    ensures { result ≡ is_of_segment (segment_of_row (row_at_index m.now.world.descriptors index)) segment }
{
    match segment_of_row(m.desc(index)) {
        Some(own) => own == segment,
        None => false,
    }
}

/// The index of the first descriptor of the block at a segment.
pub(crate) fn descriptor_of_block(m: &Machine, segment: u16) -> Option<u16>
    ensures { result ≡ descriptor_of_block m.now.world.descriptors segment }
{
    for index in 0..DESCRIPTORS as u16 {
        if is_of_block(m, index, segment) {
            return Some(index);
        }
    }
    None
}

/// Whether n indices from one on are in the table, and free.
pub(crate) fn is_free_run(m: &Machine, first: u32, n: u16) -> bool
    ensures { result ≡ is_free_run m.now.world.descriptors first n }
{
    if first > DESCRIPTORS || u32::from(n) > DESCRIPTORS - first {
        return false;
    }
    for place in 0..n {
        if m.desc(first as u16 + place).is_some() {
            return false;
        }
    }
    true
}

/// Whether the descriptors that a run adds are free.
pub(crate) fn has_room_to_grow(m: &Machine, run: DosRun) -> bool
    ensures { result ≡ has_room_to_grow m.now.world.descriptors run }
{
    let before = descriptors_for(run.before);
    let added = descriptors_for(run.after).saturating_sub(before);
    is_free_run(m, u32::from(run.first) + u32::from(before), added)
}
