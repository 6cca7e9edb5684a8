// Descriptors of real segments.
ghost use Rattle.std.specs.Prelude.{◌≡◌, ◌≢◌, ◌<◌, IfSome, None};
ghost use Rattle.client_world.specs.declared.host_frames.TheConstants.{DESCRIPTORS};
ghost use Rattle.service_rows.specs.Reasons.{Does};
ghost use Rattle.desc_services.specs.Rows.{is_segment_origin, is_segment_row, segment_to_descriptor, segment_index};

use crate::runs::first_free;
use crate::selector::put;
use client_world::host_frames::DESCRIPTORS;
use client_world::memory_map::PARAGRAPH_SIZE;
use client_world::selectors::selector_of;
use client_world::{Desc, Origin, low_half};
use guest_space::Machine;
use service_rows::{Refusal, data_at, set_ax};

// Whether a descriptor of this origin is a real segment's.
fn is_segment_origin(origin: Origin, segment: u16) -> bool
    ensures { result ≡ is_segment_origin origin segment }
{
    match origin {
        Origin::Segment(own) => own == segment,
        Origin::Own | Origin::Low | Origin::Entry | Origin::Psp | Origin::Dos(_) | Origin::Host =>
            false,
    }
}

// Whether a row is a real segment's.
fn is_segment_row(row: Option<(Desc, Origin)>, segment: u16) -> bool
    ensures { result ≡ is_segment_row row segment }
{
    match row {
        Some((_, origin)) => is_segment_origin(origin, segment),
        None => false,
    }
}

// The index at which a real segment has its descriptor.
fn segment_index(m: &Machine, segment: u16) -> Option<u16>
    ensures index { result ≡ segment_index m.now.world.descriptors segment }
    ensures below { IfSome result (λ index. index < DESCRIPTORS) }
{
    for index in 0..DESCRIPTORS as u16 {
        if is_segment_row(m.desc(index), segment) {
            return Some(index);
        }
    }
    None
}

/// Function 0002h: AX is the selector of segment BX.
#[tactic(auto, unfolding(crate::specs::Rows::segment_to_descriptor))]
pub(crate) fn segment_to_descriptor(m: &mut Machine) -> Result<(), Refusal>
    requires { m.old.world.width ≢ None }
    ensures { Does (segment_to_descriptor m.old.world) result m.old m.new }
{
    let segment = low_half(m.regs().ebx);
    let index = match segment_index(m, segment) {
        Some(index) => index,
        None => {
            let first = first_free(m, 1)?;
            m.soundness();
            let d = data_at(u32::from(segment) * PARAGRAPH_SIZE, 0xFFFF);
            put(m, first, Some((d, Origin::Segment(segment))));
            first
        }
    };
    set_ax(m, selector_of(index));
    Ok(())
}
