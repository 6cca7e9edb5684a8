// Descriptors that a client frees.
ghost use Rattle.std.specs.Prelude.{◌≡◌};
ghost use Rattle.service_rows.specs.Reasons.{Does};
ghost use Rattle.desc_services.specs.Rows.{free_descriptor, is_freeable_origin};

use crate::selector::put;
use client_world::selectors::index_of;
use client_world::{Origin, low_half};
use guest_space::Machine;
use service_rows::Refusal;

// Whether a client may free descriptors of this origin.
fn is_freeable_origin(origin: Origin) -> bool
    ensures { result ≡ is_freeable_origin origin }
{
    match origin {
        Origin::Own | Origin::Low | Origin::Entry => true,
        Origin::Psp | Origin::Segment(_) | Origin::Dos(_) | Origin::Host => false,
    }
}

/// Function 0001h: frees BX.
#[tactic(auto, unfolding(crate::specs::Rows::free_descriptor))]
pub(crate) fn free_descriptor(m: &mut Machine) -> Result<(), Refusal>
    ensures { Does (free_descriptor m.old.world) result m.old m.new }
{
    let sel = low_half(m.regs().ebx);
    match m.desc_of(sel) {
        Some((_, origin)) if is_freeable_origin(origin) => {
            m.soundness();
            put(m, index_of(sel), None);
            Ok(())
        }
        _ => Err(Refusal::InvalidSelector),
    }
}
