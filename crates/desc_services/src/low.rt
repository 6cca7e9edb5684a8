// Descriptors of chosen indices, and the step between selectors.
ghost use Rattle.std.specs.Prelude.{◌≢◌, None};
ghost use Rattle.service_rows.specs.Reasons.{Does};
ghost use Rattle.desc_services.specs.Rows.{allocate_specific, selector_increment};

use crate::selector::put;
use client_world::selectors::{SELECTOR_STEP, index_of, is_local};
use client_world::{Origin, low_half};
use guest_space::Machine;
use service_rows::{Refusal, data_at, set_ax};

// The greatest index that a client may choose.
const LAST_LOW: u16 = 15;

/// Function 0003h: the difference between the selectors of a run.
#[tactic(auto, unfolding(crate::specs::Rows::selector_increment))]
pub(crate) fn selector_increment(m: &mut Machine) -> Result<(), Refusal>
    ensures { Does (selector_increment m.old.world) result m.old m.new }
{
    set_ax(m, SELECTOR_STEP);
    Ok(())
}

/// Function 000Dh: BX becomes a fresh descriptor.
#[tactic(auto, unfolding(crate::specs::Rows::allocate_specific))]
pub(crate) fn allocate_specific(m: &mut Machine) -> Result<(), Refusal>
    requires { m.old.world.width ≢ None }
    ensures { Does (allocate_specific m.old.world) result m.old m.new }
{
    let sel = low_half(m.regs().ebx);
    if !is_local(sel) || index_of(sel) > LAST_LOW {
        return Err(Refusal::InvalidSelector);
    }
    if m.desc_of(sel).is_some() {
        return Err(Refusal::DescriptorUnavailable);
    }
    m.soundness();
    put(m, index_of(sel), Some((data_at(0, 0), Origin::Low)));
    Ok(())
}
