// Descriptors at the first free indices.
ghost use Rattle.std.specs.Prelude.{◌≡◌, ◌≢◌, ◌≤◌, ◌<◌, ◌^◌, MatchResult, None, Some};
ghost use Rattle.client_world.specs.declared.descriptors.Origin.TheVariants.{Own as own};
ghost use Rattle.client_world.specs.{declared.host_frames.TheConstants.{FIRST_FREE_DESCRIPTOR}, FreeRuns.{IsFreeRunOf, IsFirstFreeRunOf}};
ghost use Rattle.service_rows.specs.{declared.refusal.Refusal.TheVariants.{DescriptorUnavailable as unavailable}, FreeRun.{first_free_run}};
ghost use Rattle.service_rows.specs.Reasons.{Does};
ghost use Rattle.desc_services.specs.Rows.{allocate_descriptors, create_alias, with_run};

use crate::selector::put;
use client_world::selectors::selector_of;
use client_world::{Desc, Origin, low_half};
use guest_space::Machine;
use service_rows::{Refusal, data_at, set_ax};

/// The first of n free indices, from 64 on, or `DescriptorUnavailable` where there is no such run.
pub(crate) fn first_free(m: &Machine, n: u16) -> Result<u16, Refusal>
    ensures { MatchResult result
        (λ first. (first_free_run m.now.world.descriptors n ≡ Some first) × (IsFirstFreeRunOf m.now.world.descriptors first n))
        (λ refusal. (first_free_run m.now.world.descriptors n ≡ None) × (refusal ≡ unavailable)) }
{
    match service_rows::first_free(m, n) {
        Some(first) => Ok(first),
        None => Err(Refusal::DescriptorUnavailable),
    }
}

/// Function 000Ah: AX is the selector of writable data over the code of BX.
#[tactic(auto, unfolding(crate::specs::Rows::create_alias))]
pub(crate) fn create_alias(m: &mut Machine) -> Result<(), Refusal>
    requires { m.old.world.width ≢ None }
    ensures { Does (create_alias m.old.world) result m.old m.new }
{
    let sel = low_half(m.regs().ebx);
    match m.desc_of(sel) {
        Some((d, _)) if d.kind.is_code() => {
            let first = first_free(m, 1)?;
            let mut alias = data_at(d.base, d.limit);
            alias.gran = d.gran;
            alias.size = d.size;
            m.soundness();
            put(m, first, Some((alias, Origin::Own)));
            set_ax(m, selector_of(first));
            Ok(())
        }
        _ => Err(Refusal::InvalidSelector),
    }
}

// Puts a row at n free indices.
fn put_run(m: &mut Machine, first: u16, n: u16, d: Desc)
    requires width { m.old.world.width ≢ None }
    requires from { FIRST_FREE_DESCRIPTOR ≤ first }
    requires free { IsFreeRunOf m.old.world.descriptors first n }
    requires limit { d.limit < 2 ^ 20 }
    ensures { m.new.world ≡ record m.old.world { descriptors = with_run m.old.world.descriptors first n (Some (d, own)) } }
{
    for i in 0..n {
        m.soundness();
        put(m, first + i, Some((d, Origin::Own)));
    }
}

/// Function 0000h: CX fresh descriptors in a row.
#[tactic(auto, unfolding(crate::specs::Rows::allocate_descriptors))]
pub(crate) fn allocate_descriptors(m: &mut Machine) -> Result<(), Refusal>
    requires { m.old.world.width ≢ None }
    ensures { Does (allocate_descriptors m.old.world) result m.old m.new }
{
    let n = low_half(m.regs().ecx);
    if n == 0 {
        return Err(Refusal::InvalidValue);
    }
    let first = first_free(m, n)?;
    put_run(m, first, n, data_at(0, 0));
    set_ax(m, selector_of(first));
    Ok(())
}
