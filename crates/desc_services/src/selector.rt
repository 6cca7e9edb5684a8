// What the selector in BX names, and its base.
ghost use Rattle.std.specs.Prelude.{◌≡◌, ◌<◌, ◌^◌, true, false, Some, MatchResult, slice_set};
ghost use Rattle.client_world.specs.{declared.descriptors.Desc.{Desc}, Services.{desc_of, is_changeable, is_changeable_origin}};
ghost use Rattle.desc_services.specs.{MayPut.{MayPut}, Rows.{get_segment_base, set_segment_base, with_desc}};
ghost use Rattle.service_rows.specs.{declared.refusal.Refusal.TheVariants.{InvalidSelector as invalid}, Reasons.{Does}};

use client_world::selectors::index_of;
use client_world::{Desc, Origin, low_half, two_words, with_low_half};
use guest_space::Machine;
use service_rows::Refusal;

/// Function 0006h: CX:DX is the base of BX.
#[tactic(auto, unfolding(crate::specs::Rows::get_segment_base))]
pub(crate) fn get_segment_base(m: &mut Machine) -> Result<(), Refusal>
    ensures { Does (get_segment_base m.old.world) result m.old m.new }
{
    let mut r = m.regs();
    match m.desc_of(low_half(r.ebx)) {
        Some((d, _)) => {
            r.ecx = with_low_half(r.ecx, (d.base / 0x1_0000) as u16);
            r.edx = with_low_half(r.edx, (d.base % 0x1_0000) as u16);
            m.set_regs(r);
            Ok(())
        }
        None => Err(Refusal::InvalidSelector),
    }
}

// Whether a client may change descriptors of this origin.
fn is_changeable_origin(origin: Origin) -> bool
    ensures { result ≡ is_changeable_origin origin }
{
    match origin {
        Origin::Own | Origin::Low | Origin::Entry | Origin::Psp => true,
        Origin::Segment(_) | Origin::Dos(_) | Origin::Host => false,
    }
}

/// The descriptor of a selector, which the client may change.
pub(crate) fn changeable(m: &Machine, sel: u16) -> Result<(Desc, Origin), Refusal>
    ensures { MatchResult result
        (λ row. (is_changeable m.now.world sel ≡ true) × (desc_of m.now.world sel ≡ Some row)
        × (is_changeable_origin row.1 ≡ true) × (row.0.limit < 2 ^ 20))
        (λ refusal. (is_changeable m.now.world sel ≡ false) × (refusal ≡ invalid)) }
{
    match m.desc_of(sel) {
        Some((d, origin)) if is_changeable_origin(origin) => Ok((d, origin)),
        _ => Err(Refusal::InvalidSelector),
    }
}

/// Puts a row where it may be put.
pub(crate) fn put(m: &mut Machine, index: u16, row: Option<(Desc, Origin)>)
    requires { MayPut m.old.world index row }
    ensures { m.new.world ≡ record m.old.world { descriptors = slice_set m.old.world.descriptors index row } }
{
    m.set_desc(index, row);
}

/// Gives other fields to a descriptor that the client may change.
pub(crate) fn change(m: &mut Machine, sel: u16, origin: Origin, d: Desc)
    requires held { (old : Desc) × (desc_of m.old.world sel ≡ Some (old, origin)) }
    requires changeable { is_changeable_origin origin ≡ true }
    requires limit { d.limit < 2 ^ 20 }
    ensures { m.new.world ≡ with_desc m.old.world sel (Some d) }
{
    m.soundness();
    put(m, index_of(sel), Some((d, origin)));
}

/// Function 0007h: the base of BX is CX:DX.
#[tactic(auto, unfolding(crate::specs::Rows::set_segment_base))]
pub(crate) fn set_segment_base(m: &mut Machine) -> Result<(), Refusal>
    ensures { Does (set_segment_base m.old.world) result m.old m.new }
{
    let r = m.regs();
    let sel = low_half(r.ebx);
    let (mut d, origin) = changeable(m, sel)?;
    d.base = two_words(low_half(r.ecx), low_half(r.edx));
    change(m, sel, origin, d);
    Ok(())
}
