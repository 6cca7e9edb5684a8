// The limit and the access rights of a descriptor.
ghost use Rattle.std.specs.Prelude.{◌≡◌, ◌<◌, ◌^◌};
ghost use Rattle.service_rows.specs.Reasons.{Does};
ghost use Rattle.desc_services.specs.Rows.{is_no_limit, desc_with_limit, set_segment_limit, set_access_rights};

use crate::selector::{change, changeable};
use client_world::{Desc, high_byte, is_set, low_byte, low_half, two_words};
use desc_table::{is_access_byte, kind_of};
use guest_space::Machine;
use service_rows::Refusal;

// Whether the limit must count pages, and doesn't end with one.
fn is_no_limit(limit: u32) -> bool
    ensures { result ≡ is_no_limit limit }
{
    limit > 0xF_FFFF && limit % 0x1000 != 0xFFF
}

// A descriptor with a limit in bytes.
fn desc_with_limit(d: Desc, limit: u32) -> Desc
    ensures fields { result ≡ desc_with_limit d limit }
    ensures fits { result.limit < 2 ^ 20 }
{
    let mut d = d;
    if limit > 0xF_FFFF {
        d.limit = limit / 0x1000;
        d.gran = true;
    } else {
        d.limit = limit;
        d.gran = false;
    }
    d
}

/// Function 0008h: the limit of BX in bytes is CX:DX.
#[tactic(auto, unfolding(crate::specs::Rows::set_segment_limit))]
pub(crate) fn set_segment_limit(m: &mut Machine) -> Result<(), Refusal>
    ensures { Does (set_segment_limit m.old.world) result m.old m.new }
{
    let r = m.regs();
    let sel = low_half(r.ebx);
    let (d, origin) = changeable(m, sel)?;
    let limit = two_words(low_half(r.ecx), low_half(r.edx));
    if is_no_limit(limit) {
        return Err(Refusal::InvalidValue);
    }
    change(m, sel, origin, desc_with_limit(d, limit));
    Ok(())
}

/// Function 0009h: CL is the access byte of BX, and CH has G, D/B and AVL.
#[tactic(auto, unfolding(crate::specs::Rows::set_access_rights))]
pub(crate) fn set_access_rights(m: &mut Machine) -> Result<(), Refusal>
    ensures { Does (set_access_rights m.old.world) result m.old m.new }
{
    let r = m.regs();
    let sel = low_half(r.ebx);
    let (mut d, origin) = changeable(m, sel)?;
    let access = low_byte(r.ecx);
    let flags = u32::from(high_byte(r.ecx));
    if !is_access_byte(access) || is_set(flags, 0x20) {
        return Err(Refusal::InvalidValue);
    }
    d.gran = is_set(flags, 0x80);
    d.size = is_set(flags, 0x40);
    d.avl = is_set(flags, 0x10);
    d.present = is_set(u32::from(access), 0x80);
    d.kind = kind_of(access);
    change(m, sel, origin, d);
    Ok(())
}
