// Packed descriptors in the client's memory.
ghost use Rattle.service_rows.specs.Reasons.{Does};
ghost use Rattle.desc_services.specs.Rows.{get_descriptor, set_descriptor};

use crate::selector::{change, changeable};
use client_world::low_half;
use desc_table::{pack, unpack};
use guest_space::Machine;
use service_rows::{Refusal, es_di};

/// Function 000Bh: the packed descriptor of BX goes to ES:(E)DI.
#[tactic(auto, unfolding(crate::specs::Rows::get_descriptor, guest_space::specs::Far::world_after_far_write, //
guest_space::specs::Far::after_far_write, guest_space::specs::Transfer::with_places))]
pub(crate) fn get_descriptor(m: &mut Machine) -> Result<(), Refusal>
    ensures { Does (get_descriptor m.old.world) result m.old m.new }
{
    let (d, _) = m
        .desc_of(low_half(m.regs().ebx))
        .ok_or(Refusal::InvalidSelector)?;
    let p = es_di(m);
    if !m.far_ok(p, 8, true) {
        return Err(Refusal::InvalidAddress);
    }
    m.write_bytes(p, &pack(&d));
    Ok(())
}

/// Function 000Ch: the descriptor of BX comes from ES:(E)DI.
#[tactic(auto, unfolding(crate::specs::Rows::set_descriptor))]
pub(crate) fn set_descriptor(m: &mut Machine) -> Result<(), Refusal>
    ensures { Does (set_descriptor m.old.world) result m.old m.new }
{
    let sel = low_half(m.regs().ebx);
    let (_, origin) = changeable(m, sel)?;
    let p = es_di(m);
    if !m.far_ok(p, 8, false) {
        return Err(Refusal::InvalidAddress);
    }
    let mut bytes = [0; 8];
    m.read_bytes(p, &mut bytes);
    match unpack(&bytes) {
        Some(d) => {
            change(m, sel, origin, d);
            Ok(())
        }
        None => Err(Refusal::InvalidValue),
    }
}
