// The allocation of callbacks.
ghost use Rattle.std.specs.Prelude.{◌≡◌, ◌≢◌, ◌<◌, IfSome, None, Some, if◌then◌else◌};
ghost use Rattle.client_world.specs.{declared.limits.TheConstants.{CALLBACKS}, Services.{is_held}};
ghost use Rattle.service_rows.specs.Reasons.{Does};
ghost use Rattle.callbacks.specs.Services.{addressed_slot, allocate_callback, callback_offset, ds_si, free_callback, free_slot};
ghost use Rattle.callbacks.specs.Services.{is_callback_address};

use client_world::limits::CALLBACKS;
use client_world::memory_map::{ROM_SEGMENT, ROM_START};
use client_world::traps::CALLBACK_TRAPS;
use client_world::{FarPtr, Regs, by_width, low_half, with_low_half};
use guest_space::Machine;
use service_rows::{Refusal, es_di, is_code_selector};

// The slots.
const SLOTS: u8 = CALLBACKS as u8;

// The offset of the first callback's address.
const FIRST_OFFSET: u16 = (CALLBACK_TRAPS - ROM_START) as u16;

/// The offset of the address of a slot's callback; its segment is that of read-only memory. Source: own.
pub(crate) fn callback_offset(slot: u8) -> u16
    ensures { result ≡ callback_offset slot }
{
    FIRST_OFFSET + u16::from(slot)
}

// The lowest slot that is free.
fn free_slot(m: &Machine) -> Option<u8>
    ensures lowest { result ≡ free_slot m.now.world }
    ensures fits { IfSome result (λ slot. slot < CALLBACKS) }
{
    for slot in 0..SLOTS {
        if m.back(slot).is_none() {
            return Some(slot);
        }
    }
    None
}

// The pointer DS:(E)SI.
fn ds_si(m: &Machine) -> FarPtr
    ensures { result ≡ ds_si m.now.world }
{
    let r = m.regs();
    FarPtr {
        sel: r.ds,
        off: by_width(m.width(), r.esi),
    }
}

// Whether a selector is held.
fn is_held(m: &Machine, sel: u16) -> bool
    ensures { result ≡ is_held m.now.world sel }
{
    match m.desc_of(sel) {
        Some(_) => true,
        None => false,
    }
}

/// Function 0303h: CX:DX is the address of a callback whose procedure is DS:(E)SI, and whose call structure is ES:(E)DI.
#[tactic(auto, unfolding(crate::specs::Services::allocate_callback))]
pub(crate) fn allocate_callback(m: &mut Machine) -> Result<(), Refusal>
    requires { m.old.world.width ≢ None }
    ensures { Does (allocate_callback m.old.world) result m.old m.new }
{
    let r = m.regs();
    if !is_code_selector(m, r.ds) || !is_held(m, r.es) {
        return Err(Refusal::InvalidSelector);
    }
    let Some(slot) = free_slot(m) else {
        return Err(Refusal::CallbackUnavailable);
    };
    let callback = (ds_si(m), es_di(m));
    m.set_back(slot, Some(callback));
    m.set_regs(Regs {
        ecx: with_low_half(r.ecx, ROM_SEGMENT),
        edx: with_low_half(r.edx, callback_offset(slot)),
        ..r
    });
    Ok(())
}

// The slot of the held callback that CX:DX is the address of.
#[tactic(auto, using(crate::proofs::Served::past_none))]
fn addressed_slot(m: &Machine) -> Option<u8>
    ensures slot { result ≡ (if is_callback_address m.now.world then Some (addressed_slot m.now.world) else None) }
    ensures fits { IfSome result (λ slot. slot < CALLBACKS) }
{
    m.soundness();
    let r = m.regs();
    let offset = low_half(r.edx);
    if low_half(r.ecx) != ROM_SEGMENT || offset < FIRST_OFFSET {
        return None;
    }
    let slot = offset - FIRST_OFFSET;
    if slot >= u16::from(SLOTS) || m.back(slot as u8).is_none() {
        return None;
    }
    Some(slot as u8)
}

/// Function 0304h: the callback at CX:DX is freed.
#[tactic(auto, unfolding(crate::specs::Services::free_callback))]
pub(crate) fn free_callback(m: &mut Machine) -> Result<(), Refusal>
    requires { m.old.world.width ≢ None }
    ensures { Does (free_callback m.old.world) result m.old m.new }
{
    match addressed_slot(m) {
        Some(slot) => {
            m.set_back(slot, None);
            Ok(())
        }
        None => Err(Refusal::InvalidCallback),
    }
}
