// Vectors of real mode, of protected mode, and of exceptions.
ghost use Rattle.std.specs.Prelude.{◌≡◌, ◌<◌, ◌+◌};
ghost use Rattle.client_world.specs.declared.memory_map.TheConstants.{ROM_START};
ghost use Rattle.guest_ram.specs.Bytes.{with_word};
ghost use Rattle.service_rows.specs.Reasons.{Does};
ghost use Rattle.vector_services.specs.Rows.{bl, cx_dx, get_exception_vector, get_protected_vector, get_real_vector, set_exception_vector};
ghost use Rattle.vector_services.specs.Rows.{set_protected_vector, set_real_vector, with_cx_dx};

use client_world::{FarPtr, by_width, low_byte, low_half, with_low_half};
use guest_space::{Machine, real_vector_address};
use service_rows::{Refusal, is_code_selector, with_by_width};

// The greatest number of an exception.
const LAST_EXCEPTION: u8 = 0x1F;

// The number of a vector, in BL.
fn bl(m: &Machine) -> u8
    ensures { result ≡ bl m.now.world }
{
    low_byte(m.regs().ebx)
}

/// Function 0200h: CX:DX is real vector BL.
#[tactic(auto, unfolding(crate::specs::Rows::get_real_vector))]
pub(crate) fn get_real_vector(m: &mut Machine) -> Result<(), Refusal>
    ensures { Does (get_real_vector m.old.world) result m.old m.new }
{
    let at = real_vector_address(bl(m));
    let mut r = m.regs();
    r.ecx = with_low_half(r.ecx, m.dos16(at + 2));
    r.edx = with_low_half(r.edx, m.dos16(at));
    m.set_regs(r);
    Ok(())
}

// Writes a word into the DOS megabyte.
fn set_word(m: &mut Machine, at: u32, v: u16)
    requires { at + 1 < ROM_START }
    ensures { m.new.world ≡ record m.old.world { dos = with_word m.old.world.dos at v } }
{
    m.set_dos8(at, (v % 0x100) as u8);
    m.set_dos8(at + 1, (v / 0x100) as u8);
}

/// Function 0201h: real vector BL is CX:DX.
#[tactic(auto, unfolding(crate::specs::Rows::set_real_vector))]
pub(crate) fn set_real_vector(m: &mut Machine) -> Result<(), Refusal>
    ensures { Does (set_real_vector m.old.world) result m.old m.new }
{
    let at = real_vector_address(bl(m));
    let r = m.regs();
    set_word(m, at, low_half(r.edx));
    set_word(m, at + 2, low_half(r.ecx));
    Ok(())
}

// The pointer in CX:DX, or CX:EDX for a 32-bit client.
fn cx_dx(m: &Machine) -> FarPtr
    ensures { result ≡ cx_dx m.now.world }
{
    let r = m.regs();
    FarPtr {
        sel: low_half(r.ecx),
        off: by_width(m.width(), r.edx),
    }
}

// Puts a pointer there.
fn set_cx_dx(m: &mut Machine, p: FarPtr)
    ensures { m.new.world ≡ with_cx_dx p m.old.world }
{
    let mut r = m.regs();
    r.ecx = with_low_half(r.ecx, p.sel);
    r.edx = with_by_width(m.width(), r.edx, p.off);
    m.set_regs(r);
}

/// Function 0202h: CX:(E)DX is exception vector BL.
#[tactic(auto, unfolding(crate::specs::Rows::get_exception_vector))]
pub(crate) fn get_exception_vector(m: &mut Machine) -> Result<(), Refusal>
    ensures { Does (get_exception_vector m.old.world) result m.old m.new }
{
    let n = bl(m);
    if n > LAST_EXCEPTION {
        return Err(Refusal::InvalidValue);
    }
    let p = m.evec(n);
    set_cx_dx(m, p);
    Ok(())
}

/// Function 0203h: exception vector BL is CX:(E)DX.
#[tactic(auto, unfolding(crate::specs::Rows::set_exception_vector))]
pub(crate) fn set_exception_vector(m: &mut Machine) -> Result<(), Refusal>
    ensures { Does (set_exception_vector m.old.world) result m.old m.new }
{
    let n = bl(m);
    if n > LAST_EXCEPTION {
        return Err(Refusal::InvalidValue);
    }
    let p = cx_dx(m);
    if !is_code_selector(m, p.sel) {
        return Err(Refusal::InvalidSelector);
    }
    m.set_evec(n, p);
    Ok(())
}

/// Function 0204h: CX:(E)DX is protected-mode vector BL.
#[tactic(auto, unfolding(crate::specs::Rows::get_protected_vector))]
pub(crate) fn get_protected_vector(m: &mut Machine) -> Result<(), Refusal>
    ensures { Does (get_protected_vector m.old.world) result m.old m.new }
{
    let p = m.pvec(bl(m));
    set_cx_dx(m, p);
    Ok(())
}

/// Function 0205h: protected-mode vector BL is CX:(E)DX.
#[tactic(auto, unfolding(crate::specs::Rows::set_protected_vector))]
pub(crate) fn set_protected_vector(m: &mut Machine) -> Result<(), Refusal>
    ensures { Does (set_protected_vector m.old.world) result m.old m.new }
{
    let p = cx_dx(m);
    if !is_code_selector(m, p.sel) {
        return Err(Refusal::InvalidSelector);
    }
    m.set_pvec(bl(m), p);
    Ok(())
}
