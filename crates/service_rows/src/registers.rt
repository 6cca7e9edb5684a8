// The registers that services name by the client's width, AX, BX and carry.
ghost use Rattle.std.specs.Prelude.{◌≡◌};
ghost use Rattle.client_world.specs.Services.{es_di};
ghost use Rattle.service_rows.specs.Rows.{with_ax, with_bx, with_by_width, with_carry};

use client_world::{FarPtr, Flags, Regs, Width, by_width, low_half, with_low_half};
use guest_space::Machine;

/// A register with a new value in the part that a client of that width names: the low half for 16 bits, all of it for 32. Source: DPMI 0.9,
/// INT 31h, of 16-bit and 32-bit clients.
pub fn with_by_width(width: Option<Width>, x: u32, v: u32) -> u32
    ensures { result ≡ with_by_width width x v }
{
    match width {
        None | Some(Width::Sixteen) => with_low_half(x, low_half(v)),
        Some(Width::ThirtyTwo) => v,
    }
}

/// The pointer in ES:DI, or ES:EDI for a 32-bit client. Source: DPMI 0.9, INT 31h, of 16-bit and 32-bit clients.
pub fn es_di(m: &Machine) -> FarPtr
    ensures { result ≡ es_di m.now.world }
{
    let r = m.regs();
    FarPtr {
        sel: r.es,
        off: by_width(m.width(), r.edi),
    }
}

/// Sets AX. The other half of EAX stays, and so does the memory. Source: own.
pub fn set_ax(m: &mut Machine, v: u16)
    ensures world { m.new.world ≡ with_ax v m.old.world }
    ensures bytes { m.new.bytes ≡ m.old.bytes }
{
    let mut r = m.regs();
    r.eax = with_low_half(r.eax, v);
    m.set_regs(r);
}

/// Sets BX. The other half of EBX stays, and so does the memory. Source: own.
pub fn set_bx(m: &mut Machine, v: u16)
    ensures world { m.new.world ≡ with_bx v m.old.world }
    ensures bytes { m.new.bytes ≡ m.old.bytes }
{
    let mut r = m.regs();
    r.ebx = with_low_half(r.ebx, v);
    m.set_regs(r);
}

/// The registers with carry. Source: own.
pub fn with_carry(on: bool, r: Regs) -> Regs
    ensures { result ≡ with_carry on r }
{
    Regs {
        flags: Flags { cf: on, ..r.flags },
        ..r
    }
}
