// The parts of registers that DOS calls read and return values in, and the flags that they return.
ghost use Rattle.std.specs.Prelude.{◌≡◌};
ghost use Rattle.client_world.specs.declared.registers.TheConstants.{CARRY_BIT, ZERO_BIT};
ghost use Rattle.dos_calls.specs.{Calls.{with_al, with_error}, DosBytes.{with_bit, with_stacked}};

use crate::bytes::stacked_flags;
use client_world::with_low_byte;
use guest_space::Machine;
use service_rows::set_ax;

/// Returns a value in AL.
pub(crate) fn set_al(m: &mut Machine, v: u8)
    ensures { m.new.world ≡ with_al v m.old.world }
{
    let mut r = m.regs();
    r.eax = with_low_byte(r.eax, v);
    m.set_regs(r);
}

// The low byte of a flags image with another carry flag.
fn with_carry(flags: u8, on: bool) -> u8
    ensures { result ≡ with_bit flags CARRY_BIT on }
{
    flags / 2 * 2 + u8::from(on)
}

// The low byte of a flags image with another zero flag.
fn with_zero(flags: u8, on: bool) -> u8
    ensures { result ≡ with_bit flags ZERO_BIT on }
{
    flags / 0x80 * 0x80 + 0x40 * u8::from(on) + flags % 0x40
}

/// Returns the carry flag, which the return from the interrupt pops.
pub(crate) fn set_carry(m: &mut Machine, on: bool)
    ensures { m.new.world ≡ with_stacked CARRY_BIT on m.old.world }
{
    let at = stacked_flags(m);
    m.set_dos8(at, with_carry(m.dos8(at), on));
}

/// Returns the zero flag, which the return from the interrupt pops.
pub(crate) fn set_zero(m: &mut Machine, on: bool)
    ensures { m.new.world ≡ with_stacked ZERO_BIT on m.old.world }
{
    let at = stacked_flags(m);
    m.set_dos8(at, with_zero(m.dos8(at), on));
}

/// Returns an error.
pub(crate) fn refuse(m: &mut Machine, code: u16)
    ensures { m.new.world ≡ with_error code m.old.world }
{
    set_ax(m, code);
    set_carry(m, true);
}
