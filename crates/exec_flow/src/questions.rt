// Questions about descriptors.
#![tactic(auto, unfolding(crate::specs::Questions::verify, crate::specs::Questions::load_from_descriptor, crate::specs::Questions::arpl, //
crate::specs::Raising::in_protected, crate::specs::Raising::invalid_opcode, insn_plan::specs::Plan::after_plan, //
insn_plan::specs::Plan::after_commit, guest_space::specs::Pending::first_write_fault, guest_space::specs::Pending::after_writes))]

ghost use Rattle.std.specs.Prelude.{◌≡◌, ◌<◌, ◌^◌, true, false};
ghost use Rattle.client_world.specs.{Descriptor.{byte_limit}, Registers.{low_half}, Selector.{FitsRow, privilege_of, row_of_selector}};
ghost use Rattle.exec_flow.specs.Questions.{with_zero, is_readable, is_writable_row, verify, access_rights, load_from_descriptor, arpl};
ghost use Rattle.insn_plan.specs.{Act.{with_flags}, Operands.{put_operand}, Plan.{CarriesOut, Follows, after_commit}};

use crate::raising::exception;
use client_world::faults::INVALID_OPCODE;
use client_world::selectors::privilege_of;
use client_world::{Desc, Flags, Mode, Origin, low_half};
use desc_table::{access_byte, flags_byte};
use guest_space::Machine;
use insn_forms::Insn;
use insn_plan::{Raised, put_with_flags, source};

// The flags with another ZF.
fn with_zero(m: &Machine, zero_flag: bool) -> Flags
    ensures { result ≡ with_zero m.now.world zero_flag }
{
    Flags {
        zf: zero_flag,
        ..m.registers().flags
    }
}

/// The descriptor that the low word of a number names as a selector.
pub(crate) fn row_of(m: &Machine, sel: u32) -> Option<(Desc, Origin)>
    ensures row { result ≡ row_of_selector m.now.world.descriptors (low_half sel) }
    ensures fits { FitsRow result }
{
    m.desc_of(low_half(sel))
}

// Whether a segment is held, and may be read.
fn is_readable(row: Option<(Desc, Origin)>) -> bool
    ensures { result ≡ is_readable row }
{
    row.is_some()
}

// Whether a segment is held, and may be written.
fn is_writable_row(row: Option<(Desc, Origin)>) -> bool
    ensures { result ≡ is_writable_row row }
{
    match row {
        None => false,
        Some((d, _)) => d.kind.is_writable(),
    }
}

/// VERR. Source: 80386 Programmer's Reference Manual, ch. 17.
#[inline(never)]
pub(crate) fn verify_readable(m: &mut Machine, i: &Insn) -> Result<(), Raised>
    ensures { CarriesOut m.old m.new result (verify is_readable m.old.world i.now) }
{
    if m.mode() == Mode::Real {
        return Err(exception(INVALID_OPCODE));
    }
    let sel = source(m, i.addr32, 16, &i.first)?;
    let flags = with_zero(m, is_readable(row_of(m, sel)));
    m.set_flags(flags);
    Ok(())
}

/// VERW. Source: 80386 Programmer's Reference Manual, ch. 17.
#[inline(never)]
pub(crate) fn verify_writable(m: &mut Machine, i: &Insn) -> Result<(), Raised>
    ensures { CarriesOut m.old m.new result (verify is_writable_row m.old.world i.now) }
{
    if m.mode() == Mode::Real {
        return Err(exception(INVALID_OPCODE));
    }
    let sel = source(m, i.addr32, 16, &i.first)?;
    let flags = with_zero(m, is_writable_row(row_of(m, sel)));
    m.set_flags(flags);
    Ok(())
}

// The access rights of a descriptor.
fn access_rights(d: &Desc) -> u32
    requires { d.now.limit < 2 ^ 20 }
    ensures { result ≡ access_rights d.now }
{
    u32::from(access_byte(d)) * 0x100 + u32::from(flags_byte(d)) / 0x10 * 0x10_0000
}

// Puts a number into the first operand and sets ZF, or gives the fault of the write, which changes nothing.
fn tell_number(m: &mut Machine, i: &Insn, v: u32) -> Result<(), Raised>
    ensures { Follows m.old m.new result (after_commit m.old
        (put_operand m.old.world.regs i.now.addr32 i.now.width i.now.first v (with_flags (with_zero m.old.world true) m.old.world))) }
{
    let flags = with_zero(m, true);
    put_with_flags(m, flags, i.addr32, i.width, &i.first, v)
}

// Clears ZF.
fn tell_nothing(m: &mut Machine) -> Result<(), Raised>
    ensures { Follows m.old m.new result (after_commit m.old (with_flags (with_zero m.old.world false) m.old.world)) }
{
    let flags = with_zero(m, false);
    m.set_flags(flags);
    Ok(())
}

/// LAR. Source: 80386 Programmer's Reference Manual, ch. 17; its mask is own.
#[inline(never)]
pub(crate) fn tell_access_rights(m: &mut Machine, i: &Insn) -> Result<(), Raised>
    ensures { CarriesOut m.old m.new result (load_from_descriptor access_rights m.old.world i.now) }
{
    if m.mode() == Mode::Real {
        return Err(exception(INVALID_OPCODE));
    }
    let sel = source(m, i.addr32, 16, &i.second)?;
    match row_of(m, sel) {
        None => tell_nothing(m),
        Some((d, _)) => tell_number(m, i, access_rights(&d)),
    }
}

/// LSL. Source: 80386 Programmer's Reference Manual, ch. 17.
#[inline(never)]
pub(crate) fn tell_byte_limit(m: &mut Machine, i: &Insn) -> Result<(), Raised>
    ensures { CarriesOut m.old m.new result (load_from_descriptor byte_limit m.old.world i.now) }
{
    if m.mode() == Mode::Real {
        return Err(exception(INVALID_OPCODE));
    }
    let sel = source(m, i.addr32, 16, &i.second)?;
    match row_of(m, sel) {
        None => tell_nothing(m),
        Some((d, _)) => tell_number(m, i, d.byte_limit()),
    }
}

/// The privilege level, 0 to 3, that the low word of a number asks for as a selector.
pub(crate) fn requested_privilege(sel: u32) -> u32
    ensures { result ≡ privilege_of sel }
{
    u32::from(privilege_of(low_half(sel)))
}

/// ARPL. Source: 80386 Programmer's Reference Manual, ch. 17.
#[inline(never)]
pub(crate) fn arpl(m: &mut Machine, i: &Insn) -> Result<(), Raised>
    ensures { CarriesOut m.old m.new result (arpl m.old.world i.now) }
{
    if m.mode() == Mode::Real {
        return Err(exception(INVALID_OPCODE));
    }
    let a = source(m, i.addr32, 16, &i.first)?;
    let b = source(m, i.addr32, 16, &i.second)?;
    let (own, asked) = (requested_privilege(a), requested_privilege(b));
    if own < asked {
        let flags = with_zero(m, true);
        let v = a - own + asked;
        put_with_flags(m, flags, i.addr32, 16, &i.first, v)
    } else {
        tell_nothing(m)
    }
}
