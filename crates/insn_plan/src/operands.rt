// Operands, read and written at once.
ghost use Rattle.std.specs.Prelude.{◌≡◌, ◌∷◌, [], OnOk, IfErr, IfSome, IfNone, Ok, Some};
ghost use Rattle.guest_space.specs.{Pending.{byte_count, first_write_fault}, Registers.{with_registers}, WriteRuns.{IsRun}};
ghost use Rattle.insn_plan.specs.{Act.{unchanged, value_of, with_flags}, Operands.{and_write, given, put_operand, source}, Plan.{Follows}};
ghost use Rattle.insn_plan.specs.{Plan.{after_commit}, Registers.{offset_of, with_register}, Written.{IsRefused, IsWritten}};

use crate::raised::Raised;
use crate::read::{read_quickly, read_width};
use crate::registers::{offset_of, register};
use client_world::{Fault, Flags, Regs, SegReg};
use cpu_values::{put8, put16};
use guest_space::{Machine, Write, byte_count};
use insn_forms::{MemForm, Operand};

// What an operand gives that isn't in memory, and 0 for one that is.
#[inline(always)]
pub(crate) fn given(r: &Regs, operand: &Operand) -> u32
    ensures { result ≡ given r.now operand.now }
{
    match operand {
        Operand::Reg { width, number } => register(r, *width, *number),
        Operand::Imm(v) => *v,
        Operand::Seg(seg) => u32::from(r.selector(*seg)),
        Operand::Mem(_) | Operand::Empty | Operand::Far(_) => 0,
    }
}

/// What an operand gives that is in a register of that width, or in the instruction; `None` says nothing.
#[inline(always)]
#[tactic(auto, unfolding(crate::specs::Operands::source, crate::specs::Act::value_of))]
pub(crate) fn at_hand(m: &Machine, addr32: bool, width: u8, operand: &Operand) -> Option<u32>
    ensures { IfSome result (λ v. value_of m.now.world (source m.now.world.regs addr32 width operand.now) ≡ Ok v) }
{
    if let Operand::Reg { width: own, number } = operand {
        if *own == width {
            return Some(register(m.registers(), width, *number));
        }
    }
    if let Operand::Imm(v) = operand {
        return Some(*v);
    }
    None
}

/// What an operand gives that is in memory, where a quick look shows it; `None` says nothing. It is read at that width. Source: own.
#[inline(always)]
#[tactic(auto, unfolding(crate::specs::Operands::source))]
pub fn shown_in_memory(m: &Machine, addr32: bool, width: u8, operand: &Operand) -> Option<u32>
    ensures { IfSome result (λ v. value_of m.now.world (source m.now.world.regs addr32 width operand.now) ≡ Ok v) }
{
    let Operand::Mem(f) = operand else {
        return None;
    };
    let off = offset_of(m.registers(), addr32, f);
    read_quickly(m, f.seg, off, width)
}

/// The same of any operand, in memory, in a register or in the instruction.
#[inline(always)]
pub(crate) fn shown(m: &Machine, addr32: bool, width: u8, operand: &Operand) -> Option<u32>
    ensures { IfSome result (λ v. value_of m.now.world (source m.now.world.regs addr32 width operand.now) ≡ Ok v) }
{
    if let Operand::Mem(_) = operand {
        return shown_in_memory(m, addr32, width, operand);
    }
    at_hand(m, addr32, width, operand)
}

/// The offset of a number in memory of a width, and its address in the memory, where a quick look shows that it may be read and written;
/// `None` says nothing.
#[inline(always)]
pub(crate) fn noted_place(m: &Machine, addr32: bool, width: u8, f: &MemForm) -> Option<(u32, u32)>
    ensures off { IfSome result (λ place. place.0 ≡ offset_of m.now.world.regs addr32 f.now) }
    ensures run { IfSome result (λ place. IsRun m.now f.now.seg place.0 (byte_count width) place.1) }
{
    let off = offset_of(m.registers(), addr32, f);
    let at = m.noted_run(f.seg, off, u32::from(byte_count(width)))?;
    Some((off, at))
}

/// Writes a number of a width at an offset of a segment register, whose address in the memory is known; the write has no fault. The
/// registers and the virtual interrupt flag stay.
#[inline(always)]
#[tactic(auto, using(crate::proofs::WrittenState::made))]
pub(crate) fn write_there(m: &mut Machine, seg: SegReg, width: u8, off: u32, at: u32, value: u32)
    requires { IsRun m.old seg off (byte_count width) at }
    ensures { IsWritten (record { seg = seg; off = off; width = width; value = value }) m.old m.new }
{
    m.write_run(
        &Write {
            seg,
            width,
            off,
            value,
        },
        at,
    );
}

/// Reads an operand, in memory at a width of 8, 16 or 32 bits, or gives the fault of the access; an operand that isn't there is 0.
/// Source: 80386 Programmer's Reference Manual, ch. 17, "Operation".
#[inline(always)]
#[tactic(auto, unfolding(crate::specs::Operands::source, crate::specs::Act::value_of))]
pub fn source(m: &mut Machine, addr32: bool, width: u8, operand: &Operand) -> Result<u32, Raised>
    ensures value { result ≡ value_of m.old.world (source m.old.world.regs addr32 width operand.now) }
    ensures kept { m.new ≡ m.old }
{
    match operand {
        Operand::Mem(f) => {
            let off = offset_of(m.registers(), addr32, f);
            read_width(m, f.seg, off, width)
        }
        _ => Ok(given(m.registers(), operand)),
    }
}

/// Puts a number into a register of the machine at a width of 8, 16 or 32 bits, cut to the width; the other bits of the register are kept.
/// Source: 80386 Programmer's Reference Manual, ch. 17, "reg".
#[inline(always)]
#[tactic(auto, unfolding(crate::specs::Registers::with_register))]
pub fn put_register(m: &mut Machine, width: u8, n: u8, v: u32)
    ensures { m.new ≡ with_registers (with_register m.old.world.regs width n v) m.old }
{
    if width == 8 {
        let high = n >= 4;
        let n = if high { n - 4 } else { n };
        let old = m.registers().general(n);
        m.set_general(n, put8(old, high, (v % 0x100) as u8));
    } else if width == 16 {
        let old = m.registers().general(n);
        m.set_general(n, put16(old, (v % 0x1_0000) as u16));
    } else {
        m.set_general(n, v);
    }
}

/// Writes a number by the tables, after its page was noted.
#[cold]
#[inline(never)]
#[tactic(auto, using(crate::proofs::WrittenState::made, crate::proofs::WrittenState::first_refused))]
pub(crate) fn note_and_write(
    m: &mut Machine,
    seg: SegReg,
    off: u32,
    width: u8,
    value: u32,
) -> Result<(), Fault>
    ensures done { OnOk result (IsWritten (record { seg = seg; off = off; width = width; value = value }) m.old m.new) }
    ensures refused { IfErr result (λ f.
        first_write_fault m.old.world (record { seg = seg; off = off; width = width; value = value } ∷ []) ≡ Some f) }
    ensures kept { IfErr result (λ _. m.new ≡ m.old) }
{
    m.warm(seg, off);
    m.write_one(&Write {
        seg,
        width,
        off,
        value,
    })?;
    Ok(())
}

/// Writes a number of a width at an offset of a segment register where a quick look shows that the write has no fault; `None` says nothing,
/// and changes nothing. The registers and the virtual interrupt flag stay.
#[inline(always)]
#[tactic(auto, using(crate::proofs::WrittenState::made))]
pub(crate) fn write_quickly(
    m: &mut Machine,
    seg: SegReg,
    off: u32,
    width: u8,
    value: u32,
) -> Option<()>
    ensures made { IfSome result (λ _. IsWritten (record { seg = seg; off = off; width = width; value = value }) m.old m.new) }
    ensures kept { IfNone result (m.new ≡ m.old) }
{
    let write = Write {
        seg,
        width,
        off,
        value,
    };
    if m.write_one_quickly(&write) {
        return Some(());
    }
    None
}

/// Writes a number of a width at an offset of a segment register, or gives the fault of the write, which changes nothing. The registers and
/// the virtual interrupt flag stay. Where a quick look doesn't show that the write has no fault, its page is noted.
#[inline(always)]
#[tactic(auto, using(crate::proofs::WrittenState::made, crate::proofs::WrittenState::refused))]
pub(crate) fn write_number(
    m: &mut Machine,
    seg: SegReg,
    off: u32,
    width: u8,
    value: u32,
) -> Result<(), Raised>
    ensures done { OnOk result (IsWritten (record { seg = seg; off = off; width = width; value = value }) m.old m.new) }
    ensures refused { IfErr result (λ e. IsRefused (record { seg = seg; off = off; width = width; value = value }) m.old m.new e) }
{
    match write_quickly(m, seg, off, width, value) {
        Some(()) => Ok(()),
        None => Ok(note_and_write(m, seg, off, width, value)?),
    }
}

// Puts a number into memory, and sets the flags.
#[inline(never)]
#[tactic(auto, unfolding(crate::specs::Plan::after_commit))]
fn put_in_memory(
    m: &mut Machine,
    flags: Flags,
    addr32: bool,
    width: u8,
    f: &MemForm,
    v: u32,
) -> Result<(), Raised>
    ensures { Follows m.old m.new result (after_commit m.old
        (and_write f.now.seg (offset_of m.old.world.regs addr32 f.now) width v (with_flags flags m.old.world))) }
{
    let off = offset_of(m.registers(), addr32, f);
    write_number(m, f.seg, off, width, v)?;
    m.set_flags(flags);
    Ok(())
}

/// Puts a number where an operand names, in memory at a width of 8, 16 or 32 bits, and sets the flags; or gives the fault of the write,
/// which changes nothing.
/// Source: 80386 Programmer's Reference Manual, ch. 17, "Operation".
#[inline(always)]
#[tactic(auto, unfolding(crate::specs::Operands::put_operand, crate::specs::Plan::after_commit, //
guest_space::specs::Pending::first_write_fault, guest_space::specs::Pending::after_writes))]
pub fn put_with_flags(
    m: &mut Machine,
    flags: Flags,
    addr32: bool,
    width: u8,
    operand: &Operand,
    v: u32,
) -> Result<(), Raised>
    ensures { Follows m.old m.new result
        (after_commit m.old (put_operand m.old.world.regs addr32 width operand.now v (with_flags flags m.old.world))) }
{
    match operand {
        Operand::Reg { width, number } => {
            m.set_flags(flags);
            put_register(m, *width, *number, v);
            Ok(())
        }
        Operand::Mem(f) => put_in_memory(m, flags, addr32, width, f, v),
        Operand::Imm(_) | Operand::Seg(_) | Operand::Empty | Operand::Far(_) => {
            m.set_flags(flags);
            Ok(())
        }
    }
}

/// Puts a number where an operand names, in memory at a width of 8, 16 or 32 bits, or gives the fault of the write, which changes nothing.
/// Source: 80386 Programmer's Reference Manual, ch. 17, "Operation".
#[inline(always)]
#[tactic(auto, unfolding(crate::specs::Operands::put_operand, crate::specs::Plan::after_commit, //
guest_space::specs::Pending::first_write_fault, guest_space::specs::Pending::after_writes))]
pub fn put_operand(
    m: &mut Machine,
    addr32: bool,
    width: u8,
    operand: &Operand,
    v: u32,
) -> Result<(), Raised>
    ensures { Follows m.old m.new result
        (after_commit m.old (put_operand m.old.world.regs addr32 width operand.now v (unchanged m.old.world))) }
{
    match operand {
        Operand::Reg { width, number } => {
            put_register(m, *width, *number, v);
            Ok(())
        }
        Operand::Mem(f) => put_in_memory(m, m.registers().flags, addr32, width, f, v),
        Operand::Imm(_) | Operand::Seg(_) | Operand::Empty | Operand::Far(_) => Ok(()),
    }
}
