// What the forms of a row denote.
ghost use Rattle.std.specs.Prelude.{◌≡◌, ◌<◌, ◌≤◌, ◌^◌, ◌%◌, if◌then◌else◌, false};
ghost use Rattle.insn_forms.specs.{declared.rows.Form.TheVariants.{Ip}, Prefixes.{toggled}, Operands.{operand, width_of}};
ghost use Rattle.insn_forms.specs.Operands.{register_or_memory, segment_register, far_pointer, imm_size, form_width, row_width, insn_of};

use crate::address::{extended, place_in_memory, place_of};
use client_world::{FarPtr, SegReg};
use insn_forms::{Addressing, Form, Head, Insn, Op, Operand, Prefixes, Row};

/// Whether a size is 32 bits: a prefix turns the default.
/// Source: 80386 Programmer's Reference Manual, ch. 17, "Operand-Size and Address-Size Attributes".
#[inline(always)]
pub fn is_turned(prefix: bool, big: bool) -> bool
    ensures { result ≡ toggled prefix big }
{
    prefix != big
}

/// How many bytes of its own a form has, after ModRM, SIB and displacement: 0 to 6.
/// Source: 80386 Programmer's Reference Manual, appendix A.
#[inline(always)]
pub fn size_of_own(wide: bool, addr32: bool, form: Form) -> u8
    ensures is { result ≡ imm_size wide addr32 form }
    ensures below { result ≤ 6 }
{
    match form {
        Form::Ib | Form::Is | Form::Jb => 1,
        Form::Iw => 2,
        Form::Iz | Form::Jz => { if wide { 4 } else { 2 } }
        Form::Ip => { if wide { 6 } else { 4 } }
        Form::Ob | Form::Ov => { if addr32 { 4 } else { 2 } }
        _ => 0,
    }
}

/// Writes what a form denotes, where its own bytes are the number `value`. Source: 80386 Programmer's Reference Manual, appendix A.
#[inline(never)]
#[tactic(auto, unfolding(insn_forms::specs::Operands::operand))]
pub fn put(
    out: &mut Operand,
    head: Head,
    wide: bool,
    addr32: bool,
    address: Addressing,
    form: Form,
    value: u64,
)
    requires { value < 256 ^ imm_size wide addr32 form }
    ensures { out.new ≡ operand head wide addr32 address form value }
{
    let prefixes = head.prefixes;
    let reg = address.modrm / 8 % 8;
    match form {
        Form::Empty | Form::ModRm | Form::Xb | Form::Xv => *out = Operand::Empty,
        Form::Eb => put_e(out, 8, prefixes, addr32, address),
        Form::Ew => put_e(out, 16, prefixes, addr32, address),
        Form::Ev | Form::RvMw => put_e(out, width(wide), prefixes, addr32, address),
        Form::Gb => put_register(out, 8, reg),
        Form::Gw => put_register(out, 16, reg),
        Form::Gv => put_register(out, width(wide), reg),
        Form::Sw => *out = Operand::Seg(segment(reg)),
        Form::M => *out = Operand::Mem(place_in_memory(prefixes, addr32, address)),
        Form::Al => put_register(out, 8, 0),
        Form::Ax => put_register(out, width(wide), 0),
        Form::Cl => put_register(out, 8, 1),
        Form::Dx => put_register(out, 16, 2),
        Form::Zb => put_register(out, 8, head.opcode % 8),
        Form::Zv => put_register(out, width(wide), head.opcode % 8),
        Form::Const1 => *out = Operand::Imm(1),
        Form::Ib | Form::Iw => *out = Operand::Imm(value as u32),
        Form::Iz | Form::Jz => *out = Operand::Imm(value as u32),
        Form::Is => *out = Operand::Imm(cut(wide, extended(value as u32))),
        Form::Jb => *out = Operand::Imm(extended(value as u32)),
        Form::Ip => *out = Operand::Far(far(wide, value)),
        Form::Ob | Form::Ov => *out = Operand::Mem(place_of(
            prefixes.seg,
            None,
            None,
            1,
            value as u32,
        )),
        Form::SegEs => *out = Operand::Seg(SegReg::Es),
        Form::SegCs => *out = Operand::Seg(SegReg::Cs),
        Form::SegSs => *out = Operand::Seg(SegReg::Ss),
        Form::SegDs => *out = Operand::Seg(SegReg::Ds),
        Form::SegFs => *out = Operand::Seg(SegReg::Fs),
        Form::SegGs => *out = Operand::Seg(SegReg::Gs),
    }
}

// Writes the register or memory of ModRM.
#[inline(always)]
fn put_e(out: &mut Operand, width: u8, prefixes: Prefixes, addr32: bool, address: Addressing)
    ensures { out.new ≡ register_or_memory width prefixes addr32 address }
{
    if address.modrm / 64 == 3 {
        *out = Operand::Reg {
            width,
            number: address.modrm % 8,
        };
    } else {
        *out = Operand::Mem(place_in_memory(prefixes, addr32, address));
    }
}

// Writes a register.
#[inline(always)]
fn put_register(out: &mut Operand, width: u8, number: u8)
    ensures { out.new ≡ Operand.Reg width number }
{
    *out = Operand::Reg { width, number };
}

// The segment register of a number.
#[inline(always)]
fn segment(number: u8) -> SegReg
    ensures { result ≡ segment_register number }
{
    match number {
        0 => SegReg::Es,
        1 => SegReg::Cs,
        2 => SegReg::Ss,
        3 => SegReg::Ds,
        4 => SegReg::Fs,
        _ => SegReg::Gs,
    }
}

// The operand size.
#[inline(always)]
fn width(wide: bool) -> u8
    ensures { result ≡ width_of wide }
{
    if wide { 32 } else { 16 }
}

// A number cut to the operand size.
#[inline(always)]
fn cut(wide: bool, value: u32) -> u32
    ensures { result ≡ if wide then value else value % 0x10000 }
{
    if wide { value } else { value % 0x1_0000 }
}

// A far pointer: the offset, and then the selector.
#[inline(always)]
fn far(wide: bool, value: u64) -> FarPtr
    requires { value < 256 ^ imm_size wide false Ip }
    ensures { result ≡ far_pointer wide value }
{
    if wide {
        FarPtr {
            sel: (value / 0x1_0000_0000) as u16,
            off: (value % 0x1_0000_0000) as u32,
        }
    } else {
        FarPtr {
            sel: (value / 0x1_0000) as u16,
            off: (value % 0x1_0000) as u32,
        }
    }
}

/// Makes the instruction of a row around its operands, which are there already. Source: own.
#[inline(always)]
#[tactic(auto, unfolding(insn_forms::specs::Operands::insn_of))]
pub fn finish(out: &mut Insn, head: Head, wide: bool, addr32: bool, row: Row)
    ensures { out.new ≡ insn_of head wide addr32 row out.old.first out.old.second out.old.third }
{
    out.op = match row.op {
        Some(op) => op,
        None => Op::Esc,
    };
    out.seg = match head.prefixes.seg {
        Some(seg) => seg,
        None => SegReg::Ds,
    };
    out.width = width_of_row(wide, row.first, row.second);
    out.addr32 = addr32;
    out.rep = head.prefixes.rep;
    out.locked = head.prefixes.lock;
}

// The width of a row.
#[inline(always)]
fn width_of_row(wide: bool, first: Form, second: Form) -> u8
    ensures { result ≡ row_width wide first second }
{
    match first {
        Form::Ib | Form::Dx => width_of_form(wide, second),
        _ => width_of_form(wide, first),
    }
}

// The width of a form.
#[inline(always)]
fn width_of_form(wide: bool, form: Form) -> u8
    ensures { result ≡ form_width wide form }
{
    match form {
        Form::Eb | Form::Gb | Form::Al | Form::Ob | Form::Zb | Form::Xb => 8,
        Form::Ew | Form::RvMw | Form::Sw => 16,
        _ => width(wide),
    }
}
