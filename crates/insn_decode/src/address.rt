// ModRM, SIB and displacement, and the place in memory that they name.
ghost use Rattle.std.specs.Prelude.{◌≡◌, ◌≤◌, IfOk};
ghost use Rattle.insn_forms.specs.Addressing.{in_memory, is_lone, sib_size, disp_size, sign_extended_byte, base16, index16, base32};
ghost use Rattle.insn_forms.specs.{Addressing.{index32, scale_of, place, displacement, memory}, Grammar.{row_with}};
ghost use Rattle.insn_decode.specs.Reading.{IsReading, modrm_at, addressing_at};

use crate::head::{row_stands, size_of_modrm};
use crate::number::{byte, number};
use crate::stop::Stop;
use client_world::SegReg;
use insn_forms::{Addressing, Form, Head, MemForm, Prefixes, Row, row_of};

/// ModRM, SIB and displacement, the row that they choose, and the bytes after them; or `More` where they end before, and `Invalid` where
/// they begin no instruction.
/// Source: 80386 Programmer's Reference Manual, ch. 17, "ModR/M and SIB Bytes".
#[inline(always)]
#[tactic(auto, unfolding(crate::specs::Reading::addressing_at))]
pub fn addressing(addr32: bool, head: Head, bytes: &[u8]) -> Result<(Addressing, Row, &[u8]), Stop>
    ensures gives { IsReading (λ x. (x.0, x.2.now)) result (addressing_at addr32 head bytes.now) }
    ensures row { IfOk result (λ x. x.1 ≡ row_with head x.0.modrm) }
{
    let (modrm, row, rest) = modrm(head, bytes)?;
    let (sib, rest) = byte(size_of_sib(addr32, row, modrm), rest)?;
    let (disp, rest) = number(size_of_disp(addr32, row, modrm, sib), rest)?;
    let disp = disp as u32;
    Ok((Addressing { modrm, sib, disp }, row, rest))
}

// The ModRM byte, or 0 where the opcode has none, and the row that it chooses.
#[inline(always)]
#[tactic(auto, unfolding(crate::specs::Reading::modrm_at))]
fn modrm(head: Head, bytes: &[u8]) -> Result<(u8, Row, &[u8]), Stop>
    ensures gives { IsReading (λ x. (x.0, x.2.now)) result (modrm_at head bytes.now) }
    ensures row { IfOk result (λ x. x.1 ≡ row_with head x.0) }
{
    let (modrm, rest) = byte(size_of_modrm(head.map, head.opcode), bytes)?;
    let row = row_of(head.map, head.opcode, modrm / 8 % 8);
    if row_stands(head.prefixes.lock, row, is_in_memory(modrm)) {
        Ok((modrm, row, rest))
    } else {
        Err(Stop::Invalid)
    }
}

// Whether the operand is in memory.
#[inline(always)]
fn is_in_memory(modrm: u8) -> bool
    ensures { result ≡ in_memory modrm }
{
    modrm / 64 != 3
}

// Whether the ModRM byte is the last one, whatever it says.
#[inline(always)]
fn has_lone_modrm(row: Row) -> bool
    ensures { result ≡ is_lone row }
{
    matches!(row.first, Form::ModRm)
}

// The size of the SIB byte: 1, or 0 where there is none.
#[inline(always)]
#[tactic(auto, unfolding(insn_forms::specs::Addressing::sib_size))]
fn size_of_sib(addr32: bool, row: Row, modrm: u8) -> u8
    ensures is { result ≡ sib_size addr32 row modrm }
    ensures below { result ≤ 1 }
{
    if addr32 && !has_lone_modrm(row) && modrm / 64 != 3 && modrm % 8 == 4 {
        1
    } else {
        0
    }
}

// The number of bytes of the displacement.
#[inline(always)]
#[tactic(auto, unfolding(insn_forms::specs::Addressing::disp_size))]
fn size_of_disp(addr32: bool, row: Row, modrm: u8, sib: u8) -> u8
    ensures is { result ≡ disp_size addr32 row modrm sib }
    ensures below { result ≤ 4 }
{
    if has_lone_modrm(row) || modrm / 64 == 3 {
        0
    } else if modrm / 64 == 1 {
        1
    } else if modrm / 64 == 2 {
        if addr32 { 4 } else { 2 }
    } else if addr32 {
        if modrm % 8 == 5 || modrm % 8 == 4 && sib % 8 == 5 {
            4
        } else {
            0
        }
    } else if modrm % 8 == 6 {
        2
    } else {
        0
    }
}

/// The place in memory that ModRM, SIB and displacement name. Source: 80386 Programmer's Reference Manual, ch. 17, "ModR/M and SIB Bytes".
#[inline(always)]
#[tactic(auto, unfolding(insn_forms::specs::Addressing::memory))]
pub fn place_in_memory(prefixes: Prefixes, addr32: bool, address: Addressing) -> MemForm
    ensures { result ≡ memory prefixes addr32 address }
{
    let modrm = address.modrm;
    let sib = address.sib;
    let rm = modrm % 8;
    let seg = prefixes.seg;
    let disp = distance(address);
    if !addr32 {
        place_of(seg, base_16(modrm, rm), index_16(rm), 1, disp)
    } else if rm == 4 {
        place_of(
            seg,
            base_32(modrm, sib % 8),
            index_32(sib),
            scale(sib),
            disp,
        )
    } else {
        place_of(seg, base_32(modrm, rm), None, 1, disp)
    }
}

// The displacement: one of a byte is sign-extended.
#[inline(always)]
fn distance(address: Addressing) -> u32
    ensures { result ≡ displacement address }
{
    if address.modrm / 64 == 1 {
        extended(address.disp)
    } else {
        address.disp
    }
}

/// The low byte of a number, sign-extended to 32 bits. Source: 80386 Programmer's Reference Manual, ch. 17, "ModR/M and SIB Bytes".
#[inline(always)]
pub fn extended(value: u32) -> u32
    ensures { result ≡ sign_extended_byte value }
{
    let low = value % 0x100;
    if low < 0x80 { low } else { low + 0xffff_ff00 }
}

/// The place of these parts, in the segment of the prefixes or the default one.
/// Source: 80386 Programmer's Reference Manual, ch. 2, "Segment Register Usage".
#[inline(always)]
pub fn place_of(
    seg: Option<SegReg>,
    base: Option<u8>,
    index: Option<u8>,
    scale: u8,
    disp: u32,
) -> MemForm
    ensures { result ≡ place seg base index scale disp }
{
    let seg = match seg {
        Some(seg) => seg,
        None => match base {
            Some(4 | 5) => SegReg::Ss,
            _ => SegReg::Ds,
        },
    };
    MemForm {
        base,
        index,
        scale,
        disp,
        seg,
    }
}

// The base register of 16-bit addressing.
#[inline(always)]
fn base_16(modrm: u8, rm: u8) -> Option<u8>
    ensures { result ≡ base16 modrm rm }
{
    match rm {
        0 | 1 | 7 => Some(3),
        2 | 3 => Some(5),
        4 => Some(6),
        5 => Some(7),
        _ => { if modrm / 64 == 0 { None } else { Some(5) } }
    }
}

// The index register of 16-bit addressing.
#[inline(always)]
fn index_16(rm: u8) -> Option<u8>
    ensures { result ≡ index16 rm }
{
    match rm {
        0 | 2 => Some(6),
        1 | 3 => Some(7),
        _ => None,
    }
}

// The base register of 32-bit addressing.
#[inline(always)]
fn base_32(modrm: u8, base: u8) -> Option<u8>
    ensures { result ≡ base32 modrm base }
{
    if base == 5 && modrm / 64 == 0 {
        None
    } else {
        Some(base)
    }
}

// The index register of a SIB byte.
#[inline(always)]
fn index_32(sib: u8) -> Option<u8>
    ensures { result ≡ index32 sib }
{
    if sib / 8 % 8 == 4 {
        None
    } else {
        Some(sib / 8 % 8)
    }
}

// The scale of a SIB byte.
#[inline(always)]
fn scale(sib: u8) -> u8
    ensures { result ≡ scale_of sib }
{
    if sib / 8 % 8 == 4 {
        return 1;
    }
    match sib / 64 {
        0 => 1,
        1 => 2,
        2 => 4,
        _ => 8,
    }
}
