// Numbers read from memory.
ghost use Rattle.std.specs.Prelude.{◌≡◌, Err, IfSome, MatchResult, Ok};
ghost use Rattle.client_world.specs.declared.faults.Event.TheVariants.{Fault as fault};
ghost use Rattle.guest_space.specs.{Pending.{IsCountOfWidth, byte_count}, WriteRuns.{IsRun}};
ghost use Rattle.insn_forms.specs.Grammar.{little_endian};
ghost use Rattle.insn_plan.specs.Act.{From, IsCount, value_of};

use crate::raised::Raised;
use client_world::{Fault, SegReg};
use guest_space::{Machine, byte_count};

// The number of one byte.
#[tactic(auto, using(crate::proofs::Numbers::number_of_one))]
fn byte(bytes: [u8; 1]) -> u32
    ensures { result ≡ little_endian bytes }
{
    u32::from(bytes[0])
}

// The number of two bytes, least byte first.
#[inline(always)]
#[tactic(auto, using(crate::proofs::Numbers::number_of_two))]
pub(crate) fn word(bytes: [u8; 2]) -> u32
    ensures { result ≡ little_endian bytes }
{
    u32::from(u16::from_le_bytes(bytes))
}

// The number of four bytes, least byte first.
#[inline(always)]
#[tactic(auto, using(crate::proofs::Numbers::number_of_four))]
pub(crate) fn doubleword(bytes: [u8; 4]) -> u32
    ensures { result ≡ little_endian bytes }
{
    u32::from_le_bytes(bytes)
}

// The number of six bytes, least byte first.
#[tactic(auto, using(crate::proofs::Numbers::number_of_six))]
fn three_words(bytes: [u8; 6]) -> u64
    ensures { result ≡ little_endian bytes }
{
    u64::from_le_bytes([
        bytes[0], bytes[1], bytes[2], bytes[3], bytes[4], bytes[5], 0, 0,
    ])
}

// The number of eight bytes, least byte first.
#[tactic(auto, using(crate::proofs::Numbers::number_of_eight))]
fn quadword(bytes: [u8; 8]) -> u64
    ensures { result ≡ little_endian bytes }
{
    u64::from_le_bytes(bytes)
}

// The number of 1, 2 or 4 bytes at an offset of a segment register, or the fault of the access.
#[inline(always)]
#[tactic(auto, unfolding(crate::specs::Act::value_of))]
fn number_or_fault(m: &Machine, seg: SegReg, off: u32, count: u8) -> Result<u32, Fault>
    requires { IsCountOfWidth count }
    ensures { MatchResult result (λ v. value_of m.now.world (From seg off count) ≡ Ok v)
        (λ f. value_of m.now.world (From seg off count) ≡ Err (fault f)) }
{
    match count {
        1 => Ok(byte(m.read::<1>(seg, off)?)),
        2 => Ok(word(m.read::<2>(seg, off)?)),
        _ => Ok(doubleword(m.read::<4>(seg, off)?)),
    }
}

/// The number of 1, 2 or 4 bytes, least byte first, at an offset of a segment register, or the fault of the access. It notes no page.
/// Source: own.
#[inline(always)]
pub fn number_at(m: &Machine, seg: SegReg, off: u32, count: u8) -> Result<u32, Raised>
    requires { IsCountOfWidth count }
    ensures { result ≡ value_of m.now.world (From seg off count) }
{
    Ok(number_or_fault(m, seg, off, count)?)
}

/// The number of a width at an offset of a segment register, where a quick look shows it; `None` says nothing.
#[inline(always)]
#[tactic(auto, unfolding(crate::specs::Act::value_of))]
pub(crate) fn read_quickly(m: &Machine, seg: SegReg, off: u32, width: u8) -> Option<u32>
    ensures { IfSome result (λ v. value_of m.now.world (From seg off (byte_count width)) ≡ Ok v) }
{
    match width {
        8 => Some(byte(m.read_quickly(seg, off)?)),
        16 => Some(word(m.read_quickly(seg, off)?)),
        _ => Some(doubleword(m.read_quickly(seg, off)?)),
    }
}

/// The number of a width at an offset of a segment register, whose address in the memory is known.
#[inline(always)]
#[tactic(auto, unfolding(crate::specs::Act::value_of))]
pub(crate) fn number_there(m: &Machine, seg: SegReg, width: u8, off: u32, at: u32) -> u32
    requires { IsRun m.now seg off (byte_count width) at }
    ensures { value_of m.now.world (From seg off (byte_count width)) ≡ Ok result }
{
    match width {
        8 => byte(m.read_run(seg, off, at)),
        16 => word(m.read_run(seg, off, at)),
        _ => doubleword(m.read_run(seg, off, at)),
    }
}

/// The number, by the tables, after its page was noted.
#[cold]
#[inline(never)]
pub(crate) fn note_and_read(m: &mut Machine, seg: SegReg, off: u32, width: u8) -> Result<u32, Fault>
    ensures value { MatchResult result (λ v. value_of m.old.world (From seg off (byte_count width)) ≡ Ok v)
        (λ f. value_of m.old.world (From seg off (byte_count width)) ≡ Err (fault f)) }
    ensures kept { m.new ≡ m.old }
{
    m.warm(seg, off);
    number_or_fault(m, seg, off, byte_count(width))
}

/// Reads a number of a width, 8, 16 or 32 bits, at an offset of a segment register, or gives the fault of the access. Where a quick look
/// doesn't show it, the page is noted; nothing else changes.
/// Source: own.
#[inline(always)]
pub fn read_width(m: &mut Machine, seg: SegReg, off: u32, width: u8) -> Result<u32, Raised>
    ensures value { result ≡ value_of m.old.world (From seg off (byte_count width)) }
    ensures kept { m.new ≡ m.old }
{
    match read_quickly(m, seg, off, width) {
        Some(v) => Ok(v),
        None => Ok(note_and_read(m, seg, off, width)?),
    }
}

/// The number of 1, 2, 4, 6 or 8 bytes, least byte first, at an offset of a segment register, or the fault of the access. It notes no page.
/// Source: own.
#[tactic(auto, unfolding(crate::specs::Act::value_of))]
pub fn read_number(m: &Machine, seg: SegReg, off: u32, count: u8) -> Result<u64, Raised>
    requires { IsCount count }
    ensures { result ≡ value_of m.now.world (From seg off count) }
{
    match count {
        1 => Ok(u64::from(byte(m.read::<1>(seg, off)?))),
        2 => Ok(u64::from(word(m.read::<2>(seg, off)?))),
        4 => Ok(u64::from(doubleword(m.read::<4>(seg, off)?))),
        6 => Ok(three_words(m.read::<6>(seg, off)?)),
        _ => Ok(quadword(m.read::<8>(seg, off)?)),
    }
}
