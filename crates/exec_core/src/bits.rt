// Bits of an operand, and SETcc.
#![tactic(auto, unfolding(crate::specs::Bits::setcc, crate::specs::Bits::bit_test, crate::specs::Bits::bit_change, //
crate::specs::Bits::bit_scan, insn_plan::specs::Plan::after_plan, insn_plan::specs::Plan::after_commit, //
guest_space::specs::Pending::first_write_fault, guest_space::specs::Pending::after_writes))]

ghost use Rattle.std.specs.Prelude.{◌≡◌, ℕ, ◌+◌, ◌%◌, ◌<◌, ◌^◌, IsTrue, if◌then◌else◌};
ghost use Rattle.exec_core.specs.Bits.{setcc, bit_distance, bit_operand, bit_at, bit_set, bit_reset, bit_complement, bit_test, bit_change};
ghost use Rattle.exec_core.specs.Bits.{bit_scan, lowest_bit, highest_bit};
ghost use Rattle.insn_forms.specs.Kinds.{is_width};
ghost use Rattle.insn_plan.specs.Plan.{CarriesOut};

use crate::moves::cut;
use client_world::Flags;
use guest_space::Machine;
use insn_forms::{Insn, MemForm, Operand};
use insn_plan::{Raised, condition, put_operand, put_with_flags, source};

/// SETcc. Source: 80386 Programmer's Reference Manual, ch. 17.
#[inline(never)]
pub(crate) fn setcc(m: &mut Machine, i: &Insn, n: u8) -> Result<(), Raised>
    ensures { CarriesOut m.old m.new result (setcc m.old.world i.now n) }
{
    let v = u32::from(condition(n, &m.registers().flags));
    put_operand(m, i.addr32, 8, &i.first, v)
}

// How far a bit's offset moves an operand in memory, in bytes, modulo 2^32.
fn bit_distance(width: u8, offset: u32) -> u64
    requires { IsTrue (is_width width) }
    ensures value { result ≡ bit_distance width offset }
    ensures fits { result < 2 ^ 33 }
{
    let width = u64::from(width);
    let offset = u64::from(offset);
    let forward = width / 8 * (offset / width);
    if offset < 1u64 << (width - 1) {
        forward
    } else {
        forward + 0x1_0000_0000 - (1u64 << width) / 8
    }
}

// A place in memory n bytes further on, modulo 2^32.
fn moved_form(f: MemForm, distance: u64) -> MemForm
    requires { distance < 2 ^ 33 }
    ensures { result ≡ record f { disp = (f.disp + distance) % 2 ^ 32 } }
{
    let disp = (u64::from(f.disp) + distance) % 0x1_0000_0000;
    MemForm {
        disp: disp as u32,
        ..f
    }
}

/// The operand in which the bit at an offset is: memory moves with an offset in a register.
pub(crate) fn bit_operand(i: &Insn, offset: u32) -> Operand
    requires { IsTrue (is_width i.now.width) }
    ensures { result ≡ bit_operand i.now offset i.now.first }
{
    match (i.first, i.second) {
        (Operand::Mem(f), Operand::Reg { .. }) => {
            Operand::Mem(moved_form(f, bit_distance(i.width, offset)))
        }
        (operand, _) => operand,
    }
}

// Whether the bit of a number is set.
fn bit_at(v: u32, n: u8) -> bool
    requires { n < 32 }
    ensures { result ≡ bit_at v n }
{
    v / (1u32 << n) % 2 == 1
}

/// BT. Source: 80386 Programmer's Reference Manual, ch. 17.
#[inline(never)]
pub(crate) fn bit_test(m: &mut Machine, i: &Insn) -> Result<(), Raised>
    requires { IsTrue (is_width i.now.width) }
    ensures { CarriesOut m.old m.new result (bit_test m.old.world i.now) }
{
    let offset = cut(i.width, source(m, i.addr32, i.width, &i.second)?);
    let a = source(m, i.addr32, i.width, &bit_operand(i, offset))?;
    let bit = bit_at(a, (offset % u32::from(i.width)) as u8);
    m.set_flags(Flags {
        cf: bit,
        ..m.registers().flags
    });
    Ok(())
}

/// What is made of a bit of a number.
pub(crate) trait BitChange {
    ghost formula: { ℕ → ℕ → ℕ };

    /// The number with that bit changed.
    fn changed(v: u32, n: u8) -> u32
        requires { n < 32 }
        ensures { result ≡ formula v n };
}

/// BTS: the bit is set.
pub(crate) struct Set;

impl BitChange for Set {
    ghost formula = { bit_set };

    #[tactic(auto, using(crate::proofs::BitLaws::room_for_bit, crate::proofs::BitLaws::weight_fits))]
    fn changed(v: u32, n: u8) -> u32 {
        if bit_at(v, n) { v } else { v + (1u32 << n) }
    }
}

/// BTR: the bit is cleared.
pub(crate) struct Reset;

impl BitChange for Reset {
    ghost formula = { bit_reset };

    fn changed(v: u32, n: u8) -> u32 {
        if bit_at(v, n) { v - (1u32 << n) } else { v }
    }
}

/// BTC: the bit becomes the other one.
pub(crate) struct Toggle;

impl BitChange for Toggle {
    ghost formula = { bit_complement };

    #[tactic(auto, using(crate::proofs::BitLaws::room_for_bit, crate::proofs::BitLaws::weight_fits))]
    fn changed(v: u32, n: u8) -> u32 {
        if bit_at(v, n) {
            v - (1u32 << n)
        } else {
            v + (1u32 << n)
        }
    }
}

/// BTS, BTR, BTC. Source: 80386 Programmer's Reference Manual, ch. 17.
#[inline(never)]
pub(crate) fn bit_change<C: BitChange>(m: &mut Machine, i: &Insn) -> Result<(), Raised>
    requires { IsTrue (is_width i.now.width) }
    ensures { CarriesOut m.old m.new result (bit_change C.formula m.old.world i.now) }
{
    let offset = cut(i.width, source(m, i.addr32, i.width, &i.second)?);
    let operand = bit_operand(i, offset);
    let a = source(m, i.addr32, i.width, &operand)?;
    let n = (offset % u32::from(i.width)) as u8;
    let flags = Flags {
        cf: bit_at(a, n),
        ..m.registers().flags
    };
    put_with_flags(m, flags, i.addr32, i.width, &operand, C::changed(a, n))
}

// The place of the lowest bit that is set, among the lowest n bits; their number where none is.
fn lowest_bit(mut v: u32, width: u8) -> u32
    ensures { result ≡ lowest_bit v width }
{
    for k in 0..width {
        if v % 2 == 1 {
            return u32::from(k);
        }
        v /= 2;
    }
    u32::from(width)
}

// The place of the highest bit that is set, among the lowest n bits.
fn highest_bit(mut v: u32, width: u8) -> u32
    ensures { result ≡ highest_bit v width }
{
    for k in 0..width {
        if v < 2 {
            return u32::from(k);
        }
        v /= 2;
    }
    u32::from(width)
}

/// BSF where `forward`, otherwise BSR. Source: 80386 Programmer's Reference Manual, ch. 17.
#[inline(never)]
pub(crate) fn bit_scan(m: &mut Machine, i: &Insn, forward: bool) -> Result<(), Raised>
    requires { IsTrue (is_width i.now.width) }
    ensures { CarriesOut m.old m.new result (bit_scan (if forward then lowest_bit else highest_bit) m.old.world i.now) }
{
    let v = cut(i.width, source(m, i.addr32, i.width, &i.second)?);
    let flags = Flags {
        zf: v == 0,
        ..m.registers().flags
    };
    if v == 0 {
        m.set_flags(flags);
        return Ok(());
    }
    let place = if forward {
        lowest_bit(v, i.width)
    } else {
        highest_bit(v, i.width)
    };
    put_with_flags(m, flags, i.addr32, i.width, &i.first, place)
}
