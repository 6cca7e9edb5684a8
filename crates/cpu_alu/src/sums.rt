// Sums and differences: one body for the additions, one for the subtractions.
#![tactic(auto, unfolding(crate::specs::Sums::add_of, crate::specs::Sums::adc_of, crate::specs::Sums::sub_of, crate::specs::Sums::sbb_of, //
crate::specs::Sums::inc_of, crate::specs::Sums::dec_of, crate::specs::Sums::neg_of))]

ghost use Rattle.std.specs.Prelude.{◌≡◌, ◌+◌, ◌-◌, ◌/◌, ◌%◌, ◌^◌, ◌<◌, ◌&&◌, nat_eq, nat_le, nat_lt};
ghost use Rattle.cpu_values.specs.Word.{IsWidth};
ghost use Rattle.cpu_alu.specs.{Results.{bit_of, low_bit}, Sums.{word_sum, word_difference, sum_overflows, sum_with_flags}};
ghost use Rattle.cpu_alu.specs.Sums.{difference_overflows, difference_with_flags, add_of, adc_of, sub_of, sbb_of, inc_of, dec_of, neg_of};

use crate::results::{modulus, set_result};
use client_world::Flags;
use cpu_values::{Word, cut};

// a + b + carry, modulo 2^W.
#[inline(always)]
fn word_sum<const W: u8>(a: Word<W>, b: Word<W>, carry: u64) -> Word<W>
    requires width { IsWidth W }
    requires carry { carry < 2 }
    ensures { result ≡ word_sum W a.entry b.entry carry }
{
    cut::<W>(u64::from(a.get()) + u64::from(b.get()) + carry)
}

// Whether the signs of two words differ, and so do those of two others.
#[inline(always)]
#[tactic(auto, using(crate::proofs::Signs::both_top_bits))]
fn both_signs_differ<const W: u8>(a: Word<W>, b: Word<W>, c: Word<W>, d: Word<W>) -> bool
    requires { IsWidth W }
    ensures { result
        ≡ (low_bit (a.entry / 2 ^ (W - 1) + b.entry / 2 ^ (W - 1)) && low_bit (c.entry / 2 ^ (W - 1) + d.entry / 2 ^ (W - 1))) }
{
    (((a.get() ^ b.get()) & (c.get() ^ d.get())) >> (W - 1)) % 2 == 1
}

// Whether the low four bits of two words carry into the bit above, or borrow from it, where `r` is their sum or difference.
#[inline(always)]
#[tactic(auto, using(crate::proofs::Signs::odd_above))]
fn carries_in_middle<const W: u8>(a: Word<W>, b: Word<W>, r: Word<W>) -> bool
    ensures { result ≡ low_bit (a.entry / 0x10 + b.entry / 0x10 + r.entry / 0x10) }
{
    (a.get() ^ b.get() ^ r.get()) / 0x10 % 2 == 1
}

// The signed sum is out of range: the result's sign is neither that of a nor that of b.
#[inline(always)]
fn sum_overflows<const W: u8>(a: Word<W>, b: Word<W>, carry: u64) -> bool
    requires width { IsWidth W }
    requires carry { carry < 2 }
    ensures { result ≡ sum_overflows W a.entry b.entry carry }
{
    let r = word_sum(a, b, carry);
    both_signs_differ(a, r, b, r)
}

// Whether the low four bits of a sum carry.
#[inline(always)]
#[tactic(auto, using(crate::proofs::Signs::sum_carries))]
fn sum_carries<const W: u8>(a: Word<W>, b: Word<W>, carry: u64) -> bool
    requires width { IsWidth W }
    requires carry { carry < 2 }
    ensures { result ≡ nat_le 0x10 (a.entry % 0x10 + b.entry % 0x10 + carry) }
{
    carries_in_middle(a, b, word_sum(a, b, carry))
}

// a + b + carry.
#[inline(always)]
fn add_carry<const W: u8>(a: Word<W>, b: Word<W>, carry: bool, f: Flags) -> (Word<W>, Flags)
    requires { IsWidth W }
    ensures { result ≡ sum_with_flags W a.entry b.entry (bit_of carry) f }
{
    let (x, y, carry) = (u64::from(a.get()), u64::from(b.get()), u64::from(carry));
    let r = word_sum(a, b, carry);
    let flags = Flags {
        cf: x + y + carry >= modulus::<W>(),
        af: sum_carries(a, b, carry),
        of: sum_overflows(a, b, carry),
        ..set_result(r, f)
    };
    (r, flags)
}

// a − b − borrow, modulo 2^W.
#[inline(always)]
fn word_difference<const W: u8>(a: Word<W>, b: Word<W>, borrow: bool) -> Word<W>
    requires { IsWidth W }
    ensures { result ≡ word_difference W a.entry b.entry (bit_of borrow) }
{
    cut::<W>(u64::from(a.get()) + modulus::<W>() - u64::from(b.get()) - u64::from(borrow))
}

// The signed difference is out of range: the signs differ, and the result's is not that of a.
#[inline(always)]
fn difference_overflows<const W: u8>(a: Word<W>, b: Word<W>, borrow: bool) -> bool
    requires { IsWidth W }
    ensures { result ≡ difference_overflows W a.entry b.entry (bit_of borrow) }
{
    both_signs_differ(a, b, a, word_difference(a, b, borrow))
}

// More is taken off than there is.
#[inline(always)]
fn borrows(x: u64, y: u64, borrow: bool) -> bool
    requires { y < 2 ^ 32 }
    ensures { result ≡ nat_lt x (y + bit_of borrow) }
{
    x < y + u64::from(borrow)
}

// Whether the low four bits of a difference borrow.
#[inline(always)]
#[tactic(auto, using(crate::proofs::Signs::difference_borrows))]
fn difference_borrows<const W: u8>(a: Word<W>, b: Word<W>, borrow: bool) -> bool
    requires { IsWidth W }
    ensures { result ≡ nat_lt (a.entry % 0x10) (b.entry % 0x10 + bit_of borrow) }
{
    carries_in_middle(a, b, word_difference(a, b, borrow))
}

// a − b − borrow.
#[inline(always)]
fn sub_borrow<const W: u8>(a: Word<W>, b: Word<W>, borrow: bool, f: Flags) -> (Word<W>, Flags)
    requires { IsWidth W }
    ensures { result ≡ difference_with_flags W a.entry b.entry (bit_of borrow) f }
{
    let (x, y) = (u64::from(a.get()), u64::from(b.get()));
    let r = word_difference(a, b, borrow);
    let flags = Flags {
        cf: borrows(x, y, borrow),
        af: difference_borrows(a, b, borrow),
        of: difference_overflows(a, b, borrow),
        ..set_result(r, f)
    };
    (r, flags)
}

/// ADD: a + b, with all six status flags. W is 8, 16 or 32.
/// Source: 80386 Programmer's Reference Manual, ch. 17, ADD.
#[inline(always)]
pub fn add<const W: u8>(a: Word<W>, b: Word<W>, f: Flags) -> (Word<W>, Flags)
    requires { IsWidth W }
    ensures { result ≡ add_of W a.entry b.entry f }
{
    add_carry(a, b, false, f)
}

/// ADC: a + b + CF, with all six status flags. W is 8, 16 or 32.
/// Source: 80386 Programmer's Reference Manual, ch. 17, ADC.
#[inline(always)]
pub fn adc<const W: u8>(a: Word<W>, b: Word<W>, f: Flags) -> (Word<W>, Flags)
    requires { IsWidth W }
    ensures { result ≡ adc_of W a.entry b.entry f }
{
    add_carry(a, b, f.cf, f)
}

/// SUB: a − b, with all six status flags. CMP is this with the result dropped. W is 8, 16 or 32.
/// Source: 80386 Programmer's Reference Manual, ch. 17, SUB and CMP.
#[inline(always)]
pub fn sub<const W: u8>(a: Word<W>, b: Word<W>, f: Flags) -> (Word<W>, Flags)
    requires { IsWidth W }
    ensures { result ≡ sub_of W a.entry b.entry f }
{
    sub_borrow(a, b, false, f)
}

/// SBB: a − b − CF, with all six status flags. W is 8, 16 or 32.
/// Source: 80386 Programmer's Reference Manual, ch. 17, SBB.
#[inline(always)]
pub fn sbb<const W: u8>(a: Word<W>, b: Word<W>, f: Flags) -> (Word<W>, Flags)
    requires { IsWidth W }
    ensures { result ≡ sbb_of W a.entry b.entry f }
{
    sub_borrow(a, b, f.cf, f)
}

// The word is the least signed number: only its highest bit is set.
#[inline(always)]
fn is_least<const W: u8>(a: Word<W>) -> bool
    requires { IsWidth W }
    ensures { result ≡ nat_eq a.entry (2 ^ (W - 1)) }
{
    u64::from(a.get()) == 1u64 << (W - 1)
}

/// INC: a + 1; CF is kept. W is 8, 16 or 32.
/// Source: 80386 Programmer's Reference Manual, ch. 17, INC.
#[inline(always)]
#[tactic(auto, unfolding(crate::specs::Sums::inc_of), using(crate::proofs::Signs::least_after_one_more))]
pub fn inc<const W: u8>(a: Word<W>, f: Flags) -> (Word<W>, Flags)
    requires { IsWidth W }
    ensures { result ≡ inc_of W a.entry f }
{
    let (r, flags) = add_carry(a, cut::<W>(1), false, f);
    // Of a sum with 1 this says as much as the signs of both numbers, and takes fewer instructions.
    let (cf, of) = (f.cf, is_least(r));
    (r, Flags { cf, of, ..flags })
}

/// DEC: a − 1; CF is kept. W is 8, 16 or 32.
/// Source: 80386 Programmer's Reference Manual, ch. 17, DEC.
#[inline(always)]
#[tactic(auto, unfolding(crate::specs::Sums::dec_of), using(crate::proofs::Signs::least_before_one_less))]
pub fn dec<const W: u8>(a: Word<W>, f: Flags) -> (Word<W>, Flags)
    requires { IsWidth W }
    ensures { result ≡ dec_of W a.entry f }
{
    let (r, flags) = sub_borrow(a, cut::<W>(1), false, f);
    let (cf, of) = (f.cf, is_least(a));
    (r, Flags { cf, of, ..flags })
}

/// NEG: 0 − a, with all six status flags: CF says that a isn't 0. W is 8, 16 or 32.
/// Source: 80386 Programmer's Reference Manual, ch. 17, NEG.
#[inline(always)]
pub fn neg<const W: u8>(a: Word<W>, f: Flags) -> (Word<W>, Flags)
    requires { IsWidth W }
    ensures { result ≡ neg_of W a.entry f }
{
    sub_borrow(cut::<W>(0), a, false, f)
}
