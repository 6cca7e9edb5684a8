// A word moved by a count of bits in one step, together with the carry flag: they are one number of W + 1 bits.
ghost use Rattle.std.specs.Prelude.{◌≡◌, ◌*◌, ◌^◌, ◌<◌, ◌≤◌};
ghost use Rattle.cpu_values.specs.Word.{IsWidth};
ghost use Rattle.cpu_alu.specs.{Packed.{carry_below, from_below, carry_above, from_above, sign_shifted, turned}, Shifts.{bits_moved}};
ghost use Rattle.cpu_alu.specs.Shifts.{shl_bit, shr_bit, sar_bit, rol_bit, ror_bit, rcl_bit, rcr_bit};

use crate::results::{exact, is_negative, modulus};
use cpu_values::{Word, cut};

// The carry flag below the word.
fn pack_below<const W: u8>(a: Word<W>, carry: bool) -> u64
    requires { IsWidth W }
    ensures value { result ≡ carry_below a.entry carry }
    ensures word { a.entry < 2 ^ W }
    ensures most { result < 2 * 2 ^ W }
{
    2 * u64::from(a.get()) + u64::from(carry)
}

// The word and the carry flag below it.
fn unpack_below<const W: u8>(v: u64) -> (Word<W>, bool)
    requires width { IsWidth W }
    requires most { v < 2 * 2 ^ W }
    ensures { result ≡ from_below v }
{
    (cut::<W>(v / 2), v % 2 == 1)
}

// The carry flag above the word.
fn pack_above<const W: u8>(a: Word<W>, carry: bool) -> u64
    requires { IsWidth W }
    ensures value { result ≡ carry_above W a.entry carry }
    ensures word { a.entry < 2 ^ W }
    ensures most { result < 2 * 2 ^ W }
{
    if carry {
        modulus::<W>() + u64::from(a.get())
    } else {
        u64::from(a.get())
    }
}

// The word and the carry flag above it.
fn unpack_above<const W: u8>(v: u64) -> (Word<W>, bool)
    requires { IsWidth W }
    ensures { result ≡ from_above W v }
{
    (cut::<W>(v), v / modulus::<W>() % 2 == 1)
}

// A signed number of W + 1 bits, shifted: a negative one's complement is shifted.
fn shift_signed<const W: u8>(v: u64, count: u8) -> u64
    requires width { IsWidth W }
    requires most { v < 2 * 2 ^ W }
    requires count { count < 32 }
    ensures value { result ≡ sign_shifted W v count }
    ensures most { result < 2 * 2 ^ W }
{
    let ones = 2 * modulus::<W>() - 1;
    if v >= modulus::<W>() {
        ones - ((ones - v) >> count)
    } else {
        v >> count
    }
}

// A number of that many bits, turned to the left.
fn turn(v: u64, bits: u8, count: u8) -> u64
    requires width { bits < 34 }
    requires count { count ≤ bits }
    requires most { v < 2 ^ bits }
    ensures value { result ≡ turned bits v count }
    ensures most { result < 2 ^ bits }
{
    let lower = bits - count;
    ((v % (1u64 << lower)) << count) + (v >> lower)
}

// SHL: the word, and the last bit out.
pub(crate) fn shifted_left<const W: u8>(a: Word<W>, carry: bool, count: u8) -> (Word<W>, bool)
    requires width { IsWidth W }
    requires count { count < 32 }
    ensures { result ≡ bits_moved (shl_bit W) count (a.entry, carry) }
{
    unpack_above(pack_above(a, carry) << count)
}

// SHR: the word, and the last bit out.
pub(crate) fn shifted_right<const W: u8>(a: Word<W>, carry: bool, count: u8) -> (Word<W>, bool)
    requires width { IsWidth W }
    requires count { count < 32 }
    ensures { result ≡ bits_moved (shr_bit W) count (a.entry, carry) }
{
    unpack_below(pack_below(a, carry) >> count)
}

// SAR: the word, and the last bit out.
pub(crate) fn shifted_signed<const W: u8>(a: Word<W>, carry: bool, count: u8) -> (Word<W>, bool)
    requires width { IsWidth W }
    requires count { count < 32 }
    ensures { result ≡ bits_moved (sar_bit W) count (a.entry, carry) }
{
    unpack_below(shift_signed::<W>(pack_below(a, carry), count))
}

// ROL: the bit that went out last came in at the bottom.
pub(crate) fn rotated_left<const W: u8>(a: Word<W>, carry: bool, count: u8) -> (Word<W>, bool)
    requires width { IsWidth W }
    requires count { count < 32 }
    ensures { result ≡ bits_moved (rol_bit W) count (a.entry, carry) }
{
    if count == 0 {
        return (a, carry);
    }
    let r = turn(u64::from(a.get()), W, count % W);
    (exact::<W>(r), r % 2 == 1)
}

// ROR: the bit that went out last came in at the top.
pub(crate) fn rotated_right<const W: u8>(a: Word<W>, carry: bool, count: u8) -> (Word<W>, bool)
    requires width { IsWidth W }
    requires count { count < 32 }
    ensures { result ≡ bits_moved (ror_bit W) count (a.entry, carry) }
{
    if count == 0 {
        return (a, carry);
    }
    let r = exact::<W>(turn(u64::from(a.get()), W, W - count % W));
    (r, is_negative(r))
}

// RCL: word and carry flag are turned together.
pub(crate) fn rotated_left_through_carry<const W: u8>(
    a: Word<W>,
    carry: bool,
    count: u8,
) -> (Word<W>, bool)
    requires width { IsWidth W }
    requires count { count < 32 }
    ensures { result ≡ bits_moved (rcl_bit W) count (a.entry, carry) }
{
    unpack_above(turn(pack_above(a, carry), W + 1, count % (W + 1)))
}

// RCR: word and carry flag are turned together.
pub(crate) fn rotated_right_through_carry<const W: u8>(
    a: Word<W>,
    carry: bool,
    count: u8,
) -> (Word<W>, bool)
    requires width { IsWidth W }
    requires count { count < 32 }
    ensures { result ≡ bits_moved (rcr_bit W) count (a.entry, carry) }
{
    unpack_above(turn(pack_above(a, carry), W + 1, W + 1 - count % (W + 1)))
}
