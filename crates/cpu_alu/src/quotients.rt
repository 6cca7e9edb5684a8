// Quotients of a double word.
#![tactic(auto, unfolding(crate::specs::Quotients::div_of, crate::specs::Quotients::idiv_of))]

ghost use Rattle.std.specs.{Prelude.{◌≡◌, ◌-◌, ◌^◌, ℤ, pos, ◌*ℤ◌, ◌≤ℤ◌, int_div, int_rem, SomeIff, FitsSigned}, Int.{w64}};
ghost use Rattle.cpu_values.specs.Word.{IsWidth, signed_value};
ghost use Rattle.cpu_alu.specs.Quotients.{signed_double_word, signed_quotient_of, div_of, idiv_of};

use crate::products::low_word;
use crate::results::{fits, modulus};
use cpu_values::{Word, cut, signed};

/// DIV: quotient and remainder of the double word of both halves by a word. `None` comes exactly where the divisor is 0 or the
/// quotient takes more than W bits. All flags are kept. W is 8, 16 or 32.
/// Source: 80386 Programmer's Reference Manual, ch. 17, DIV; flags own.
pub fn div<const W: u8>(low: Word<W>, high: Word<W>, by: Word<W>) -> Option<(Word<W>, Word<W>)>
    requires { IsWidth W }
    ensures { result ≡ div_of W low.entry high.entry by.entry }
{
    let dividend = u64::from(high.get()) * modulus::<W>() + u64::from(low.get());
    let divisor = u64::from(by.get());
    if divisor == 0 || dividend / divisor >= modulus::<W>() {
        return None;
    }
    Some((cut::<W>(dividend / divisor), cut::<W>(dividend % divisor)))
}

// The number of words of W bits, as a signed number.
fn signed_modulus<const W: u8>() -> i64
    requires { IsWidth W }
    ensures { result ≡ pos (2 ^ W) }
{
    modulus::<W>().cast_signed()
}

// What the high half counts in a signed double word.
fn upper_part<const W: u8>(high: Word<W>) -> i64
    requires { IsWidth W }
    ensures value { result ≡ signed_value W high.entry *ℤ pos (2 ^ W) }
    ensures most { result ≤ℤ pos (2 ^ 63 - 2 ^ 32) }
{
    i64::from(signed(high)) * signed_modulus::<W>()
}

// The signed double word of both halves.
fn signed_dividend<const W: u8>(low: Word<W>, high: Word<W>) -> i64
    requires { IsWidth W }
    ensures { result ≡ signed_double_word W low.entry high.entry }
{
    upper_part(high) + i64::from(low.get())
}

// Quotient and remainder of numbers of 64 bits; the quotient of the least one by −1 doesn't fit.
fn divide_long(dividend: i64, by: i64) -> Option<(i64, i64)>
    requires { by ≡ pos 0 → ⊥ }
    ensures { SomeIff result (FitsSigned w64 (int_div dividend by)) (int_div dividend by, int_rem dividend by) }
{
    let quotient = dividend.checked_div(by)?;
    let remainder = dividend.checked_rem(by)?;
    Some((quotient, remainder))
}

// Quotient and remainder as words.
fn divide_signed<const W: u8>(dividend: i64, by: i64) -> Option<(Word<W>, Word<W>)>
    requires width { IsWidth W }
    requires nonzero { by ≡ pos 0 → ⊥ }
    ensures { result ≡ signed_quotient_of W dividend by }
{
    let Some((quotient, remainder)) = divide_long(dividend, by) else {
        return None;
    };
    if fits::<W>(quotient) {
        Some((low_word(quotient), low_word(remainder)))
    } else {
        None
    }
}

/// IDIV: quotient, truncated toward zero, and remainder of the signed double word of both halves by a signed word. `None` comes
/// exactly where the divisor is 0 or the quotient isn't from −2^(W−1) to 2^(W−1) − 1. All flags are kept. W is 8, 16 or 32.
/// Source: 80386 Programmer's Reference Manual, ch. 17, IDIV; flags own.
pub fn idiv<const W: u8>(low: Word<W>, high: Word<W>, by: Word<W>) -> Option<(Word<W>, Word<W>)>
    requires { IsWidth W }
    ensures { result ≡ idiv_of W low.entry high.entry by.entry }
{
    if by.get() == 0 {
        return None;
    }
    divide_signed(signed_dividend(low, high), i64::from(signed(by)))
}
