// Decimal arithmetic: the adjustments of AX.
#![tactic(auto, unfolding(crate::specs::Decimal::daa_of, crate::specs::Decimal::das_of, crate::specs::Decimal::aaa_of, //
crate::specs::Decimal::aas_of, crate::specs::Decimal::aam_of, crate::specs::Decimal::aad_of))]

ghost use Rattle.std.specs.Prelude.{◌≡◌, ◌<◌, ◌≤◌};
ghost use Rattle.cpu_alu.specs.Decimal.{low_adjusts, high_adjusts, adjustment, decimal_of, unpacked_of, daa_of, das_of, aaa_of, aas_of};
ghost use Rattle.cpu_alu.specs.Decimal.{aam_of, aad_of};

use crate::results::set_result;
use client_world::Flags;
use cpu_values::cut;

fn adjusts_low(al: u16, f: Flags) -> bool
    ensures { result ≡ low_adjusts al f }
{
    al % 0x10 > 9 || f.af
}

fn adjusts_high(al: u16, f: Flags) -> bool
    ensures { result ≡ high_adjusts al f }
{
    al > 0x99 || f.cf
}

// What DAA adds and DAS takes off.
fn adjustment(al: u16, f: Flags) -> u16
    ensures value { result ≡ adjustment al f }
    ensures most { result ≤ 0x66 }
{
    let low = if adjusts_low(al, f) { 6 } else { 0 };
    let high = if adjusts_high(al, f) { 0x60 } else { 0 };
    low + high
}

// AX with another AL, and the flags of DAA and DAS.
fn decimal(ax: u16, al: u16, carry: bool, f: Flags) -> (u16, Flags)
    requires { al < 0x100 }
    ensures { result ≡ decimal_of ax al carry f }
{
    let flags = Flags {
        af: adjusts_low(ax % 0x100, f),
        cf: carry,
        ..set_result(cut::<8>(u64::from(al)), f)
    };
    (ax / 0x100 * 0x100 + al, flags)
}

/// DAA: AL is made the packed decimal sum, CF the decimal carry; AH and OF are kept.
/// Source: 80386 Programmer's Reference Manual, ch. 17, DAA; the test against 99h and OF own.
pub fn daa(ax: u16, f: Flags) -> (u16, Flags)
    ensures { result ≡ daa_of ax f }
{
    let al = ax % 0x100;
    let adjusted = (al + adjustment(al, f)) % 0x100;
    decimal(ax, adjusted, adjusts_high(al, f), f)
}

/// DAS: AL is made the packed decimal difference, CF the decimal borrow; AH and OF are kept.
/// Source: 80386 Programmer's Reference Manual, ch. 17, DAS; the test against 99h, the further carry and OF own.
pub fn das(ax: u16, f: Flags) -> (u16, Flags)
    ensures { result ≡ das_of ax f }
{
    let al = ax % 0x100;
    let adjusted = (al + 0x100 - adjustment(al, f)) % 0x100;
    decimal(
        ax,
        adjusted,
        adjusts_high(al, f) || adjusts_low(al, f) && al < 6,
        f,
    )
}

// Where the low digit is adjusted, AX of those two bytes, of which AL keeps its low digit; and the flags of AAA and AAS.
fn unpacked(ax: u16, ah: u16, al: u16, f: Flags) -> (u16, Flags)
    ensures { result ≡ unpacked_of ax ah al f }
{
    let adjusts = adjusts_low(ax % 0x100, f);
    let adjusted = if adjusts {
        ah % 0x100 * 0x100 + al % 0x10
    } else {
        ax / 0x100 * 0x100 + ax % 0x10
    };
    let flags = Flags {
        af: adjusts,
        cf: adjusts,
        ..f
    };
    (adjusted, flags)
}

/// AAA: AL is made one decimal digit of a sum, AH takes the carry; CF and AF say so, and the other flags are kept.
/// Source: 80386 Programmer's Reference Manual, ch. 17, AAA; AL, AH and the kept flags own.
pub fn aaa(ax: u16, f: Flags) -> (u16, Flags)
    ensures { result ≡ aaa_of ax f }
{
    unpacked(ax, ax / 0x100 + 1, ax % 0x100 + 6, f)
}

/// AAS: AL is made one decimal digit of a difference, AH takes the borrow; CF and AF say so, and the other flags are kept.
/// Source: 80386 Programmer's Reference Manual, ch. 17, AAS; AL, AH and the kept flags own.
pub fn aas(ax: u16, f: Flags) -> (u16, Flags)
    ensures { result ≡ aas_of ax f }
{
    unpacked(ax, ax / 0x100 + 0x100 - 1, ax % 0x100 + 0x100 - 6, f)
}

/// AAM: AH and AL are the two digits of AL in the base; OF, AF and CF are kept. `None` comes exactly where the base is 0.
/// Source: 80386 Programmer's Reference Manual, ch. 17, AAM; other bases than 10, and the kept flags, own.
pub fn aam(ax: u16, base: u8, f: Flags) -> Option<(u16, Flags)>
    ensures { result ≡ aam_of ax base f }
{
    if base == 0 {
        return None;
    }
    let (al, base) = (ax % 0x100, u16::from(base));
    let digit = al % base;
    Some((
        al / base * 0x100 + digit,
        set_result(cut::<8>(u64::from(digit)), f),
    ))
}

/// AAD: AL is AH times the base and AL, modulo 2^8; AH is 0. OF, AF and CF are kept.
/// Source: 80386 Programmer's Reference Manual, ch. 17, AAD; other bases than 10, and the kept flags, own.
pub fn aad(ax: u16, base: u8, f: Flags) -> (u16, Flags)
    ensures { result ≡ aad_of ax base f }
{
    let al = (ax / 0x100 * u16::from(base) + ax % 0x100) % 0x100;
    (al, set_result(cut::<8>(u64::from(al)), f))
}
