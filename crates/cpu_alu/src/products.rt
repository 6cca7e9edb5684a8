// Products of two words, and the words of a signed number.
#![tactic(auto, unfolding(crate::specs::Products::mul_of, crate::specs::Products::imul_of))]

ghost use Rattle.std.specs.Prelude.{◌≡◌, ◌*◌, ◌/◌, ◌^◌, ◌*ℤ◌};
ghost use Rattle.cpu_values.specs.Word.{IsWidth};
ghost use Rattle.cpu_alu.specs.Products.{signed_bits, product_flags, mul_of, imul_of};

use crate::results::{fits, modulus};
use client_world::Flags;
use cpu_values::{Word, cut, signed};

// The word that means a signed number, or its low half.
pub(crate) fn low_word<const W: u8>(z: i64) -> Word<W>
    requires { IsWidth W }
    ensures { result ≡ signed_bits W z }
{
    cut::<W>(z.cast_unsigned())
}

// The high half of a signed number of two words.
fn high_word<const W: u8>(z: i64) -> Word<W>
    requires { IsWidth W }
    ensures { result ≡ signed_bits (2 * W) z / 2 ^ W }
{
    cut::<W>(z.cast_unsigned() / modulus::<W>())
}

fn multiply(x: i32, y: i32) -> i64
    ensures { result ≡ x *ℤ y }
{
    i64::from(x) * i64::from(y)
}

// Whether the high half is needed, in CF and OF.
fn set_product(wide: bool, f: Flags) -> Flags
    ensures { result ≡ product_flags wide f }
{
    Flags {
        cf: wide,
        of: wide,
        ..f
    }
}

/// MUL: the low and the high half of a · b; CF and OF say that the high half isn't 0, and the other flags are kept.
/// W is 8, 16 or 32.
/// Source: 80386 Programmer's Reference Manual, ch. 17, MUL; SF, ZF, AF and PF own.
pub fn mul<const W: u8>(a: Word<W>, b: Word<W>, f: Flags) -> (Word<W>, Word<W>, Flags)
    requires { IsWidth W }
    ensures { result ≡ mul_of W a.entry b.entry f }
{
    let product = u64::from(a.get()) * u64::from(b.get());
    let high = cut::<W>(product / modulus::<W>());
    (cut::<W>(product), high, set_product(high.get() != 0, f))
}

/// IMUL: the low and the high half of the signed product; CF and OF say that it doesn't fit the low half, and the other flags
/// are kept. The forms with a destination drop the high half. W is 8, 16 or 32.
/// Source: 80386 Programmer's Reference Manual, ch. 17, IMUL; SF, ZF, AF and PF own.
pub fn imul<const W: u8>(a: Word<W>, b: Word<W>, f: Flags) -> (Word<W>, Word<W>, Flags)
    requires { IsWidth W }
    ensures { result ≡ imul_of W a.entry b.entry f }
{
    let product = multiply(signed(a), signed(b));
    (
        low_word(product),
        high_word(product),
        set_product(!fits::<W>(product), f),
    )
}
