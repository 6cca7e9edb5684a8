// The operations on bits.
#![tactic(auto, using(std::proofs::lemmas::Nat::or_lt, std::proofs::lemmas::Nat::xor_lt), unfolding(crate::specs::Logic::and_of, //
crate::specs::Logic::or_of, crate::specs::Logic::xor_of, crate::specs::Logic::not_of))]

ghost use Rattle.std.specs.Prelude.{◌≡◌};
ghost use Rattle.cpu_values.specs.Word.{IsWidth};
ghost use Rattle.cpu_alu.specs.Logic.{and_of, or_of, xor_of, not_of};

use crate::results::{exact, set_result};
use client_world::Flags;
use cpu_values::{Word, cut};

// An operation of two words bit by bit: CF and OF are clear, AF is kept.
macro_rules! bitwise {
    ($a:ident $operator:tt $b:ident, $f:ident) => {{
        let r = exact::<W>(u64::from($a.get() $operator $b.get()));
        (r, Flags { cf: false, of: false, ..set_result(r, $f) })
    }};
}

/// AND; CF and OF are clear, AF is kept. TEST is this with the result dropped. W is 8, 16 or 32.
/// Source: 80386 Programmer's Reference Manual, ch. 17, AND and TEST; AF own.
#[inline(always)]
pub fn and<const W: u8>(a: Word<W>, b: Word<W>, f: Flags) -> (Word<W>, Flags)
    requires { IsWidth W }
    ensures { result ≡ and_of W a.entry b.entry f }
{
    bitwise!(a & b, f)
}

/// OR; CF and OF are clear, AF is kept. W is 8, 16 or 32.
/// Source: 80386 Programmer's Reference Manual, ch. 17, OR; AF own.
#[inline(always)]
pub fn or<const W: u8>(a: Word<W>, b: Word<W>, f: Flags) -> (Word<W>, Flags)
    requires { IsWidth W }
    ensures { result ≡ or_of W a.entry b.entry f }
{
    bitwise!(a | b, f)
}

/// XOR; CF and OF are clear, AF is kept. W is 8, 16 or 32.
/// Source: 80386 Programmer's Reference Manual, ch. 17, XOR; AF own.
#[inline(always)]
pub fn xor<const W: u8>(a: Word<W>, b: Word<W>, f: Flags) -> (Word<W>, Flags)
    requires { IsWidth W }
    ensures { result ≡ xor_of W a.entry b.entry f }
{
    bitwise!(a ^ b, f)
}

/// NOT: each bit the other way; all flags are kept. W is 8, 16 or 32.
/// Source: 80386 Programmer's Reference Manual, ch. 17, NOT.
#[inline(always)]
pub fn not<const W: u8>(a: Word<W>, f: Flags) -> (Word<W>, Flags)
    requires { IsWidth W }
    ensures { result ≡ not_of W a.entry f }
{
    (cut::<W>(!u64::from(a.get())), f)
}
