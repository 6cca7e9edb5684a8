// The operations of two numbers and of one, at a width of 8, 16 or 32 bits.
ghost use Rattle.std.specs.Prelude.{◌≡◌};
ghost use Rattle.cpu_alu.specs.{Logic.{and_of, or_of, xor_of, not_of}, Sums.{add_of, adc_of, sub_of, sbb_of, inc_of, dec_of, neg_of}};
ghost use Rattle.cpu_values.specs.Word.{IsWidth};
ghost use Rattle.exec_core.specs.Arithmetic.{Formula, SingleFormula};

use client_world::Flags;
use cpu_alu::{adc, add, and, dec, inc, neg, not, or, sbb, sub, xor};
use cpu_values::Word;

/// What an operation of two numbers computes.
pub(crate) trait BinaryFormula {
    ghost formula: { Formula };
}

/// An operation of two numbers of W bits. W is 8, 16 or 32.
pub(crate) trait BinaryAt<const W: u8>: BinaryFormula {
    /// The result and the flags of two numbers, where the flags were `f`.
    fn apply(a: Word<W>, b: Word<W>, f: Flags) -> (Word<W>, Flags)
        requires { IsWidth W }
        ensures { result ≡ Self.formula W a.entry b.entry f };
}

/// An operation of two numbers at each width.
pub(crate) trait Binary: BinaryAt<8> + BinaryAt<16> + BinaryAt<32> + Copy {}

impl<O: BinaryAt<8> + BinaryAt<16> + BinaryAt<32> + Copy> Binary for O {}

/// What an operation of one number computes.
pub(crate) trait UnaryFormula {
    ghost formula: { SingleFormula };
}

/// An operation of one number of W bits. W is 8, 16 or 32.
pub(crate) trait UnaryAt<const W: u8>: UnaryFormula {
    /// The result and the flags of a number, where the flags were `f`.
    fn apply(a: Word<W>, f: Flags) -> (Word<W>, Flags)
        requires { IsWidth W }
        ensures { result ≡ Self.formula W a.entry f };
}

/// An operation of one number at each width.
pub(crate) trait Unary: UnaryAt<8> + UnaryAt<16> + UnaryAt<32> + Copy {}

impl<O: UnaryAt<8> + UnaryAt<16> + UnaryAt<32> + Copy> Unary for O {}

/// ADD.
#[derive(Clone, Copy)]
pub(crate) struct Add;

impl BinaryFormula for Add {
    ghost formula = { add_of };
}

impl<const W: u8> BinaryAt<W> for Add {
    #[inline(always)]
    fn apply(a: Word<W>, b: Word<W>, f: Flags) -> (Word<W>, Flags)
        requires { IsWidth W }
        ensures { result ≡ add_of W a.entry b.entry f }
    {
        add(a, b, f)
    }
}

/// ADC.
#[derive(Clone, Copy)]
pub(crate) struct AddWithCarry;

impl BinaryFormula for AddWithCarry {
    ghost formula = { adc_of };
}

impl<const W: u8> BinaryAt<W> for AddWithCarry {
    #[inline(always)]
    fn apply(a: Word<W>, b: Word<W>, f: Flags) -> (Word<W>, Flags)
        requires { IsWidth W }
        ensures { result ≡ adc_of W a.entry b.entry f }
    {
        adc(a, b, f)
    }
}

/// SUB; the flags of CMP are its.
#[derive(Clone, Copy)]
pub(crate) struct Subtract;

impl BinaryFormula for Subtract {
    ghost formula = { sub_of };
}

impl<const W: u8> BinaryAt<W> for Subtract {
    #[inline(always)]
    fn apply(a: Word<W>, b: Word<W>, f: Flags) -> (Word<W>, Flags)
        requires { IsWidth W }
        ensures { result ≡ sub_of W a.entry b.entry f }
    {
        sub(a, b, f)
    }
}

/// SBB.
#[derive(Clone, Copy)]
pub(crate) struct SubtractWithBorrow;

impl BinaryFormula for SubtractWithBorrow {
    ghost formula = { sbb_of };
}

impl<const W: u8> BinaryAt<W> for SubtractWithBorrow {
    #[inline(always)]
    fn apply(a: Word<W>, b: Word<W>, f: Flags) -> (Word<W>, Flags)
        requires { IsWidth W }
        ensures { result ≡ sbb_of W a.entry b.entry f }
    {
        sbb(a, b, f)
    }
}

/// AND; the flags of TEST are its.
#[derive(Clone, Copy)]
pub(crate) struct And;

impl BinaryFormula for And {
    ghost formula = { and_of };
}

impl<const W: u8> BinaryAt<W> for And {
    #[inline(always)]
    fn apply(a: Word<W>, b: Word<W>, f: Flags) -> (Word<W>, Flags)
        requires { IsWidth W }
        ensures { result ≡ and_of W a.entry b.entry f }
    {
        and(a, b, f)
    }
}

/// OR.
#[derive(Clone, Copy)]
pub(crate) struct Or;

impl BinaryFormula for Or {
    ghost formula = { or_of };
}

impl<const W: u8> BinaryAt<W> for Or {
    #[inline(always)]
    fn apply(a: Word<W>, b: Word<W>, f: Flags) -> (Word<W>, Flags)
        requires { IsWidth W }
        ensures { result ≡ or_of W a.entry b.entry f }
    {
        or(a, b, f)
    }
}

/// XOR.
#[derive(Clone, Copy)]
pub(crate) struct ExclusiveOr;

impl BinaryFormula for ExclusiveOr {
    ghost formula = { xor_of };
}

impl<const W: u8> BinaryAt<W> for ExclusiveOr {
    #[inline(always)]
    fn apply(a: Word<W>, b: Word<W>, f: Flags) -> (Word<W>, Flags)
        requires { IsWidth W }
        ensures { result ≡ xor_of W a.entry b.entry f }
    {
        xor(a, b, f)
    }
}

/// INC.
#[derive(Clone, Copy)]
pub(crate) struct Increment;

impl UnaryFormula for Increment {
    ghost formula = { inc_of };
}

impl<const W: u8> UnaryAt<W> for Increment {
    #[inline(always)]
    fn apply(a: Word<W>, f: Flags) -> (Word<W>, Flags)
        requires { IsWidth W }
        ensures { result ≡ inc_of W a.entry f }
    {
        inc(a, f)
    }
}

/// DEC.
#[derive(Clone, Copy)]
pub(crate) struct Decrement;

impl UnaryFormula for Decrement {
    ghost formula = { dec_of };
}

impl<const W: u8> UnaryAt<W> for Decrement {
    #[inline(always)]
    fn apply(a: Word<W>, f: Flags) -> (Word<W>, Flags)
        requires { IsWidth W }
        ensures { result ≡ dec_of W a.entry f }
    {
        dec(a, f)
    }
}

/// NEG.
#[derive(Clone, Copy)]
pub(crate) struct Negate;

impl UnaryFormula for Negate {
    ghost formula = { neg_of };
}

impl<const W: u8> UnaryAt<W> for Negate {
    #[inline(always)]
    fn apply(a: Word<W>, f: Flags) -> (Word<W>, Flags)
        requires { IsWidth W }
        ensures { result ≡ neg_of W a.entry f }
    {
        neg(a, f)
    }
}

/// NOT.
#[derive(Clone, Copy)]
pub(crate) struct Complement;

impl UnaryFormula for Complement {
    ghost formula = { not_of };
}

impl<const W: u8> UnaryAt<W> for Complement {
    #[inline(always)]
    fn apply(a: Word<W>, f: Flags) -> (Word<W>, Flags)
        requires { IsWidth W }
        ensures { result ≡ not_of W a.entry f }
    {
        not(a, f)
    }
}
