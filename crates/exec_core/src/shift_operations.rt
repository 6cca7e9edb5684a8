// The shifts and rotates of a number of 8, 16 or 32 bits.
ghost use Rattle.std.specs.Prelude.{◌≡◌};
ghost use Rattle.cpu_alu.specs.Shifts.{shl_of, shr_of, sar_of, rol_of, ror_of, rcl_of, rcr_of};
ghost use Rattle.cpu_values.specs.Word.{IsWidth};
ghost use Rattle.exec_core.specs.Arithmetic.{Formula};

use client_world::Flags;
use cpu_alu::{rcl, rcr, rol, ror, sar, shl, shr};
use cpu_values::Word;

/// What a shift computes of a number and a count.
pub(crate) trait ShiftFormula {
    ghost formula: { Formula };
}

/// A shift of a number of W bits. W is 8, 16 or 32.
pub(crate) trait ShiftAt<const W: u8>: ShiftFormula {
    /// The number moved by `n`, and the flags, where the flags were `f`.
    fn apply(a: Word<W>, n: u8, f: Flags) -> (Word<W>, Flags)
        requires { IsWidth W }
        ensures { result ≡ Self.formula W a.entry n f };
}

/// A shift at each width.
pub(crate) trait Shift: ShiftAt<8> + ShiftAt<16> + ShiftAt<32> + Copy {}

impl<O: ShiftAt<8> + ShiftAt<16> + ShiftAt<32> + Copy> Shift for O {}

/// ROL.
#[derive(Clone, Copy)]
pub(crate) struct RotateLeft;

impl ShiftFormula for RotateLeft {
    ghost formula = { rol_of };
}

impl<const W: u8> ShiftAt<W> for RotateLeft {
    #[inline(always)]
    fn apply(a: Word<W>, n: u8, f: Flags) -> (Word<W>, Flags)
        requires { IsWidth W }
        ensures { result ≡ rol_of W a.entry n f }
    {
        rol(a, n, f)
    }
}

/// ROR.
#[derive(Clone, Copy)]
pub(crate) struct RotateRight;

impl ShiftFormula for RotateRight {
    ghost formula = { ror_of };
}

impl<const W: u8> ShiftAt<W> for RotateRight {
    #[inline(always)]
    fn apply(a: Word<W>, n: u8, f: Flags) -> (Word<W>, Flags)
        requires { IsWidth W }
        ensures { result ≡ ror_of W a.entry n f }
    {
        ror(a, n, f)
    }
}

/// RCL.
#[derive(Clone, Copy)]
pub(crate) struct RotateLeftThroughCarry;

impl ShiftFormula for RotateLeftThroughCarry {
    ghost formula = { rcl_of };
}

impl<const W: u8> ShiftAt<W> for RotateLeftThroughCarry {
    #[inline(always)]
    fn apply(a: Word<W>, n: u8, f: Flags) -> (Word<W>, Flags)
        requires { IsWidth W }
        ensures { result ≡ rcl_of W a.entry n f }
    {
        rcl(a, n, f)
    }
}

/// RCR.
#[derive(Clone, Copy)]
pub(crate) struct RotateRightThroughCarry;

impl ShiftFormula for RotateRightThroughCarry {
    ghost formula = { rcr_of };
}

impl<const W: u8> ShiftAt<W> for RotateRightThroughCarry {
    #[inline(always)]
    fn apply(a: Word<W>, n: u8, f: Flags) -> (Word<W>, Flags)
        requires { IsWidth W }
        ensures { result ≡ rcr_of W a.entry n f }
    {
        rcr(a, n, f)
    }
}

/// SHL.
#[derive(Clone, Copy)]
pub(crate) struct ShiftLeft;

impl ShiftFormula for ShiftLeft {
    ghost formula = { shl_of };
}

impl<const W: u8> ShiftAt<W> for ShiftLeft {
    #[inline(always)]
    fn apply(a: Word<W>, n: u8, f: Flags) -> (Word<W>, Flags)
        requires { IsWidth W }
        ensures { result ≡ shl_of W a.entry n f }
    {
        shl(a, n, f)
    }
}

/// SHR.
#[derive(Clone, Copy)]
pub(crate) struct ShiftRight;

impl ShiftFormula for ShiftRight {
    ghost formula = { shr_of };
}

impl<const W: u8> ShiftAt<W> for ShiftRight {
    #[inline(always)]
    fn apply(a: Word<W>, n: u8, f: Flags) -> (Word<W>, Flags)
        requires { IsWidth W }
        ensures { result ≡ shr_of W a.entry n f }
    {
        shr(a, n, f)
    }
}

/// SAR.
#[derive(Clone, Copy)]
pub(crate) struct ShiftArithmeticRight;

impl ShiftFormula for ShiftArithmeticRight {
    ghost formula = { sar_of };
}

impl<const W: u8> ShiftAt<W> for ShiftArithmeticRight {
    #[inline(always)]
    fn apply(a: Word<W>, n: u8, f: Flags) -> (Word<W>, Flags)
        requires { IsWidth W }
        ensures { result ≡ sar_of W a.entry n f }
    {
        sar(a, n, f)
    }
}
