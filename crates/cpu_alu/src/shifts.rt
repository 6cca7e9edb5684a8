// Shifts and rotates: the moved word and its flags.
#![tactic(auto, unfolding(crate::specs::Shifts::shl_of, crate::specs::Shifts::shr_of, crate::specs::Shifts::sar_of, //
crate::specs::Shifts::rol_of, crate::specs::Shifts::ror_of, crate::specs::Shifts::rcl_of, crate::specs::Shifts::rcr_of))]

ghost use Rattle.std.specs.Prelude.{◌≡◌, ◌<◌};
ghost use Rattle.cpu_values.specs.Word.{IsWidth};
ghost use Rattle.cpu_alu.specs.Shifts.{shift_count, top_bits_differ, moved_flags, shl_of, shr_of, sar_of, rol_of, ror_of, rcl_of, rcr_of};

use crate::packed::{
    rotated_left, rotated_left_through_carry, rotated_right, rotated_right_through_carry,
    shifted_left, shifted_right, shifted_signed,
};
use crate::results::{is_negative, set_result};
use client_world::Flags;
use cpu_values::{Word, cut};

// The count of a shift or rotate.
pub(crate) fn shift_count(n: u8) -> u8
    ensures value { result ≡ shift_count n }
    ensures few { result < 32 }
{
    n % 32
}

// The two top bits differ.
fn top_bits_differ<const W: u8>(r: Word<W>) -> bool
    requires { IsWidth W }
    ensures { result ≡ top_bits_differ W r.entry }
{
    is_negative(r) != is_negative(cut::<W>(2 * u64::from(r.get())))
}

// The flags after that many bits, the last of which is the carry.
fn set_moved(count: u8, carry: bool, overflow: bool, others: Flags, f: Flags) -> Flags
    ensures { result ≡ moved_flags count carry overflow others f }
{
    if count == 0 {
        return f;
    }
    Flags {
        cf: carry,
        of: if count == 1 { overflow } else { f.of },
        ..others
    }
}

/// SHL, also named SAL: a moved to the left by n modulo 32; AF is kept, and OF but for a count of 1.
/// W is 8, 16 or 32.
/// Source: 80386 Programmer's Reference Manual, ch. 17, SAL/SAR/SHL/SHR; AF, OF of other counts, CF of a count from W on own.
pub fn shl<const W: u8>(a: Word<W>, n: u8, f: Flags) -> (Word<W>, Flags)
    requires { IsWidth W }
    ensures { result ≡ shl_of W a.entry n f }
{
    let count = shift_count(n);
    let (r, carry) = shifted_left(a, f.cf, count);
    (
        r,
        set_moved(count, carry, is_negative(r) != carry, set_result(r, f), f),
    )
}

/// SHR: a moved to the right by n modulo 32; AF is kept, and OF but for a count of 1.
/// W is 8, 16 or 32.
/// Source: 80386 Programmer's Reference Manual, ch. 17, SAL/SAR/SHL/SHR; AF, OF of other counts, CF of a count from W on own.
pub fn shr<const W: u8>(a: Word<W>, n: u8, f: Flags) -> (Word<W>, Flags)
    requires { IsWidth W }
    ensures { result ≡ shr_of W a.entry n f }
{
    let count = shift_count(n);
    let (r, carry) = shifted_right(a, f.cf, count);
    (
        r,
        set_moved(count, carry, is_negative(a), set_result(r, f), f),
    )
}

/// SAR: a moved to the right by n modulo 32, its sign coming in; AF is kept, and OF but for a count of 1.
/// W is 8, 16 or 32.
/// Source: 80386 Programmer's Reference Manual, ch. 17, SAL/SAR/SHL/SHR; AF and OF of other counts own.
pub fn sar<const W: u8>(a: Word<W>, n: u8, f: Flags) -> (Word<W>, Flags)
    requires { IsWidth W }
    ensures { result ≡ sar_of W a.entry n f }
{
    let count = shift_count(n);
    let (r, carry) = shifted_signed(a, f.cf, count);
    (r, set_moved(count, carry, false, set_result(r, f), f))
}

/// ROL: a turned to the left by n modulo 32; SF, ZF, AF and PF are kept, and OF but for a
/// count of 1. W is 8, 16 or 32.
/// Source: 80386 Programmer's Reference Manual, ch. 17, RCL/RCR/ROL/ROR; OF of other counts own.
pub fn rol<const W: u8>(a: Word<W>, n: u8, f: Flags) -> (Word<W>, Flags)
    requires { IsWidth W }
    ensures { result ≡ rol_of W a.entry n f }
{
    let count = shift_count(n);
    let (r, carry) = rotated_left(a, f.cf, count);
    (r, set_moved(count, carry, is_negative(r) != carry, f, f))
}

/// ROR: a turned to the right by n modulo 32; SF, ZF, AF and PF are kept, and OF but for a
/// count of 1. W is 8, 16 or 32.
/// Source: 80386 Programmer's Reference Manual, ch. 17, RCL/RCR/ROL/ROR; OF of other counts own.
pub fn ror<const W: u8>(a: Word<W>, n: u8, f: Flags) -> (Word<W>, Flags)
    requires { IsWidth W }
    ensures { result ≡ ror_of W a.entry n f }
{
    let count = shift_count(n);
    let (r, carry) = rotated_right(a, f.cf, count);
    (r, set_moved(count, carry, top_bits_differ(r), f, f))
}

/// RCL: CF and a turned to the left by n modulo 32; SF, ZF, AF and PF are kept, and OF but for a
/// count of 1. W is 8, 16 or 32.
/// Source: 80386 Programmer's Reference Manual, ch. 17, RCL/RCR/ROL/ROR; OF of other counts own.
pub fn rcl<const W: u8>(a: Word<W>, n: u8, f: Flags) -> (Word<W>, Flags)
    requires { IsWidth W }
    ensures { result ≡ rcl_of W a.entry n f }
{
    let count = shift_count(n);
    let (r, carry) = rotated_left_through_carry(a, f.cf, count);
    (r, set_moved(count, carry, is_negative(r) != carry, f, f))
}

/// RCR: CF and a turned to the right by n modulo 32; SF, ZF, AF and PF are kept, and OF but for a
/// count of 1. W is 8, 16 or 32.
/// Source: 80386 Programmer's Reference Manual, ch. 17, RCL/RCR/ROL/ROR; OF of other counts own.
pub fn rcr<const W: u8>(a: Word<W>, n: u8, f: Flags) -> (Word<W>, Flags)
    requires { IsWidth W }
    ensures { result ≡ rcr_of W a.entry n f }
{
    let count = shift_count(n);
    let (r, carry) = rotated_right_through_carry(a, f.cf, count);
    (r, set_moved(count, carry, top_bits_differ(r), f, f))
}
