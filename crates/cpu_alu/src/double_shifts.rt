// Double shifts.
#![tactic(auto, unfolding(crate::specs::DoubleShifts::shld_of, crate::specs::DoubleShifts::shrd_of))]

ghost use Rattle.std.specs.Prelude.{◌≡◌, ◌/◌, ◌^◌, ◌<◌};
ghost use Rattle.cpu_values.specs.Word.{IsWidth};
ghost use Rattle.cpu_alu.specs.{Results.{low_bit}, DoubleShifts.{double_left, double_right, shld_of, shrd_of}};

use crate::results::set_result;
use crate::shifts::shift_count;
use client_world::Flags;
use cpu_values::{Word, cut};

// a moved to the left, the top bits of b coming in.
fn double_left<const W: u8>(a: Word<W>, b: Word<W>, count: u8) -> Word<W>
    requires width { IsWidth W }
    requires count { count < W }
    ensures { result ≡ double_left W a.entry b.entry count }
{
    cut::<W>((u64::from(a.get()) << count) + (u64::from(b.get()) >> (W - count)))
}

// a moved to the right, the low bits of b coming in.
fn double_right<const W: u8>(a: Word<W>, b: Word<W>, count: u8) -> Word<W>
    requires width { IsWidth W }
    requires count { count < W }
    ensures { result ≡ double_right W a.entry b.entry count }
{
    cut::<W>((u64::from(a.get()) >> count) + (u64::from(b.get()) << (W - count)))
}

// The bit at that place, from 0.
fn bit_at<const W: u8>(a: Word<W>, place: u8) -> bool
    requires { place < 32 }
    ensures { result ≡ low_bit (a.entry / 2 ^ place) }
{
    (a.get() >> place) % 2 == 1
}

/// SHLD: a moved to the left by n modulo 32, the top bits of b coming in. A count of 0 or at least W changes nothing; OF and AF
/// are kept. W is 8, 16 or 32.
/// Source: 80386 Programmer's Reference Manual, ch. 17, SHLD; a count of at least W, OF and AF own.
pub fn shld<const W: u8>(a: Word<W>, b: Word<W>, n: u8, f: Flags) -> (Word<W>, Flags)
    requires { IsWidth W }
    ensures { result ≡ shld_of W a.entry b.entry n f }
{
    let count = shift_count(n);
    if count == 0 || count >= W {
        return (a, f);
    }
    let r = double_left(a, b, count);
    (
        r,
        Flags {
            cf: bit_at(a, W - count),
            ..set_result(r, f)
        },
    )
}

/// SHRD: a moved to the right by n modulo 32, the low bits of b coming in. A count of 0 or at least W changes nothing; OF and AF
/// are kept. W is 8, 16 or 32.
/// Source: 80386 Programmer's Reference Manual, ch. 17, SHRD; a count of at least W, OF and AF own.
pub fn shrd<const W: u8>(a: Word<W>, b: Word<W>, n: u8, f: Flags) -> (Word<W>, Flags)
    requires { IsWidth W }
    ensures { result ≡ shrd_of W a.entry b.entry n f }
{
    let count = shift_count(n);
    if count == 0 || count >= W {
        return (a, f);
    }
    let r = double_right(a, b, count);
    (
        r,
        Flags {
            cf: bit_at(a, count - 1),
            ..set_result(r, f)
        },
    )
}
