// What the flags say of a result, and the range of a signed number.
ghost use Rattle.std.specs.Prelude.{◌≡◌, ◌^◌, ◌<◌};
ghost use Rattle.cpu_values.specs.Word.{IsWidth};
ghost use Rattle.cpu_alu.specs.Results.{top_bit, result_flags, in_signed_range};

use client_world::Flags;
use cpu_values::{Word, cut};

// The number of words of W bits.
#[inline(always)]
pub(crate) fn modulus<const W: u8>() -> u64
    requires { IsWidth W }
    ensures { result ≡ 2 ^ W }
{
    1u64 << W
}

// The word of a number that fits.
#[inline(always)]
pub(crate) fn exact<const W: u8>(v: u64) -> Word<W>
    requires width { IsWidth W }
    requires fits { v < 2 ^ W }
    ensures { result ≡ v }
{
    cut::<W>(v)
}

#[inline(always)]
pub(crate) fn is_negative<const W: u8>(r: Word<W>) -> bool
    requires { IsWidth W }
    ensures { result ≡ top_bit W r.entry }
{
    u64::from(r.get()) >= 1u64 << (W - 1)
}

#[inline(always)]
pub(crate) fn set_result<const W: u8>(r: Word<W>, f: Flags) -> Flags
    requires { IsWidth W }
    ensures { result ≡ result_flags W r.entry f }
{
    Flags {
        sf: is_negative(r),
        zf: r.get() == 0,
        pf: (r.get() & 0xFF).count_ones() % 2 == 0,
        ..f
    }
}

// W bits can mean the number.
#[inline(always)]
pub(crate) fn fits<const W: u8>(z: i64) -> bool
    requires { IsWidth W }
    ensures { result ≡ in_signed_range W z }
{
    let limit = 1i64 << (W - 1);
    -limit <= z && z < limit
}
