// A number at a width, and the signed number that its bits mean.
ghost use Rattle.std.specs.Prelude.{◌≡◌, ◌^◌, ◌<◌};
ghost use Rattle.cpu_values.specs.Word.{IsWidth, cut, signed_value};

use std::marker::Model;

/// A number of W bits. W is 8, 16 or 32.
/// Source: 80386 Programmer's Reference Manual, ch. 2, "Data Types".
#[derive(Clone, Copy, PartialEq, Eq, Debug, Drop)]
pub struct Word<const W: u8> {
    bits: u32,
}

impl<const W: u8> Model for Word<W> {
    ghost use Rattle.std.specs.Prelude.{ℕ, ◌^◌, ◌<◌};

    ghost Value = { ℕ };

    ghost view = { λ a. a.bits };

    ghost invariant = { λ a. a.bits < 2 ^ W };

    ghost inverse = { λ n. record { bits = n } };
}

impl<const W: u8> Word<W> {
    /// The number, from 0 to 2^W - 1. Source: own.
    pub fn get(self) -> u32
        ensures value { result ≡ self.entry }
        ensures in_range { result < 2 ^ W }
    {
        self.bits
    }
}

/// The low W bits of a number: its remainder modulo 2^W. Source: own.
#[tactic(auto, using(std::proofs::lemmas::Nat::and_mask, std::proofs::lemmas::Nat::one_shl))]
pub fn cut<const W: u8>(v: u64) -> Word<W>
    requires { IsWidth W }
    ensures { result ≡ cut W v }
{
    Word {
        bits: (v & ((1u64 << W) - 1)) as u32,
    }
}

/// The number that the W bits mean in two's complement, from −2^(W−1) to 2^(W−1) − 1.
/// Source: 80386 Programmer's Reference Manual, ch. 2, "Integer".
pub fn signed<const W: u8>(a: Word<W>) -> i32
    requires { IsWidth W }
    ensures { result ≡ signed_value W a.entry }
{
    let n = i64::from(a.get());
    if n < 1i64 << (W - 1) {
        n as i32
    } else {
        (n - (1i64 << W)) as i32
    }
}
