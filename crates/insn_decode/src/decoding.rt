// The instruction that some bytes start with.
ghost use Rattle.std.specs.Prelude.{◌≡◌, ◌≤◌, ◌↔◌, ℕ, List, ◌++◌, length, take};
ghost use Rattle.insn_forms.specs.{Grammar.{AllBytes, Encoding, HasEncoding, BeginsEncoding}, declared.insn.Insn.{Insn as AnInsn}};
ghost use Rattle.insn_decode.specs.Decode.{decoded};

use crate::reading::insn;
use crate::stop::Stop;
use arrayvec::ArrayVec;
use client_world::SegReg;
use insn_forms::{Insn, Op, Operand, Rep};

/// What bytes begin with: a whole instruction and the number of its bytes; the first bytes of one, which needs more; or
/// none. Own.
#[derive(Clone, Copy, Debug, PartialEq, Eq)]
pub enum Decoded {
    Whole(Insn, u8),
    More,
    Invalid,
}

/// The instruction that the bytes start with, where operands and addresses have 32 bits by default if `big`, else 16.
/// Source: 80386 Programmer's Reference Manual, ch. 17.
#[inline(never)]
pub fn decode(bytes: &ArrayVec<u8, 15>, big: bool) -> Decoded
    // What is read is what the bytes encode.
    ensures whole { (insn : AnInsn) (len : ℕ) → result ≡ Decoded.Whole insn len →
        Encoding big insn (take len bytes.now.items) × (len ≤ length bytes.now.items) }
    // What the bytes encode is read.
    ensures only { (insn : AnInsn) (front rest : List ℕ) → bytes.now.items ≡ front ++ rest →
        Encoding big insn front → result ≡ Decoded.Whole insn (length front) }
    // The bytes are the first of an encoding, and not all of it.
    ensures more { result ≡ Decoded.More ↔ BeginsEncoding big bytes.now.items }
    // The bytes neither start with an encoding nor are a prefix of one.
    ensures invalid { result ≡ Decoded.Invalid ↔
        (¬ HasEncoding big bytes.now.items × ¬ BeginsEncoding big bytes.now.items) }
    // The same as a function of the bytes: they are read from left to right.
    ensures read { result ≡ decoded big bytes.now.items }
{
    answer(bytes.as_slice(), big)
}

// The same of a slice.
#[inline(always)]
fn answer(bytes: &[u8], big: bool) -> Decoded
    requires { length bytes.now ≤ 15 }
    ensures exact { result ≡ decoded big bytes.now }
    // That these are bytes, for the callers' proofs.
    ensures bytes { AllBytes bytes.now }
{
    read(bytes, big)
}

// What reading gives.
#[inline(always)]
#[tactic(auto, unfolding(crate::specs::Decode::decoded))]
fn read(bytes: &[u8], big: bool) -> Decoded
    requires { length bytes.now ≤ 15 }
    ensures { result ≡ decoded big bytes.now }
{
    let mut out = Insn {
        op: Op::Esc,
        width: 16,
        addr32: false,
        seg: SegReg::Ds,
        rep: Rep::Plain,
        locked: false,
        first: Operand::Empty,
        second: Operand::Empty,
        third: Operand::Empty,
    };
    match insn(&mut out, big, bytes) {
        Ok(rest) => Decoded::Whole(out, (bytes.len() - rest.len()) as u8),
        Err(Stop::More) => Decoded::More,
        Err(Stop::Invalid) => Decoded::Invalid,
    }
}
