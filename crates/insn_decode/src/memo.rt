// Instructions that were decoded before.
ghost use Rattle.std.specs.Prelude.{◌≡◌, ◌<◌, ◌*◌, ◌^◌, ◌%◌, ℕ, IfSome, HoldsAt, IsTrue, length, take};
ghost use Rattle.client_world.specs.{CodeWords.{code_bytes}, declared.code.CodeWords.{CodeWords as Words}};
ghost use Rattle.insn_decode.specs.{Decode.{decoded}, declared.decoding.Decoded.TheVariants.{Whole}, declared.memo.TheConstants.{PLACES}};
ghost use Rattle.insn_decode.specs.{declared.memo.TheConstants.{WORD_BYTES}, Memo.{IsDecoded, is_big_place}};
ghost use Rattle.insn_forms.specs.{Kinds.{IsWellFormed}, Shapes.{HasShape}};

use crate::decoding::{Decoded, decode};
use arrayvec::ArrayVec;
use client_world::host_frames::PAGE_SIZE;
use client_world::{CodeWords, SegReg};
use insn_forms::{Insn, Op, Operand, Rep, every_instruction_is_well_formed};
use std::alloc::{AllocError, Global};

/// The places of a memo: one for each byte of a page, and as many again for code in which operands and addresses have 32 bits by default.
pub const PLACES: u32 = 2 * PAGE_SIZE;

// The bytes of a code word.
const WORD_BYTES: u8 = 8;

// A test whether code begins with certain bytes, by its low word: times `scale`, modulo 2^64, the word keeps only its first bytes, and must
// be `scaled`.
#[derive(Clone, Copy)]
struct Start {
    scale: u64,
    scaled: u64,
}

impl Start {
    // The test that no code passes.
    const NONE: Start = Start {
        scale: 0,
        scaled: 1,
    };

    // The test for the first `len` bytes of code with this low word. Where they are more than 8, no code passes.
    fn new(low: u64, len: u8) -> Start
        requires { 0 < len }
        ensures { (a b : Words) → a.low ≡ low → b.low * result.scale % 2 ^ 64 ≡ result.scaled →
            take len (code_bytes a) ≡ take len (code_bytes b) }
    {
        if len > WORD_BYTES {
            return Start::NONE;
        }
        let scale = 1u64 << (8 * (WORD_BYTES - len));
        Start {
            scale,
            scaled: low.wrapping_mul(scale),
        }
    }

    // Whether code with this low word passes.
    #[inline(always)]
    fn matches(&self, low: u64) -> bool
        ensures { IsTrue result → low * self.now.scale % 2 ^ 64 ≡ self.now.scaled }
    {
        low.wrapping_mul(self.scale) == self.scaled
    }
}

/// An instruction, its length and its shape, beside the 15 code bytes that it was decoded from. One of at most 8 bytes is found by the low
/// word of the code alone, a longer one by all 15 bytes. The instruction is the first field, so that its address is the entry's.
#[derive(Clone, Copy)]
pub struct Entry {
    pub insn: Insn,
    pub shape: u16,
    pub len: u8,
    words: CodeWords,
    start: Start,
    // With it an entry has 128 bytes, so that its address takes a shift in place of a multiplication.
    padding: [u64; 3],
    ghost well_formed: { IsWellFormed insn },
    ghost shaped: { HasShape shape insn },
}

/// A memo of decoded instructions. Each entry is what `decode` returns for the bytes that are beside it and the default size that its place
/// says, so that none is ever out of date. The entry of an empty place matches no code. Source: own.
#[derive(Drop)]
pub struct Memo {
    entries: Vec<Entry>,
    ghost places: { length entries.items ≡ PLACES },
    ghost decoded: { (k : ℕ) → k < PLACES →
        HoldsAt (λ e. IsDecoded (is_big_place k) e.start e.words e.insn e.len) entries.items k },
}

impl Entry {
    // The entry of an empty place. Its instruction is never used.
    const NONE: Entry = Entry {
        words: CodeWords { low: 0, high: 0 },
        start: Start::NONE,
        padding: [0; 3],
        insn: Insn {
            op: Op::Clc,
            width: 16,
            addr32: false,
            seg: SegReg::Ds,
            rep: Rep::Plain,
            locked: false,
            first: Operand::Empty,
            second: Operand::Empty,
            third: Operand::Empty,
        },
        len: 0,
        shape: Insn::NO_SHAPE,
    };

    // The entry of these bytes, where they begin with an instruction.
    fn new(words: CodeWords, big: bool) -> Option<Entry>
        ensures decoded { IfSome result (λ e. IsDecoded big e.start e.words e.insn e.len) }
        ensures read { IfSome result (λ e. decoded big (code_bytes words) ≡ Whole e.insn e.len) }
    {
        let code = ArrayVec::from(words.bytes());
        match decode(&code, big) {
            Decoded::Whole(insn, len) => {
                every_instruction_is_well_formed();
                Some(Entry {
                    words,
                    start: Start::new(words.low, len),
                    padding: [0; 3],
                    insn,
                    len,
                    shape: insn.shape(),
                })
            }
            Decoded::More | Decoded::Invalid => None,
        }
    }

    // Whether these bytes are those of its instruction, which has more than 8.
    fn matches_long(&self, words: CodeWords) -> bool
        ensures { IsTrue result → (WORD_BYTES < self.now.len) × (self.now.words ≡ words) }
    {
        self.len > WORD_BYTES && self.words == words
    }
}

impl Memo {
    /// An empty memo, or the error of its allocation. Source: own.
    #[tactic(auto, unfolding(insn_forms::specs::Kinds::operation))]
    pub fn new(alloc: Global) -> Result<Memo, AllocError> {
        let entries = vec![in alloc; Entry::NONE; PLACES as usize]?;
        Ok(Memo { entries })
    }

    /// The instruction of at most 8 bytes that code with this low word begins with, whatever follows it, where the memo has it at that
    /// place; `None` says nothing. The place also says the default size of the code.
    /// Source: own.
    #[inline(always)]
    pub fn known(&self, place: u32, low: u64) -> Option<&Entry>
        requires { place < PLACES }
        ensures decoded { IfSome result (λ e. (w : Words) → w.low ≡ low →
            decoded (is_big_place place) (code_bytes w) ≡ Whole e.now.insn e.now.len) }
        ensures well_formed { IfSome result (λ e. IsWellFormed e.now.insn) }
        ensures shaped { IfSome result (λ e. HasShape e.now.shape e.now.insn) }
    {
        let entry = &self.entries[place as usize];
        if entry.start.matches(low) {
            Some(entry)
        } else {
            None
        }
    }

    /// The instruction that these bytes begin with, of any length; `None` where they begin with none, and then nothing is kept. Unless the
    /// memo has it as one of more than 8 bytes, it is decoded, and kept at that place, where `known` looks for it.
    /// Source: own.
    #[inline(never)]
    pub fn learn(&mut self, place: u32, words: CodeWords) -> Option<&Entry>
        requires { place < PLACES }
        ensures decoded { IfSome result (λ e. decoded (is_big_place place) (code_bytes words) ≡ Whole e.now.insn e.now.len) }
        ensures well_formed { IfSome result (λ e. IsWellFormed e.now.insn) }
        ensures shaped { IfSome result (λ e. HasShape e.now.shape e.now.insn) }
    {
        let at = place as usize;
        if !self.entries[at].matches_long(words) {
            self.entries[at] = Entry::new(words, place >= PAGE_SIZE)?;
        }
        Some(&self.entries[at])
    }
}
