// The words that a client passes to a call, at its stack pointer.
ghost use Rattle.std.specs.Prelude.{◌≡◌, ◌+◌, ◌*◌, ◌≤◌, ◌++◌, true, false, MatchResult, is_ok};
ghost use Rattle.arrayvec.specs.ArrayVec.{array_vec_len};
ghost use Rattle.insn_plan.specs.Stack.{stack_pointer_up};
ghost use Rattle.translation.specs.SimulatedCall.{are_readable_words, client_word, client_words, word_read};

use arrayvec::ArrayVec;
use client_world::SegReg;
use guest_space::Machine;
use insn_plan::{cut_address, has_big_stack, stack_pointer};
use service_rows::Refusal;

/// The most words that a call puts on the callee's stack: 200 of the client, and a frame of IRET.
pub(crate) const MOST_WORDS: usize = 203;

// The offset of word k.
fn word_offset(m: &Machine, k: u16) -> u32
    ensures { result ≡ stack_pointer_up m.now.world (2 * k) m.now.world.regs }
{
    let top = u64::from(stack_pointer(m, m.registers()));
    cut_address(has_big_stack(m), top + 2 * u64::from(k))
}

// Reads word k.
#[tactic(auto, using(crate::proofs::StackWords::word_of_two))]
fn client_word(m: &Machine, k: u16) -> Result<u16, Refusal>
    ensures { MatchResult result (λ word. (is_ok (client_word m.now.world k) ≡ true) × (word_read (client_word m.now.world k) ≡ word))
        (λ refusal. (is_ok (client_word m.now.world k) ≡ false) × (refusal ≡ Refusal.InvalidAddress)) }
{
    match m.read::<2>(SegReg::Ss, word_offset(m, k)) {
        Ok(bytes) => Ok(u16::from_le_bytes(bytes)),
        Err(_) => Err(Refusal::InvalidAddress),
    }
}

/// Adds the client's first n words; each must be one that can be read.
#[tactic(auto, using(crate::proofs::StackWords::readable_step, crate::proofs::StackWords::readable_end, //
crate::proofs::StackWords::words_step, crate::proofs::StackWords::words_end))]
pub(crate) fn add_client_words(
    m: &Machine,
    words: &mut ArrayVec<u16, MOST_WORDS>,
    n: u16,
) -> Result<(), Refusal>
    requires { array_vec_len words.old + n ≤ MOST_WORDS }
    ensures { MatchResult result (λ _. (are_readable_words m.now.world 0 n ≡ true)
        × (words.new.items ≡ words.old.items ++ client_words m.now.world 0 n))
        (λ refusal. (are_readable_words m.now.world 0 n ≡ false) × (refusal ≡ Refusal.InvalidAddress)) }
{
    for k in 0..n {
        words.push(client_word(m, k)?);
    }
    Ok(())
}
