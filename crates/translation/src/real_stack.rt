// The stack of a real-mode procedure that the host calls.
ghost use Rattle.std.specs.Prelude.{◌≡◌, ◌<◌, ◌≤◌, true, false, MatchResult};
ghost use Rattle.client_world.specs.declared.memory_map.TheConstants.{SEGMENT_SIZE};
ghost use Rattle.translation.specs.RealStack.{are_writable_words, host_real_stack, is_writable_word, next_word, with_word_at};
ghost use Rattle.translation.specs.RealStack.{with_words_at, words_below};

use client_world::FarPtr;
use client_world::memory_map::{REAL_STACK_SEGMENT, REAL_STACK_SIZE, ROM_START, SEGMENT_SIZE};
use guest_space::{Machine, real_address};
use mode_stack::depth;
use service_rows::Refusal;

// The offset of the next word.
fn next_word(offset: u32) -> u32
    requires { offset < SEGMENT_SIZE }
    ensures next { result ≡ next_word offset }
    ensures fits { result < SEGMENT_SIZE }
{
    (offset + 2) % SEGMENT_SIZE
}

/// The offset n words below another one.
pub(crate) fn words_below(offset: u32, n: u32) -> u32
    requires { n ≤ 0x1000 }
    ensures below { result ≡ words_below offset n }
    ensures fits { result < SEGMENT_SIZE }
{
    (offset % SEGMENT_SIZE + SEGMENT_SIZE - 2 * n) % SEGMENT_SIZE
}

// Whether a word can be written there.
#[tactic(auto, unfolding(crate::specs::RealStack::is_writable_word))]
fn is_writable_word(segment: u16, offset: u32) -> bool
    requires { offset < SEGMENT_SIZE }
    ensures { result ≡ is_writable_word segment offset }
{
    offset != 0xFFFF
        && real_address(segment, offset) < ROM_START
        && real_address(segment, offset + 1) < ROM_START
}

/// Asks that n words can be written from there on.
#[tactic(auto, using(crate::proofs::StackWords::writable_step, crate::proofs::StackWords::writable_end))]
pub(crate) fn check_stack(segment: u16, offset: u32, n: usize) -> Result<(), Refusal>
    requires { offset < SEGMENT_SIZE }
    ensures { MatchResult result (λ _. are_writable_words segment offset n ≡ true)
        (λ refusal. (are_writable_words segment offset n ≡ false) × (refusal ≡ Refusal.InvalidAddress)) }
{
    let mut at = offset;
    for _ in 0..n {
        if !is_writable_word(segment, at) {
            return Err(Refusal::InvalidAddress);
        }
        at = next_word(at);
    }
    Ok(())
}

// Puts a word there.
#[tactic(auto, unfolding(crate::specs::RealStack::with_word_at))]
fn put_word(m: &mut Machine, segment: u16, offset: u32, v: u16)
    requires { offset < SEGMENT_SIZE }
    ensures world { m.new.world ≡ record m.old.world { dos = with_word_at m.old.world.dos segment offset v } }
    ensures bytes { m.new.bytes ≡ with_word_at m.old.bytes segment offset v }
{
    m.set_dos8(real_address(segment, offset), (v % 0x100) as u8);
    m.set_dos8(real_address(segment, offset + 1), (v / 0x100 % 0x100) as u8);
}

/// Puts words from there on.
#[tactic(auto, using(crate::proofs::StackWords::put_step))]
pub(crate) fn put_words(m: &mut Machine, segment: u16, offset: u32, words: &[u16])
    requires { offset < SEGMENT_SIZE }
    ensures world { m.new.world ≡ record m.old.world { dos = with_words_at m.old.world.dos segment offset words.now } }
    ensures bytes { m.new.bytes ≡ with_words_at m.old.bytes segment offset words.now }
{
    let mut at = offset;
    for word in words {
        put_word(m, segment, at, *word);
        at = next_word(at);
    }
}

/// The host's real-mode stack of the depth, which is empty.
pub(crate) fn host_real_stack(m: &Machine) -> FarPtr
    ensures { result ≡ host_real_stack m.now.world }
{
    FarPtr {
        sel: REAL_STACK_SEGMENT,
        off: (u32::from(depth(m)) + 1) * REAL_STACK_SIZE,
    }
}
