// The keys that are left.
ghost use Rattle.std.specs.Prelude.{◌≡◌, ◌≤◌, ◌<◌, ◌+◌, ℕ, List, [], ◌∷◌, length, take, drop, IfOk, IfSome, MatchOption};
ghost use Rattle.dos_calls.specs.{Calls.{line_of}, Answering.{any_left, line_at}};
ghost use Rattle.guest_ram.specs.Bytes.{AreBytes};

use guest_space::are_bytes;
use std::alloc::{AllocError, Global};
use std::marker::Model;

/// The keystrokes that a client is given. Contracts see those that are left.
#[derive(Drop)]
pub struct Keys {
    typed: Vec<u8>,
    next: usize,
}

impl Model for Keys {
    ghost Value = { List ℕ };

    ghost view = { λ k. drop k.next k.typed.items };

    ghost invariant = { λ k. k.next ≤ length k.typed.items };
}

impl Keys {
    /// Those keystrokes, in a copy, or `AllocError` where memory is short. Source: own.
    pub fn new(alloc: Global, bytes: &[u8]) -> Result<Keys, AllocError>
        ensures { IfOk result (λ keys. keys ≡ bytes.now) }
    {
        let typed = bytes.to_vec(alloc)?;
        Ok(Keys { typed, next: 0 })
    }

    // The keys that are left.
    fn left(&self) -> &[u8]
        ensures { result.now ≡ self.now }
    {
        &self.typed[self.next..]
    }

    /// The keystrokes that are left are bytes. Source: own.
    pub fn soundness(&self)
        ensures { AreBytes self.now }
    {
        are_bytes(self.left());
    }

    /// Whether a keystroke is left. Source: own.
    pub fn any_left(&self) -> bool
        ensures { result ≡ any_left self.now }
    {
        !self.left().is_empty()
    }

    /// Takes the first keystroke that is left, or `None` where none is; then nothing changes. Source: own.
    pub fn take(&mut self) -> Option<u8>
        ensures { MatchOption result ((self.old ≡ []) × (self.new ≡ [])) (λ key. self.old ≡ key ∷ self.new) }
    {
        if self.next >= self.typed.len() {
            return None;
        }
        let key = self.typed[self.next];
        self.next += 1;
        Some(key)
    }

    /// The first n of them at most.
    pub(crate) fn first(&self, most: usize) -> &[u8]
        ensures { result.now ≡ take most self.now }
    {
        first(self.left(), most)
    }

    /// Drops n of them.
    pub(crate) fn skip(&mut self, count: usize)
        requires { count ≤ length self.old }
        ensures { self.new ≡ drop count self.old }
    {
        self.next += count;
    }

    /// Drops a line of n keys, and its return.
    pub(crate) fn skip_line(&mut self, count: usize)
        requires { count < length self.old }
        ensures { self.new ≡ drop (count + 1) self.old }
    {
        self.next += count;
        self.next += 1;
    }

    /// The number of keys before the first return, where there is one.
    pub(crate) fn line_length(&self) -> Option<usize>
        ensures line { line_of self.now ≡ line_at self.now result }
        ensures there { IfSome result (λ n. n < length self.now) }
    {
        line_length(self.left())
    }
}

/// The first n of some bytes at most.
pub(crate) fn first(bytes: &[u8], most: usize) -> &[u8]
    ensures { result.now ≡ take most bytes.now }
{
    if most < bytes.len() {
        &bytes[..most]
    } else {
        bytes
    }
}

// The number of bytes before the first return.
fn line_length(bytes: &[u8]) -> Option<usize>
    ensures line { line_of bytes.now ≡ line_at bytes.now result }
    ensures there { IfSome result (λ n. n < length bytes.now) }
{
    for n in 0..bytes.len() {
        if bytes[n] == 0x0D {
            return Some(n);
        }
    }
    None
}
