// What the client wrote.
ghost use Rattle.std.specs.Prelude.{◌≡◌, ◌≤◌, ℕ, List, [], ◌∷◌, ◌++◌, length, nat_lt, if◌then◌else◌, IfOk, vec_capacity};
ghost use Rattle.client_world.specs.declared.limits.TheConstants.{CONSOLE_ROOM};
ghost use Rattle.dos_calls.specs.{Answering.{console_with}, Calls.{has_room}};

use client_world::limits::CONSOLE_ROOM;
use std::alloc::{AllocError, Global};
use std::marker::Model;

/// The bytes that a client wrote, `CONSOLE_ROOM` at most. All of its memory is taken at its start.
#[derive(Drop)]
pub struct Console {
    written: Vec<u8>,
}

impl Model for Console {
    ghost Value = { List ℕ };

    ghost view = { λ c. c.written.items };

    ghost invariant = { λ c. (length c.written.items ≤ CONSOLE_ROOM) × (CONSOLE_ROOM ≤ vec_capacity c.written) };
}

impl Console {
    /// An empty console, or `AllocError` where memory for all that it can hold is short. Source: own.
    pub fn new(alloc: Global) -> Result<Console, AllocError>
        ensures { IfOk result (λ console. console ≡ []) }
    {
        let written = Vec::with_capacity(alloc, CONSOLE_ROOM as usize)?;
        Ok(Console { written })
    }

    /// What the client wrote, in order. Source: own.
    pub fn bytes(&self) -> &[u8]
        ensures bytes { result.now ≡ self.now }
        ensures most { length result.now ≤ CONSOLE_ROOM }
    {
        self.written.as_slice()
    }

    /// It never holds more than its room.
    pub(crate) fn limit(&self)
        ensures { length self.now ≤ CONSOLE_ROOM }
    {
        let _ = &self.written;
    }

    /// Adds a byte, and returns whether there was room for it.
    pub(crate) fn add(&mut self, byte: u8) -> bool
        ensures room { result ≡ nat_lt (length self.old) CONSOLE_ROOM }
        ensures bytes { self.new ≡ (if result then self.old ++ byte ∷ [] else self.old) }
    {
        if self.written.len() >= CONSOLE_ROOM as usize {
            return false;
        }
        let _ = self.written.push(byte);
        true
    }

    /// Adds bytes, as many as fit, and returns whether all did.
    pub(crate) fn print(&mut self, bytes: &[u8]) -> bool
        ensures room { result ≡ has_room self.old bytes.now }
        ensures bytes { self.new ≡ console_with self.old bytes.now }
    {
        for byte in bytes {
            if !self.add(*byte) {
                return false;
            }
        }
        self.limit();
        true
    }
}
