// A shelf and a sink in memory that never fail.
ghost use Rattle.std.specs.Prelude.{◌≡◌, ◌≤◌, ◌<◌, length, take, drop, string_bytes, IfOk, IsOk, IsSome, None, Some};

use crate::open_file::{OpenFile, give};
use crate::{Shelf, ShelfFail, Sink, SinkFail};
use std::alloc::{AllocError, Global};
use std::marker::Model;

/// One file, which is there under every name. No call of it fails. Source: own.
#[derive(Drop)]
pub struct SureShelf {
    bytes: Vec<u8>,
    current: Option<OpenFile>,
}

impl Model for SureShelf {
    ghost use Rattle.std.specs.Option.{option_map};
    ghost use Rattle.dpmi_io.specs.StoredFiles.{open_at};
    ghost use Rattle.dpmi_io.specs.SureShelf.{SureShelfState};

    ghost Value = { SureShelfState };

    ghost view = { λ s. record {
      bytes = s.bytes.items;
      current = option_map open_at s.current;
    } };
}

impl SureShelf {
    /// A shelf whose one file has these bytes, with no file open. Fails where memory is out. Source: own.
    pub fn new(alloc: Global, bytes: &[u8]) -> Result<SureShelf, AllocError>
        ensures { IfOk result (λ s. s ≡ record { bytes = bytes.now; current = None }) }
    {
        Ok(SureShelf {
            bytes: bytes.to_vec(alloc)?,
            current: None,
        })
    }
}

impl Shelf for SureShelf {
    ghost use Rattle.std.specs.Option.{option_map};
    ghost use Rattle.dpmi_io.specs.Content.{Gives};
    ghost use Rattle.dpmi_io.specs.MemShelf.{read_count};
    ghost use Rattle.dpmi_io.specs.SureShelf.{sure_left, after_sure_open, after_sure_read};

    ghost open_name = { λ s. option_map (λ o. o.name) s.current };

    ghost blamed = { λ _. None };

    ghost files = { λ s. Some (λ _. Some s.bytes) };

    ghost left = { sure_left };

    ghost faults = { λ _. 0 };

    fn open(&mut self, name: String) -> Result<(), ShelfFail>
        ensures ok { IsOk result }
        ensures after { self.new ≡ after_sure_open self.old (string_bytes name) }
    {
        self.current = Some(OpenFile { name, at: 0 });
        Ok(())
    }

    fn read(&mut self, buf: &mut [u8]) -> Result<usize, ShelfFail>
        requires opened { IsSome (option_map (λ o. o.name) self.old.current) }
        requires room { 0 < length buf.old }
        ensures ok { IsOk result }
        ensures count { IfOk result (λ n. n ≡ read_count (sure_left self.old) (length buf.old)) }
        ensures after { IfOk result (λ n. self.new ≡ after_sure_read self.old n) }
        ensures rest { IfOk result (λ n. drop n buf.new ≡ drop n buf.old) }

        // What a shelf promises.
        ensures bound { IfOk result (λ n. n ≤ length buf.new) }
        ensures bytes { IfOk result (λ n. Gives (sure_left self.old) (sure_left self.new) (take n buf.new)) }
    {
        let Some(current) = self.current.as_mut() else {
            return Ok(0);
        };
        Ok(give(&self.bytes, &mut current.at, buf))
    }
}

/// A sink that counts the bytes that it takes, and takes all of them. No put fails.
/// Clauses see it as that number, at most the greatest u64. Source: own.
#[derive(Drop)]
pub struct SureSink {
    taken: u64,
}

impl Model for SureSink {
    ghost use Rattle.std.specs.Prelude.{ℕ};

    ghost Value = { ℕ };

    ghost view = { λ s. s.taken };
}

impl SureSink {
    /// A sink that has taken nothing. Source: own.
    pub fn new() -> SureSink
        ensures { result ≡ 0 }
    {
        SureSink { taken: 0 }
    }

    /// How many bytes it took, at most the greatest u64. Source: own.
    pub fn count(&self) -> u64
        ensures { result ≡ self.now }
    {
        self.taken
    }
}

impl Sink for SureSink {
    ghost use Rattle.dpmi_io.specs.Content.{Gains, Number};
    ghost use Rattle.dpmi_io.specs.SureShelf.{after_sure_put};

    ghost taken = { Number };

    ghost faults = { λ _. 0 };

    fn put(&mut self, bytes: &[u8]) -> Result<usize, SinkFail>
        requires { 0 < length bytes.now }
        ensures all { IfOk result (λ n. n ≡ length bytes.now) }
        ensures ok { IsOk result }
        ensures after { self.new ≡ after_sure_put self.old (length bytes.now) }

        // What a sink promises.
        ensures took { IfOk result (λ n. Gains (Number self.old) (Number self.new) (take n bytes.now)) }
    {
        self.taken = self.taken.saturating_add(bytes.len() as u64);
        Ok(bytes.len())
    }
}
