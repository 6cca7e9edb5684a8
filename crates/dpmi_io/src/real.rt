// The files of the system and a writer of the system. They show nothing of content.
ghost use Rattle.std.specs.Prelude.{◌≡◌, None};

use crate::{Shelf, ShelfFail, Sink, SinkFail};
use std::fs;
use std::io::{Read, Write};
use std::marker::Model;
use std::rt::Files;

/// The file that is open, and its name. Source: own.
#[derive(Drop)]
struct Opened<F> {
    name: String,
    file: F,
}

/// The files of the system. It shows nothing of their content, and fails as `Failed` alone.
/// Source: own.
#[derive(Drop)]
pub struct FileShelf<'a, R: Files> {
    rt: &'a R,
    current: Option<Opened<R::File>>,
    blamed: Option<String>,
    faults: u64,
}

impl<'a, R: Files> Model for FileShelf<'a, R> {
    ghost use Rattle.std.specs.Prelude.{string_bytes};
    ghost use Rattle.std.specs.Option.{option_map};
    ghost use Rattle.dpmi_io.specs.FileShelf.{FileShelfState};

    ghost Value = { FileShelfState };

    ghost view = { λ s. record {
      current = option_map (λ o. string_bytes o.name) s.current;
      blamed = option_map string_bytes s.blamed;
      faults = s.faults;
    } };
}

impl<'a, R: Files> FileShelf<'a, R> {
    /// A shelf with no open file and no failure. Source: own.
    pub fn new(rt: &'a R) -> FileShelf<'a, R>
        ensures { result ≡ record { current = None; blamed = None; faults = 0 } }
    {
        FileShelf {
            rt,
            current: None,
            blamed: None,
            faults: 0,
        }
    }
}

impl<R: Files> Shelf for FileShelf<'_, R> {
    ghost open_name = { λ s. s.current };

    ghost blamed = { λ s. s.blamed };

    ghost files = { λ _. None };

    ghost left = { λ _. None };

    ghost faults = { λ s. s.faults };

    fn open(&mut self, name: String) -> Result<(), ShelfFail> {
        self.current = None;
        match fs::open(self.rt, name.as_str()) {
            Ok(file) => {
                self.current = Some(Opened { name, file });
                Ok(())
            }
            Err(_) => {
                self.faults = self.faults.saturating_add(1);
                self.blamed = Some(name);
                Err(ShelfFail::Failed)
            }
        }
    }

    fn read(&mut self, buf: &mut [u8]) -> Result<usize, ShelfFail> {
        let Some(opened) = self.current.as_mut() else {
            return Ok(0);
        };
        match opened.file.read(buf) {
            Ok(count) => Ok(count),
            Err(_) => {
                self.faults = self.faults.saturating_add(1);
                self.blamed = self.current.take().map(|opened| opened.name);
                Err(ShelfFail::Failed)
            }
        }
    }
}

/// A writer of the system, as the standard output. It shows nothing of what it took.
/// Clauses see it as how many of its puts failed. Source: own.
#[derive(Drop)]
pub struct StdoutSink<W: Write> {
    writer: W,
    faults: u64,
}

impl<W: Write> Model for StdoutSink<W> {
    ghost use Rattle.std.specs.Prelude.{ℕ};

    ghost Value = { ℕ };

    ghost view = { λ s. s.faults };
}

impl<W: Write> StdoutSink<W> {
    /// A sink over the writer, with no failure. Source: own.
    pub fn new(writer: W) -> StdoutSink<W>
        ensures { result ≡ 0 }
    {
        StdoutSink { writer, faults: 0 }
    }
}

impl<W: Write> Sink for StdoutSink<W> {
    ghost use Rattle.dpmi_io.specs.Content.{Nothing};

    ghost taken = { λ _. Nothing };

    ghost faults = { λ failed. failed };

    fn put(&mut self, bytes: &[u8]) -> Result<usize, SinkFail> {
        match self.writer.write(bytes) {
            Ok(count) if count > 0 => Ok(count),
            _ => {
                self.faults = self.faults.saturating_add(1);
                Err(SinkFail)
            }
        }
    }
}
