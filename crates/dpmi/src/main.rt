//! The program: the system's words, files and output, and `dpmi_cli`, which does all the rest.
//! `main` has no contract of its own: what is to be promised belongs into `dpmi_cli`. It uses the shelf and the sink of `dpmi_io`.
#![tactic(auto)]

use dpmi_cli::{dpmi, status};
use dpmi_io::{FileShelf, StdoutSink};
use std::alloc::Global;
use std::env::{Env, FillError};
use std::io::ErrorKind;
use std::process::ExitCode;
use std::{env, io};

// The system's words after the program's own name, which may be no text.
#[derive(Drop)]
struct GivenWords<'a>(&'a HostRuntime);

impl Alloc for GivenWords<'_> {
    type A = Global;

    fn alloc(&self) -> Global {
        self.0.alloc()
    }
}

impl Env for GivenWords<'_> {
    fn arg(&self, i: usize, buf: &mut [u8]) -> Result<usize, FillError> {
        match i.checked_add(1) {
            Some(next) => self.0.arg(next, buf),
            None => Err(FillError::NotPresent),
        }
    }

    fn var(&self, name: &str, buf: &mut [u8]) -> Result<usize, FillError> {
        self.0.var(name, buf)
    }

    fn var_at(&self, i: usize, buf: &mut [u8]) -> Result<usize, FillError> {
        self.0.var_at(i, buf)
    }
}

// Those words. Where one of them isn't text they mean nothing, as no words do.
fn collect_words(rt: &HostRuntime) -> io::Result<Vec<String>> {
    let mut words = Vec::new(rt.alloc());
    match env::args(&GivenWords(rt)) {
        Ok(args) => {
            for word in args {
                words.push(word)?;
            }
            Ok(words)
        }
        Err(error) if error.kind() == ErrorKind::InvalidData => Ok(words),
        Err(error) => Err(error),
    }
}

fn main(rt: HostRuntime) -> ExitCode {
    let Ok(words) = collect_words(&rt) else {
        return ExitCode::from(status::NO_MEMORY);
    };
    let mut shelf = FileShelf::new(&rt);
    let mut out = StdoutSink::new(io::writer(&rt));
    ExitCode::from(dpmi(rt.alloc(), words.as_slice(), &mut shelf, &mut out))
}
