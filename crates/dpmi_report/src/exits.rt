//! The exits: how the report writes each, and the status of the program after it. Source: own.
ghost use Rattle.std.specs.Prelude.{◌≡◌, ◌≤◌, ◌+◌, ◌++◌, length};
ghost use Rattle.dpmi_report.specs.Exits.{exit_numbers, exit_row, exit_status, exit_text};

use crate::digits::{add_hex_byte, add_hex_doubleword};
use client_world::Exit;
use dpmi_io::{Line, add, add_decimal};

/// The client ended itself, whatever its code.
pub const EXITED: u8 = 0;

/// The run ended in another way.
pub const ENDED_OTHERWISE: u8 = 1;

/// An exit.
#[derive(Clone, Copy)]
pub struct ExitRow {
    /// Its word in the report.
    pub word: &'static [u8],
    /// The status of the program after it.
    pub status: u8,
}

// A row of the table.
fn row(word: &'static [u8], status: u8) -> ExitRow
    ensures word { result.word.now ≡ word.now }
    ensures status { result.status ≡ status }
{
    ExitRow { word, status }
}

/// The row of an exit: its word and its status. Source: own.
pub fn exit_row(exit: Exit) -> ExitRow
    ensures word { result.word.now ≡ (exit_row exit).word }
    ensures short { length result.word.now ≤ 13 }
    ensures status { result.status ≡ (exit_row exit).status }
{
    match exit {
        Exit::Exited(_) => row(b"exited", EXITED),
        Exit::Fault(_, _) => row(b"fault", ENDED_OTHERWISE),
        Exit::Bound => row(b"bound", ENDED_OTHERWISE),
        Exit::NoKeys => row(b"nokeys", ENDED_OTHERWISE),
        Exit::ConsoleFull => row(b"consolefull", ENDED_OTHERWISE),
        Exit::Deep => row(b"deep", ENDED_OTHERWISE),
        Exit::Stray => row(b"stray", ENDED_OTHERWISE),
        Exit::LostStructure => row(b"loststructure", ENDED_OTHERWISE),
        Exit::BadFrame => row(b"badframe", ENDED_OTHERWISE),
        Exit::BadSwitch => row(b"badswitch", ENDED_OTHERWISE),
    }
}

/// The status of the program after an exit: 0 where the client ended itself, else 1. Source: own.
pub fn exit_status(exit: Exit) -> u8
    ensures { result ≡ exit_status exit }
{
    exit_row(exit).status
}

// Adds a fault's number and code.
fn add_fault(line: &mut Line, number: u8, code: u32)
    requires { length line.old.items ≤ 113 }
    ensures added { line.new.items ≡ line.old.items ++ exit_numbers (Exit.Fault number code) }
    ensures short { length line.new.items ≤ length line.old.items + 17 }
{
    add(line, b" ");
    add_hex_byte(line, number);
    add(line, b" code=");
    add_hex_doubleword(line, code);
}

// Adds the numbers of an exit, which only some have.
#[tactic(auto, using(dpmi_io::proofs::Decimal::decimal_byte))]
fn add_numbers(line: &mut Line, exit: Exit)
    requires { length line.old.items ≤ 113 }
    ensures added { line.new.items ≡ line.old.items ++ exit_numbers exit }
    ensures short { length line.new.items ≤ length line.old.items + 17 }
{
    match exit {
        Exit::Exited(code) => {
            add(line, b" ");
            add_decimal(line, u64::from(code));
        }
        Exit::Fault(number, code) => add_fault(line, number, code),
        _ => {}
    }
}

/// Adds how a run ended: its exit's word, and its numbers. Source: own.
pub fn add_exit(line: &mut Line, exit: Exit)
    requires { length line.old.items ≤ 100 }
    ensures added { line.new.items ≡ line.old.items ++ exit_text exit }
    ensures short { length line.new.items ≤ length line.old.items + 30 }
{
    add(line, exit_row(exit).word);
    add_numbers(line, exit);
}
