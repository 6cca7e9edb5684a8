//! The words of the command line, and what they mean.
//! It promises that words mean what `meaning` of `specs/` says, and that they mean nothing exactly where it says so. Words that pass
//! its own check are assigned by `clap`; keystrokes are decoded by `hex`.
//! An option may be added: a row of `specs/Options` and of `src/options.rt`, and its part of the meaning. What the words of today mean
//! may not change without `dpmi_cli`, whose answer begins with `meaning`.
#![tactic(auto)]

mod check;
mod command;
mod laws;
mod meaning;
mod number;
mod options;

pub use laws::an_option_is_written_either_way;
pub use meaning::{KeySource, Pair, Run, Words, read_words};
