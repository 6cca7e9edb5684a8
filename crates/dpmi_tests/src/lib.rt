//! Worked rows of the command: words, files, refusals and failures. Whole clients are in `client_tests`.
//! It holds nothing but tests, over the public call of `dpmi_cli`. They stand apart because a crate with tests of its own is proved
//! once more with them.
//! A row may be added or put in plainer words. One is dropped only where another shows the same.
#![tactic(auto)]

#[cfg(test)]
mod command;
#[cfg(test)]
mod failures;
#[cfg(test)]
mod files;
