//! Whole clients: the marked cases of `clients/suite`, each with what the command answers and writes.
//! It holds nothing but tests, over the public call of `dpmi_cli`. They stand apart because a crate with tests is proved twice; the
//! command's other rows are in `dpmi_tests`, so that both are proved side by side.
//! A row may be added or put in plainer words. One is dropped only where another shows the same.
#![tactic(auto)]

#[cfg(test)]
mod clients;
