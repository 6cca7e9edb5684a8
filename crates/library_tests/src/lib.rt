//! Worked rows of the calls of `dpmi_calls`: texts, states and stops of one small client.
//! It holds nothing but tests. They stand apart because a crate with tests of its own is proved once more with them.
//! A row may be added or put in plainer words. One is dropped only where another shows the same.
#![tactic(auto)]

#[cfg(test)]
mod letter;
#[cfg(test)]
mod states;
#[cfg(test)]
mod stops;
