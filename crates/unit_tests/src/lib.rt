//! Worked rows of single crates: numbers, the memory and its parts, the machine, DOS calls, files and output, the command's words, made
//! clients, and clients in turns.
//! It holds nothing but tests, each file over the public calls of one crate. They stand apart because a crate with tests of its own is
//! proved once more with them.
//! A row may be added or put in plainer words. One is dropped only where another shows the same.
#![tactic(auto)]

#[cfg(test)]
mod compare;
#[cfg(test)]
mod descriptors;
#[cfg(test)]
mod dos;
#[cfg(test)]
mod machine;
#[cfg(test)]
mod made_clients;
#[cfg(test)]
mod memory;
#[cfg(test)]
mod new_memory;
#[cfg(test)]
mod numbers;
#[cfg(test)]
mod outside;
#[cfg(test)]
mod pages;
#[cfg(test)]
mod turns;
#[cfg(test)]
mod words;
