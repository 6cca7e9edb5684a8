//! Worked rows of the host: services, DOS memory, exceptions, and calls between the modes.
//! It holds nothing but tests, over the public calls of `host_run`, of the crates that it is built on, and of those for watchpoints and the
//! timer.
//! They stand apart because a crate with tests of its own is proved once more with them.
//! A row may be added or put in plainer words; its values are those of the DPMI text. One is dropped only where another shows the same.
#![tactic(auto)]

#[cfg(test)]
mod callback_calls;
#[cfg(test)]
mod descriptors;
#[cfg(test)]
mod dos_memory;
#[cfg(test)]
mod exceptions;
#[cfg(test)]
mod faults;
#[cfg(test)]
mod gates;
#[cfg(test)]
mod loading;
#[cfg(test)]
mod machines;
#[cfg(test)]
mod memory_blocks;
#[cfg(test)]
mod real_calls;
#[cfg(test)]
mod vectors;
#[cfg(test)]
mod watchpoints;
