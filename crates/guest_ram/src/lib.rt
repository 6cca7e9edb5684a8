//! The memory of the machine: a list of bytes, in frames.
//! It promises that a read returns the bytes that are there, and that a write changes its bytes alone. It uses no other crate; every
//! crate that keeps the client's memory uses it.
//! How bytes are moved is free, here and nowhere else by pointers. That the memory is one list of bytes (`specs/Bytes`) isn't: all
//! layouts are stated over it.
#![tactic(auto)]

mod ram;
#[cfg(test)]
mod tests;

pub use ram::{FRAME_SIZE, MAX_FRAMES, Ram, doubleword, word};
