//! Numbers at a width of 8, 16 or 32 bits, and the bytes of a register.
//! It promises that each call is the word of `specs/` that its contract names. It uses `client_world`; the processor's operations and
//! instructions use it.
//! A body is free, and a word may be added. What a word means isn't: the formulas of `cpu_alu` and the rows of instructions are written
//! with it.
#![tactic(auto)]

mod register;
mod word;

pub use register::{part8, put8, put16};
pub use word::{Word, cut, signed};
