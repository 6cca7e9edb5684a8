//! Worked rows of the processor: its arithmetic, the opcode map, decoding, steps, and what instructions access.
//! It holds nothing but tests, over the public calls of `cpu_alu`, `insn_forms`, `insn_decode`, `exec_core`, `exec_flow` and `cpu_step`,
//! and the far calls of `guest_space`. They stand apart because a crate with tests of its own is proved once more with them.
//! A row may be added or put in plainer words; its values are the manual's. One is dropped only where another shows the same.
#![tactic(auto)]

#[cfg(test)]
mod arithmetic;
#[cfg(test)]
mod decoding;
#[cfg(test)]
mod insns;
#[cfg(test)]
mod letters;
#[cfg(test)]
mod opcodes;
#[cfg(test)]
mod steps;
