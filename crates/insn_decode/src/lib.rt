//! The decoder: the instruction that some bytes start with.
//! It promises that `decode` is `insn_forms`' grammar in both directions, and that bytes encode at most one instruction. It uses
//! `insn_forms`, `client_world` and `arrayvec`; the client's step hands it the code bytes that can be fetched, 15 at most.
//! How bytes are read and remembered is free: the contract is the grammar, both ways. The grammar itself is changed in `insn_forms`.
#![tactic(auto)]

mod address;
mod decoding;
mod head;
mod laws;
mod memo;
mod number;
mod operand;
mod reading;
mod stop;

pub use decoding::{Decoded, decode};
pub use laws::{an_encoding_is_of_one_instruction, reading_is_the_grammar};
pub use memo::{Entry, Memo};
