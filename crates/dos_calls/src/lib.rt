//! The DOS calls of INT 21h, and what is served of INT 2Fh, over the machine, the keys that are left, and the console.
//! It promises that each call does what its definition says, that one that ends the client changes nothing of the machine, that a sound
//! world leads to a sound one, and that no call moves the stack. It uses `dos_blocks`, the parts of registers of `service_rows`, and
//! `guest_space`.
//! A body is free, and a call may be added: a word of `specs/Calls` and a line of `dos_call` and of the dispatch. That no call moves
//! the stack isn't free: `host_run` pops the frame afterwards.
#![tactic(auto)]

mod bytes;
mod characters;
mod console;
mod dispatch;
mod files;
mod keys;
mod laws;
mod line;
mod memory;
mod multiplex;
mod registers;
mod vectors;

pub use console::Console;
pub use dispatch::int21;
pub use keys::Keys;
pub use laws::{
    every_dos_call_extends_the_console, every_dos_call_is_sound, every_dos_call_keeps_the_rest,
    every_end_of_a_dos_call_leaves_the_machine,
};
pub use multiplex::int2f;
