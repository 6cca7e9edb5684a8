//! The data instructions: moves, arithmetic and logic, shifts, products, decimal rows, bits, strings, the stack's general rows, flags.
//! `exec_flow` has what transfers control, names or loads a segment register, shows or sets IF, asks a port or a descriptor, and the
//! system's and the coprocessor's; also ENTER, LEAVE and BOUND. `exec_core` has the rest, with WAIT.
//! It promises that an instruction does what its row says, or raises its fault and changes nothing. It uses `insn_plan` and the
//! arithmetic.
//! A body is free as long as it meets its row, the manual's. Which crate has an operation stands once, in `insn_forms` (`specs/Kinds`).
#![tactic(auto)]

mod arithmetic;
mod bits;
mod decimal;
mod dispatch;
mod flag_rows;
mod moves;
mod operations;
mod products;
mod shaped;
mod shift_operations;
mod shifts;
mod stacks;
mod strings;
mod touches;

pub use dispatch::{carry_out_core, is_core, run_core};
pub use touches::touches_core;
