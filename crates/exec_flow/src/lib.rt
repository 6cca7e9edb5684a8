//! Transfers, segments and the system's instructions, over `insn_plan`. `exec_flow` has what transfers control, names or loads a
//! segment register, shows or sets IF, asks a port or a descriptor, and the system's and the coprocessor's; also ENTER, LEAVE and
//! BOUND. `exec_core` has the rest.
//! It promises that an instruction does what its row says, or raises its fault and changes nothing, or is a software interrupt.
//! A body is free as long as it meets its row, the manual's. The frames of IRET and far returns are shared: `interrupts`,
//! `fault_service` and `mode_gates` pop and push by them.
#![tactic(auto)]

mod dispatch;
mod far_transfers;
mod flag_images;
mod frames;
mod interrupts;
mod pointers;
mod ports;
mod questions;
mod raising;
mod segments;
mod stack_tops;
mod touches;
mod transfers;

pub use dispatch::{carry_out_flow, carry_out_jcc, run_flow};
pub use far_transfers::{can_pop_frame, code_selector, pop_far_frame, pop_frame};
pub use interrupts::{frame_bits, push_interrupt_frame};
pub use touches::touches_flow;
