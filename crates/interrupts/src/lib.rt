//! Software interrupts, exceptions of real mode, and the return from an interrupt at a trap.
//! It promises that each leaves the machine that its definition names, or gives its fault or exit and changes nothing; that a sound
//! world leads to a sound one; that nothing but registers, the virtual interrupt flag and memory changes; and that in real mode a frame
//! is popped exactly where its words lie inside the stack segment. It uses `insn_plan` and the executing crates.
//! Bodies are free. The frame and the order of its checks aren't: `fault_service`, `mode_gates` and `host_run` are built on them.
#![tactic(auto)]

mod exceptions;
mod laws;
mod returns;
mod software;

pub use exceptions::deliver_in_real_mode;
pub use laws::{
    a_real_frame_is_popped_where_it_fits, a_return_changes_registers_alone,
    every_answer_depends_on_the_world_alone, every_answer_is_sound, every_answer_keeps_the_rest,
};
pub use returns::{can_pop_iret, pop_iret};
pub use software::soft_int;
