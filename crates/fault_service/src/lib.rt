//! Exceptions in both modes, delivered by the mode, and the return from a handler; what happens in real mode is `interrupts`'.
//! It promises that each leaves the machine that its definition names, or gives its fault or exit and changes nothing. It is built on
//! the stack of records, on `interrupts`, and on the stack items and frames of the executing crates.
//! How a frame is written and read is free. Its items and their order are the DPMI text's (`specs/Delivery`, `specs/Return`), and that
//! a return gives back what the delivery took is a law of its own (`specs/Trip`).
#![tactic(auto)]

mod by_mode;
mod delivery;
mod frame;
mod laws;
mod returning;

pub use by_mode::{deliver, every_delivery_is_sound};
pub use delivery::deliver_in_protected_mode;
pub use interrupts::{pop_iret, soft_int};
pub use laws::{
    a_machine_changes_only_what_is_written, a_return_gives_back_what_the_delivery_took,
    every_answer_depends_on_the_world_alone, every_answer_is_sound,
    every_delivery_and_return_changes_only_its_bytes, every_step_changes_only_what_it_writes,
    every_written_place_is_touched_and_held, the_frame_lies_at_the_handlers_stack_pointer,
};
pub use returning::{back, default_handler_exit};
