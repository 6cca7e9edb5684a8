//! Real-mode callbacks: the functions of INT 31h that allocate and free them (0303h and 0304h), the call of a callback from real mode,
//! and the return from it.
//! It promises that each leaves the world that its definition names, or is refused and changes AX alone, or gives its exit and changes
//! nothing. It uses the call structure of `translation`, the stack of records and the machine of `guest_space`.
//! Bodies are free. The registers that are handed over (`specs/HandOver`) aren't: `host_run`'s law of nested calls is built on them.
#![tactic(auto)]

mod dispatch;
mod entering;
mod laws;
mod leaving;
mod real_stack;
mod services;

pub use dispatch::serve;
pub use entering::enter;
pub use laws::{
    a_callback_hands_over_the_registers, a_return_hands_back_the_registers,
    every_callback_is_sound, every_callback_is_stacked, every_callback_keeps_the_rest,
};
pub use leaving::leave;
