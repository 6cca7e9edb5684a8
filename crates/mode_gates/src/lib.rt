//! The gates between the modes: the entry to protected mode, the raw switches, and the frame of a far call at a trap.
//! It promises that each leaves the machine that its definition names, or gives its exit and changes nothing; and that a sound world
//! leads to a sound one. It is built on the plans of instructions and on `interrupts`.
//! Bodies are free. The registers and descriptors after each gate are what a client sees (`specs/Entry`, `specs/Switches`); which of
//! them are own is said there.
#![tactic(auto)]

mod entering;
mod far_frames;
mod laws;
mod switches;

pub use entering::{asked_width, entry};
pub use far_frames::pop_far;
pub use laws::{
    a_far_return_changes_registers_alone, a_far_return_depends_on_the_world_alone,
    every_gate_is_sound, every_switch_keeps_the_rest, the_entry_keeps_the_rest,
};
pub use switches::{serve, state_call, to_protected, to_real};
