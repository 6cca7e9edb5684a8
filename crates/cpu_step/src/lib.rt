//! The client's next instruction: fetched, decoded and carried out.
//! It promises that a step is what the grammar says of the code bytes, that an event changes nothing, and that what a step touches is
//! the client's. It uses the decoder and the two executing crates.
//! How an instruction is found (a memo, a window of code) is free, as its contracts say what is carried out and not how. `specs/Step`
//! and `specs/Touched` aren't: the turn of `host_run` and the watchpoints are built on them.
#![tactic(auto)]

mod laws;
mod steps;

pub use laws::{
    a_step_has_one_outcome, every_step_is_sound, every_touch_is_an_access,
    every_touched_place_is_held, only_an_event_has_no_touches,
};
pub use steps::{find_window, has_big_code, move_past, step, step_in_window, step_raised};
