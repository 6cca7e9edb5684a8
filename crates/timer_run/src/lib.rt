//! The virtual timer: after a number of rounds its interrupt becomes due, and it is the whole of the next round in which the client can
//! be interrupted. Every other round is a turn with the client's watchpoints.
//! It promises that the timer's part of a round, a round and a run are the model's, and that a round keeps what a turn keeps:
//! soundness, the count, the console, the memory that the client holds, and what nested calls hand over. It is built on `watch_run`.
//! How a round finds whether the client can be interrupted is free. When the interrupt comes is own (`specs/Timer`); a change shows in
//! the text of each run with `--timer`.
#![tactic(auto)]

mod laws;
mod rounds;
mod timer;

pub use laws::{
    every_nested_call_of_a_timed_run_hands_over, every_round_changes_the_innermost_record_at_most,
    every_round_is_counted, every_round_is_sound, every_touch_of_a_round_is_held,
};
pub use rounds::{next_round, timed_run};
pub use timer::{TIMER_INTERRUPT, Timer};
