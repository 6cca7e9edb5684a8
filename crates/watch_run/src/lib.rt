//! Watchpoints: INT 31h functions 0B00h to 0B03h, and what a turn is with them.
//! It promises that each function is its row, that the watchpoints which an instruction hits are those that cover its address, or bytes
//! that it writes, or reads or writes, that a turn and a run with watchpoints are the model's, and that such a turn keeps what the
//! host's own keeps. It is built on `host_run`, whose calls make its turns, and on the touches of the executing crates.
//! How a hit is found is free, and so is the quick turn while no watchpoint was set. A turn without watchpoints stays the host's own: a
//! law says so.
#![tactic(auto)]

mod hits;
mod laws;
mod services;
mod turn;
mod watch;

pub use laws::{
    a_run_without_watchpoints_is_the_hosts_run, every_compared_touch_is_an_access,
    every_nested_call_of_a_watched_run_hands_over, every_touch_of_a_watched_turn_is_held,
    every_watched_turn_changes_the_innermost_record_at_most, every_watched_turn_is_counted,
    every_watched_turn_is_sound,
};
pub use turn::{next_watched_turn, run_with_watchpoints, watch_turn, watched_run};
pub use watch::Watches;
