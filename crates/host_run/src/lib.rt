//! The host: it loads one client, and runs it turn by turn. It makes turns in place of its own, too: a service answered from outside,
//! an exception, an interrupt.
//! It promises that a load leads to the file's first world or is refused for the first reason, that each turn and run is the model's,
//! and by its laws that these worlds are sound, that a turn keeps to its footprint and to what the client holds, and how calls nest.
//! How a turn finds its code and its trap is free, and a family of services may be added (`specs/Families`). The turn (`specs/Turn`)
//! isn't: reports, watchpoints and the timer are stated over it.
#![tactic(auto)]

mod callback_turns;
mod calls;
mod ending;
mod exceptions;
mod families;
mod host;
mod laws;
mod other_turns;
mod protected;
mod service_laws;
mod serving;
mod switches;
mod trace;
mod traps;
mod vectors;
mod windows;

pub use ending::Ended;
pub use host::Host;
pub use laws::{
    a_run_past_an_exit_is_over, every_changed_place_is_touched,
    every_client_turn_changes_only_its_footprint, every_exit_leaves_the_machine,
    every_nested_call_hands_over, every_other_turn_changes_the_innermost_record_at_most,
    every_other_turn_is_sound, every_run_is_sound, every_start_is_sound, every_touch_is_held,
    every_touch_of_a_run_is_held, every_turn_changes_the_innermost_record_at_most,
    every_turn_extends_the_console, every_turn_is_counted, every_turn_is_sound,
    nested_calls_return_in_order, no_instruction_runs_at_a_trap, once_ended_a_run_stays,
};
pub use service_laws::every_refused_function_changes_ax_and_bx_alone;
pub use traps::{Trap, is_at_trap};
