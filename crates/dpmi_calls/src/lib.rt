//! A client's run for other programs: its text, its states after some of its turns, and the turns at which it comes to a place or changes a
//! byte. Each call takes bytes and numbers, makes the run anew, and keeps nothing.
//! It promises that what a call gives is the model's: the text of `dpmi run`, registers and bytes after a turn, the first stops or the
//! last. It uses what makes, runs and shows clients; `dpmi_c` hands its calls to C.
//! How turns are made is free. `specs/` isn't: it is what callers are promised.
#![tactic(auto)]

mod laws;
mod memory;
mod outcome;
mod run;
mod start;
mod state;
mod states;
mod stops;
mod text;
mod wanted;

pub use laws::every_call_makes_the_run_of_the_command;
pub use memory::NOT_THERE;
pub use outcome::{DONE, NO_MEMORY, NO_ROOM, REFUSED};
pub use start::Client;
pub use state::State;
pub use states::states_after;
pub use stops::{Stop, first_stops, last_stop};
pub use text::write_text;
pub use wanted::{MOST_WANTED, Reason, Wanted};
