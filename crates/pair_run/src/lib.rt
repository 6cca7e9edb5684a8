//! Two clients that take turns.
//! It promises the text that their slices write, each from the client's own run, and that each client is left at the end of its run. It
//! uses `client_world`, in whose data it speaks of clients, and `dpmi_io`; `dpmi_cli` uses it.
//! How slices are driven is free. What a client is to it is the trait `Turns`, which says nothing of machines; a clause of that trait
//! is a promise that `dpmi_cli` must keep for its hosts.
#![tactic(auto)]

mod laws;
mod lines;
mod slices;
mod turns;

pub use laws::{
    a_slice_adds_its_gain, an_ended_client_is_silent, each_client_writes_its_own_lines,
    own_lines_hold_the_console,
};
pub use lines::Letter;
pub use slices::pair;
pub use turns::Turns;
