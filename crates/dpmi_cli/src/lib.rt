//! A DPMI host that runs one client, or two in turns: the words of the command line in, the clients' text and a status out.
//! It promises that what it writes is the model's text, whole or cut off where the output failed, that each failure that it reports has
//! its cause, and that each run that it answers keeps its client to its memory, and nests and hands over as the laws of `host_run` say.
//! It uses what makes, runs and shows clients; the program `dpmi` calls it.
//! How the parts are joined is free. `specs/Answer`, `specs/Causes` and the statuses aren't: they are what a user of the command is
//! promised.
#![tactic(auto)]

mod command;
mod laws;
mod pairs;
mod prepare;
mod report;
mod runs;
pub mod status;
mod watched_host;

pub use command::{dpmi, dpmi_without_failure};
pub use laws::every_run_keeps_the_laws;
pub use prepare::{Reason, start_host};
pub use report::write_refusal;
pub use runs::run_to_end;
