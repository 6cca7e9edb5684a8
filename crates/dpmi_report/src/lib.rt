//! The text of a run that has ended: the console, the trace and the report.
//! It promises that each part is the model's text, whole or cut off where the output failed, and that it fails only where the output's
//! count of faults rose. It uses `host_run`, whose hosts it shows, and `dpmi_io`.
//! How a line is put together is free, and a line may be added to the report, in `specs/` first. The text itself is `dpmi_cli`'s
//! promise; `tools/suite` and `tools/shown` compare it.
#![tactic(auto)]

mod blocks;
mod digest;
mod digits;
mod exits;
mod lines;
mod parts;
mod report;
mod summary;
#[cfg(test)]
mod tests;
mod trace;

pub use exits::{ENDED_OTHERWISE, EXITED, exit_status};
pub use report::write_all_of;
pub use summary::write_summary;
