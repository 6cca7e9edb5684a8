//! The calls of `dpmi_calls` for C, and for whatever loads a shared library: `library/dpmi.h` declares them.
//! It promises what those calls promise. In C a slice is a pointer and a length, and the allocator takes no bytes.
//! It uses `dpmi_calls` alone; no crate uses it.
//! Functions may be added. The order of their parameters is what `dpmi.h` tells callers, and isn't free.
#![tactic(auto)]

mod given;
mod runs;
mod searches;

pub use runs::{dpmi_run, dpmi_states};
pub use searches::{dpmi_last_stop, dpmi_stops};
