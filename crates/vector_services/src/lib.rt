//! The services of INT 31h on vectors, on the version and on virtual interrupts.
//! It promises that each returns the carry and leaves the world of its definition, and that a refusal changes AX alone. It uses
//! `guest_space` and `service_rows`.
//! A body is free as long as it meets its row, and a service may be added, in `specs/Rows` first. The reasons of refusal and their
//! order aren't: a client sees them.
#![tactic(auto)]

mod dispatch;
mod laws;
mod state;
mod vectors;

pub use dispatch::serve;
pub use laws::{every_vector_service_is_sound, every_vector_service_keeps_the_rest};
