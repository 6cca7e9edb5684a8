//! The services of INT 31h on memory blocks and their pages.
//! It promises that each returns the carry and leaves the world of its definition, and that a refusal changes AX alone. It uses the
//! memory blocks of `guest_space` and `service_rows`.
//! A body is free as long as it meets its row, and a service may be added, in `specs/Rows` first. The reasons of refusal and their
//! order aren't: a client sees them.
#![tactic(auto)]

mod blocks;
mod dispatch;
mod free;
mod gaps;
mod laws;
mod pages;
mod regions;
mod spans;

pub use dispatch::serve;
pub use laws::{
    a_block_that_shrinks_stays, every_block_service_is_sound, every_block_service_keeps_the_rest,
    the_table_gives_the_largest_block,
};
