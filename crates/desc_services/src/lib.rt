//! The services of INT 31h on descriptors, 0000h to 000Dh.
//! It promises that each returns the carry and leaves the world of its definition, and that a refusal changes AX alone. It uses
//! `guest_space`, `service_rows` and the packing of `desc_table`.
//! A body is free as long as it meets its row. The rows of `specs/Rows` are what a client sees; `specs/MayPut` is what
//! `Machine::set_desc` asks, and may not ask less.
#![tactic(auto)]

mod dispatch;
mod fields;
mod freeing;
mod laws;
mod low;
mod packed;
mod runs;
mod segment;
mod selector;

pub use dispatch::serve;
pub use laws::{
    a_limit_that_is_set_is_the_limit, every_descriptor_service_is_sound,
    every_descriptor_service_keeps_the_rest, the_descriptor_of_a_segment_is_found,
};
