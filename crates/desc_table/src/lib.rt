//! The client's descriptor table: descriptors as eight bytes, and the rows of the host's frames that hold them.
//! It promises that a row is read as it was set, that the other rows stay, and that a run of free rows is the first. It uses the
//! client's types and the memory; the machine uses it.
//! How a row is searched, read and put is free. Its eight bytes are the processor's, and the rest of the row is in `HoldsWorld`
//! (`row_bytes`).
#![tactic(auto)]

pub mod access_bits;
mod packing;
mod rows;

pub use packing::{
    a_packed_descriptor_is_unpacked, access_byte, flags_byte, is_access_byte, kind_of, pack, unpack,
};
pub use rows::{
    free_run, look, set, the_bytes_of_a_row_are_that_row, the_rows_stand_at_their_indices,
};
