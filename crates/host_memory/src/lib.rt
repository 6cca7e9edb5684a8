//! The world in the bytes of the memory: where each part of it lies in the host's frames, and what the bytes must be.
//! It promises, in laws over its definitions, that a walk of the page tables ends exactly where the client may touch, at the world's
//! byte, and that a new memory holds the blank world. It uses the descriptor table and the page tables, and has no state of its own.
//! How a blank memory is filled is free. `HoldsWorld` and the layout aren't: each write of `block_memory` and `guest_space` is proved
//! to keep them.
#![tactic(auto)]

mod blank;
mod dos_list;
mod laws;

pub use blank::{a_blank_world_is_sound, blank_memory};
pub use dos_list::{header, listed_entry};
pub use laws::{
    every_memory_that_holds_a_world_has_its_bytes, every_memory_that_holds_a_world_is_walked_so,
    every_walk_ends_where_the_client_may_touch,
};
