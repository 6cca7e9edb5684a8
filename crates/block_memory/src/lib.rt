//! The memory blocks in the host's frames: their rows, page entries, frames and lock counts.
//! It promises by the contracts of its calls what each leaves in the memory: one block is replaced by one with more or fewer pages or at
//! another address, or by none, and the rest of the world stays. It uses `host_memory`; the calls of `guest_space` on blocks use it.
//! How a page or a row is found and moved is free. Where it lies, and which world the bytes then hold, is fixed by `HoldsWorld` of
//! `host_memory`.
#![tactic(auto)]

mod blocks;
mod counts;
mod rows;
mod slides;

pub use blocks::{block_row, drop_block, extend_block, resize_block};
pub use counts::{locked_pages, used_pages};
pub use rows::region_page;
