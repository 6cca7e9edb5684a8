//! The machine: the model's world, held in the bytes of one memory.
//! It promises that each call reads the world, or changes the part of it that it names, and that the bytes hold the world after every
//! call. It uses `host_memory`, the descriptor table and the page tables.
//! How bytes are found quickly (hidden parts, the cache of pages, windows of code, runs of writes) is free. What they hold is fixed by
//! `HoldsWorld`, and what a call does to the world by its clause: every crate above works with the calls alone.
//!
//! Where to look:
//! - the machine and its registers: `machine`, their hidden parts `hidden_parts`, accesses through them and their loads `segments`;
//! - the client's bytes: `memory` at an offset of a segment register, `page_runs` several in one page, `pending` writes that are probed
//!   before any is made, `far` at far pointers, `code` and `windows` for fetches, and under all of these `pages`, from linear addresses to
//!   memory;
//! - the host's tables: `descriptors`, `dos` (DOS memory), `blocks` (memory blocks), `vectors` (with callbacks and pageable pages),
//!   `records` (of calls);
//! - facts that callers get by a call: `laws`.
#![tactic(auto)]

mod blocks;
mod code;
mod descriptors;
mod dos;
mod far;
mod hidden_parts;
mod laws;
mod machine;
mod memory;
mod page_runs;
mod pages;
mod pending;
mod records;
mod segments;
#[cfg(test)]
mod tests;
mod vectors;
mod windows;

pub use dos::{descriptors_for, real_address, real_vector_address};
pub use laws::{
    a_part_is_read_as_in_the_run, a_reachable_run_is_reachable_in_parts, a_write_changes_no_access,
    all_writes_change_only_their_places, every_far_write_changes_only_its_places,
    every_far_write_is_sound, every_row_changes_only_itself, every_write_changes_only_its_places,
    every_write_changes_the_memory_alone, the_protected_stacks_are_reachable,
    what_was_written_is_read,
};
pub use machine::Machine;
pub use memory::are_bytes;
pub use pending::{Write, byte_count, dword_bytes, word_bytes};
pub use windows::CodeWindow;
