//! Instructions as plans: what an instruction reads, one after another, and what it leaves, before anything is written.
//! It promises that each call that the executing crates share is the word of its name, and that writes are made all together or not at
//! all. It uses the machine and the instruction's types.
//! A row that clients run often is written once over any way to look at memory (`looks.rt`), and compiled for quick looks and for the
//! tables. A quicker body is free, and a word may be added. What a word means isn't, and the order of reads least: the rows of instructions
//! are written in these words, and the order decides which fault comes.
#![tactic(auto)]

mod accesses;
mod conditions;
mod looks;
mod loop_counter;
mod next;
mod operands;
mod raised;
mod read;
mod registers;
mod stack;
mod targets;

pub use accesses::{Access, Accesses, MAX_ACCESSES};
pub use conditions::condition;
pub use looks::{
    InsnRow, Look, NumberInMemory, Quick, Unshown, register_width, run_row, source_after,
};
pub use loop_counter::counter;
pub use next::{MAX_WRITES, Next};
pub use operands::{put_operand, put_register, put_with_flags, shown_in_memory, source};
pub use raised::Raised;
pub use read::{number_at, read_number, read_width};
pub use registers::{cut_address, offset_of, register, set_register, with_address};
pub use stack::{
    eight_items, esp_up, has_big_stack, item_pushed, look_at_size, look_at_top, look_at_top_of,
    popped_esp, push_item, push_number, settle_pushes, settle_quickly, stack_item, stack_pointer,
    top_item,
};
pub use targets::check_transfer;
