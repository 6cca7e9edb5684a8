//! The plain types of the client's world, and the model's world itself: registers, the memory map, limits, places, exits.
//! It promises that each conversion between them is the one that its definition in `specs/` names. It uses no other crate.
//! The body of a conversion is free. The types and definitions are what every crate that knows the client stands on: a field, a
//! constant or a line of `World` or `Soundness` changes the contracts of all of them.
#![tactic(auto)]

mod blocks;
mod calls;
mod code;
mod descriptors;
mod dos_memory;
pub mod faults;
pub mod general;
pub mod host_frames;
pub mod limits;
pub mod memory_map;
mod outcome;
mod place;
mod registers;
mod segments;
pub mod selectors;
mod services;
mod trace;
pub mod traps;
mod watchpoints;

pub use blocks::BlockRow;
pub use calls::{Call, Deep, Record, What};
pub use code::CodeWords;
pub use descriptors::{
    Desc, Kind, Origin, a_plain_descriptor_keeps_a_world_sound, a_run_inside_is_inside_at_each_byte,
};
pub use dos_memory::{DosEntry, DosRefusal, DosRun, DosState};
pub use faults::{Event, Fault, PageFault};
pub use outcome::{Exit, LoadFault};
pub use place::Place;
pub use registers::{
    Flags, Mode, Regs, Width, a_flags_image_gives_its_flags_back, high_byte, high_half,
    is_interrupt_set, is_set, low_byte, low_half, weight, with_low_byte, with_low_half,
};
pub use segments::{FarPtr, SegReg};
pub use services::{Begun, Carry, DosDone, by_width, two_words};
pub use trace::TraceLine;
pub use watchpoints::{Touch, Watch, WatchKind};
