//! The records of the calls that haven't returned, as a stack of typed records, and where frames lie on the host's stacks at each
//! depth.
//! It promises that a record is pushed where there is room and is then read as it was pushed, and that at the greatest depth nothing
//! changes. It is built on the machine of `guest_space`.
//! How a record is packed and the depth found is free within the layout of `host_memory` (`specs/Records`). Where the frames lie
//! (`specs/Frames`) isn't: exceptions, reflections and callbacks share those stacks.
#![tactic(auto)]

mod frames;
mod packing;
mod stack;

pub use frames::frame_address;
pub use packing::put_at;
pub use stack::{depth, every_record_is_read_from_its_bytes, pop, push, top};
