//! The two-level page tables of the machine, and the frames of its page budget.
//! It promises that `map` and `unmap` change the manual's walk at one page alone, and that no frame is taken twice. It uses
//! `client_world` and `guest_ram`; what reaches the client's memory through pages uses it.
//! Bodies are free, within bytes that their clauses fix. The entries and the walk are the processor's (`specs/Entry`, `specs/Walk`),
//! and the free frames are a list in themselves (`specs/FreeList`): the laws of `host_memory` and `block_memory` are about both.
#![tactic(auto)]

mod budget;
mod entry;
mod mapping;
mod translation;

pub use budget::{FREE_LIST_HEAD, give_frame, link_frames, take_frame};
pub use entry::{
    ACCESSED, DIRTY, PRESENT, SUPERVISOR_WRITABLE, TABLE_SPAN, USER, USER_READ_ONLY, USER_WRITABLE,
    WRITABLE,
};
pub use mapping::{map, unmap};
pub use translation::walk;
