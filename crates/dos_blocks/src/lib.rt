//! Blocks of DOS memory: given, resized and freed, by DOS calls and by INT 31h functions 0100h to 0102h.
//! It promises that each call returns what its definition says and changes the arena as it says, and for a block of function 0100h the
//! descriptors; a call that is refused changes nothing, and by a law a service that is refused AX and BX alone. It uses `guest_space` and
//! the search for free descriptors of `service_rows`; the DOS calls use it.
//! The search and the order of the writes are free. Which block is taken is fixed by `specs/Blocks`: a client sees it.
#![tactic(auto)]

mod allocating;
mod finding;
mod freeing;
mod laws;
mod neighbours;
mod putting;
mod resizing;
mod selectors;
mod services;

pub use allocating::dos_alloc;
pub use freeing::dos_free;
pub use laws::{
    a_block_that_is_freed_loses_its_descriptors,
    a_block_that_is_made_is_named_by_its_first_selector, a_selector_finds_the_block_that_it_names,
    every_dos_service_is_sound, every_dos_service_keeps_the_rest,
    every_refused_dos_service_changes_ax_and_bx_alone, the_descriptors_of_a_block_lie_in_a_row,
};
pub use resizing::{can_resize, dos_resize};
pub use services::{NO_MEMORY, WRONG_BLOCK, serve};
