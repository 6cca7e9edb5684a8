//! What the services of INT 31h share: a service with its reasons of refusal and their numbers, the registers that a client's width
//! names, and what it asks of selectors.
//! It promises the values that its definitions name. The services themselves are in the crates above it.
//! A reason or a word may be added. What a service is (`specs/Reasons`: the first reason that applies, else the world after) isn't
//! free: the rows of all services are written in it.
#![tactic(auto)]

mod descriptors;
mod laws;
mod refusal;
mod registers;

pub use descriptors::{data_at, first_free, is_code_selector};
pub use laws::every_refusal_changes_ax_alone;
pub use refusal::{Refusal, refuse};
pub use registers::{es_di, set_ax, set_bx, with_by_width, with_carry};
