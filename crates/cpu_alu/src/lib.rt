//! The processor's arithmetic at widths of 8, 16 and 32 bits, each operation with the flags that it leaves.
//! It promises that each call is one formula over whole numbers, the word of `specs/` that its contract names. It uses `cpu_values`'
//! words and `client_world`'s flags; the instructions that compute use it.
//! A body is free as long as it meets its formula. The formula is the manual's, with flags that the manual leaves undefined fixed by
//! choice: the rows of `exec_core` name it.
#![tactic(auto)]

mod decimal;
mod double_shifts;
mod logic;
mod packed;
mod products;
mod quotients;
mod results;
mod shifts;
mod sums;

pub use decimal::{aaa, aad, aam, aas, daa, das};
pub use double_shifts::{shld, shrd};
pub use logic::{and, not, or, xor};
pub use products::{imul, mul};
pub use quotients::{div, idiv};
pub use shifts::{rcl, rcr, rol, ror, sar, shl, shr};
pub use sums::{adc, add, dec, inc, neg, sbb, sub};
