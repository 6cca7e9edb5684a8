//! The instructions of the 80386: their rows in the two opcode maps, the table of operations, and the grammar of their bytes.
//! It promises that `row_of` is the opcode map of `specs/`, and that whatever bytes encode fits its operation. It uses `client_world`;
//! the decoder reads by it, and the executing crates carry its instructions out.
//! It is a table: a line of the map or of the operations may be added. A line that is there is the manual's, and the grammar is the
//! decoder's contract.
#![tactic(auto)]

mod insn;
mod laws;
mod maps;
mod pieces;
mod rows;
mod shapes;
mod table;

pub use insn::{Insn, MemForm, Op, Operand, Owner, Rep, Traits};
pub use laws::every_instruction_is_well_formed;
pub use pieces::{Addressing, Head, Prefixes};
pub use rows::{Form, OpMap, Row};
pub use table::row_of;
