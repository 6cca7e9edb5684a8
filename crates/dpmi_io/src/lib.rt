//! The outside of the host: the files that it reads and the bytes that it writes.
//! It promises what each call of a shelf or a sink returns, when it may fail, and what it then leaves. It uses no other crate of the
//! repository; `dpmi_report`, `pair_run`, `dpmi_cli` and the program use it.
//! Another shelf or sink may be added. The contracts of the traits in `src/outside.rt` may not change alone: every text and every cause
//! of a failure is stated over them.
#![tactic(auto)]

mod line;
mod memory_shelf;
mod memory_sink;
mod open_file;
mod outside;
mod plan;
mod real;
mod sure;
mod whole;

pub use line::{LINE_ROOM, Line, add, add_decimal};
pub use memory_shelf::MemShelf;
pub use memory_sink::MemSink;
pub use outside::{Shelf, ShelfFail, Sink, SinkFail};
pub use real::{FileShelf, StdoutSink};
pub use sure::{SureShelf, SureSink};
pub use whole::{put_all, read_whole};
