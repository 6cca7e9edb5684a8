// What a call answers, in the numbers of the command's statuses.
use dpmi_cli::status;

/// The call did its work.
pub const DONE: u8 = status::EXITED;

/// A number isn't in its range, or the client's file is refused.
pub const REFUSED: u8 = status::REFUSED;

/// The text doesn't fit.
pub const NO_ROOM: u8 = status::OUTPUT_FAILED;

/// Out of memory.
pub const NO_MEMORY: u8 = status::NO_MEMORY;
