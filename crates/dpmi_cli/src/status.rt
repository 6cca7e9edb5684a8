//! The statuses of the command. Source: own.

// The statuses of exits.
pub use dpmi_report::{ENDED_OTHERWISE, EXITED};

/// The words or the file were refused.
pub const REFUSED: u8 = 2;

/// A file that the words name failed, or isn't there.
pub const FILE_FAILED: u8 = 3;

/// The output failed.
pub const OUTPUT_FAILED: u8 = 4;

/// Out of memory.
pub const NO_MEMORY: u8 = 5;
