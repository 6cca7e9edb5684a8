//! The bits of the access byte, byte 5 of a descriptor. Bits 1 and 2 mean writable and expand-down in data, readable and conforming in
//! code. Source: 80386 Programmer's Reference Manual, ch. 6, figure 6-1.

/// Accessed: the segment was loaded.
pub const ACCESSED: u32 = 0x01;

/// Data that may be written.
pub const WRITABLE: u32 = 0x02;

/// Code that may be read.
pub const READABLE: u32 = 0x02;

/// Data whose offsets lie above its limit.
pub const EXPAND_DOWN: u32 = 0x04;

/// Code that callers of less privilege enter.
pub const CONFORMING: u32 = 0x04;

/// Code, not data.
pub const EXECUTABLE: u32 = 0x08;

/// A segment, not a gate, with DPL 3.
pub const SEGMENT_AT_LEVEL_3: u32 = 0x70;

/// The segment is there.
pub const PRESENT: u32 = 0x80;
