//! The trap bytes: bytes of read-only memory that the host serves instead of running them. Linear addresses. Source: own.

/// The trap bytes of the default real vectors 0 to FFh.
pub const REAL_VECTOR_TRAPS: u32 = 0xF_0000;

/// The trap byte of the entry to protected mode.
pub const ENTRY_TRAP: u32 = 0xF_0100;

/// The trap byte of the raw switch to protected mode.
pub const SWITCH_TO_PROTECTED_TRAP: u32 = 0xF_0101;

/// The trap byte of the save and restore call in real mode.
pub const REAL_STATE_TRAP: u32 = 0xF_0102;

/// The trap byte to which a simulated call or a reflection returns.
pub const CALL_RETURN_TRAP: u32 = 0xF_0103;

/// The trap bytes of the real-mode callbacks 0 to Fh.
pub const CALLBACK_TRAPS: u32 = 0xF_0110;

/// The trap bytes of the default protected vectors 0 to FFh.
pub const PROTECTED_VECTOR_TRAPS: u32 = 0xF_0200;

/// The trap bytes of the default exception handlers 0 to 1Fh.
pub const EXCEPTION_TRAPS: u32 = 0xF_0300;

/// The trap byte of the raw switch to real mode.
pub const SWITCH_TO_REAL_TRAP: u32 = 0xF_0320;

/// The trap byte of the save and restore call in protected mode.
pub const PROTECTED_STATE_TRAP: u32 = 0xF_0321;

/// The trap byte to which an exception handler returns.
pub const EXCEPTION_RETURN_TRAP: u32 = 0xF_0322;

/// The trap byte to which a callback's procedure returns.
pub const CALLBACK_RETURN_TRAP: u32 = 0xF_0323;
