//! The limits of a run and of what it is given. Source: own.

/// The most turns that a host makes.
pub const MAX_STEPS: u32 = 1_000_000_000;

/// The most turns of a run, where no other bound is given.
pub const DEFAULT_BOUND: u32 = 10_000_000;

/// The most bytes that a console holds.
pub const CONSOLE_ROOM: u32 = 0x10_0000;

/// The most pages, of 4096 bytes, that a client's memory blocks may take together.
pub const MAX_PAGES: u32 = 16_384;

/// The most pages of each of two clients that take turns.
pub const MAX_PAIR_PAGES: u32 = 8_192;

/// The pages of a budget, where no other number is given.
pub const DEFAULT_PAGES: u32 = 1024;

/// The most keystrokes, in bytes, that a client is given.
pub const MAX_KEYS: u32 = 65_536;

/// The most lines of the trace that are kept.
pub const MAX_TRACE: u32 = 10_000;

/// The lines of the trace that are kept, where no other number is given.
pub const DEFAULT_TRACE: u32 = 1_000;

/// The most rounds after which a timer's interrupt becomes due.
pub const GREATEST_TIMER: u32 = 1_000_000_000;

/// The most turns of a slice, where two clients take turns.
pub const MAX_SLICE: u32 = 1_000_000;

/// The turns of a slice, where no other number is given.
pub const DEFAULT_SLICE: u32 = 1_000;

/// The most bytes of a client's file.
pub const MAX_FILE: u32 = 4_194_304;

/// The greatest depth: the most records of calls, callbacks and exceptions at a time.
pub const GREATEST_DEPTH: u32 = 32;

/// The most memory blocks that a client holds at a time; their handles are 1 to this.
pub const MAX_BLOCKS: u32 = 512;

/// The greatest lock count of a page.
pub const GREATEST_LOCK_COUNT: u32 = 65_535;

/// The real-mode callbacks.
pub const CALLBACKS: u32 = 16;

/// The watchpoints; their handles are 1 to this.
pub const WATCHES: u16 = 16;

/// The interrupt vectors of either mode.
pub const INTERRUPT_VECTORS: u32 = 256;

/// The exception vectors.
pub const EXCEPTION_VECTORS: u32 = 32;

/// The most words that a simulated call copies to its stack.
pub const MAX_CALL_WORDS: u32 = 200;
