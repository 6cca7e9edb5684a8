// Watchpoints, and the accesses that they are compared with, as plain data.

/// What a watchpoint waits for. Source: DPMI 0.9, INT 31h function 0B00h.
#[derive(Clone, Copy, Debug, PartialEq, Eq)]
pub enum WatchKind {
    /// The instruction at its address runs.
    Execute,
    /// One of its bytes is written.
    Write,
    /// One of its bytes is read or written.
    ReadOrWrite,
}

/// A watchpoint. Source: DPMI 0.9, INT 31h function 0B00h.
#[derive(Clone, Copy, Debug, PartialEq, Eq)]
pub struct Watch {
    /// The linear address of its first byte.
    pub at: u32,
    /// Its bytes: 1, 2 or 4.
    pub size: u8,
    pub kind: WatchKind,
    /// It was hit since it was made or reset.
    pub hit: bool,
}

/// A run of bytes that an instruction reads or writes, from a linear address on. Source: own.
#[derive(Clone, Copy, Debug, Default, PartialEq, Eq)]
pub struct Touch {
    pub lin: u32,
    pub len: u8,
    pub write: bool,
}
