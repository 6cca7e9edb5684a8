// Where a linear address lies.

/// Where a linear address lies. Source: own.
#[derive(Clone, Copy, Debug, PartialEq, Eq)]
pub enum Place {
    /// A byte of the DOS megabyte, by its address there.
    Dos(u32),
    /// A byte of a memory block that the client holds, by the block's handle and the byte's offset.
    Block { number: u32, at: u32 },
    /// A byte of the host's own frames.
    Host,
    /// No memory.
    Nothing,
}
