// DOS memory: the entries of the arena.

/// What the block of an entry is. Source: own.
#[derive(Clone, Copy, Debug, Default, PartialEq, Eq)]
pub enum DosState {
    /// No block: its paragraphs are free.
    #[default]
    Free,
    /// A block that a DOS call or the loader made.
    Used,
    /// A block that INT 31h function 0100h made.
    Dpmi,
}

/// An entry of the arena: the paragraph of its header, the paragraphs of its block after that, and what the block is. Source: own.
#[derive(Clone, Copy, Debug, Default, PartialEq, Eq)]
pub struct DosEntry {
    pub at: u16,
    pub paras: u16,
    pub state: DosState,
}

/// Why DOS memory isn't given, freed or resized. Source: MS-DOS functions 48h to 4Ah.
#[derive(Clone, Copy, Debug, PartialEq, Eq)]
pub enum DosRefusal {
    /// There is no room; the number is the most paragraphs that there could be.
    NoMemory { largest: u16 },
    /// The segment starts no block of the kind that was asked for.
    WrongBlock,
}

/// The descriptors of a DOS block that changes: its segment, the index of its first descriptor, and its paragraphs before and after,
/// 0 where it isn't there. Source: own.
#[derive(Clone, Copy, Debug, PartialEq, Eq)]
pub struct DosRun {
    pub seg: u16,
    pub first: u16,
    pub before: u16,
    pub after: u16,
}
