// How a run ends, and why a file isn't loaded.

/// How a run ends. Source: own.
#[derive(Clone, Copy, Debug, PartialEq, Eq)]
pub enum Exit {
    /// The client ended itself, with this code.
    Exited(u8),
    /// An exception that nothing handles: its number and its error code.
    Fault(u8, u32),
    /// The run's bound of turns was reached.
    Bound,
    /// A key was asked for, and none was left.
    NoKeys,
    /// The console had no room for a byte.
    ConsoleFull,
    /// A call, callback or exception would nest too deeply.
    Deep,
    /// A trap was reached that nothing led to.
    Stray,
    /// The call structure of a return can't be reached.
    LostStructure,
    /// A frame can't be popped, or holds what can't be loaded.
    BadFrame,
    /// A mode switch names what can't be loaded.
    BadSwitch,
}

/// Why a file isn't loaded. Source: own.
#[derive(Clone, Copy, Debug, PartialEq, Eq)]
pub enum LoadFault {
    /// The file has fewer than 28 bytes, the MZ header's length.
    ShortHeader,
    /// The file doesn't begin with `MZ`.
    Signature,
    /// The bytes of the last page are more than a page has, or there are no pages, or the header is longer than they are.
    LastPage,
    /// The relocation table passes the end of the file.
    RelocTable,
    /// The program doesn't fit DOS memory.
    NoRoom,
    /// A relocation lies outside the program block.
    RelocTarget,
    /// The first instruction lies outside the program block.
    EntryOutside,
}
