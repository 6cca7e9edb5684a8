// Windows of code: bytes that one look shows, and that are then fetched without another.
ghost use Rattle.std.specs.Prelude.{◌≤◌, ◌+◌, ◌^◌};

/// Code that lies in one page: at each of its starts 15 code bytes can be fetched. Source: own.
#[derive(Clone, Copy, Debug, PartialEq, Eq)]
pub struct CodeWindow {
    /// What CS holds.
    pub cs: u16,
    /// The offset of the first start, its linear address, and its address in the memory.
    pub first: u32,
    pub linear: u32,
    pub address: u32,
    /// How many starts there are, one after another.
    pub starts: u32,
    /// The place of the first start in a memo: its offset in the page, and a page more where operands and addresses have 32 bits by
    /// default. The other places follow.
    pub place: u32,
    ghost low: { first + starts ≤ 2 ^ 32 },
}

impl CodeWindow {
    /// A window without starts.
    pub const NONE: CodeWindow = CodeWindow {
        cs: 0,
        first: 0,
        linear: 0,
        address: 0,
        starts: 0,
        place: 0,
    };
}
