// Segment registers and far pointers.

/// A segment register, in the order of its number 0 to 5.
/// Source: 80386 Programmer's Reference Manual, ch. 2, "Segment Registers", and ch. 17, "sreg".
#[derive(Clone, Copy, Debug, PartialEq, Eq)]
pub enum SegReg {
    Es,
    Cs,
    Ss,
    Ds,
    Fs,
    Gs,
}

/// A far pointer: a selector (in real mode a segment) and an offset.
/// Source: 80386 Programmer's Reference Manual, ch. 2, "Data Types", far pointer.
#[derive(Clone, Copy, Debug, PartialEq, Eq)]
pub struct FarPtr {
    pub sel: u16,
    pub off: u32,
}

impl FarPtr {
    /// The far pointer that points to nothing.
    pub const NULL: FarPtr = FarPtr { sel: 0, off: 0 };
}
