// Rows of the opcode maps.
use crate::insn::Op;

/// The opcode maps: one-byte opcodes, and two-byte opcodes, which begin with 0F.
/// Source: 80386 Programmer's Reference Manual, appendix A.
#[derive(Clone, Copy, Debug, PartialEq, Eq)]
pub enum OpMap {
    One,
    Two,
}

/// The form of an operand. E is the register or memory of ModRM, G its register, M its memory alone, I an immediate,
/// J a distance, O a direct offset, X a string's element; b is 8 bits, w 16, v 16 or 32 by operand size.
/// Source: 80386 Programmer's Reference Manual, appendix A, "Key to Abbreviations", and own.
#[derive(Clone, Copy, Debug, PartialEq, Eq)]
pub enum Form {
    Empty,
    Eb,
    Ew,
    Ev,
    Gb,
    Gw,
    Gv,
    /// A register of operand size, or a word in memory.
    RvMw,
    /// The segment register of ModRM.
    Sw,
    M,
    Al,
    /// AX or EAX.
    Ax,
    Cl,
    Dx,
    /// The number 1.
    Const1,
    Ib,
    Iw,
    /// An immediate of operand size.
    Iz,
    /// A byte, sign-extended to the operand size.
    Is,
    Jb,
    /// A distance of operand size.
    Jz,
    /// A far pointer.
    Ip,
    Ob,
    Ov,
    /// The register in the low three bits of the opcode.
    Zb,
    Zv,
    Xb,
    Xv,
    SegEs,
    SegCs,
    SegSs,
    SegDs,
    SegFs,
    SegGs,
    /// A ModRM byte alone, of which nothing else is read.
    ModRm,
}

/// A row of an opcode map. `op` is `None` exactly where there is no encoding; its forms then say what would be read.
/// Source: 80386 Programmer's Reference Manual, appendix A.
#[derive(Clone, Copy, Debug, PartialEq, Eq)]
pub struct Row {
    pub op: Option<Op>,
    pub first: Form,
    pub second: Form,
    pub third: Form,
}

/// An opcode's entry: its one row, or the number of its group.
#[derive(Clone, Copy, Debug, PartialEq, Eq)]
pub enum Slot {
    Alone(Row),
    Group(u8),
}
