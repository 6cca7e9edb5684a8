// The first pieces of an instruction's bytes.
use crate::insn::Rep;
use crate::rows::OpMap;
use client_world::SegReg;

/// What the prefixes say: the last segment, whether operand size (66), address size (67) and LOCK (F0) occur, and the
/// last repeat prefix. Source: 80386 Programmer's Reference Manual, ch. 17, "Instruction Prefixes".
#[derive(Clone, Copy, Debug, PartialEq, Eq)]
pub struct Prefixes {
    pub seg: Option<SegReg>,
    pub operand_size: bool,
    pub address_size: bool,
    pub lock: bool,
    pub rep: Rep,
}

/// The prefixes and the opcode.
#[derive(Clone, Copy, Debug, PartialEq, Eq)]
pub struct Head {
    pub prefixes: Prefixes,
    pub map: OpMap,
    pub opcode: u8,
}

/// ModRM, SIB and displacement; what isn't there is 0.
/// Source: 80386 Programmer's Reference Manual, ch. 17, "ModR/M and SIB Bytes".
#[derive(Clone, Copy, Debug, PartialEq, Eq)]
pub struct Addressing {
    pub modrm: u8,
    pub sib: u8,
    pub disp: u32,
}
