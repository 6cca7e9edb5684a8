// Steps on one machine, each on the memory that the steps before it left.
use super::cases::*;
use crate::insns::*;
use client_world::{Event, Regs, SegReg};
use insn_forms::{Insn, Op, Rep};

// An instruction, the registers before it and after it, its event, bytes that are put at DS:0100h before it, and bytes that are at a place
// after it.
pub(crate) struct Step {
    pub(crate) insn: Insn,
    pub(crate) before: Regs,
    pub(crate) data: &'static [u8],
    pub(crate) event: Option<Event>,
    pub(crate) after: Regs,
    pub(crate) place: (SegReg, u32),
    pub(crate) bytes: &'static [u8],
}

const STACKED: &[u8] = &[
    0x00, 0x02, 0x00, 0x01, 0x00, 0x00, 0x00, 0x03, 0x00, 0x01, 0x22, 0x22, 0x04, 0x00, 0x21, 0x43,
];

// Before POPA each register has another upper half, and a lower half of 0 or FFFFh, but for the stack pointer.
const OTHER: Regs = Regs {
    eax: 0x1_0000,
    ecx: 0x2_0000,
    edx: 0x3_0000,
    ebx: 0x4_0000,
    esp: 0x5_02F0,
    ebp: 0x6_FFFF,
    esi: 0x7_0000,
    edi: 0x8_0000,
    ..START
};

// All general registers go to the stack and come back, but for the stack pointer's slot; the upper halves stay.
pub(crate) static PUSHED_AND_POPPED: [Step; 2] = [
    Step {
        insn: insn!(Op::Pusha, 16, NONE, NONE),
        before: START,
        data: &[],
        event: None,
        after: Regs {
            esp: 0x2F0,
            ..START
        },
        place: (SegReg::Ss, 0x2F0),
        bytes: STACKED,
    },
    Step {
        insn: insn!(Op::Popa, 16, NONE, NONE),
        before: OTHER,
        data: &[],
        event: None,
        after: Regs {
            eax: 0x1_4321,
            ecx: 0x2_0004,
            edx: 0x3_2222,
            ebx: 0x4_0100,
            esp: 0x5_0300,
            ebp: 0x6_0000,
            esi: 0x7_0100,
            edi: 0x8_0200,
            ..START
        },
        place: (SegReg::Ss, 0x2F0),
        bytes: STACKED,
    },
];

const NEAR_THE_START: Regs = Regs {
    ss: 0x75,
    esp: 5,
    ..START
};

// The third push is at FFFFh, beyond the limit: the first two don't happen either.
pub(crate) static ALL_OR_NOTHING: [Step; 1] = [Step {
    insn: insn!(Op::Pusha, 16, NONE, NONE),
    before: NEAR_THE_START,
    data: &[],
    event: STACK_FAULT,
    after: NEAR_THE_START,
    place: (SegReg::Ss, 1),
    bytes: &[0, 0, 0, 0],
}];

const HALFWAY: Regs = Regs {
    ecx: 1,
    eip: 0x100,
    esi: 0x101,
    edi: 0x201,
    ..START
};

// MOVS with REP and a counter of 2 is two steps: the instruction pointer is back at the instruction, and then after it.
pub(crate) static REPEATED: [Step; 2] = [
    Step {
        insn: insn!(Op::Movs, 8, NONE, NONE, rep: Rep::Rep),
        before: Regs {
            ecx: 2,
            eip: 0x102,
            ..START
        },
        data: &[0x12, 0x34],
        event: None,
        after: HALFWAY,
        place: (SegReg::Es, 0x200),
        bytes: &[0x12, 0x00],
    },
    Step {
        insn: insn!(Op::Movs, 8, NONE, NONE, rep: Rep::Rep),
        before: Regs {
            eip: 0x102,
            ..HALFWAY
        },
        data: &[],
        event: None,
        after: Regs {
            ecx: 0,
            eip: 0x102,
            esi: 0x102,
            edi: 0x202,
            ..START
        },
        place: (SegReg::Es, 0x200),
        bytes: &[0x12, 0x34],
    },
];
