// Steps whose bytes in memory are given before and after. The values come from the manual's rules by hand.
use super::cases::*;
use client_world::{Event, Fault, Regs};

// A step: the code, the registers before it, the bytes from a linear address on, and what the step returns and leaves.
pub(crate) struct Bytes {
    pub(crate) code: &'static [u8],
    pub(crate) before: Regs,
    pub(crate) at: u32,
    pub(crate) bytes_before: &'static [u8],
    pub(crate) answer: Result<(), Event>,
    pub(crate) after: Regs,
    pub(crate) bytes_after: &'static [u8],
}

// Every general register holds another number; `esp` is that of the case.
const PUSHED: Regs = Regs {
    ebx: 0x3333_4444,
    ebp: 0x5555_6666,
    esi: 0x7777_8888,
    edi: 0x9999_AAAA,
    ..REAL
};

// The stack from SS:0000h on.
const BOTTOM: u32 = 0x3_0000;

const FILLED: &[u8] = &[
    0xE0, 0xE1, 0xE2, 0xE3, 0xE4, 0xE5, 0xE6, 0xE7, 0xE8, 0xE9, 0xEA, 0xEB, 0xEC, 0xED, 0xEE, 0xEF,
    0xF0,
];

// PUSHA whose pushes don't all fit: one of them would be at offset FFFFh. That it is the stack exception, and that no push is made, is own.
macro_rules! refused {
    ($esp:expr) => {
        Bytes {
            code: &[0x60],
            before: Regs { esp: $esp, ..PUSHED },
            at: BOTTOM,
            bytes_before: FILLED,
            answer: Err(fault!(0x0C, 0)),
            after: Regs { esp: $esp, ..PUSHED },
            bytes_after: FILLED,
        }
    };
}

// Two bytes to copy, and two places for them.
const TO_COPY: Regs = Regs {
    ecx: 0x1_0002,
    esi: 0x100,
    edi: 0x102,
    es: 0x1000,
    ..REAL
};

const FIRST_COPIED: Regs = Regs {
    ecx: 0x1_0001,
    esi: 0x101,
    edi: 0x103,
    ..TO_COPY
};

const ALL_COPIED: Regs = Regs {
    ecx: 0x1_0000,
    esi: 0x102,
    edi: 0x104,
    eip: 0x52,
    ..TO_COPY
};

pub(crate) static BYTES: [Bytes; 6] = [
    // eight words fit exactly: DI lowest, AX highest, and SP as it was before
    Bytes {
        code: &[0x60],
        before: Regs {
            esp: 0x10,
            ..PUSHED
        },
        at: BOTTOM,
        bytes_before: FILLED,
        answer: Ok(()),
        after: Regs {
            esp: 0,
            eip: 0x51,
            ..PUSHED
        },
        bytes_after: &[
            0xAA, 0xAA, 0x88, 0x88, 0x66, 0x66, 0x10, 0x00, 0x44, 0x44, 0x22, 0x22, 0x04, 0x00,
            0x21, 0x43, 0xF0,
        ],
    },
    // the eighth push doesn't fit; the fourth doesn't
    refused!(0x0F),
    refused!(7),
    // REP MOVSB: one step is one byte, and EIP stays until CX is 0; with CX 0 there is nothing to do
    Bytes {
        code: &[0xF3, 0xA4],
        before: TO_COPY,
        at: 0x1_0100,
        bytes_before: &[0xAB, 0xCD, 0, 0, 0],
        answer: Ok(()),
        after: FIRST_COPIED,
        bytes_after: &[0xAB, 0xCD, 0xAB, 0, 0],
    },
    Bytes {
        code: &[0xF3, 0xA4],
        before: FIRST_COPIED,
        at: 0x1_0100,
        bytes_before: &[0xAB, 0xCD, 0xAB, 0, 0],
        answer: Ok(()),
        after: ALL_COPIED,
        bytes_after: &[0xAB, 0xCD, 0xAB, 0xCD, 0],
    },
    Bytes {
        code: &[0xF3, 0xA4],
        before: Regs {
            eip: 0x50,
            ..ALL_COPIED
        },
        at: 0x1_0100,
        bytes_before: &[0xAB, 0xCD, 0xAB, 0xCD, 0],
        answer: Ok(()),
        after: ALL_COPIED,
        bytes_after: &[0xAB, 0xCD, 0xAB, 0xCD, 0],
    },
];
