// Steps in protected mode. The values come from the manual's rules by hand.
use super::cases::*;
use client_world::{Event, Fault, Flags, Regs};

// IP 1234h, CS 0237h, and the flags image of the frame in real mode.
const CODE_FRAME: [u8; 8] = [0x34, 0x12, 0x37, 0x02, 0x93, 0x0A, 0, 0];

// The same with selectors that a return refuses: of privilege level 0, and of no code.
const PRIVILEGED_FRAME: [u8; 8] = [0x34, 0x12, 0x34, 0x02, 0x93, 0x0A, 0, 0];

const DATA_FRAME: [u8; 8] = [0x34, 0x12, 0x2F, 0x02, 0x93, 0x0A, 0, 0];

pub(crate) static PROTECTED_DONE: [Done; 17] = [
    // the virtual interrupt flag is neither shown nor changed by images
    Done {
        items: CODE_FRAME,
        ..done!(PROTECTED, [0xCF], [] false, [eip: 0x1234, cs: 0x237, esp: 0x306, flags: FRAME_FLAGS] false, [])
    },
    done!(PROTECTED, [0x9C], [] false, [eip: 0x51, esp: 0x2FE] false, [0x02, 0x02]),
    done!(PROTECTED, [0x9D], [] false, [eip: 0x51, esp: 0x302, flags: Flags { af: true, pf: true, ..Flags::CLEAR }] false, []),
    done!(PROTECTED, [0xFA], [] true, [eip: 0x51] false, []),
    // a jump takes any privilege level, and stores 3
    done!(PROTECTED, [0xEA, 0x34, 0x12, 0x34, 0x02], [], [eip: 0x1234, cs: 0x237]),
    done!(PROTECTED, [0x9A, 0x34, 0x12, 0x34, 0x02], [], [eip: 0x1234, cs: 0x237, esp: 0x2FC], [0x55, 0x00, 0x37, 0x02]),
    Done {
        items: CODE_FRAME,
        ..done!(PROTECTED, [0xCA, 0x02, 0x00], [], [eip: 0x1234, cs: 0x237, esp: 0x306])
    },
    done!(PROTECTED, [0x8E, 0xC0], [eax: 0x237], [eip: 0x52, es: 0x237]),
    done!(PROTECTED, [0x8E, 0xC0], [eax: 0x3, es: 0x237], [eip: 0x52, es: 0x3]),
    // questions
    done!(PROTECTED, [0x0F, 0x00, 0xE0], [eax: 0x234], [eip: 0x53, flags: ZERO]),
    done!(PROTECTED, [0x0F, 0x00, 0xE0], [eax: 0, flags: ZERO], [eip: 0x53, flags: Flags::CLEAR]),
    done!(PROTECTED, [0x0F, 0x00, 0xE8], [eax: 0x237, flags: ZERO], [eip: 0x53, flags: Flags::CLEAR]),
    done!(PROTECTED, [0x0F, 0x02, 0xC8], [eax: 0x22F], [eip: 0x53, ecx: 0xF300, flags: ZERO]),
    done!(PROTECTED, [0x0F, 0x03, 0xC8], [eax: 0x22F], [eip: 0x53, ecx: 0xFFFF, flags: ZERO]),
    done!(PROTECTED, [0x0F, 0x03, 0xC8], [eax: 0x23F, flags: ZERO], [eip: 0x53, flags: Flags::CLEAR]),
    done!(PROTECTED, [0x63, 0xC8], [eax: 0x22C, ecx: 3], [eip: 0x52, eax: 0x22F, flags: ZERO]),
    done!(PROTECTED, [0x63, 0xC8], [eax: 0x22F, ecx: 2, flags: ZERO], [eip: 0x52, flags: Flags::CLEAR]),
];

pub(crate) static PROTECTED_RAISES: [Raises; 11] = [
    raises!(PROTECTED, [0xCD, 0x31], [], soft!(0x31, 2)),
    // returns
    raises!(PROTECTED, [0xCF], [], fault!(0x0D, 0x5678)),
    Raises {
        items: PRIVILEGED_FRAME,
        ..raises!(PROTECTED, [0xCF], [], fault!(0x0D, 0x234))
    },
    Raises {
        items: PRIVILEGED_FRAME,
        ..raises!(PROTECTED, [0xCB], [], fault!(0x0D, 0x234))
    },
    Raises {
        items: DATA_FRAME,
        ..raises!(PROTECTED, [0xCB], [], fault!(0x0D, 0x22C))
    },
    // loads
    raises!(PROTECTED, [0x8E, 0xD0], [eax: 0], fault!(0x0D, 0)),
    raises!(PROTECTED, [0x8E, 0xD0], [eax: 0x237], fault!(0x0D, 0x234)),
    raises!(PROTECTED, [0x8E, 0xC0], [eax: 0x23F], fault!(0x0D, 0x23C)),
    // pushes that leave the segment; what only raises
    raises!(PROTECTED, [0x9A, 0x34, 0x12, 0x34, 0x02], [esp: 1], fault!(0x0C, 0)),
    raises!(PROTECTED, [0x0F, 0x00, 0xD0], [], fault!(0x0D, 0)),
    raises!(PROTECTED, [0xF4], [], fault!(0x0D, 0)),
];
