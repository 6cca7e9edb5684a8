// Worked interrupts, exceptions and returns of real mode. The values come from the manual's rules by hand.
use crate::machines::{Differing, compare_all, has_bytes, put, same};
use client_world::{Exit, Fault, Flags, Mode, Regs};
use fault_service::{deliver, pop_iret, soft_int};
use guest_space::Machine;
use interrupts::can_pop_iret;
use std::test::Fail;

// What is asked for.
#[derive(Clone, Copy)]
enum Call {
    Interrupt(u8, u8),
    Exception(Fault),
    Return,
}

// How it ends.
#[derive(Clone, Copy, PartialEq)]
enum Answer {
    Done,
    Raised(Fault),
    Ended(Exit),
}

// A call that is served: the registers and the virtual interrupt flag before it and after it, and bytes of the DOS megabyte after it.
struct Served {
    call: Call,
    before: Regs,
    vif: bool,
    after: Regs,
    vif_after: bool,
    at: u32,
    bytes: &'static [u8],
}

// A call that is refused, and changes nothing.
struct Refused {
    call: Call,
    answer: Answer,
    before: Regs,
}

// The flags image of these is 0803h with interrupts off, and 0A03h with interrupts on.
const START: Regs = Regs {
    eax: 1,
    ecx: 2,
    edx: 3,
    ebx: 4,
    esp: 0x8765_0300,
    ebp: 5,
    esi: 6,
    edi: 7,
    eip: 0x50,
    flags: Flags {
        cf: true,
        of: true,
        ..Flags::CLEAR
    },
    es: 8,
    cs: 0x100,
    ss: 0x3000,
    ds: 9,
    fs: 10,
    gs: 11,
};

// The stack segment's first bytes, and its items from offset 300h on: IP 1234h, CS 5678h, and a flags image with OF, IF, SF, AF and CF.
const FIRST: &[u8] = &[0xA1, 0xA2, 0xA3, 0xA4, 0xA5, 0xA6, 0xA7, 0xA8];

const FRAME: &[u8] = &[0x34, 0x12, 0x78, 0x56, 0x93, 0x0A];

const SP_1: Regs = Regs { esp: 1, ..START };

const SP_5: Regs = Regs { esp: 5, ..START };

const SP_FFFD: Regs = Regs {
    esp: 0xFFFD,
    ..START
};

// The pushes fall on the vector of interrupt 21h.
const ON_VECTOR: Regs = Regs {
    esp: 0x8A,
    ss: 0,
    ..START
};

const DIVIDE: Call = Call::Exception(Fault { number: 0, code: 0 });

const SERVED: [Served; 5] = [
    Served {
        call: Call::Interrupt(0x21, 2),
        before: START,
        vif: true,
        after: Regs {
            esp: 0x8765_02FA,
            eip: 0x5678,
            cs: 0x1234,
            ..START
        },
        vif_after: false,
        at: 0x3_02FA,
        bytes: &[0x52, 0, 0, 1, 0x03, 0x0A],
    },
    // the instruction pointer after the segment's last byte
    Served {
        call: Call::Interrupt(0x21, 1),
        before: Regs {
            eip: 0xFFFF,
            ..START
        },
        vif: false,
        after: Regs {
            esp: 0x8765_02FA,
            eip: 0x5678,
            cs: 0x1234,
            ..START
        },
        vif_after: false,
        at: 0x3_02FA,
        bytes: &[0, 0, 0, 1, 0x03, 0x08],
    },
    Served {
        call: Call::Interrupt(0x21, 2),
        before: ON_VECTOR,
        vif: true,
        after: Regs {
            esp: 0x84,
            eip: 0x52,
            ..ON_VECTOR
        },
        vif_after: false,
        at: 0x84,
        bytes: &[0x52, 0, 0, 1, 0x03, 0x0A],
    },
    Served {
        call: Call::Return,
        before: START,
        vif: false,
        after: Regs {
            esp: 0x8765_0306,
            eip: 0x1234,
            cs: 0x5678,
            flags: Flags {
                of: true,
                sf: true,
                af: true,
                cf: true,
                ..Flags::CLEAR
            },
            ..START
        },
        vif_after: true,
        at: 0x3_0300,
        bytes: FRAME,
    },
    Served {
        call: DIVIDE,
        before: START,
        vif: false,
        after: Regs {
            esp: 0x8765_02FA,
            eip: 0x1234,
            cs: 0xABCD,
            ..START
        },
        vif_after: false,
        at: 0x3_02FA,
        bytes: &[0x50, 0, 0, 1, 0x03, 0x08],
    },
];

const REFUSED: [Refused; 7] = [
    Refused {
        call: Call::Exception(Fault {
            number: 0x0D,
            code: 0x1234,
        }),
        answer: Answer::Ended(Exit::Fault(0x0D, 0x1234)),
        before: START,
    },
    Refused {
        call: Call::Exception(Fault {
            number: 0x0C,
            code: 0,
        }),
        answer: Answer::Ended(Exit::Fault(0x0C, 0)),
        before: START,
    },
    Refused {
        call: Call::Exception(Fault { number: 1, code: 0 }),
        answer: Answer::Ended(Exit::Fault(1, 0)),
        before: START,
    },
    Refused {
        call: DIVIDE,
        answer: Answer::Ended(Exit::Fault(0, 0)),
        before: SP_1,
    },
    // pushes at 3, 1 and FFFFh, of which the third faults
    Refused {
        call: DIVIDE,
        answer: Answer::Ended(Exit::Fault(0, 0)),
        before: SP_5,
    },
    Refused {
        call: Call::Interrupt(0x21, 2),
        answer: Answer::Raised(Fault {
            number: 0x0C,
            code: 0,
        }),
        before: SP_5,
    },
    // reads at FFFDh and FFFFh, of which the second faults
    Refused {
        call: Call::Return,
        answer: Answer::Ended(Exit::BadFrame),
        before: SP_FFFD,
    },
];

// How a return from an interrupt ends; none where `can_pop_iret` says something else than `pop_iret`.
fn return_answer(m: &mut Machine) -> Option<Answer> {
    let can = can_pop_iret(m);
    match pop_iret(m) {
        Ok(()) if can => Some(Answer::Done),
        Err(exit) if !can => Some(Answer::Ended(exit)),
        _ => None,
    }
}

// The answer of a call; none of a return that `can_pop_iret` foretells wrongly.
fn answer_of(m: &mut Machine, call: Call) -> Option<Answer> {
    match call {
        Call::Interrupt(number, len) => match soft_int(m, number, len) {
            Ok(()) => Some(Answer::Done),
            Err(fault) => Some(Answer::Raised(fault)),
        },
        Call::Exception(fault) => match deliver(m, fault) {
            Ok(()) => Some(Answer::Done),
            Err(exit) => Some(Answer::Ended(exit)),
        },
        Call::Return => return_answer(m),
    }
}

// Two vectors, the first bytes of the stack segment, and a frame.
fn prepare(m: &mut Machine, before: Regs, vif: bool) {
    put(m, 0, &[0x34, 0x12, 0xCD, 0xAB]);
    put(m, 0x84, &[0x78, 0x56, 0x34, 0x12]);
    put(m, 0x3_0000, FIRST);
    put(m, 0x3_0300, FRAME);
    m.set_regs(before);
    m.set_vif(vif);
}

fn compare_served(m: &mut Machine, case: &Served) -> Result<(), Differing> {
    prepare(m, case.before, case.vif);
    same(Differing::Mode, m.mode() == Mode::Real)?;
    let answer = answer_of(m, case.call);
    same(Differing::Answer, answer == Some(Answer::Done))?;
    same(Differing::Registers, m.regs() == case.after)?;
    same(Differing::Interrupts, m.vif() == case.vif_after)?;
    same(Differing::Memory, has_bytes(m, case.at, case.bytes))
}

fn compare_refused(m: &mut Machine, case: &Refused) -> Result<(), Differing> {
    prepare(m, case.before, true);
    same(Differing::Mode, m.mode() == Mode::Real)?;
    let answer = answer_of(m, case.call);
    same(Differing::Answer, answer == Some(case.answer))?;
    same(Differing::Registers, m.regs() == case.before)?;
    same(Differing::Interrupts, m.vif())?;
    same(Differing::Memory, has_bytes(m, 0x3_0000, FIRST))
}

#[test]
fn calls_that_are_served(rt: HostRuntime) -> Result<(), Fail> {
    let mut m = Machine::new(rt.alloc(), 1)?;
    assert_eq!(rt; compare_all(&mut m, &SERVED, compare_served), Ok(()));
    Ok(())
}

#[test]
fn calls_that_are_refused(rt: HostRuntime) -> Result<(), Fail> {
    let mut m = Machine::new(rt.alloc(), 1)?;
    assert_eq!(rt; compare_all(&mut m, &REFUSED, compare_refused), Ok(()));
    Ok(())
}
