// What a case of a worked row is made of.
use crate::insns::*;
use client_world::{Event, Fault, Flags, Regs, SegReg};
use insn_forms::{Insn, MemForm, Operand};

// What is at DS:0100h, at ES:0200h, and at SS:02FEh; the stack's top is at SS:0300h.
#[derive(Clone, Copy)]
pub(crate) struct Memory {
    pub(crate) data: u32,
    pub(crate) extra: u32,
    pub(crate) stack: u32,
}

// A case begins with these registers and this memory, but for what it names.
pub(crate) const START: Regs = Regs {
    eax: 0x8765_4321,
    ecx: 4,
    edx: 0x1111_2222,
    ebx: 0x100,
    esp: 0x300,
    ebp: 0,
    esi: 0x100,
    edi: 0x200,
    eip: 0x50,
    flags: Flags::CLEAR,
    es: 0x2000,
    cs: 0,
    ss: 0x3000,
    ds: 0x1000,
    fs: 0,
    gs: 0,
};

pub(crate) const MEMORY: Memory = Memory {
    data: 0x8000_00FF,
    extra: 0x0403_0201,
    stack: 0x0B0A_0000,
};

pub(crate) const AL: Operand = reg!(8, 0);

pub(crate) const CL: Operand = reg!(8, 1);

pub(crate) const DL: Operand = reg!(8, 2);

pub(crate) const BL: Operand = reg!(8, 3);

pub(crate) const AH: Operand = reg!(8, 4);

pub(crate) const CH: Operand = reg!(8, 5);

pub(crate) const AX: Operand = reg!(16, 0);

pub(crate) const CX: Operand = reg!(16, 1);

pub(crate) const DX: Operand = reg!(16, 2);

pub(crate) const SP: Operand = reg!(16, 4);

pub(crate) const EAX: Operand = reg!(32, 0);

pub(crate) const ECX: Operand = reg!(32, 1);

pub(crate) const EDX: Operand = reg!(32, 2);

pub(crate) const EBP: Operand = reg!(32, 5);

// The place DS:0100h.
pub(crate) const DATA: Operand = mem!(SegReg::Ds, None, None, 0x100);

pub(crate) const STACK_FAULT: Option<Event> = Some(Event::Fault(Fault {
    number: 0x0C,
    code: 0,
}));

pub(crate) const LIMIT_FAULT: Option<Event> = Some(Event::Fault(Fault {
    number: 0x0D,
    code: 0,
}));

pub(crate) const READ_ONLY_PAGE: Option<Event> = Some(Event::Fault(Fault {
    number: 0x0E,
    code: 7,
}));

pub(crate) const DIVIDE_FAULT: Option<Event> = Some(Event::Fault(Fault { number: 0, code: 0 }));

// An instruction, what was there before it, what is there after it, and its event. Flags are letters.
pub(crate) struct Case {
    pub(crate) insn: Insn,
    pub(crate) before: Regs,
    pub(crate) flags_before: &'static [u8],
    pub(crate) after: Regs,
    pub(crate) flags_after: &'static [u8],
    pub(crate) memory: Memory,
    pub(crate) event: Option<Event>,
}

// A case of an instruction: registers and flags before it; then those that it leaves, and memory that it leaves.
macro_rules! case {
    ($insn:expr, [$($was:ident: $v:expr),*] $old:literal, [$($is:ident: $w:expr),*] $new:literal $(, $place:ident: $x:expr)*) => {
        Case {
            insn: $insn,
            before: Regs { $($was: $v,)* ..START },
            flags_before: $old,
            after: Regs { $($is: $w,)* ..Regs { $($was: $v,)* ..START } },
            flags_after: $new,
            memory: Memory { $($place: $x,)* ..MEMORY },
            event: None,
        }
    };
}

// A case of an instruction that raises an event and changes nothing.
macro_rules! refused {
    ($insn:expr, [$($was:ident: $v:expr),*], $event:expr) => {
        Case {
            insn: $insn,
            before: Regs { $($was: $v,)* ..START },
            flags_before: b"",
            after: Regs { $($was: $v,)* ..START },
            flags_after: b"",
            memory: MEMORY,
            event: $event,
        }
    };
}

// A place in memory of a base and a displacement.
macro_rules! place {
    ($seg:expr, $base:expr, $disp:expr) => {
        mem!($seg, Some($base), None, $disp)
    };
}

pub(crate) use case;
pub(crate) use place;
pub(crate) use refused;
