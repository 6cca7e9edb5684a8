// What a case is made of.
use client_world::{Event, Flags, Regs};

// A step that has an effect: the code, the stack's items from offset 300h on, registers and virtual interrupt flag before it and after
// it, and the stack from its top on.
pub(crate) struct Done {
    pub(crate) code: &'static [u8],
    pub(crate) items: [u8; 8],
    pub(crate) before: Regs,
    pub(crate) vif_before: bool,
    pub(crate) after: Regs,
    pub(crate) vif_after: bool,
    pub(crate) stack: &'static [u8],
}

// A step that is an event, and changes nothing.
pub(crate) struct Raises {
    pub(crate) code: &'static [u8],
    pub(crate) items: [u8; 8],
    pub(crate) before: Regs,
    pub(crate) event: Event,
}

// The registers that each case begins with, but for what it names.
pub(crate) const REAL: Regs = Regs {
    eax: 0x8765_4321,
    ecx: 4,
    edx: 0x1111_2222,
    ebx: 0x100,
    esp: 0x300,
    ebp: 0x200,
    esi: 0x100,
    edi: 0x200,
    eip: 0x50,
    flags: Flags::CLEAR,
    es: 0x2000,
    cs: 0x100,
    ss: 0x3000,
    ds: 0x1000,
    fs: 0,
    gs: 0,
};

pub(crate) const PROTECTED: Regs = Regs {
    es: 0,
    cs: 0x237,
    ss: 0x22F,
    ds: 0x22F,
    ..REAL
};

pub(crate) const ZERO: Flags = Flags {
    zf: true,
    ..Flags::CLEAR
};

// IP 1234h, CS 5678h, and a flags image with OF, IF, SF, AF and CF.
pub(crate) const FRAME: [u8; 8] = [0x34, 0x12, 0x78, 0x56, 0x93, 0x0A, 0, 0];

pub(crate) const FRAME_FLAGS: Flags = Flags {
    of: true,
    sf: true,
    af: true,
    cf: true,
    ..Flags::CLEAR
};

// An exception, and a software interrupt.
macro_rules! fault {
    ($number:expr, $code:expr) => {
        Event::Fault(Fault { number: $number, code: $code })
    };
}

macro_rules! soft {
    ($number:expr, $len:expr) => {
        Event::Soft { number: $number, len: $len }
    };
}

// The code, what differs from the first registers before the step, what it changes, and the stack from its top on.
macro_rules! done {
    ($start:expr, $code:expr, [$($b:ident: $bv:expr),*] $old:expr, [$($a:ident: $av:expr),*] $new:expr, $stack:expr) => {
        Done {
            code: &$code,
            items: FRAME,
            before: Regs { $($b: $bv,)* ..$start },
            vif_before: $old,
            after: Regs { $($a: $av,)* ..Regs { $($b: $bv,)* ..$start } },
            vif_after: $new,
            stack: &$stack,
        }
    };
    ($start:expr, $code:expr, [$($b:ident: $bv:expr),*], [$($a:ident: $av:expr),*]) => {
        done!($start, $code, [$($b: $bv),*] true, [$($a: $av),*] true, [])
    };
    ($start:expr, $code:expr, [$($b:ident: $bv:expr),*], [$($a:ident: $av:expr),*], $stack:expr) => {
        done!($start, $code, [$($b: $bv),*] true, [$($a: $av),*] true, $stack)
    };
}

macro_rules! raises {
    ($start:expr, $code:expr, [$($b:ident: $bv:expr),*], $event:expr) => {
        Raises { code: &$code, items: FRAME, before: Regs { $($b: $bv,)* ..$start }, event: $event }
    };
}

pub(crate) use done;
pub(crate) use fault;
pub(crate) use raises;
pub(crate) use soft;
