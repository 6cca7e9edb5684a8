// Nested calls: what is called, and the record that each leaves until it returns.

use crate::registers::Regs;
use crate::segments::FarPtr;

/// What the host calls in real mode for the client. Source: DPMI 0.9, INT 31h functions 0300h to 0302h.
#[derive(Clone, Copy, Debug, PartialEq, Eq)]
pub enum Call {
    /// Function 0300h: the interrupt of this number.
    Int(u8),
    /// Function 0301h: a procedure that returns by a far return.
    Far,
    /// Function 0302h: a procedure that returns by IRET.
    Iret,
    /// A protected-mode interrupt of this number that no handler took, reflected to real mode.
    Reflect(u8),
}

/// What is kept until a nested call returns. Source: own.
#[derive(Clone, Copy, Debug, PartialEq, Eq)]
pub enum Record {
    /// A simulated call or a reflection: the client's registers and virtual interrupt flag, and its call structure
    /// (0:0 for a reflection).
    Sim {
        call: Call,
        saved: Regs,
        vif: bool,
        at: FarPtr,
    },
    /// A callback: its number, and its call structure.
    Back {
        slot: u8,
        at: FarPtr,
    },
    /// An exception that its handler serves: its number and its error code.
    Exc {
        number: u8,
        code: u32,
    },
}

/// A call would nest deeper than the greatest depth. Source: own.
#[derive(Clone, Copy, Debug, PartialEq, Eq)]
pub struct Deep;

/// What a line of the trace says was entered or left. Source: own.
#[derive(Clone, Copy, Debug, PartialEq, Eq)]
pub enum What {
    /// A simulated call or a reflection.
    Call(Call),
    /// The callback of this number.
    Back(u8),
    /// The exception of this number.
    Exc(u8),
}
