// The trace of the services.

use crate::calls::What;
use crate::registers::{Regs, Width};
use crate::services::Carry;

/// A line of the trace. Source: own.
#[derive(Clone, Copy, Debug, PartialEq, Eq)]
pub enum TraceLine {
    /// A service of INT 31h: its AX, and the carry that it returned.
    Int31 {
        ax: u16,
        carry: Carry,
    },
    /// A DOS call, by its AH.
    Int21(u8),
    /// A call of INT 2Fh, by its AX.
    Int2f(u16),
    /// INT 20h.
    Int20,
    /// The entry to protected mode, with the client's width.
    Entry(Width),
    /// A second entry, which is refused.
    EntryRefused,
    /// A raw switch to protected mode.
    ToProtected,
    /// A raw switch to real mode.
    ToReal,
    /// A nested call starts: the depth before it, and registers: those with which a call of real mode or a reflection starts, those of the
    /// caller of a callback as it called, those of the client at an exception.
    Enter {
        depth: u8,
        what: What,
        regs: Regs,
        vif: bool,
    },
    /// A nested call returns: the depth after it, and registers: those that a call of real mode or a reflection left, those with which the
    /// caller of a callback, or the client after an exception, goes on.
    Leave {
        depth: u8,
        what: What,
        regs: Regs,
        vif: bool,
    },
}
