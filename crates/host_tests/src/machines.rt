// Machines for tests, and what they are compared by. A comparison answers what differs, and a test asserts once: an assertion takes much
// longer to prove than a comparison.
use client_world::{Mode, Width};
use guest_space::Machine;
use std::alloc::{AllocError, Global};

// A machine of that width in protected mode, with 8 pages for memory blocks. 0087h is the selector of the host's code, and 008Fh that of
// its stacks, whose limit is FFFFh.
#[tactic(auto, unfolding(host_memory::specs::Blank::blank_world))]
pub(crate) fn entered(alloc: Global, width: Width) -> Result<Machine, AllocError> {
    let mut m = Machine::new(alloc, 8)?;
    m.set_width(width);
    m.set_mode(Mode::Protected);
    Ok(m)
}

// What differs from what is wanted. In a sequence of calls `Call` says which of them answers something else.
#[derive(Clone, Copy, Debug, PartialEq)]
pub(crate) enum Differing {
    Answer,
    Call(u8),
    Mode,
    Interrupts,
    Depth,
    Registers,
    Descriptor(u16),
    Memory,
}

pub(crate) fn same(part: Differing, is_same: bool) -> Result<(), Differing> {
    if is_same { Ok(()) } else { Err(part) }
}

// Compares rows in turn, on one machine: the number of the first one that differs, and what does.
pub(crate) fn compare_all<T, F: Fn(&mut Machine, &T) -> Result<(), Differing>>(
    m: &mut Machine,
    rows: &[T],
    compare: F,
) -> Result<(), (usize, Differing)>
    requires { F.IsAlwaysCallable compare }
{
    for (number, row) in rows.iter().enumerate() {
        if let Err(part) = compare(m, row) {
            return Err((number, part));
        }
    }
    Ok(())
}

// Puts bytes into the DOS megabyte from an address on; those past its end are dropped.
pub(crate) fn put(m: &mut Machine, from: u32, bytes: &[u8]) {
    let mut at = from;
    for byte in bytes {
        if at >= 0x10_0000 {
            return;
        }
        m.set_dos8(at, *byte);
        at += 1;
    }
}

// Whether these bytes are in the DOS megabyte from an address on.
pub(crate) fn has_bytes(m: &Machine, from: u32, bytes: &[u8]) -> bool {
    let mut at = from;
    for byte in bytes {
        if at >= 0x10_0000 || m.dos8(at) != *byte {
            return false;
        }
        at += 1;
    }
    true
}

// The same of words.
pub(crate) fn has_words(m: &Machine, from: u32, words: &[u16]) -> bool {
    let mut at = from;
    for word in words {
        if at >= 0xF_FFFF || m.dos16(at) != *word {
            return false;
        }
        at += 2;
    }
    true
}
