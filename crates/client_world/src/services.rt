// What services return, and the numbers that they take in registers.
ghost use Rattle.std.specs.Prelude.{◌≡◌};
ghost use Rattle.client_world.specs.Services.{by_width, two_words};

use crate::outcome::Exit;
use crate::registers::{Width, low_half};

/// The carry flag that a service of INT 31h returns: set exactly where it refuses. Source: DPMI 0.9, "Error Returns".
#[derive(Clone, Copy, Debug, PartialEq, Eq)]
pub enum Carry {
    Clear,
    Set,
}

/// Whether a simulated call runs, or is refused. Source: own.
#[derive(Clone, Copy, Debug, PartialEq, Eq)]
pub enum Begun {
    Run,
    Refused,
}

/// Whether a DOS call was served, or ended the client. Source: own.
#[derive(Clone, Copy, Debug, PartialEq, Eq)]
pub enum DosDone {
    Served,
    Ended(Exit),
}

/// The doubleword of two words, the high one first, as services take it in BX:CX or CX:DX. Source: DPMI 0.9.
#[inline(always)]
pub fn two_words(high: u16, low: u16) -> u32
    ensures { result ≡ two_words high low }
{
    u32::from(high) * 0x1_0000 + u32::from(low)
}

/// The part of a register that a client of that width names: the low half, or all of it for a 32-bit client. Source: DPMI 0.9.
#[inline(always)]
pub fn by_width(width: Option<Width>, x: u32) -> u32
    ensures { result ≡ by_width width x }
{
    match width {
        None | Some(Width::Sixteen) => u32::from(low_half(x)),
        Some(Width::ThirtyTwo) => x,
    }
}
