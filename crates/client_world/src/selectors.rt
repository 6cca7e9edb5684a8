//! Selectors, and the descriptors that the host makes. Source: own, but for the form of a selector.
ghost use Rattle.std.specs.Prelude.{◌≡◌, ◌<◌};
ghost use Rattle.client_world.specs.{declared.host_frames.TheConstants.{DESCRIPTORS}, Selector.{client_selector, index_of, is_local}};
ghost use Rattle.client_world.specs.Selector.{is_null, privilege_of, selector_code, selector_of};

use crate::host_frames::DESCRIPTORS;

/// The index of the host's code segment, whose base is F0000h.
pub const HOST_CODE: u16 = 16;

/// The index of the segment of the host's protected-mode stacks.
pub const HOST_STACKS: u16 = 17;

/// The index of the first of the descriptors of real stacks that callbacks get, one for each depth. The last one is just before the first
/// descriptor that a client may get: a greater `GREATEST_DEPTH` moves that.
pub const CALLBACK_STACKS: u16 = 32;

/// The index of the descriptor that the entry makes for CS; SS, DS, the program segment prefix and the environment follow.
pub const ENTRY_CODE: u16 = 64;

/// The index of the entry's descriptor of SS.
pub const ENTRY_STACK: u16 = 65;

/// The index of the entry's descriptor of DS.
pub const ENTRY_DATA: u16 = 66;

/// The index of the entry's descriptor of the program segment prefix.
pub const ENTRY_PSP: u16 = 67;

/// The index of the entry's descriptor of the environment.
pub const ENTRY_ENVIRONMENT: u16 = 68;

/// The number that each selector of an index of the client's table differs by from the next.
pub const SELECTOR_STEP: u16 = 8;

/// The low bits of each selector that the host hands out: TI is 1 and RPL is 3.
pub const SELECTOR_BITS: u16 = 7;

/// The greatest privilege level, on which the client runs.
pub const CLIENT_PRIVILEGE: u16 = 3;

// The number of privilege levels, 0 to 3.
const PRIVILEGE_LEVELS: u16 = 4;

/// The selector that the host hands out for an index of the client's table, 0 to 8191. Source: own; the form of a selector is the manual's.
pub fn selector_of(index: u16) -> u16
    requires { index < DESCRIPTORS }
    ensures { result ≡ selector_of index }
{
    index * SELECTOR_STEP + SELECTOR_BITS
}

/// Whether the selector is null, 0 to 3: index 0 of the global table. Source: 80386 Programmer's Reference Manual, ch. 5, "Selectors",
/// figure 5-6.
pub fn is_null(sel: u16) -> bool
    ensures { result ≡ is_null sel }
{
    sel < PRIVILEGE_LEVELS
}

/// Whether the selector names a row of the local table, which is the client's: TI, bit 2, is set. Source: 80386 Programmer's Reference
/// Manual, ch. 5, "Selectors", figure 5-6.
pub fn is_local(sel: u16) -> bool
    ensures { result ≡ is_local sel }
{
    sel / PRIVILEGE_LEVELS % 2 == 1
}

/// The index of the selector's row, bits 15 to 3. Source: 80386 Programmer's Reference Manual, ch. 5, "Selectors", figure 5-6.
pub fn index_of(sel: u16) -> u16
    ensures value { result ≡ index_of sel }
    ensures fits { result < 8192 }
{
    sel / SELECTOR_STEP
}

/// The privilege level that the selector asks for, bits 1 and 0. Source: 80386 Programmer's Reference Manual, ch. 5, "Selectors", figure
/// 5-6.
pub fn privilege_of(sel: u16) -> u16
    ensures { result ≡ privilege_of sel }
{
    sel % PRIVILEGE_LEVELS
}

/// The selector with the client's privilege level, 3, whichever it asks for. Source: own.
#[inline(always)]
pub fn client_selector(sel: u16) -> u16
    ensures { result ≡ client_selector sel }
{
    sel - privilege_of(sel) + CLIENT_PRIVILEGE
}

/// The selector as an error code: without the privilege level that it asks for. Source: 80386 Programmer's Reference Manual, ch. 9, "Error
/// Code".
pub fn selector_code(sel: u16) -> u32
    ensures { result ≡ selector_code sel }
{
    u32::from(sel - sel % PRIVILEGE_LEVELS)
}
