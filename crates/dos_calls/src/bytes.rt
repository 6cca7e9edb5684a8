// Bytes of the DOS megabyte at a segment and an offset, which wraps in its segment.
ghost use Rattle.std.specs.Prelude.{◌≡◌, ◌≤◌, ◌<◌, ◌+◌, length};
ghost use Rattle.client_world.specs.{declared.memory_map.TheConstants.{DOS_SIZE}, Access.{real_address}};
ghost use Rattle.guest_space.specs.Dos.{with_dos_byte};
ghost use Rattle.dos_calls.specs.{DosBytes.{byte_at, with_dos_bytes_at, bytes_from, text_from}, Answering.{console_with}, Calls.{has_room}};

use crate::console::Console;
use client_world::memory_map::SEGMENT_SIZE;
use guest_space::{Machine, real_address};

/// Where the low byte of the flags image is that the interrupt pushed.
pub(crate) fn stacked_flags(m: &Machine) -> u32
    ensures at { result ≡ real_address m.now.world.regs.ss (m.now.world.regs.esp + 4) }
    ensures within { result < DOS_SIZE }
{
    let r = m.regs();
    real_address(r.ss, r.esp % SEGMENT_SIZE + 4)
}

/// The byte at segment:offset.
pub(crate) fn byte_at(m: &Machine, segment: u16, offset: u32) -> u8
    ensures { result ≡ byte_at m.now.world.dos segment offset }
{
    m.dos8(real_address(segment, offset))
}

// Puts a byte at segment:offset.
fn set_byte_at(m: &mut Machine, segment: u16, offset: u32, v: u8)
    ensures { m.new.world ≡ record m.old.world { dos = with_dos_byte m.old.world.dos (real_address segment offset) v } }
{
    m.set_dos8(real_address(segment, offset), v);
}

/// Puts bytes at segment:offset; those of read-only memory stay.
pub(crate) fn put_bytes(m: &mut Machine, segment: u16, offset: u32, bytes: &[u8])
    requires { offset + length bytes.now ≤ 0xFFFF_FFFF }
    ensures { m.new.world ≡ record m.old.world { dos = with_dos_bytes_at m.old.world.dos segment offset bytes.now } }
{
    let mut at = offset;
    for byte in bytes {
        set_byte_at(m, segment, at, *byte);
        at += 1;
    }
}

/// Adds n bytes from segment:offset on to the console, as many as fit, and returns whether all did.
pub(crate) fn print_bytes(
    m: &Machine,
    console: &mut Console,
    segment: u16,
    offset: u16,
    count: u16,
) -> bool
    ensures room { result ≡ has_room console.old (bytes_from m.now.world.dos segment offset count) }
    ensures bytes { console.new ≡ console_with console.old (bytes_from m.now.world.dos segment offset count) }
{
    for n in 0..count as u32 {
        if !console.add(byte_at(m, segment, offset as u32 + n)) {
            return false;
        }
    }
    console.limit();
    true
}

/// Adds the text at segment:offset up to its `$` to the console, as many bytes as fit, and returns whether all did.
pub(crate) fn print_text(m: &Machine, console: &mut Console, segment: u16, offset: u16) -> bool
    ensures room { result ≡ has_room console.old (text_from m.now.world.dos segment offset SEGMENT_SIZE) }
    ensures bytes { console.new ≡ console_with console.old (text_from m.now.world.dos segment offset SEGMENT_SIZE) }
{
    for n in 0..SEGMENT_SIZE {
        let byte = byte_at(m, segment, offset as u32 + n);
        if byte == b'$' {
            console.limit();
            return true;
        }
        if !console.add(byte) {
            return false;
        }
    }
    console.limit();
    true
}
