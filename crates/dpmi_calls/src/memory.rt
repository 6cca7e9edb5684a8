// Bytes of memory as the client sees them.
ghost use Rattle.std.specs.Prelude.{◌≡◌, length, map};
ghost use Rattle.dpmi_calls.specs.Memory.{seen};

use client_world::host_frames::PAGE_DIRECTORY;
use guest_space::Machine;
use page_tables::walk;

/// In place of a byte: the client may read none there. Source: own.
pub const NOT_THERE: u16 = 0xFFFF;

/// The byte at a linear address, or `NOT_THERE` where the client may read none.
pub fn seen(m: &Machine, linear: u32) -> u16
    ensures { result ≡ seen m.now.world linear }
{
    m.holds_world();
    let ram = m.ram();
    match walk(ram, PAGE_DIRECTORY, linear, false) {
        Ok(at) => u16::from(ram.get8(at)),
        Err(_) => NOT_THERE,
    }
}

/// Copies what the client sees at these linear addresses.
pub fn copy_seen(m: &Machine, places: &[u32], into: &mut [u16])
    requires { length into.old ≡ length places.now }
    ensures { into.new ≡ map (seen m.now.world) places.now }
{
    let count = places.len();
    for i in 0..count {
        into[i] = seen(m, places[i]);
    }
}
