// The frame of an exception.
ghost use Rattle.std.specs.Prelude.{◌≡◌, ◌≤◌, ◌*◌, length};
ghost use Rattle.guest_ram.specs.Bytes.{put};
ghost use Rattle.fault_service.specs.Delivery.{exception_items, items_bytes};

use client_world::memory_map::ROM_START;
use client_world::selectors::{HOST_CODE, selector_of};
use client_world::traps::EXCEPTION_RETURN_TRAP;
use client_world::{Fault, low_half};
use guest_space::{Machine, dword_bytes, word_bytes};
use mode_stack::put_at;

/// The items of the frame, from the stack pointer up.
#[tactic(auto, unfolding(crate::specs::Delivery::exception_items))]
pub(crate) fn exception_items(m: &Machine, f: Fault) -> [u32; 8]
    ensures { result ≡ exception_items m.now.world f }
{
    let r = m.regs();
    [
        EXCEPTION_RETURN_TRAP - ROM_START,
        u32::from(selector_of(HOST_CODE)),
        f.code,
        r.eip,
        u32::from(r.cs),
        u32::from(r.flags.image(m.vif())),
        r.esp,
        u32::from(r.ss),
    ]
}

// Puts items of 16 bits, or of 32 bits, one after the other.
fn put_words(into: &mut [u8], items: &[u32])
    requires { 2 * length items.now ≤ length into.old }
    ensures { into.new ≡ put into.old 0 (items_bytes 16 items.now) }
{
    let mut at = 0;
    for item in items {
        put_at(into, at, &word_bytes(low_half(*item)));
        at += 2;
    }
}

fn put_dwords(into: &mut [u8], items: &[u32])
    requires { 4 * length items.now ≤ length into.old }
    ensures { into.new ≡ put into.old 0 (items_bytes 32 items.now) }
{
    let mut at = 0;
    for item in items {
        put_at(into, at, &dword_bytes(*item));
        at += 4;
    }
}

/// The bytes of eight items of 16 bits.
pub(crate) fn word_frame(items: &[u32; 8]) -> [u8; 16]
    ensures { result ≡ items_bytes 16 items.now }
{
    let mut bytes = [0; 16];
    put_words(&mut bytes, items);
    bytes
}

/// The bytes of eight items of 32 bits.
pub(crate) fn dword_frame(items: &[u32; 8]) -> [u8; 32]
    ensures { result ≡ items_bytes 32 items.now }
{
    let mut bytes = [0; 32];
    put_dwords(&mut bytes, items);
    bytes
}
