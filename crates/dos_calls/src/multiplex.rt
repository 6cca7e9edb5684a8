// INT 2Fh.
ghost use Rattle.std.specs.Prelude.{◌≡◌};
ghost use Rattle.dos_calls.specs.Multiplex.{with_entry, multiplex_call};

use client_world::memory_map::{ROM_SEGMENT, ROM_START};
use client_world::traps::ENTRY_TRAP;
use client_world::{Regs, low_half, with_low_byte, with_low_half};
use guest_space::Machine;

// The function that describes the host and its entry, and what it returns: that programs may have 32 bits, the processor, the version.
const GET_ENTRY: u16 = 0x1687;

const HAS_32_BITS: u16 = 1;

const PROCESSOR_386: u8 = 3;

const VERSION: u16 = 0x005A;

// The registers that tell of the host.
fn with_entry(r: Regs) -> Regs
    ensures { result ≡ with_entry r }
{
    Regs {
        eax: with_low_half(r.eax, 0),
        ebx: with_low_half(r.ebx, HAS_32_BITS),
        ecx: with_low_byte(r.ecx, PROCESSOR_386),
        edx: with_low_half(r.edx, VERSION),
        esi: with_low_half(r.esi, 0),
        edi: with_low_half(r.edi, (ENTRY_TRAP - ROM_START) as u16),
        es: ROM_SEGMENT,
        ..r
    }
}

/// Serves INT 2Fh: function 1687h describes the host, and others change nothing.
/// Source: DPMI 0.9, INT 2Fh function 1687h, "Obtain Real to Protected Mode Switch Entry Point".
#[tactic(auto, unfolding(crate::specs::Multiplex::multiplex_call))]
pub fn int2f(m: &mut Machine)
    ensures world { m.new.world ≡ multiplex_call m.old.world }
    ensures bytes { m.new.bytes ≡ m.old.bytes }
{
    let r = m.regs();
    if low_half(r.eax) == GET_ENTRY {
        m.set_regs(with_entry(r));
    }
}
