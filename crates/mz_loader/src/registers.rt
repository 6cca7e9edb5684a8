// The registers with which a client starts.
ghost use Rattle.std.specs.Prelude.{◌≡◌, ◌≤◌, length};
ghost use Rattle.mz_loader.specs.{Refusal.{header_bytes}, Start.{start_regs}};

use crate::header::word_of;
use crate::reasons::first_segment;
use client_world::Regs;
use client_world::memory_map::{IMAGE_SEGMENT, PSP_SEGMENT};
use guest_space::Machine;

/// Sets the segment registers, EIP and ESP as the header says.
pub(crate) fn set_start_regs(m: &mut Machine, file: &[u8])
    requires { header_bytes ≤ length file.now }
    ensures { m.new.world ≡ record m.old.world { regs = start_regs file.now m.old.world.regs } }
{
    let r = m.regs();
    m.set_regs(Regs {
        cs: first_segment(file),
        eip: word_of(file, 0x14) as u32,
        ss: IMAGE_SEGMENT.wrapping_add(word_of(file, 0x0E)),
        esp: word_of(file, 0x10) as u32,
        ds: PSP_SEGMENT,
        es: PSP_SEGMENT,
        ..r
    });
}
