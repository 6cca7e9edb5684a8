// The call structure.
ghost use Rattle.std.specs.Prelude.{◌≡◌, ◌+◌, IsTrue, false};
ghost use Rattle.client_world.specs.Access.{is_reachable};
ghost use Rattle.guest_space.specs.Transfer.{HasOtherMemory};
ghost use Rattle.translation.specs.{declared.structure.TheConstants.{STRUCTURE_SIZE}, Structure.{has_structure, index_results}};
ghost use Rattle.translation.specs.Structure.{other_results, structure_bytes, structure_flags, structure_regs, with_results};

use client_world::{FarPtr, Flags, Regs};
use guest_ram::{doubleword, word};
use guest_space::{
    Machine, a_reachable_run_is_reachable_in_parts, a_write_changes_no_access, dword_bytes,
    every_write_changes_the_memory_alone, word_bytes,
};
use mode_stack::put_at;

/// The bytes of a call structure. Source: DPMI 0.9, INT 31h function 0300h.
pub const STRUCTURE_SIZE: u32 = 0x32;

/// What a call structure holds: the registers, and the word of the flags.
#[derive(Clone, Copy)]
pub struct CallStructure {
    pub regs: Regs,
    pub image: u16,
}

/// Whether there is a structure at a pointer: its bytes can be read and written.
pub(crate) fn has_structure(m: &Machine, at: FarPtr) -> bool
    ensures { result ≡ has_structure m.now.world at }
{
    m.far_ok(at, STRUCTURE_SIZE, false) && m.far_ok(at, STRUCTURE_SIZE, true)
}

// The registers in the bytes of a structure.
#[tactic(auto, unfolding(crate::specs::Structure::structure_regs))]
fn regs_of(bytes: &[u8; 0x32]) -> Regs
    ensures { result ≡ structure_regs bytes.now }
{
    Regs {
        eax: doubleword(bytes, 0x1C),
        ecx: doubleword(bytes, 0x18),
        edx: doubleword(bytes, 0x14),
        ebx: doubleword(bytes, 0x10),
        esp: u32::from(word(bytes, 0x2E)),
        ebp: doubleword(bytes, 0x08),
        esi: doubleword(bytes, 0x04),
        edi: doubleword(bytes, 0x00),
        eip: u32::from(word(bytes, 0x2A)),
        flags: Flags::from_image(word(bytes, 0x20)),
        es: word(bytes, 0x22),
        cs: word(bytes, 0x2C),
        ss: word(bytes, 0x30),
        ds: word(bytes, 0x24),
        fs: word(bytes, 0x26),
        gs: word(bytes, 0x28),
    }
}

/// Reads the call structure at a pointer, of 32h bytes. Source: DPMI 0.9, INT 31h function 0300h.
pub fn read_structure(m: &Machine, at: FarPtr) -> CallStructure
    requires { IsTrue (is_reachable m.now.world at STRUCTURE_SIZE false) }
    ensures regs { result.regs ≡ structure_regs (structure_bytes m.now.world at) }
    ensures image { result.image ≡ structure_flags (structure_bytes m.now.world at) }
{
    let mut bytes = [0; 0x32];
    m.read_bytes(at, &mut bytes);
    CallStructure {
        regs: regs_of(&bytes),
        image: word(&bytes, 0x20),
    }
}

/// The 0Ch bytes of EDI, ESI and EBP, as a call structure begins with them. Source: DPMI 0.9, INT 31h function 0300h.
#[tactic(auto, unfolding(crate::specs::Structure::index_results))]
pub fn index_results(r: &Regs) -> [u8; 0x0C]
    ensures { result ≡ index_results r.now }
{
    let mut bytes = [0; 0x0C];
    put_at(&mut bytes, 0, &dword_bytes(r.edi));
    put_at(&mut bytes, 4, &dword_bytes(r.esi));
    put_at(&mut bytes, 8, &dword_bytes(r.ebp));
    bytes
}

/// The 1Ah bytes of EBX, EDX, ECX, EAX, the flags with a virtual interrupt flag, ES, DS, FS and GS, as a call structure has them from 10h
/// on. Source: DPMI 0.9, INT 31h function 0300h.
#[tactic(auto, unfolding(crate::specs::Structure::other_results))]
pub fn other_results(r: &Regs, vif: bool) -> [u8; 0x1A]
    ensures { result ≡ other_results r.now vif }
{
    let mut bytes = [0; 0x1A];
    put_at(&mut bytes, 0x00, &dword_bytes(r.ebx));
    put_at(&mut bytes, 0x04, &dword_bytes(r.edx));
    put_at(&mut bytes, 0x08, &dword_bytes(r.ecx));
    put_at(&mut bytes, 0x0C, &dword_bytes(r.eax));
    put_at(&mut bytes, 0x10, &word_bytes(r.flags.image(vif)));
    put_at(&mut bytes, 0x12, &word_bytes(r.es));
    put_at(&mut bytes, 0x14, &word_bytes(r.ds));
    put_at(&mut bytes, 0x16, &word_bytes(r.fs));
    put_at(&mut bytes, 0x18, &word_bytes(r.gs));
    bytes
}

// The pointer to EBX in a structure.
#[tactic(auto, using(crate::proofs::PutPart::structure_ends))]
fn second_part(at: FarPtr, m: &Machine) -> FarPtr
    requires { IsTrue (has_structure m.now.world at) }
    ensures { result ≡ record { sel = at.sel; off = at.off + 0x10 } }
{
    FarPtr {
        sel: at.sel,
        off: at.off + 0x10,
    }
}

/// Writes the results of a call into the structure at a pointer.
#[tactic(auto, unfolding(crate::specs::Structure::with_results, guest_space::specs::Far::world_after_far_write, //
guest_space::specs::Far::after_far_write, guest_space::specs::Transfer::with_places))]
pub(crate) fn write_results(m: &mut Machine, at: FarPtr)
    requires { IsTrue (has_structure m.old.world at) }
    ensures results { m.new.world ≡ with_results m.old.world at }
    ensures rest { HasOtherMemory m.old.world m.new.world }
{
    every_write_changes_the_memory_alone();
    a_reachable_run_is_reachable_in_parts();
    a_write_changes_no_access();
    let r = m.regs();
    let vif = m.vif();
    let second = second_part(at, m);
    m.write_bytes(at, &index_results(&r));
    m.write_bytes(second, &other_results(&r, vif));
}
