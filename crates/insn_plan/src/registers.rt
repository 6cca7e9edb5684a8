// General registers by their numbers, and effective addresses.
ghost use Rattle.std.specs.Prelude.{◌≡◌, ◌<◌, ◌^◌, ◌⊎◌, IsTrue};
ghost use Rattle.insn_plan.specs.Registers.{register, with_register, cut_address, with_address, address_part, offset_of};

use client_world::Regs;
use cpu_values::{part8, put8, put16};
use insn_forms::MemForm;

/// The register of a number at a width of 8, 16 or 32 bits. At 8 bits 0 to 3 are AL CL DL BL, and 4 to 7 AH CH DH BH.
/// Source: 80386 Programmer's Reference Manual, ch. 17, "reg".
#[inline(always)]
#[tactic(auto, unfolding(crate::specs::Registers::register))]
pub fn register(r: &Regs, width: u8, n: u8) -> u32
    ensures { result ≡ register r.now width n }
{
    if width == 8 {
        let high = n >= 4;
        u32::from(part8(r.general(if high { n - 4 } else { n }), high))
    } else if width == 16 {
        r.general(n) % 0x1_0000
    } else {
        r.general(n)
    }
}

/// Puts a number into the register of a number at a width of 8, 16 or 32 bits, cut to the width; the other bits of the register are kept.
/// Source: 80386 Programmer's Reference Manual, ch. 17, "reg".
#[inline(always)]
#[tactic(auto, unfolding(crate::specs::Registers::with_register))]
pub fn set_register(r: &mut Regs, width: u8, n: u8, v: u32)
    ensures { r.new ≡ with_register r.old width n v }
{
    if width == 8 {
        let high = n >= 4;
        let n = if high { n - 4 } else { n };
        let old = r.general(n);
        r.set_general(n, put8(old, high, (v % 0x100) as u8));
    } else if width == 16 {
        let old = r.general(n);
        r.set_general(n, put16(old, (v % 0x1_0000) as u16));
    } else {
        r.set_general(n, v);
    }
}

/// A number modulo 2^32 where addresses have 32 bits, else modulo 2^16.
/// Source: 80386 Programmer's Reference Manual, ch. 2, "Effective-Address Computation".
#[inline(always)]
pub fn cut_address(addr32: bool, a: u64) -> u32
    ensures { result ≡ cut_address addr32 a }
{
    if addr32 {
        (a % 0x1_0000_0000) as u32
    } else {
        (a % 0x1_0000) as u32
    }
}

/// A register with another number of the address size in it: where addresses have 16 bits the upper half is kept.
/// Source: 80386 Programmer's Reference Manual, ch. 2, "General Registers".
#[inline(always)]
pub fn with_address(addr32: bool, old: u32, v: u32) -> u32
    requires { IsTrue addr32 ⊎ (v < 2 ^ 16) }
    ensures { result ≡ with_address addr32 old v }
{
    if addr32 {
        v
    } else {
        old / 0x1_0000 * 0x1_0000 + v
    }
}

// What a register adds to an address, where there is one.
#[inline(always)]
fn address_part(r: &Regs, n: Option<u8>) -> u32
    ensures { result ≡ address_part r.now n }
{
    match n {
        None => 0,
        Some(n) => r.general(n),
    }
}

/// The offset of a place in memory: base + index · scale + displacement, at the address size.
/// Source: 80386 Programmer's Reference Manual, ch. 2, "Effective-Address Computation".
#[inline(always)]
#[tactic(auto, unfolding(crate::specs::Registers::offset_of))]
pub fn offset_of(r: &Regs, addr32: bool, f: &MemForm) -> u32
    ensures { result ≡ offset_of r.now addr32 f.now }
{
    let base = u64::from(address_part(r, f.base));
    let near = base + u64::from(f.disp);
    match f.index {
        None => cut_address(addr32, near),
        Some(n) => cut_address(addr32, near + u64::from(r.general(n)) * u64::from(f.scale)),
    }
}
