// Far pointers.
ghost use Rattle.std.specs.Prelude.{◌≡◌};
ghost use Rattle.exec_flow.specs.Pointers.{memory_bytes, offset_range, pointer, pointer_size, pointer_offset, pointer_selector};
ghost use Rattle.insn_plan.specs.Act.{IsCount, value_of};

use guest_space::Machine;
use insn_forms::{Insn, Operand};
use insn_plan::{Raised, offset_of, read_number};

/// Reads an operand in memory as a number of n bytes, or gives the fault of the access.
#[inline(always)]
#[tactic(auto, unfolding(crate::specs::Pointers::memory_bytes, insn_plan::specs::Act::value_of))]
pub(crate) fn memory_bytes(
    m: &mut Machine,
    i: &Insn,
    n: u8,
    operand: &Operand,
) -> Result<u64, Raised>
    requires count { IsCount n }
    ensures value { result ≡ value_of m.old.world (memory_bytes m.old.world i.now n operand.now) }
    ensures kept { m.new ≡ m.old }
{
    match operand {
        Operand::Mem(f) => {
            let off = offset_of(m.registers(), i.addr32, f);
            m.warm(f.seg, off);
            read_number(m, f.seg, off, n)
        }
        Operand::Reg { .. }
        | Operand::Seg(_)
        | Operand::Imm(_)
        | Operand::Empty
        | Operand::Far(_) => Ok(0),
    }
}

/// The numbers above an offset of the operand size count units of this.
#[inline(always)]
pub(crate) fn offset_range(i: &Insn) -> u64
    ensures { result ≡ offset_range i.now }
{
    if i.width == 16 {
        0x1_0000
    } else {
        0x1_0000_0000
    }
}

/// The bytes of a far pointer in memory.
#[inline(always)]
pub(crate) fn pointer_size(i: &Insn) -> u8
    ensures value { result ≡ pointer_size i.now }
    ensures count { IsCount result }
{
    if i.width == 16 { 4 } else { 6 }
}

/// Reads a far pointer as one number, the offset lowest, or gives the fault of the access.
/// Source: 80386 Programmer's Reference Manual, ch. 2, "Pointer"; that it is one access is own.
#[inline(always)]
#[tactic(auto, unfolding(crate::specs::Pointers::pointer, insn_plan::specs::Act::value_of))]
pub(crate) fn pointer(m: &mut Machine, i: &Insn, operand: &Operand) -> Result<u64, Raised>
    ensures value { result ≡ value_of m.old.world (pointer m.old.world i.now operand.now) }
    ensures kept { m.new ≡ m.old }
{
    match operand {
        Operand::Mem(_) => memory_bytes(m, i, pointer_size(i), operand),
        Operand::Far(p) => Ok(u64::from(p.off) + offset_range(i) * u64::from(p.sel)),
        Operand::Reg { .. } | Operand::Seg(_) | Operand::Imm(_) | Operand::Empty => Ok(0),
    }
}

/// The offset of a far pointer.
#[inline(always)]
pub(crate) fn pointer_offset(i: &Insn, p: u64) -> u32
    ensures { result ≡ pointer_offset i.now p }
{
    (p % offset_range(i)) as u32
}

/// The selector of a far pointer.
#[inline(always)]
pub(crate) fn pointer_selector(i: &Insn, p: u64) -> u16
    ensures { result ≡ pointer_selector i.now p }
{
    (p / offset_range(i) % 0x1_0000) as u16
}
