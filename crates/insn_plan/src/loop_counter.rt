// The counter of strings and loops.
ghost use Rattle.std.specs.Prelude.{◌≡◌};
ghost use Rattle.insn_plan.specs.Counter.{counter};

use crate::registers::cut_address;
use guest_space::Machine;
use insn_forms::Insn;

/// The counter of strings and loops: CX or ECX by address size.
/// Source: 80386 Programmer's Reference Manual, ch. 17, LOOP and REP.
#[inline(always)]
pub fn counter(m: &Machine, i: &Insn) -> u32
    ensures { result ≡ counter m.now.world i.now }
{
    cut_address(i.addr32, u64::from(m.registers().ecx))
}
