// Targets of transfers.
ghost use Rattle.std.specs.Prelude.{◌≡◌, MatchResult, None, Some, false};
ghost use Rattle.client_world.specs.Loading.{transfer_fault};

use client_world::faults::GENERAL_PROTECTION;
use client_world::{Fault, Mode, SegReg};
use guest_space::Machine;

/// Whether a transfer may go to an offset of a segment, or its fault; in real mode the offset alone is asked.
/// Source: 80386 Programmer's Reference Manual, ch. 17, JMP, CALL and RET.
#[inline(always)]
pub fn check_transfer(m: &Machine, sel: u16, off: u32, ret: bool) -> Result<(), Fault>
    ensures { MatchResult result (λ _. transfer_fault m.now.world sel off ret ≡ None)
        (λ fault. transfer_fault m.now.world sel off ret ≡ Some fault) }
{
    match m.mode() {
        Mode::Real if off < 0x1_0000 => Ok(()),
        Mode::Real => Err(Fault {
            number: GENERAL_PROTECTION,
            code: 0,
        }),
        Mode::Protected => m.loadable(SegReg::Cs, sel, off, ret),
    }
}

/// Whether a near transfer may go to an offset, or its fault. Source: 80386 Programmer's Reference Manual, ch. 17, JMP and CALL.
#[cold]
#[inline(never)]
pub(crate) fn check_near(m: &Machine, off: u32) -> Result<(), Fault>
    ensures { MatchResult result (λ _. transfer_fault m.now.world m.now.world.regs.cs off false ≡ None)
        (λ fault. transfer_fault m.now.world m.now.world.regs.cs off false ≡ Some fault) }
{
    check_transfer(m, m.registers().cs, off, false)
}
