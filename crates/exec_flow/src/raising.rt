// Instructions that only raise an exception.
ghost use Rattle.std.specs.Prelude.{◌≡◌};
ghost use Rattle.client_world.specs.{Access.{fault_with}, declared.faults.Event.TheVariants.{Fault as fault}};
ghost use Rattle.exec_flow.specs.Raising.{invalid_opcode, privileged, escape, load_table};
ghost use Rattle.host_memory.specs.View.{MachineView};
ghost use Rattle.insn_plan.specs.Plan.{CarriesOut};

use client_world::faults::{COPROCESSOR_NOT_AVAILABLE, GENERAL_PROTECTION, INVALID_OPCODE};
use client_world::{Fault, Mode};
use guest_space::Machine;
use insn_plan::Raised;

/// An exception with code 0.
pub(crate) fn exception(number: u8) -> Raised
    ensures { result ≡ fault (fault_with number 0) }
{
    Raised::from(Fault { number, code: 0 })
}

/// SLDT, STR, SGDT, SIDT, SMSW. Source: 80386 Programmer's Reference Manual, ch. 17; that they are invalid is own.
#[inline(never)]
#[tactic(auto, unfolding(crate::specs::Raising::invalid_opcode, insn_plan::specs::Plan::after_plan))]
pub(crate) fn invalid_opcode() -> Result<(), Raised>
    ensures { (v : MachineView) → CarriesOut v v result invalid_opcode }
{
    Err(exception(INVALID_OPCODE))
}

/// HLT, INS, OUTS, LGDT, LIDT, LMSW, CLTS, moves of control, debug and test registers.
/// Source: 80386 Programmer's Reference Manual, ch. 17, each under its name, and ch. 15, "Sensitive Instructions".
#[inline(never)]
#[tactic(auto, unfolding(crate::specs::Raising::privileged, insn_plan::specs::Plan::after_plan))]
pub(crate) fn privileged() -> Result<(), Raised>
    ensures { (v : MachineView) → CarriesOut v v result privileged }
{
    Err(exception(GENERAL_PROTECTION))
}

/// The coprocessor's escape. Source: 80386 Programmer's Reference Manual, ch. 9, "Interrupt 7 - Coprocessor Not Available".
#[inline(never)]
#[tactic(auto, unfolding(crate::specs::Raising::escape, insn_plan::specs::Plan::after_plan))]
pub(crate) fn escape() -> Result<(), Raised>
    ensures { (v : MachineView) → CarriesOut v v result escape }
{
    Err(exception(COPROCESSOR_NOT_AVAILABLE))
}

/// LLDT and LTR. Source: 80386 Programmer's Reference Manual, ch. 17.
#[inline(never)]
#[tactic(auto, unfolding(crate::specs::Raising::load_table, crate::specs::Raising::in_protected))]
pub(crate) fn load_table(m: &Machine) -> Result<(), Raised>
    ensures { CarriesOut m.now m.now result (load_table m.now.world) }
{
    match m.mode() {
        Mode::Real => invalid_opcode(),
        Mode::Protected => privileged(),
    }
}
