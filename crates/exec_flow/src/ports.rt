// Ports.
ghost use Rattle.std.specs.Prelude.{◌≡◌, ◌-◌, ◌^◌, IsTrue};
ghost use Rattle.exec_flow.specs.Ports.{input, output};
ghost use Rattle.insn_forms.specs.Kinds.{is_width};
ghost use Rattle.insn_plan.specs.Plan.{CarriesOut};

use guest_space::Machine;
use insn_forms::Insn;
use insn_plan::{Raised, put_operand};

// The number whose bits of a width are all ones.
fn all_ones(width: u8) -> u32
    requires { IsTrue (is_width width) }
    ensures { result ≡ 2 ^ width - 1 }
{
    ((1u64 << width) - 1) as u32
}

/// IN. Source: 80386 Programmer's Reference Manual, ch. 17; that no port answers is own.
#[inline(never)]
#[tactic(auto, unfolding(crate::specs::Ports::input, insn_plan::specs::Plan::after_plan))]
pub(crate) fn input(m: &mut Machine, i: &Insn) -> Result<(), Raised>
    requires { IsTrue (is_width i.now.width) }
    ensures { CarriesOut m.old m.new result (input m.old.world i.now) }
{
    put_operand(m, i.addr32, i.width, &i.first, all_ones(i.width))
}

/// OUT. Source: 80386 Programmer's Reference Manual, ch. 17.
#[inline(never)]
#[tactic(auto, unfolding(crate::specs::Ports::output, insn_plan::specs::Plan::after_plan, insn_plan::specs::Plan::after_commit, //
guest_space::specs::Pending::first_write_fault, guest_space::specs::Pending::after_writes))]
pub(crate) fn output(m: &Machine) -> Result<(), Raised>
    ensures { CarriesOut m.now m.now result (output m.now.world) }
{
    Ok(())
}
