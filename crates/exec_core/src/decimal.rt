// Decimal adjustment of AX.
#![tactic(auto, unfolding(crate::specs::Decimal::adjust, crate::specs::Decimal::aad, crate::specs::Decimal::aam, //
insn_plan::specs::Plan::after_plan, insn_plan::specs::Plan::after_commit, guest_space::specs::Pending::first_write_fault, //
guest_space::specs::Pending::after_writes))]

ghost use Rattle.std.specs.Prelude.{◌≡◌};
ghost use Rattle.cpu_alu.specs.Decimal.{daa_of, das_of, aaa_of, aas_of};
ghost use Rattle.exec_core.specs.Decimal.{adjust, aad, aam, with_ax_in};
ghost use Rattle.guest_space.specs.Registers.{with_registers};
ghost use Rattle.insn_plan.specs.Plan.{CarriesOut};

use crate::products::divide_error;
use client_world::Flags;
use client_world::general::EAX;
use cpu_alu::{aaa, aad, aam, aas, daa, das};
use guest_space::Machine;
use insn_forms::Insn;
use insn_plan::{Raised, put_register, source};

// Sets AX and the flags.
fn set_ax(m: &mut Machine, ax: u16, flags: Flags)
    ensures { m.new ≡ with_registers (with_ax_in m.old.world.regs (ax, flags)) m.old }
{
    m.set_flags(flags);
    put_register(m, 16, EAX, u32::from(ax));
}

/// DAA. Source: 80386 Programmer's Reference Manual, ch. 17.
#[inline(never)]
pub(crate) fn decimal_adjust_after_addition(m: &mut Machine) -> Result<(), Raised>
    ensures { CarriesOut m.old m.new result (adjust daa_of m.old.world) }
{
    let (ax, flags) = daa(m.registers().ax(), m.registers().flags);
    set_ax(m, ax, flags);
    Ok(())
}

/// DAS. Source: 80386 Programmer's Reference Manual, ch. 17.
#[inline(never)]
pub(crate) fn decimal_adjust_after_subtraction(m: &mut Machine) -> Result<(), Raised>
    ensures { CarriesOut m.old m.new result (adjust das_of m.old.world) }
{
    let (ax, flags) = das(m.registers().ax(), m.registers().flags);
    set_ax(m, ax, flags);
    Ok(())
}

/// AAA. Source: 80386 Programmer's Reference Manual, ch. 17.
#[inline(never)]
pub(crate) fn adjust_after_addition(m: &mut Machine) -> Result<(), Raised>
    ensures { CarriesOut m.old m.new result (adjust aaa_of m.old.world) }
{
    let (ax, flags) = aaa(m.registers().ax(), m.registers().flags);
    set_ax(m, ax, flags);
    Ok(())
}

/// AAS. Source: 80386 Programmer's Reference Manual, ch. 17.
#[inline(never)]
pub(crate) fn adjust_after_subtraction(m: &mut Machine) -> Result<(), Raised>
    ensures { CarriesOut m.old m.new result (adjust aas_of m.old.world) }
{
    let (ax, flags) = aas(m.registers().ax(), m.registers().flags);
    set_ax(m, ax, flags);
    Ok(())
}

/// AAD. Source: 80386 Programmer's Reference Manual, ch. 17.
#[inline(never)]
pub(crate) fn adjust_before_division(m: &mut Machine, i: &Insn) -> Result<(), Raised>
    ensures { CarriesOut m.old m.new result (aad m.old.world i.now) }
{
    let base = source(m, i.addr32, 8, &i.first)?;
    let (ax, flags) = aad(
        m.registers().ax(),
        (base % 0x100) as u8,
        m.registers().flags,
    );
    set_ax(m, ax, flags);
    Ok(())
}

/// AAM; exception 0 for base 0. Source: 80386 Programmer's Reference Manual, ch. 17.
#[inline(never)]
pub(crate) fn adjust_after_product(m: &mut Machine, i: &Insn) -> Result<(), Raised>
    ensures { CarriesOut m.old m.new result (aam m.old.world i.now) }
{
    let base = source(m, i.addr32, 8, &i.first)?;
    match aam(
        m.registers().ax(),
        (base % 0x100) as u8,
        m.registers().flags,
    ) {
        None => Err(divide_error()),
        Some((ax, flags)) => {
            set_ax(m, ax, flags);
            Ok(())
        }
    }
}
