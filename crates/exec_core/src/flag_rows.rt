// The flags, and WAIT.
#![tactic(auto, unfolding(crate::specs::FlagRows::clc, crate::specs::FlagRows::stc, crate::specs::FlagRows::cmc, //
crate::specs::FlagRows::cld, crate::specs::FlagRows::std, crate::specs::FlagRows::lahf, crate::specs::FlagRows::wait, //
insn_plan::specs::Plan::after_plan, insn_plan::specs::Plan::after_commit, guest_space::specs::Pending::first_write_fault, //
guest_space::specs::Pending::after_writes))]

ghost use Rattle.exec_core.specs.FlagRows.{clc, stc, cmc, cld, std, lahf, sahf, wait};
ghost use Rattle.insn_plan.specs.Plan.{CarriesOut};

use crate::products::AH;
use client_world::Flags;
use guest_space::Machine;
use insn_plan::{Raised, put_register, register};

/// CLC. Source: 80386 Programmer's Reference Manual, ch. 17.
#[inline(always)]
pub(crate) fn clc(m: &mut Machine) -> Result<(), Raised>
    ensures { CarriesOut m.old m.new result (clc m.old.world) }
{
    m.set_flags(Flags {
        cf: false,
        ..m.registers().flags
    });
    Ok(())
}

/// STC. Source: 80386 Programmer's Reference Manual, ch. 17.
#[inline(always)]
pub(crate) fn stc(m: &mut Machine) -> Result<(), Raised>
    ensures { CarriesOut m.old m.new result (stc m.old.world) }
{
    m.set_flags(Flags {
        cf: true,
        ..m.registers().flags
    });
    Ok(())
}

/// CMC. Source: 80386 Programmer's Reference Manual, ch. 17.
#[inline(always)]
pub(crate) fn cmc(m: &mut Machine) -> Result<(), Raised>
    ensures { CarriesOut m.old m.new result (cmc m.old.world) }
{
    let f = m.registers().flags;
    m.set_flags(Flags { cf: !f.cf, ..f });
    Ok(())
}

/// CLD. Source: 80386 Programmer's Reference Manual, ch. 17.
#[inline(always)]
pub(crate) fn cld(m: &mut Machine) -> Result<(), Raised>
    ensures { CarriesOut m.old m.new result (cld m.old.world) }
{
    m.set_flags(Flags {
        df: false,
        ..m.registers().flags
    });
    Ok(())
}

/// STD. Source: 80386 Programmer's Reference Manual, ch. 17.
#[inline(always)]
pub(crate) fn std(m: &mut Machine) -> Result<(), Raised>
    ensures { CarriesOut m.old m.new result (std m.old.world) }
{
    m.set_flags(Flags {
        df: true,
        ..m.registers().flags
    });
    Ok(())
}

/// LAHF. Source: 80386 Programmer's Reference Manual, ch. 17.
#[inline(never)]
pub(crate) fn lahf(m: &mut Machine) -> Result<(), Raised>
    ensures { CarriesOut m.old m.new result (lahf m.old.world) }
{
    let image = m.registers().flags.image(false);
    put_register(m, 8, AH, u32::from(image % 0x100));
    Ok(())
}

/// SAHF. Source: 80386 Programmer's Reference Manual, ch. 17.
#[inline(never)]
#[tactic(auto, using(crate::proofs::Parts::ah_fits), unfolding(crate::specs::FlagRows::sahf, insn_plan::specs::Plan::after_plan, //
insn_plan::specs::Plan::after_commit, guest_space::specs::Pending::first_write_fault, guest_space::specs::Pending::after_writes))]
pub(crate) fn sahf(m: &mut Machine) -> Result<(), Raised>
    ensures { CarriesOut m.old m.new result (sahf m.old.world) }
{
    let r = m.registers();
    let f = Flags::from_image(register(r, 8, AH) as u16);
    let flags = Flags {
        df: r.flags.df,
        of: r.flags.of,
        ..f
    };
    m.set_flags(flags);
    Ok(())
}

/// WAIT: nothing happens. Source: 80386 Programmer's Reference Manual, ch. 17.
#[inline(always)]
pub(crate) fn wait(m: &mut Machine) -> Result<(), Raised>
    ensures { CarriesOut m.old m.new result (wait m.old.world) }
{
    Ok(())
}
