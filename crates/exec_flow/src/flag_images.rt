// Flags images on the stack, and the virtual interrupt flag.
#![tactic(auto, unfolding(crate::specs::FlagImages::pushf, crate::specs::FlagImages::popf, crate::specs::FlagImages::with_popped_flags, //
client_world::specs::General::with_general, insn_plan::specs::Stack::regs_after_pops, crate::specs::FlagImages::cli, //
crate::specs::FlagImages::sti, insn_plan::specs::Plan::after_plan, insn_plan::specs::Plan::after_commit, //
guest_space::specs::Pending::first_write_fault, guest_space::specs::Pending::after_writes))]

ghost use Rattle.std.specs.Prelude.{◌≡◌};
ghost use Rattle.client_world.specs.Registers.{flags_of_image, low_half};
ghost use Rattle.exec_flow.specs.FlagImages.{cli, popf, vif_after_pop, pushf, visible_interrupt_flag, sti};
ghost use Rattle.insn_plan.specs.Plan.{CarriesOut, with_state};

use client_world::general::ESP;
use client_world::{Flags, Mode, is_interrupt_set, low_half};
use guest_space::Machine;
use insn_forms::Insn;
use insn_plan::{Raised, popped_esp, push_item, top_item};

// IF as PUSHF shows it.
#[inline(always)]
fn visible_interrupt_flag(m: &Machine) -> bool
    ensures { result ≡ visible_interrupt_flag m.now.world }
{
    match m.mode() {
        Mode::Real => m.vif(),
        Mode::Protected => true,
    }
}

/// PUSHF. Source: 80386 Programmer's Reference Manual, ch. 17; what IF shows is own.
#[inline(never)]
pub(crate) fn pushf(m: &mut Machine, i: &Insn) -> Result<(), Raised>
    ensures { CarriesOut m.old m.new result (pushf m.old.world i.now) }
{
    let image = m.registers().flags.image(visible_interrupt_flag(m));
    push_item(m, i.width, u32::from(image))
}

// The virtual flag after an image is popped.
#[inline(always)]
fn vif_after_pop(m: &Machine, image: u32) -> bool
    ensures { result ≡ vif_after_pop m.now.world image }
{
    match m.mode() {
        Mode::Real => is_interrupt_set(low_half(image)),
        Mode::Protected => m.vif(),
    }
}

/// Sets the flags of an image that is popped, and the virtual flag.
/// Source: 80386 Programmer's Reference Manual, ch. 17, POPF and IRET; what becomes of IF is own.
#[inline(always)]
pub(crate) fn set_popped_flags(m: &mut Machine, image: u32)
    ensures { m.new ≡ with_state (record m.old.world.regs { flags = flags_of_image (low_half image) })
        (vif_after_pop m.old.world image) m.old }
{
    let on = vif_after_pop(m, image);
    m.set_flags(Flags::from_image(low_half(image)));
    m.set_vif(on);
}

/// POPF. Source: 80386 Programmer's Reference Manual, ch. 17.
#[inline(never)]
pub(crate) fn popf(m: &mut Machine, i: &Insn) -> Result<(), Raised>
    ensures { CarriesOut m.old m.new result (popf m.old.world i.now) }
{
    let image = top_item(m, i.width)?;
    m.set_general(ESP, popped_esp(m, i.width, 1));
    set_popped_flags(m, image);
    Ok(())
}

/// CLI. Source: DPMI 0.9, "Interrupt State".
#[inline(never)]
pub(crate) fn cli(m: &mut Machine) -> Result<(), Raised>
    ensures { CarriesOut m.old m.new result (cli m.old.world) }
{
    m.set_vif(false);
    Ok(())
}

/// STI. Source: 80386 Programmer's Reference Manual, ch. 17.
#[inline(never)]
pub(crate) fn sti(m: &mut Machine) -> Result<(), Raised>
    ensures { CarriesOut m.old m.new result (sti m.old.world) }
{
    m.set_vif(true);
    Ok(())
}
