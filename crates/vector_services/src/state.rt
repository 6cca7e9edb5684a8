// The version of the host, and virtual interrupts.
ghost use Rattle.std.specs.Prelude.{◌≡◌};
ghost use Rattle.service_rows.specs.Reasons.{Does};
ghost use Rattle.vector_services.specs.Rows.{disable_interrupts, enable_interrupts, interrupt_state, dpmi_version, with_vif};

use client_world::{with_low_byte, with_low_half};
use guest_space::Machine;
use service_rows::Refusal;

// Version 0.90 of the specification: 0 in the high byte, 90 in the low one.
const VERSION: u16 = 0x005A;
// Bit 0: a 32-bit host. Bit 1 clear: it reflects interrupts to virtual 8086 mode. Bit 2 clear: no virtual memory.
const FEATURES: u16 = 1;
// An 80386.
const PROCESSOR: u8 = 3;
// The base interrupts of the two interrupt controllers, 08h and 70h.
const CONTROLLERS: u16 = 0x0870;

/// Function 0400h: the version.
#[tactic(auto, unfolding(crate::specs::Rows::dpmi_version))]
pub(crate) fn version(m: &mut Machine) -> Result<(), Refusal>
    ensures { Does (dpmi_version m.old.world) result m.old m.new }
{
    let mut r = m.regs();
    r.eax = with_low_half(r.eax, VERSION);
    r.ebx = with_low_half(r.ebx, FEATURES);
    r.ecx = with_low_byte(r.ecx, PROCESSOR);
    r.edx = with_low_half(r.edx, CONTROLLERS);
    m.set_regs(r);
    Ok(())
}

// Enables or disables virtual interrupts. AL gets 1 where they were enabled, else 0.
fn set_vif(m: &mut Machine, on: bool)
    ensures { m.new.world ≡ with_vif on m.old.world }
{
    let mut r = m.regs();
    r.eax = with_low_byte(r.eax, if m.vif() { 1 } else { 0 });
    m.set_regs(r);
    m.set_vif(on);
}

/// Function 0900h: virtual interrupts are disabled.
#[tactic(auto, unfolding(crate::specs::Rows::disable_interrupts))]
pub(crate) fn disable_interrupts(m: &mut Machine) -> Result<(), Refusal>
    ensures { Does (disable_interrupts m.old.world) result m.old m.new }
{
    set_vif(m, false);
    Ok(())
}

/// Function 0901h: virtual interrupts are enabled.
#[tactic(auto, unfolding(crate::specs::Rows::enable_interrupts))]
pub(crate) fn enable_interrupts(m: &mut Machine) -> Result<(), Refusal>
    ensures { Does (enable_interrupts m.old.world) result m.old m.new }
{
    set_vif(m, true);
    Ok(())
}

/// Function 0902h: virtual interrupts stay as they are.
#[tactic(auto, unfolding(crate::specs::Rows::interrupt_state))]
pub(crate) fn interrupt_state(m: &mut Machine) -> Result<(), Refusal>
    ensures { Does (interrupt_state m.old.world) result m.old m.new }
{
    let on = m.vif();
    set_vif(m, on);
    Ok(())
}
