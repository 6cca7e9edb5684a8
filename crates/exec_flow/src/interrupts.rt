// Software interrupts, and what they push.
#![tactic(auto, unfolding(crate::specs::Interrupts::int, crate::specs::Interrupts::int3, crate::specs::Interrupts::into, //
crate::specs::Interrupts::interrupt_push, insn_plan::specs::Plan::after_plan, insn_plan::specs::Plan::after_commit, //
guest_space::specs::Pending::first_write_fault, guest_space::specs::Pending::after_writes))]

ghost use Rattle.std.specs.Prelude.{◌≡◌};
ghost use Rattle.exec_flow.specs.Interrupts.{frame_bits, int, int3, interrupt_push, into, item_bits};
ghost use Rattle.host_memory.specs.View.{MachineView};
ghost use Rattle.insn_plan.specs.{Act.{unchanged}, Plan.{CarriesOut}};

use crate::transfers::immediate;
use client_world::{Mode, Width};
use guest_space::Machine;
use insn_forms::Insn;
use insn_plan::{Next, Raised};

/// INT. Source: 80386 Programmer's Reference Manual, ch. 17, "INT/INTO".
#[inline(never)]
pub(crate) fn int(i: &Insn, len: u8) -> Result<(), Raised>
    ensures { (v : MachineView) → CarriesOut v v result (int i.now len) }
{
    Err(Raised::soft((immediate(&i.first) % 0x100) as u8, len))
}

/// INT 3. Source: 80386 Programmer's Reference Manual, ch. 17, INT; that it is the client's interrupt 3 is own.
#[inline(never)]
pub(crate) fn int3(len: u8) -> Result<(), Raised>
    ensures { (v : MachineView) → CarriesOut v v result (int3 len) }
{
    Err(Raised::soft(3, len))
}

/// INTO. Source: 80386 Programmer's Reference Manual, ch. 17, INT; that it is the client's interrupt 4 is own.
#[inline(never)]
pub(crate) fn into(m: &Machine, len: u8) -> Result<(), Raised>
    ensures { CarriesOut m.now m.now result (into m.now.world len) }
{
    if m.registers().flags.of {
        Err(Raised::soft(4, len))
    } else {
        Ok(())
    }
}

// The bits of an item of a client's frames.
fn item_bits(width: Option<Width>) -> u8
    ensures { result ≡ item_bits width }
{
    match width {
        None | Some(Width::Sixteen) => 16,
        Some(Width::ThirtyTwo) => 32,
    }
}

/// The bits of an item of an interrupt's frame: in real mode 16, in protected mode the client's. Source: DPMI 0.9, "Interrupts".
pub fn frame_bits(m: &Machine) -> u8
    ensures { result ≡ frame_bits m.now.world }
{
    match m.mode() {
        Mode::Real => 16,
        Mode::Protected => item_bits(m.width()),
    }
}

/// Pushes what a software interrupt pushes: the flags image with the virtual interrupt flag, CS and EIP.
/// Source: 80386 Programmer's Reference Manual, ch. 17, "INT/INTO"; DPMI 0.9, "Interrupt State".
pub fn push_interrupt_frame(m: &Machine, next: &mut Next)
    requires { next.old ≡ unchanged m.now.world }
    ensures { next.new ≡ interrupt_push m.now.world }
{
    let r = m.registers();
    let bits = frame_bits(m);
    next.push(m, bits, u32::from(r.flags.image(m.vif())));
    next.push(m, bits, u32::from(r.cs));
    next.push(m, bits, r.eip);
}
