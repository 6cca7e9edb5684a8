// Far transfers.
#![tactic(auto, unfolding(crate::specs::FarTransfers::code_selector, crate::specs::FarTransfers::jump_far, //
crate::specs::FarTransfers::far_transfer, crate::specs::FarTransfers::call_far, crate::specs::FarTransfers::far_frame_pop, //
client_world::specs::General::with_general, insn_plan::specs::Stack::regs_after_pops, crate::specs::FarTransfers::retf, //
crate::specs::FarTransfers::interrupt_frame_pop, crate::specs::FarTransfers::iret, insn_plan::specs::Plan::after_plan, //
insn_plan::specs::Plan::after_commit, guest_space::specs::Pending::first_write_fault, guest_space::specs::Pending::after_writes))]

ghost use Rattle.std.specs.Prelude.{◌≡◌, MatchResult, OnOk, IfErr, None, Some, Ok, Err, is_ok};
ghost use Rattle.client_world.specs.Loading.{transfer_fault};
ghost use Rattle.exec_flow.specs.FarTransfers.{call_far, code_selector, far_frame_pop, pending_of_interrupt_frame, interrupt_frame_pop};
ghost use Rattle.exec_flow.specs.FarTransfers.{iret, jump_far, retf};
ghost use Rattle.guest_space.specs.Registers.{with_registers};
ghost use Rattle.insn_plan.specs.Plan.{CarriesOut, plan_result};

use crate::flag_images::set_popped_flags;
use crate::pointers::{pointer, pointer_offset, pointer_selector};
use crate::stack_tops::released_esp;
use crate::transfers::immediate;
use client_world::general::ESP;
use client_world::selectors::client_selector;
use client_world::{Fault, Mode, Regs, SegReg, low_half};
use guest_space::Machine;
use insn_forms::Insn;
use insn_plan::{Next, Raised, check_transfer, popped_esp, stack_item};

/// What CS holds after a transfer to a selector: in protected mode with privilege level 3. Source: own.
#[inline(always)]
pub fn code_selector(m: &Machine, sel: u16) -> u16
    ensures { result ≡ code_selector m.now.world sel }
{
    match m.mode() {
        Mode::Real => sel,
        Mode::Protected => client_selector(sel),
    }
}

// Sets CS and EIP.
#[inline(always)]
fn enter_code(m: &mut Machine, sel: u16, ip: u32)
    ensures { m.new ≡ with_registers
        (record m.old.world.regs { cs = code_selector m.old.world sel; eip = ip }) m.old }
{
    let cs = code_selector(m, sel);
    m.set_selector(SegReg::Cs, cs);
    m.set_eip(ip);
}

// The far transfer itself, or its fault, which changes nothing; a return takes privilege level 3 alone.
#[inline(always)]
fn far_transfer(m: &mut Machine, sel: u16, ip: u32, ret: bool) -> Result<(), Fault>
    ensures allowed { OnOk result (transfer_fault m.old.world sel ip ret ≡ None) }
    ensures moved { OnOk result (m.new ≡ with_registers
        (record m.old.world.regs { cs = code_selector m.old.world sel; eip = ip }) m.old) }
    ensures refused { IfErr result (λ fault.
        (transfer_fault m.old.world sel ip ret ≡ Some fault) × (m.new ≡ m.old)) }
{
    check_transfer(m, sel, ip, ret)?;
    enter_code(m, sel, ip);
    Ok(())
}

/// JMP far. Source: 80386 Programmer's Reference Manual, ch. 17.
#[inline(never)]
pub(crate) fn jump_far(m: &mut Machine, i: &Insn) -> Result<(), Raised>
    ensures { CarriesOut m.old m.new result (jump_far m.old.world i.now) }
{
    let p = pointer(m, i, &i.first)?;
    far_transfer(m, pointer_selector(i, p), pointer_offset(i, p), false)?;
    Ok(())
}

/// CALL far. Source: 80386 Programmer's Reference Manual, ch. 17.
#[inline(never)]
pub(crate) fn call_far(m: &mut Machine, i: &Insn) -> Result<(), Raised>
    ensures { CarriesOut m.old m.new result (call_far m.old.world i.now) }
{
    let p = pointer(m, i, &i.first)?;
    let sel = pointer_selector(i, p);
    let eip = pointer_offset(i, p);
    check_transfer(m, sel, eip, false)?;
    let mut next = Next::new(m);
    next.push(m, i.width, u32::from(m.registers().cs));
    next.push(m, i.width, m.registers().eip);
    next.set_regs(Regs {
        cs: code_selector(m, sel),
        eip,
        ..next.regs()
    });
    next.settle(m)
}

/// Pops the frame of a far return, in items of n bits: the instruction pointer and CS; and drops a number of bytes after it. Or gives the
/// event, which changes nothing. Source: 80386 Programmer's Reference Manual, ch. 17, RET.
#[inline(always)]
pub fn pop_far_frame(m: &mut Machine, bits: u8, bytes: u32) -> Result<(), Raised>
    ensures { CarriesOut m.old m.new result (far_frame_pop m.old.world bits bytes) }
{
    let ip = stack_item(m, bits, 0)?;
    let cs = stack_item(m, bits, 1)?;
    let esp = released_esp(m, bits, 2, bytes);
    far_transfer(m, low_half(cs), ip, true)?;
    m.set_general(ESP, esp);
    Ok(())
}

/// RETF. Source: 80386 Programmer's Reference Manual, ch. 17, RET.
#[inline(never)]
pub(crate) fn retf(m: &mut Machine, i: &Insn) -> Result<(), Raised>
    ensures { CarriesOut m.old m.new result (retf m.old.world i.now) }
{
    pop_far_frame(m, i.width, immediate(&i.first))
}

// A frame that an interrupt pushed.
#[derive(Clone, Copy)]
struct InterruptFrame {
    ip: u32,
    cs: u16,
    image: u32,
}

// Reads the frame at the stack's top, in items of n bits, to which a return may be made; or gives the event.
#[inline(always)]
fn interrupt_frame_at_top(m: &Machine, bits: u8) -> Result<InterruptFrame, Raised>
    ensures { MatchResult result
        (λ frame. plan_result m.now.world (interrupt_frame_pop m.now.world bits)
        ≡ Ok (pending_of_interrupt_frame m.now.world bits frame.ip frame.cs frame.image))
        (λ event. plan_result m.now.world (interrupt_frame_pop m.now.world bits) ≡ Err event) }
{
    let ip = stack_item(m, bits, 0)?;
    let cs = low_half(stack_item(m, bits, 1)?);
    let image = stack_item(m, bits, 2)?;
    check_transfer(m, cs, ip, true)?;
    Ok(InterruptFrame { ip, cs, image })
}

/// Whether the frame at the stack's top, in items of n bits, can be popped. Source: 80386 Programmer's Reference Manual, ch. 17, IRET.
pub fn can_pop_frame(m: &Machine, bits: u8) -> bool
    ensures { result ≡ is_ok (plan_result m.now.world (interrupt_frame_pop m.now.world bits)) }
{
    interrupt_frame_at_top(m, bits).is_ok()
}

/// Pops a frame that an interrupt pushed, in items of n bits: the instruction pointer, CS and the flags image; or gives the event, which
/// changes nothing. Source: 80386 Programmer's Reference Manual, ch. 17, IRET.
#[inline(always)]
#[tactic(auto, using(insn_plan::proofs::WrittenState::carried_event))]
pub fn pop_frame(m: &mut Machine, bits: u8) -> Result<(), Raised>
    ensures { CarriesOut m.old m.new result (interrupt_frame_pop m.old.world bits) }
{
    let frame = interrupt_frame_at_top(m, bits)?;
    let esp = popped_esp(m, bits, 3);
    enter_code(m, frame.cs, frame.ip);
    m.set_general(ESP, esp);
    set_popped_flags(m, frame.image);
    Ok(())
}

/// IRET. Source: 80386 Programmer's Reference Manual, ch. 17.
#[inline(never)]
pub(crate) fn iret(m: &mut Machine, i: &Insn) -> Result<(), Raised>
    ensures { CarriesOut m.old m.new result (iret m.old.world i.now) }
{
    pop_frame(m, i.width)
}
