// The return from an exception.
ghost use Rattle.std.specs.Prelude.{◌≡◌, Ok, Err, MatchResult};
ghost use Rattle.insn_plan.specs.Plan.{CarriesOut, plan_result};
ghost use Rattle.mode_stack.specs.Stack.{top};
ghost use Rattle.fault_service.specs.Return.{pending_of_exception_frame, exception_frame_pop, exception_return, exit_of_record};
ghost use Rattle.fault_service.specs.Return.{is_exception};

use client_world::{Exit, Flags, Record, Regs, SegReg, is_interrupt_set, low_half};
use exec_flow::frame_bits;
use guest_space::Machine;
use insn_plan::{Raised, stack_item};
use mode_stack::{pop, top};

// Whether the innermost record is an exception's.
fn is_exception(m: &Machine) -> bool
    ensures { result ≡ is_exception (top m.now.world) }
{
    match top(m) {
        Some(Record::Exc { .. }) => true,
        Some(Record::Sim { .. } | Record::Back { .. }) | None => false,
    }
}

// What the frame of an exception restores.
#[derive(Clone, Copy)]
struct ExceptionFrame {
    ip: u32,
    cs: u16,
    image: u16,
    sp: u32,
    ss: u16,
}

// Reads the frame above the return address, in items of n bits, to which a return may be made; or gives the event.
#[tactic(auto, unfolding(crate::specs::Return::exception_frame_pop))]
fn exception_frame_at_top(m: &Machine, bits: u8) -> Result<ExceptionFrame, Raised>
    ensures { MatchResult result
        (λ frame. plan_result m.now.world (exception_frame_pop m.now.world bits)
        ≡ Ok (pending_of_exception_frame m.now.world frame.ip frame.cs frame.image frame.sp frame.ss))
        (λ event. plan_result m.now.world (exception_frame_pop m.now.world bits) ≡ Err event) }
{
    let _code = stack_item(m, bits, 0)?;
    let ip = stack_item(m, bits, 1)?;
    let cs = low_half(stack_item(m, bits, 2)?);
    let image = low_half(stack_item(m, bits, 3)?);
    let sp = stack_item(m, bits, 4)?;
    let ss = low_half(stack_item(m, bits, 5)?);
    m.loadable(SegReg::Cs, cs, ip, true)?;
    m.loadable(SegReg::Ss, ss, 0, false)?;
    Ok(ExceptionFrame {
        ip,
        cs,
        image,
        sp,
        ss,
    })
}

// Pops that frame; or gives the event, which changes nothing.
#[tactic(auto, using(insn_plan::proofs::WrittenState::carried_event))]
fn pop_exception(m: &mut Machine, bits: u8) -> Result<(), Raised>
    ensures { CarriesOut m.old m.new result (exception_frame_pop m.old.world bits) }
{
    let frame = exception_frame_at_top(m, bits)?;
    m.set_regs(Regs {
        eip: frame.ip,
        cs: frame.cs,
        flags: Flags::from_image(frame.image),
        esp: frame.sp,
        ss: frame.ss,
        ..m.regs()
    });
    m.set_vif(is_interrupt_set(frame.image));
    Ok(())
}

/// Returns from the innermost exception, at the trap of that return. `Stray` where the innermost record is no exception's, else `BadFrame`
/// where the frame can't be popped; an exit leaves the machine as it was. Source: DPMI 0.9, "Exceptions"; the exits are own.
#[tactic(auto, unfolding(crate::specs::Return::exception_return))]
pub fn back(m: &mut Machine) -> Result<(), Exit>
    ensures { MatchResult result (λ _. exception_return m.old ≡ Ok m.new)
        (λ e. (exception_return m.old ≡ Err e) × (m.new ≡ m.old)) }
{
    if !is_exception(m) {
        return Err(Exit::Stray);
    }

    let bits = frame_bits(m);
    match pop_exception(m, bits) {
        Ok(()) => {
            pop(m);
            Ok(())
        }
        Err(_) => Err(Exit::BadFrame),
    }
}

/// The exit of a default exception handler: `Fault` of the innermost record's exception, or `Stray` where it is no exception's. Source:
/// own.
pub fn default_handler_exit(m: &Machine) -> Exit
    ensures { result ≡ exit_of_record (top m.now.world) }
{
    match top(m) {
        Some(Record::Exc { number, code }) => Exit::Fault(number, code),
        Some(Record::Sim { .. } | Record::Back { .. }) | None => Exit::Stray,
    }
}
