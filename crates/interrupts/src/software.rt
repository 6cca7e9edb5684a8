// Software interrupts.
ghost use Rattle.std.specs.Prelude.{false, ◌≡◌, IfErr, None, OnOk, Some, Ok, Err, MatchResult};
ghost use Rattle.client_world.specs.Loading.{transfer_fault};
ghost use Rattle.exec_flow.specs.Interrupts.{interrupt_push};
ghost use Rattle.guest_space.specs.Pending.{first_write_fault};
ghost use Rattle.interrupts.specs.Delivery.{after_frame_push, after_handler_entry, handler_fault, handler_interrupts, interrupt_vector};
ghost use Rattle.interrupts.specs.{Delivery.{after_interrupt_entry, software_interrupt}, Worlds.{world_interrupt}};

use client_world::{Event, FarPtr, Fault, Mode, SegReg};
use cpu_step::move_past;
use exec_flow::{code_selector, push_interrupt_frame};
use guest_space::Machine;
use insn_plan::{Next, check_transfer};

// The vector of the mode.
fn vector(m: &Machine, n: u8) -> FarPtr
    ensures { result ≡ interrupt_vector m.now.world n }
{
    match m.mode() {
        Mode::Real => m.real_vector(n),
        Mode::Protected => m.pvec(n),
    }
}

// Virtual interrupts while a handler runs: in real mode off, in protected mode as before.
fn handler_interrupts(m: &Machine) -> bool
    ensures { result ≡ handler_interrupts m.now.world }
{
    match m.mode() {
        Mode::Real => false,
        Mode::Protected => m.vif(),
    }
}

// The fault of loading the handler's address into CS, if it has one. In real mode the pushes may change the vector, but every vector can be
// loaded.
fn check_vector(m: &Machine, n: u8) -> Result<(), Fault>
    ensures { MatchResult result (λ _. handler_fault m.now.world n ≡ None)
        (λ f. handler_fault m.now.world n ≡ Some f) }
{
    match m.mode() {
        Mode::Real => Ok(()),
        Mode::Protected => {
            let p = m.pvec(n);
            check_transfer(m, p.sel, p.off, false)
        }
    }
}

// What refuses an interrupt of protected mode before its pushes are made: the first push that has a fault, or else the load of the
// handler's address. In real mode the pushes are asked when they are made.
fn check_handler(m: &Machine, next: &Next, n: u8) -> Result<(), Fault>
    requires { next.now ≡ interrupt_push m.now.world }
    ensures loadable { OnOk result (handler_fault m.now.world n ≡ None) }
    ensures refused { IfErr result (λ f. after_interrupt_entry m.now n ≡ Err f) }
{
    match m.mode() {
        Mode::Real => Ok(()),
        Mode::Protected => {
            if let Some(f) = next.refusal(m) {
                return Err(f);
            }
            if let Err(f) = check_vector(m, n) {
                return Err(f);
            }
            Ok(())
        }
    }
}

// Pushes what an interrupt pushes, or gives the fault of the first push that has one, or else of loading the handler's address, which
// changes nothing.
#[tactic(auto, unfolding(insn_plan::specs::Plan::after_commit))]
fn push_frame(m: &mut Machine, n: u8) -> Result<(), Fault>
    ensures pushed { OnOk result ((first_write_fault m.old.world (interrupt_push m.old.world).writes ≡ None)
        × (handler_fault m.old.world n ≡ None) × (m.new ≡ after_frame_push m.old)) }
    ensures refused { IfErr result (λ f. (after_interrupt_entry m.old n ≡ Err f) × (m.new ≡ m.old)) }
{
    let mut next = Next::new(m);
    push_interrupt_frame(m, &mut next);
    if let Err(f) = check_handler(m, &next, n) {
        return Err(f);
    }
    match next.settle(m) {
        Ok(()) => Ok(()),
        Err(raised) => match raised.event() {
            Event::Fault(f) => Err(f),
            Event::Soft { .. } => unreachable!(),
        },
    }
}

// Goes to a handler whose address can be loaded into CS.
fn enter(m: &mut Machine, p: FarPtr)
    requires { transfer_fault m.old.world p.sel p.off false ≡ None }
    ensures { after_handler_entry m.old p ≡ Ok m.new }
{
    let on = handler_interrupts(m);
    let cs = code_selector(m, p.sel);
    m.set_selector(SegReg::Cs, cs);
    m.set_eip(p.off);
    m.set_vif(on);
}

// The interrupt whose pushed instruction pointer is EIP.
fn interrupt(m: &mut Machine, n: u8) -> Result<(), Fault>
    ensures { MatchResult result (λ _. after_interrupt_entry m.old n ≡ Ok m.new)
        (λ f. (after_interrupt_entry m.old n ≡ Err f) × (m.new ≡ m.old)) }
{
    push_frame(m, n)?;
    m.soundness();
    let p = vector(m, n);
    enter(m, p);
    Ok(())
}

/// Makes the software interrupt with a number, whose instruction has that many bytes, in both modes; or gives the fault of a push or of
/// loading the handler's address, which leaves the machine as it was.
/// Source: 80386 Programmer's Reference Manual, ch. 17, "INT/INTO", and ch. 15; DPMI 0.9, "Interrupts".
#[tactic(auto, unfolding(crate::specs::Delivery::software_interrupt))]
pub fn soft_int(m: &mut Machine, n: u8, len: u8) -> Result<(), Fault>
    ensures machine { MatchResult result (λ _. software_interrupt m.old n len ≡ Ok m.new)
        (λ f. (software_interrupt m.old n len ≡ Err f) × (m.new ≡ m.old)) }
    ensures world { MatchResult result (λ _. world_interrupt m.old.world n len ≡ Ok m.new.world)
        (λ f. world_interrupt m.old.world n len ≡ Err f) }
{
    let start = m.registers().eip;
    move_past(m, len);
    match interrupt(m, n) {
        Ok(()) => Ok(()),
        Err(f) => {
            m.set_eip(start);
            Err(f)
        }
    }
}
