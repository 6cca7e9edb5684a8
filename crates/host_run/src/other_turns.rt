// Turns that are made in place of the host's own: INT 31h that is served from outside, an exception and an interrupt that come from
// outside; and the end of a run at its bound.
ghost use Rattle.std.specs.Prelude.{◌≡◌, ◌<◌, true, Some, None, IsSome};
ghost use Rattle.client_world.specs.declared.limits.TheConstants.{EXCEPTION_VECTORS, GREATEST_DEPTH, MAX_STEPS};
ghost use Rattle.client_world.specs.{declared.registers.Mode.TheVariants.{Protected as protected, Real as real}, World.{depth}};
ghost use Rattle.interrupts.specs.Worlds.{world_interrupt};
ghost use Rattle.host_run.specs.{Footprint.{ChangesOnly, delivery_footprint, interrupt_footprint}, MakesTurn.{MakesTurn}};
ghost use Rattle.host_run.specs.OtherTurns.{exception_turn, int31_call, int31_turn, interrupt_turn, after_interrupt_in_mode};
ghost use Rattle.host_run.specs.OtherTurns.{footprint_in_mode, is_hosts_vector, is_int31, outside_interrupt_footprint, with_interrupts_off};
ghost use Rattle.host_run.specs.{Traps.{current_trap}, Run.{with_bound_exit}, Turn.{after_interrupt}, View.{ComesTo, HasRoom}};

use crate::host::Host;
use crate::serving::{can_pop, pop_in_mode};
use crate::traps::{Trap, current_trap};
use crate::vectors::DPMI_INTERRUPT;
use client_world::memory_map::ROM_START;
use client_world::selectors::{HOST_CODE, selector_of};
use client_world::traps::PROTECTED_VECTOR_TRAPS;
use client_world::{Carry, Exit, Fault, Mode, Regs};
use fault_service::{a_machine_changes_only_what_is_written, soft_int};
use guest_space::Machine;

// Whether the machine is at the trap byte of INT 31h.
#[inline(always)]
fn is_at_int31(m: &Machine) -> bool
    ensures { result ≡ is_int31 (current_trap m.now.world) }
{
    match current_trap(m) {
        Trap::ProtectedVector(n) => n == DPMI_INTERRUPT,
        _ => false,
    }
}

// Whether the vector of protected mode still leads to the host.
fn is_hosts_vector(m: &Machine, n: u8) -> bool
    ensures { result ≡ is_hosts_vector m.now.world n }
{
    let p = m.pvec(n);
    p.sel == selector_of(HOST_CODE) && p.off == PROTECTED_VECTOR_TRAPS - ROM_START + u32::from(n)
}

impl Host {
    /// AX of the call of INT 31h that the next turn would serve; `None` after an exit, where CS:EIP isn't at that vector's trap byte, and
    /// where the interrupt's frame can't be popped. Source: own.
    #[inline(always)]
    #[tactic(auto, unfolding(crate::specs::OtherTurns::int31_call))]
    pub fn int31_here(&self) -> Option<u16>
        ensures { result ≡ int31_call self.now.world }
    {
        match self.exit {
            Some(_) => None,
            None if is_at_int31(&self.machine) && can_pop(&self.machine) => Some(
                self.machine.regs().ax(),
            ),
            None => None,
        }
    }

    /// Makes the turn that serves the call of `int31_here`, with an answer from outside: the frame is popped, EAX and EBX become those of
    /// `r`, the carry goes into the popped flags, and the line of the call is noted. Source: DPMI 0.9, "Interrupts"; that a service may be
    /// answered from outside is own.
    #[tactic(auto, unfolding(crate::specs::OtherTurns::int31_call, crate::specs::OtherTurns::int31_turn))]
    pub fn int31_done(&mut self, r: Regs, carry: Carry)
        requires here { IsSome (int31_call self.old.world) }
        requires answer { r ≡ record self.old.world.machine.regs { eax = r.eax; ebx = r.ebx } }
        requires room { self.old.world.steps < MAX_STEPS }
        ensures world { self.new.world ≡ int31_turn self.old.world r carry }
        ensures goes_on { self.new.world.exit ≡ None }
        ensures bytes { self.new.bytes ≡ self.old.bytes }
    {
        let number = self.machine.regs().ax();
        self.steps += 1;
        match pop_in_mode(&mut self.machine) {
            Ok(()) => {
                let popped = self.machine.regs();
                self.machine.set_regs(Regs {
                    eax: r.eax,
                    ebx: r.ebx,
                    ..popped
                });
                self.finish_service(number, carry);
            }
            Err(_) => unreachable!(),
        }
    }

    /// Delivers an exception in protected mode, as a turn of its own. It ends the run with `Deep` at the greatest depth, else with `Fault`
    /// where the handler can't be loaded; the machine then stays as it was. Source: DPMI 0.9, "Exceptions"; the exits are own.
    #[tactic(auto, unfolding(crate::specs::OtherTurns::exception_turn, fault_service::specs::ByMode::delivery))]
    pub fn deliver_turn(&mut self, f: Fault) -> Result<(), Exit>
        requires no_exit { self.old.world.exit ≡ None }
        requires mode { self.old.world.machine.mode ≡ protected }
        requires number { f.number < EXCEPTION_VECTORS }
        requires room { self.old.world.steps < MAX_STEPS }
        ensures { MakesTurn self.old self.new result self.new.world (exception_turn self.old.world f)
            (delivery_footprint protected self.old.world.machine) }
    {
        a_machine_changes_only_what_is_written(&self.machine);
        self.steps += 1;
        match self.deliver(f) {
            Ok(()) => Ok(()),
            Err(exit) => {
                self.exit = Some(exit);
                Err(exit)
            }
        }
    }

    /// Ends the run as one that has reached its bound. Source: own.
    pub fn stop_bound(&mut self)
        requires { self.old.world.exit ≡ None }
        ensures { self.new ≡ record self.old { world = with_bound_exit self.old.world } }
    {
        self.exit = Some(Exit::Bound);
    }

    /// Ends a run that has made its turns: with the exit that there is, or as one that has reached its bound. Source: own.
    pub fn end_run(&mut self) -> Exit
        ensures host { self.new ≡ record self.old { world = with_bound_exit self.old.world } }
        ensures answer { self.new.world.exit ≡ Some result }
    {
        match self.exit {
            Some(exit) => exit,
            None => {
                self.stop_bound();
                Exit::Bound
            }
        }
    }

    /// Raises an interrupt from outside, as a turn of its own. In real mode, and for a handler that the client has set, it pushes the
    /// address of the present instruction, and the handler starts with virtual interrupts off; otherwise it is reflected to real mode. A
    /// fault of the push or load is delivered as an exception; where that can't be done the run ends, and the machine stays as it was.
    /// Where it isn't reflected, it changes the bytes that it pushes, or those of that exception, and no others.
    /// Source: DPMI 0.9, "Interrupts"; 80386 Programmer's Reference Manual, ch. 9; the exits are own.
    #[tactic(auto, unfolding(crate::specs::OtherTurns::interrupt_turn))]
    pub fn int_turn(&mut self, n: u8) -> Result<(), Exit>
        requires no_exit { self.old.world.exit ≡ None }
        requires enabled { self.old.world.machine.vif ≡ true }
        requires shallow { self.old.world.machine.mode ≡ protected → depth self.old.world.machine < GREATEST_DEPTH }
        requires room { self.old.world.steps < MAX_STEPS }
        ensures { MakesTurn self.old self.new result self.new.world (interrupt_turn self.old.world n)
            (outside_interrupt_footprint self.old.world.machine n) }
    {
        self.steps += 1;
        match self.interrupt(n) {
            Ok(()) => Ok(()),
            Err(exit) => {
                self.exit = Some(exit);
                Err(exit)
            }
        }
    }

    // An interrupt from outside.
    fn interrupt(&mut self, n: u8) -> Result<(), Exit>
        requires shallow { self.old.world.machine.mode ≡ protected → depth self.old.world.machine < GREATEST_DEPTH }
        requires room { HasRoom self.old.world }
        ensures host { ComesTo self.old self.new result (after_interrupt_in_mode self.old.world.machine.mode self.old.world n) }
        ensures bytes { ChangesOnly (outside_interrupt_footprint self.old.world.machine n) self.old.bytes self.new.bytes }
    {
        match self.machine.mode() {
            Mode::Real => self.interrupt_in_real_mode(n),
            Mode::Protected => self.interrupt_in_protected_mode(n),
        }
    }

    // The same in real mode: to the vector's handler.
    fn interrupt_in_real_mode(&mut self, n: u8) -> Result<(), Exit>
        requires { HasRoom self.old.world }
        ensures host { ComesTo self.old self.new result (after_interrupt_in_mode real self.old.world n) }
        ensures bytes { ChangesOnly (footprint_in_mode real self.old.world.machine n) self.old.bytes self.new.bytes }
    {
        a_machine_changes_only_what_is_written(&self.machine);
        self.raise_interrupt(n, 0)
    }

    // The same in protected mode: reflected, or to the client's own handler.
    fn interrupt_in_protected_mode(&mut self, n: u8) -> Result<(), Exit>
        requires mode { self.old.world.machine.mode ≡ protected }
        requires shallow { depth self.old.world.machine < GREATEST_DEPTH }
        requires room { HasRoom self.old.world }
        ensures host { ComesTo self.old self.new result (after_interrupt_in_mode protected self.old.world n) }
        ensures bytes { ChangesOnly (footprint_in_mode protected self.old.world.machine n) self.old.bytes self.new.bytes }
    {
        if is_hosts_vector(&self.machine, n) {
            self.reflect_interrupt(n);
            return Ok(());
        }
        self.interrupt_to_own_handler(n)
    }

    // To the client's own handler of protected mode, with virtual interrupts off.
    fn interrupt_to_own_handler(&mut self, n: u8) -> Result<(), Exit>
        requires { HasRoom self.old.world }
        ensures host { ComesTo self.old self.new result
            (after_interrupt self.old.world (with_interrupts_off (world_interrupt self.old.world.machine n 0))) }
        ensures bytes { ChangesOnly (interrupt_footprint self.old.world.machine 0 (world_interrupt self.old.world.machine n 0))
            self.old.bytes self.new.bytes }
    {
        a_machine_changes_only_what_is_written(&self.machine);
        match soft_int(&mut self.machine, n, 0) {
            Ok(()) => {
                self.machine.set_vif(false);
                Ok(())
            }
            Err(f) => self.deliver(f),
        }
    }
}
