// The entry to protected mode, and the default vectors of protected mode.
ghost use Rattle.std.specs.Prelude.{◌≡◌, ◌||◌, true, false, nat_eq};
ghost use Rattle.client_world.specs.{declared.registers.Mode.TheVariants.{Protected as protected, Real as real}, Services.{is_set}};
ghost use Rattle.interrupts.specs.Worlds.{world_after_iret};
ghost use Rattle.host_run.specs.{declared.vectors.TheConstants.{DPMI_INTERRUPT as dpmi_interrupt}, View.{ComesTo, HasRoom}};
ghost use Rattle.host_run.specs.Turn.{entry_line, after_entry_trap, goes_on, after_int31, after_service, is_exit_call, is_presence_call};
ghost use Rattle.host_run.specs.Turn.{after_presence_call, after_protected_pop, after_protected_vector};

use crate::calls::asked_call;
use crate::families::serve_function;
use crate::host::Host;
use crate::serving::{can_pop, pop_in_mode};
use crate::vectors::{DOS_INTERRUPT, DPMI_INTERRUPT, MULTIPLEX_INTERRUPT};
use client_world::limits::GREATEST_DEPTH;
use client_world::{Carry, Exit, Regs, TraceLine};
use cpu_values::{part8, put16};
use guest_space::Machine;
use mode_gates::{asked_width, entry};
use mode_stack::depth;
use service_rows::with_carry;

// INT 21h function 4Ch, which ends the client.
fn is_exit_call(m: &Machine, n: u8) -> bool
    ensures { result ≡ is_exit_call m.now.world n }
{
    n == DOS_INTERRUPT && part8(m.regs().eax, true) == 0x4C
}

// INT 2Fh AX = 1686h, which asks for the mode.
fn is_presence_call(m: &Machine, n: u8) -> bool
    ensures { result ≡ is_presence_call m.now.world n }
{
    n == MULTIPLEX_INTERRUPT && m.regs().ax() == 0x1686
}

// The line of the trace of a call of the entry.
fn entry_line(carry: Carry, m: &Machine) -> TraceLine
    ensures { result ≡ entry_line carry m.now.world }
{
    match carry {
        Carry::Clear => TraceLine::Entry(asked_width(m)),
        Carry::Set => TraceLine::EntryRefused,
    }
}

// Whether the carry is set.
fn is_set(carry: Carry) -> bool
    ensures { result ≡ is_set carry }
{
    match carry {
        Carry::Clear => false,
        Carry::Set => true,
    }
}

impl Host {
    // A call of the entry to protected mode.
    #[inline(never)]
    #[tactic(auto, unfolding(crate::specs::Turn::after_entry_trap))]
    pub(crate) fn serve_entry(&mut self) -> Result<(), Exit>
        requires real { self.old.world.machine.mode ≡ real }
        requires room { HasRoom self.old.world }
        ensures { ComesTo self.old self.new result (after_entry_trap self.old.world) }
    {
        let carry = entry(&mut self.machine)?;
        let line = entry_line(carry, &self.machine);
        self.note(line);
        Ok(())
    }

    // INT 21h function 4Ch: the client ends itself, if its frame can be popped.
    #[tactic(auto, using(crate::proofs::Frames::exit_popped, crate::proofs::Frames::popped_bad))]
    fn end_client(&mut self, n: u8) -> Result<(), Exit>
        requires exit { is_exit_call self.old.world.machine n ≡ true }
        requires room { HasRoom self.old.world }
        ensures { ComesTo self.old self.new result
            (after_protected_pop self.old.world n (world_after_iret self.old.world.machine)) }
    {
        if !can_pop(&self.machine) {
            return Err(Exit::BadFrame);
        }
        let eax = self.machine.regs().eax;
        self.note(TraceLine::Int21(part8(eax, true)));
        Err(Exit::Exited(part8(eax, false)))
    }

    // INT 2Fh AX = 1686h, with its frame popped: AX becomes 0, since the client runs in protected mode.
    fn report_presence(&mut self)
        requires room { HasRoom self.old.world }
        ensures outcome { after_presence_call self.old.world self.old.world.machine ≡ goes_on self.new.world }
        ensures steps { self.new.world.steps ≡ self.old.world.steps }
    {
        let r = self.machine.regs();
        let number = self.machine.regs().ax();
        self.note(TraceLine::Int2f(number));
        self.machine.set_regs(Regs {
            eax: put16(r.eax, 0),
            ..r
        });
    }

    // A service of INT 31h has returned: the carry goes into the flags that were popped.
    pub(crate) fn finish_service(&mut self, ax: u16, carry: Carry)
        requires room { HasRoom self.old.world }
        ensures answer { after_service self.old.world ax (record { carry = carry; world = self.old.world.machine })
            ≡ goes_on self.new.world }
        ensures steps { self.new.world.steps ≡ self.old.world.steps }
        ensures bytes { self.new.bytes ≡ self.old.bytes }
    {
        self.note(TraceLine::Int31 { ax, carry });
        let r = self.machine.regs();
        self.machine.set_regs(with_carry(is_set(carry), r));
    }

    // INT 31h, with its frame popped.
    fn serve_int31(&mut self)
        requires mode { self.old.world.machine.mode ≡ protected }
        requires room { HasRoom self.old.world }
        ensures outcome { after_int31 self.old.world self.old.world.machine ≡ goes_on self.new.world }
        ensures steps { self.new.world.steps ≡ self.old.world.steps }
    {
        let number = self.machine.regs().ax();
        match asked_call(&self.machine, number) {
            Some(call) => self.begin_call(number, call),
            None => {
                let carry = serve_function(&mut self.machine, number);
                self.finish_service(number, carry);
            }
        }
    }

    // A default vector of protected mode that serves, as INT 2Fh AX = 1686h or as INT 31h: its frame is popped first.
    #[tactic(auto, unfolding(crate::specs::Turn::after_protected_call))]
    fn pop_and_serve(&mut self, n: u8, presence: bool) -> Result<(), Exit>
        requires mode { self.old.world.machine.mode ≡ protected }
        requires exit { is_exit_call self.old.world.machine n ≡ false }
        requires presence { presence ≡ is_presence_call self.old.world.machine n }
        requires served { (presence || nat_eq n dpmi_interrupt) ≡ true }
        requires room { HasRoom self.old.world }
        ensures { ComesTo self.old self.new result
            (after_protected_pop self.old.world n (world_after_iret self.old.world.machine)) }
    {
        pop_in_mode(&mut self.machine)?;
        if presence {
            self.report_presence();
        } else {
            self.serve_int31();
        }
        Ok(())
    }

    // A default vector of protected mode that is reflected: its frame is popped first. An exit leaves the machine, so the depth is asked
    // before.
    #[tactic(auto, unfolding(crate::specs::Turn::after_protected_call), using(crate::proofs::Frames::popped_bad, //
    crate::proofs::Frames::popped_deep))]
    fn pop_and_reflect(&mut self, n: u8) -> Result<(), Exit>
        requires mode { self.old.world.machine.mode ≡ protected }
        requires exit { is_exit_call self.old.world.machine n ≡ false }
        requires presence { is_presence_call self.old.world.machine n ≡ false }
        requires other { nat_eq n dpmi_interrupt ≡ false }
        requires room { HasRoom self.old.world }
        ensures { ComesTo self.old self.new result
            (after_protected_pop self.old.world n (world_after_iret self.old.world.machine)) }
    {
        if u32::from(depth(&self.machine)) >= GREATEST_DEPTH {
            return Err(if can_pop(&self.machine) {
                Exit::Deep
            } else {
                Exit::BadFrame
            });
        }
        pop_in_mode(&mut self.machine)?;
        self.reflect_interrupt(n);
        Ok(())
    }

    // A default vector of protected mode.
    #[inline(never)]
    #[tactic(auto, unfolding(crate::specs::Turn::after_protected_vector))]
    pub(crate) fn serve_protected_vector(&mut self, n: u8) -> Result<(), Exit>
        requires mode { self.old.world.machine.mode ≡ protected }
        requires room { HasRoom self.old.world }
        ensures { ComesTo self.old self.new result (after_protected_vector self.old.world n) }
    {
        if is_exit_call(&self.machine, n) {
            return self.end_client(n);
        }
        let presence = is_presence_call(&self.machine, n);
        if presence || n == DPMI_INTERRUPT {
            return self.pop_and_serve(n, presence);
        }
        self.pop_and_reflect(n)
    }
}
