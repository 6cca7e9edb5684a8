// Calls of real mode: those that the client asks for, interrupts that are reflected, and the return from both.
ghost use Rattle.std.specs.Prelude.{◌≡◌, ◌<◌, false, IfSome};
ghost use Rattle.client_world.specs.declared.limits.TheConstants.{GREATEST_DEPTH};
ghost use Rattle.client_world.specs.{declared.registers.Mode.TheVariants.{Protected as protected, Real as real}, World.{depth}};
ghost use Rattle.mode_stack.specs.Stack.{top};
ghost use Rattle.host_run.specs.Turn.{after_begin, after_call_return, after_reflected_interrupt, asked_call, call_of_record, goes_on};
ghost use Rattle.host_run.specs.View.{ComesTo, HasRoom};
ghost use Rattle.translation.specs.SimulatedCall.{begin_call, end_call, is_reflection, reflect};

use crate::host::Host;
use crate::trace::enter_line;
use client_world::{Begun, Call, Carry, Exit, Record, TraceLine, What};
use cpu_values::part8;
use guest_space::Machine;
use mode_stack::{depth, top};
use translation::{begin, end, reflect};

// The call of real mode that a function of INT 31h asks for.
pub(crate) fn asked_call(m: &Machine, ax: u16) -> Option<Call>
    ensures asked { result ≡ asked_call ax m.now.world }
    ensures no_reflection { IfSome result (λ call. is_reflection call ≡ false) }
{
    match ax {
        0x0300 => Some(Call::Int(part8(m.regs().ebx, false))),
        0x0301 => Some(Call::Far),
        0x0302 => Some(Call::Iret),
        _ => None,
    }
}

// The call of the innermost record.
fn innermost_call(m: &Machine) -> Call
    ensures { result ≡ call_of_record (top m.now.world) }
{
    match top(m) {
        Some(Record::Sim { call, .. }) => call,
        Some(Record::Back { .. } | Record::Exc { .. }) | None => Call::Far,
    }
}

impl Host {
    // A call that the client asks for, with the frame of its interrupt popped.
    pub(crate) fn begin_call(&mut self, ax: u16, call: Call)
        requires mode { self.old.world.machine.mode ≡ protected }
        requires call { is_reflection call ≡ false }
        requires room { HasRoom self.old.world }
        ensures answer { after_begin self.old.world ax self.old.world.machine call (begin_call self.old.world.machine call)
            ≡ goes_on self.new.world }
        ensures steps { self.new.world.steps ≡ self.old.world.steps }
    {
        let depth = depth(&self.machine);
        match begin(&mut self.machine, call) {
            Begun::Run => {
                self.note(TraceLine::Int31 {
                    ax,
                    carry: Carry::Clear,
                });
                let line = enter_line(depth, What::Call(call), &self.machine);
                self.note(line);
            }
            Begun::Refused => self.finish_service(ax, Carry::Set),
        }
    }

    // An interrupt is reflected, with its frame popped.
    #[tactic(auto, unfolding(translation::specs::SimulatedCall::reflect))]
    pub(crate) fn reflect_interrupt(&mut self, n: u8)
        requires mode { self.old.world.machine.mode ≡ protected }
        requires shallow { depth self.old.world.machine < GREATEST_DEPTH }
        requires room { HasRoom self.old.world }
        ensures answer { after_reflected_interrupt self.old.world n self.old.world.machine (reflect self.old.world.machine n)
            ≡ goes_on self.new.world }
        ensures steps { self.new.world.steps ≡ self.old.world.steps }
    {
        let depth = depth(&self.machine);
        // It isn't refused, since calls aren't nested too deeply.
        if let Ok(()) = reflect(&mut self.machine, n) {
            let line = enter_line(depth, What::Call(Call::Reflect(n)), &self.machine);
            self.note(line);
        }
    }

    // The return from a call or a reflection.
    #[inline(never)]
    pub(crate) fn return_from_call(&mut self) -> Result<(), Exit>
        requires real { self.old.world.machine.mode ≡ real }
        requires room { HasRoom self.old.world }
        ensures { ComesTo self.old self.new result (after_call_return self.old.world (end_call self.old.world.machine)) }
    {
        let call = innermost_call(&self.machine);
        let regs = self.machine.regs();
        let vif = self.machine.vif();
        end(&mut self.machine)?;
        let line = TraceLine::Leave {
            depth: depth(&self.machine),
            what: What::Call(call),
            regs,
            vif,
        };
        self.note(line);
        Ok(())
    }
}
