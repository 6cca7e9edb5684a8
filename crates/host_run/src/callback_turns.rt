// Callbacks from real mode, and the return from them.
ghost use Rattle.std.specs.Prelude.{◌≡◌};
ghost use Rattle.callbacks.specs.Callbacks.{enter_callback, leave_callback};
ghost use Rattle.client_world.specs.declared.registers.Mode.TheVariants.{Protected as protected, Real as real};
ghost use Rattle.mode_stack.specs.Stack.{top};
ghost use Rattle.host_run.specs.{Turn.{after_callback, after_callback_return, callback_slot}, View.{ComesTo, HasRoom}};

use crate::host::Host;
use crate::trace::{enter_line, leave_line};
use callbacks::{enter, leave};
use client_world::{Exit, Record, What};
use guest_space::Machine;
use mode_stack::{depth, top};

// The slot of the innermost record's callback.
fn callback_slot(m: &Machine) -> u8
    ensures { result ≡ callback_slot (top m.now.world) }
{
    match top(m) {
        Some(Record::Back { slot, .. }) => slot,
        Some(Record::Sim { .. } | Record::Exc { .. }) | None => 0,
    }
}

impl Host {
    // A real-mode program has reached the callback of a slot.
    #[inline(never)]
    pub(crate) fn enter_callback(&mut self, slot: u8) -> Result<(), Exit>
        requires real { self.old.world.machine.mode ≡ real }
        requires room { HasRoom self.old.world }
        ensures { ComesTo self.old self.new result
            (after_callback self.old.world slot (enter_callback self.old.world.machine slot)) }
    {
        let line = enter_line(depth(&self.machine), What::Back(slot), &self.machine);
        enter(&mut self.machine, slot)?;
        self.note(line);
        Ok(())
    }

    // The return from a callback.
    #[inline(never)]
    pub(crate) fn return_from_callback(&mut self) -> Result<(), Exit>
        requires mode { self.old.world.machine.mode ≡ protected }
        requires room { HasRoom self.old.world }
        ensures { ComesTo self.old self.new result
            (after_callback_return self.old.world (leave_callback self.old.world.machine)) }
    {
        let slot = callback_slot(&self.machine);
        leave(&mut self.machine)?;
        let line = leave_line(&self.machine, What::Back(slot));
        self.note(line);
        Ok(())
    }
}
