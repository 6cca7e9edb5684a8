// The raw mode switches, and the calls that save and restore the state.
ghost use Rattle.std.specs.Prelude.{◌≡◌};
ghost use Rattle.client_world.specs.declared.registers.Mode.TheVariants.{Protected as protected, Real as real};
ghost use Rattle.client_world.specs.declared.trace.TraceLine.TheVariants.{ToReal};
ghost use Rattle.mode_gates.specs.{FarFrames.{world_after_far_return}, Switches.{world_after_switch_to_protected}};
ghost use Rattle.mode_gates.specs.Switches.{world_after_switch_to_real};
ghost use Rattle.host_run.specs.{Turn.{after_switch_to_protected, goes_on_with, with_machine}, View.{ComesTo, HasRoom}};

use crate::host::Host;
use client_world::{Exit, TraceLine};
use mode_gates::{state_call, to_protected, to_real};

impl Host {
    // The raw switch to protected mode.
    #[inline(never)]
    pub(crate) fn switch_to_protected(&mut self) -> Result<(), Exit>
        requires real { self.old.world.machine.mode ≡ real }
        requires room { HasRoom self.old.world }
        ensures host { ComesTo self.old self.new result
            (after_switch_to_protected self.old.world (world_after_switch_to_protected self.old.world.machine)) }
        ensures bytes { self.new.bytes ≡ self.old.bytes }
    {
        to_protected(&mut self.machine)?;
        self.note(TraceLine::ToProtected);
        Ok(())
    }

    // The raw switch to real mode.
    #[inline(never)]
    pub(crate) fn switch_to_real(&mut self) -> Result<(), Exit>
        requires mode { self.old.world.machine.mode ≡ protected }
        requires room { HasRoom self.old.world }
        ensures host { ComesTo self.old self.new result
            (goes_on_with self.old.world ToReal (world_after_switch_to_real self.old.world.machine)) }
        ensures bytes { self.new.bytes ≡ self.old.bytes }
    {
        to_real(&mut self.machine)?;
        self.note(TraceLine::ToReal);
        Ok(())
    }

    // A call that saves or restores the state: it returns and does nothing else, since there is nothing to save.
    pub(crate) fn serve_state_call(&mut self) -> Result<(), Exit>
        requires room { HasRoom self.old.world }
        ensures host { ComesTo self.old self.new result (with_machine self.old.world (world_after_far_return self.old.world.machine)) }
        ensures bytes { self.new.bytes ≡ self.old.bytes }
    {
        state_call(&mut self.machine)
    }
}
