// Exceptions, and the return from those of protected mode.
ghost use Rattle.std.specs.Prelude.{◌≡◌, ◌-◌, [], Ok, Err, MatchResult, OnOk};
ghost use Rattle.client_world.specs.World.{depth};
ghost use Rattle.guest_space.specs.Records.{OnlyAtAndRow};
ghost use Rattle.mode_stack.specs.Stack.{top};
ghost use Rattle.fault_service.specs.{ByMode.{delivery}, Worlds.{world_exception_return}};
ghost use Rattle.host_run.specs.{Turn.{after_exception_return, after_exception, exception_number}, View.{ComesTo, HasRoom, machine_view}};

use crate::host::Host;
use crate::trace::{enter_line, leave_line};
use client_world::{Exit, Fault, Mode, Record, What};
use fault_service::{
    a_machine_changes_only_what_is_written, back, deliver, every_answer_depends_on_the_world_alone,
};
use guest_space::Machine;
use mode_stack::{depth, top};

// The number of the innermost record's exception.
fn exception_number(m: &Machine) -> u8
    ensures { result ≡ exception_number (top m.now.world) }
{
    match top(m) {
        Some(Record::Exc { number, .. }) => number,
        Some(Record::Sim { .. } | Record::Back { .. }) | None => 0,
    }
}

// Returns from the innermost exception, whose record's row alone changes; an exit leaves the machine.
fn return_to_client(m: &mut Machine) -> Result<(), Exit>
    ensures bytes { OnlyAtAndRow [] (depth m.old.world - 1) m.old.bytes m.new.bytes }
    ensures world { MatchResult result (λ _. world_exception_return m.old.world ≡ Ok m.new.world)
        (λ e. (world_exception_return m.old.world ≡ Err e) × (m.new ≡ m.old)) }
{
    every_answer_depends_on_the_world_alone();
    a_machine_changes_only_what_is_written(m);
    back(m)
}

impl Host {
    // An exception is delivered; in protected mode with a line of the trace.
    #[inline(never)]
    pub(crate) fn deliver(&mut self, f: Fault) -> Result<(), Exit>
        requires room { HasRoom self.old.world }
        ensures host { ComesTo self.old self.new result (after_exception self.old.world f) }
        ensures machine { OnOk result (delivery (machine_view self.old) f ≡ Ok (machine_view self.new)) }
    {
        let mode = self.machine.mode();
        let line = enter_line(depth(&self.machine), What::Exc(f.number), &self.machine);
        deliver(&mut self.machine, f)?;
        match mode {
            Mode::Real => {}
            Mode::Protected => self.note(line),
        }
        Ok(())
    }

    // The return from an exception.
    #[inline(never)]
    pub(crate) fn return_from_exception(&mut self) -> Result<(), Exit>
        requires room { HasRoom self.old.world }
        ensures host { ComesTo self.old self.new result
            (after_exception_return self.old.world (world_exception_return self.old.world.machine)) }
        ensures bytes { OnlyAtAndRow [] (depth self.old.world.machine - 1) self.old.bytes self.new.bytes }
    {
        let number = exception_number(&self.machine);
        return_to_client(&mut self.machine)?;
        let line = leave_line(&self.machine, What::Exc(number));
        self.note(line);
        Ok(())
    }
}
