// The timer.
ghost use Rattle.std.specs.Prelude.{◌≡◌, ◌≢◌, ◌≤◌, ◌<◌, true, false, None, Ok};
ghost use Rattle.client_world.specs.declared.limits.TheConstants.{GREATEST_DEPTH, GREATEST_TIMER, MAX_STEPS};
ghost use Rattle.client_world.specs.{declared.registers.Mode.TheVariants.{Protected as protected}, World.{depth}};
ghost use Rattle.host_run.specs.Footprint.{ChangesOnly};
ghost use Rattle.timer_run.specs.Timer.{TimerState, takes_interrupts, timer_answer, timer_footprint, timer_part, with_round_counted};

use client_world::limits::GREATEST_DEPTH;
use client_world::{Exit, Mode};
use guest_space::Machine;
use host_run::Host;
use mode_stack::depth;
use std::marker::Model;

/// The interrupt of the timer. Source: own.
pub const TIMER_INTERRUPT: u8 = 8;

/// A timer, whose interrupt becomes due again and again after the same number of rounds.
#[derive(Drop)]
pub struct Timer {
    every: u32,
    count: u32,
    waits: bool,
}

impl Model for Timer {
    ghost Value = { TimerState };

    ghost view = { λ t. record { every = t.every; count = t.count; waits = t.waits } };

    ghost invariant = { λ t. (t.count < t.every) × (t.every ≤ GREATEST_TIMER) };
}

// Whether the client can be interrupted.
fn takes_interrupts(machine: &Machine) -> bool
    ensures answer { result ≡ takes_interrupts machine.now.world }
    ensures enabled { result ≡ true → machine.now.world.vif ≡ true }
    ensures shallow { result ≡ true → machine.now.world.mode ≡ protected → depth machine.now.world < GREATEST_DEPTH }
{
    if !machine.vif() {
        return false;
    }
    match machine.mode() {
        Mode::Real => true,
        Mode::Protected => u32::from(depth(machine)) < GREATEST_DEPTH,
    }
}

impl Timer {
    /// A timer whose interrupt becomes due every `every` rounds, from 1 to 1,000,000,000. Source: own.
    pub fn new(every: u32) -> Timer
        requires some { 0 < every }
        requires most { every ≤ GREATEST_TIMER }
        ensures { result ≡ record { every = every; count = 0; waits = false } }
    {
        Timer {
            every,
            count: 0,
            waits: false,
        }
    }

    // One more round has passed.
    fn tick(&mut self)
        ensures { self.new ≡ with_round_counted self.old }
    {
        if self.count + 1 == self.every {
            self.count = 0;
            self.waits = true;
        } else {
            self.count += 1;
        }
    }

    /// The timer's part of a round: whether the round was its interrupt, or the turn is still to be made; or the exit that ended the run.
    /// After an exit nothing changes. The memory changes only where the interrupt was taken, and then the bytes of its footprint alone.
    /// Source: own.
    #[tactic(auto, unfolding(crate::specs::Timer::timer_part))]
    pub fn before(&mut self, host: &mut Host) -> Result<bool, Exit>
        requires { host.old.world.exit ≡ None → host.old.world.steps < MAX_STEPS }
        ensures timer { self.new ≡ (timer_part self.old host.old.world).timer }
        ensures host { host.new.world ≡ (timer_part self.old host.old.world).host }
        ensures answer { result ≡ timer_answer (timer_part self.old host.old.world) }
        ensures kept { result ≢ Ok true → host.new.bytes ≡ host.old.bytes }
        ensures bytes { result ≡ Ok true → ChangesOnly (timer_footprint host.old.world) host.old.bytes host.new.bytes }
    {
        if let Some(exit) = host.exit() {
            return Err(exit);
        }
        self.begin_round(host)
    }

    // The same of a client that has not ended.
    #[tactic(auto, unfolding(crate::specs::Timer::timer_part))]
    pub(crate) fn begin_round(&mut self, host: &mut Host) -> Result<bool, Exit>
        requires no_exit { host.old.world.exit ≡ None }
        requires room { host.old.world.steps < MAX_STEPS }
        ensures timer { self.new ≡ (timer_part self.old host.old.world).timer }
        ensures host { host.new.world ≡ (timer_part self.old host.old.world).host }
        ensures answer { result ≡ timer_answer (timer_part self.old host.old.world) }
        ensures kept { result ≢ Ok true → host.new.bytes ≡ host.old.bytes }
        ensures bytes { result ≡ Ok true → ChangesOnly (timer_footprint host.old.world) host.old.bytes host.new.bytes }
    {
        self.tick();
        if self.waits && takes_interrupts(host.machine()) {
            self.waits = false;
            return match host.int_turn(TIMER_INTERRUPT) {
                Ok(()) => Ok(true),
                Err(exit) => Err(exit),
            };
        }
        Ok(false)
    }
}
