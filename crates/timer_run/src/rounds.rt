// Rounds of a run with a timer, and runs.
ghost use Rattle.std.specs.Prelude.{◌≡◌, ◌≤◌, ◌<◌, ◌+◌, None, Some};
ghost use Rattle.client_world.specs.declared.limits.TheConstants.{GREATEST_TIMER, MAX_STEPS};
ghost use Rattle.host_run.specs.{MakesTurn.{AnswersBy, turn_answer}, View.{machine_view}};
ghost use Rattle.timer_run.specs.Rounds.{MakesRound, timed_run};
ghost use Rattle.watch_run.specs.Turn.{HasUnwatchedWindow};

use crate::timer::Timer;
use client_world::Exit;
use guest_space::CodeWindow;
use host_run::{Ended, Host};
use watch_run::{Watches, next_watched_turn};

/// One round of a client that has not ended: the timer's part, and a turn with the client's watchpoints where that part wasn't the whole
/// round. Rounds hand a window of code on. It answers only whether the run has ended. Source: own.
pub fn next_round(
    host: &mut Host,
    watches: &mut Watches,
    timer: &mut Timer,
    window: &mut CodeWindow,
) -> Result<(), Ended>
    requires no_exit { host.old.world.exit ≡ None }
    requires room { host.old.world.steps < MAX_STEPS }
    requires window { HasUnwatchedWindow (machine_view host.old) watches.old window.old }
    ensures round { MakesRound host.old host.new watches.old watches.new timer.old timer.new (turn_answer host.new.world.exit) }
    ensures answer { AnswersBy result host.new.world.exit }
    ensures every { timer.new.every ≡ timer.old.every }
    ensures window { HasUnwatchedWindow (machine_view host.new) watches.new window.new }
{
    match timer.begin_round(host) {
        Ok(true) => {
            *window = CodeWindow::NONE;
            Ok(())
        }
        Ok(false) => next_watched_turn(host, watches, window),
        Err(_) => {
            *window = CodeWindow::NONE;
            Err(Ended)
        }
    }
}

/// Rounds up to an exit, or as many as the bound, with the exit `Bound` then; from a host whose client has set no watchpoint. The timer's
/// interrupt becomes due every `every` rounds, from 1 to 1,000,000,000. Source: own.
pub fn timed_run(host: &mut Host, every: u32, bound: u32) -> Exit
    requires some { 0 < every }
    requires most { every ≤ GREATEST_TIMER }
    requires room { host.old.world.exit ≡ None → host.old.world.steps + bound ≤ MAX_STEPS }
    ensures world { host.new.world ≡ timed_run every host.old.world bound }
    ensures answer { host.new.world.exit ≡ Some result }
{
    if let Some(exit) = host.exit() {
        return exit;
    }
    let mut timer = Timer::new(every);
    let mut watches = Watches::new();
    let mut window = CodeWindow::NONE;
    for count in 0..bound {
        if let Err(Ended) = next_round(host, &mut watches, &mut timer, &mut window) {
            return host.end_run();
        }
    }
    host.end_run()
}
