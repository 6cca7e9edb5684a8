// Turns of a host with its client's watchpoints, and runs.
ghost use Rattle.std.specs.Prelude.{◌≡◌, ◌≤◌, ◌<◌, ◌+◌, IsTrue, None, Some};
ghost use Rattle.client_world.specs.{declared.limits.TheConstants.{MAX_STEPS}, WatchWorld.{no_watches}};
ghost use Rattle.host_run.specs.{MakesTurn.{AnswersBy, turn_answer}, OtherTurns.{int31_call}, View.{machine_view}, Windows.{IsFound}};
ghost use Rattle.watch_run.specs.{Services.{is_watch_function, watch_service}, Turn.{HasUnwatchedWindow, MakesWatchedTurn}};
ghost use Rattle.watch_run.specs.Turn.{after_watch_call, delivers_hit, is_watch_call, run_with_watchpoints, watched_run};

use crate::watch::Watches;
use client_world::faults::DEBUG;
use client_world::{Exit, Fault, Mode};
use guest_space::CodeWindow;
use host_run::{Ended, Host, is_at_trap};

// Whether a function of INT 31h is one of those on watchpoints.
fn is_watch_function(ax: u16) -> bool
    ensures { result ≡ is_watch_function ax }
{
    ax == 0x0B00 || ax == 0x0B01 || ax == 0x0B02 || ax == 0x0B03
}

// Whether the next turn would serve one of them.
#[inline(always)]
fn is_watch_call(h: &Host) -> bool
    ensures { result ≡ is_watch_call (int31_call h.now.world) }
{
    match h.int31_here() {
        Some(ax) => is_watch_function(ax),
        None => false,
    }
}

// Whether this turn delivers a hit.
#[inline(always)]
fn delivers_hit(h: &Host, w: &Watches) -> bool
    ensures { result ≡ delivers_hit (record { host = h.now.world; watching = w.now }) }
{
    if !w.is_due() {
        return false;
    }
    match h.machine().mode() {
        Mode::Real => false,
        Mode::Protected => true,
    }
}

// Serves a function on watchpoints, as a turn.
#[inline(never)]
#[tactic(auto, using(crate::proofs::TurnParts::asked_function, crate::proofs::TurnParts::served_steps, //
crate::proofs::TurnParts::answered_by))]
fn serve_call(h: &mut Host, w: &mut Watches)
    requires call { IsTrue (is_watch_call (int31_call h.old.world)) }
    requires room { h.old.world.steps < MAX_STEPS }
    ensures world { record { host = h.new.world; watching = w.new }
        ≡ after_watch_call (record { host = h.old.world; watching = w.old }) (watch_service h.old.world.machine.regs w.old) }
    ensures bytes { h.new.bytes ≡ h.old.bytes }
    ensures goes_on { h.new.world.exit ≡ None }
    ensures steps { h.new.world.steps ≡ h.old.world.steps + 1 }
{
    let (r, carry) = w.serve(h.machine());
    h.int31_done(r, carry);
}

// Delivers the hit that is due, as a turn.
#[inline(never)]
#[tactic(auto, unfolding(crate::specs::Turn::turn_with_watchpoints), using(crate::proofs::TurnParts::told_steps))]
fn deliver_hit(h: &mut Host, w: &mut Watches) -> Result<(), Ended>
    requires no_exit { h.old.world.exit ≡ None }
    requires room { h.old.world.steps < MAX_STEPS }
    requires due { IsTrue (delivers_hit (record { host = h.old.world; watching = w.old })) }
    ensures turn { MakesWatchedTurn h.old h.new w.old w.new (turn_answer h.new.world.exit) }
    ensures answer { AnswersBy result h.new.world.exit }
{
    w.clear_due();
    let hit = Fault {
        number: DEBUG,
        code: 0,
    };
    match h.deliver_turn(hit) {
        Ok(()) => Ok(()),
        Err(_) => Err(Ended),
    }
}

// The turn of a client with watchpoints. A window shows that there is no trap, and is not handed on.
#[cold]
#[inline(never)]
#[tactic(auto, unfolding(crate::specs::Turn::turn_with_watchpoints), using(crate::proofs::TurnParts::event_watched, //
crate::proofs::TurnParts::step_watched))]
fn watching_turn(h: &mut Host, w: &mut Watches) -> Result<(), Ended>
    requires no_exit { h.old.world.exit ≡ None }
    requires room { h.old.world.steps < MAX_STEPS }
    ensures turn { MakesWatchedTurn h.old h.new w.old w.new (turn_answer h.new.world.exit) }
    ensures answer { AnswersBy result h.new.world.exit }
{
    if delivers_hit(h, w) {
        return deliver_hit(h, w);
    }
    if is_watch_call(h) {
        serve_call(h, w);
        return Ok(());
    }
    let mut window = CodeWindow::NONE;
    match h.find_start(&mut window) {
        Some(from) => {
            h.no_trap_in(&window, from);
            w.note_hits(h.machine());
            h.turn_in_window(&mut window, from)
        }
        None => {
            if !is_at_trap(h.machine()) {
                w.note_hits(h.machine());
            }
            h.turn_outside(&mut window)
        }
    }
}

// The turn of a client that set no watchpoint, at that start of a window.
#[inline(always)]
#[tactic(auto, unfolding(crate::specs::Turn::turn_with_watchpoints), using(crate::proofs::TurnParts::none_watched, //
crate::proofs::TurnParts::not_called))]
fn unwatched_turn(
    h: &mut Host,
    w: &mut Watches,
    window: &mut CodeWindow,
    from: u32,
) -> Result<(), Ended>
    requires no_exit { h.old.world.exit ≡ None }
    requires room { h.old.world.steps < MAX_STEPS }
    requires unwatched { w.old ≡ no_watches }
    requires found { IsFound (machine_view h.old) window.old (Some from) }
    ensures turn { MakesWatchedTurn h.old h.new w.old w.new (turn_answer h.new.world.exit) }
    ensures answer { AnswersBy result h.new.world.exit }
    ensures window { HasUnwatchedWindow (machine_view h.new) w.new window.new }
{
    h.no_trap_in(window, from);
    h.turn_in_window(window, from)
}

// The turn of a client that is at no start of the window that is there.
#[cold]
#[inline(never)]
#[tactic(auto, unfolding(crate::specs::Turn::turn_with_watchpoints), using(crate::proofs::TurnParts::none_watched))]
fn turn_elsewhere(h: &mut Host, w: &mut Watches, window: &mut CodeWindow) -> Result<(), Ended>
    requires no_exit { h.old.world.exit ≡ None }
    requires room { h.old.world.steps < MAX_STEPS }
    requires window { HasUnwatchedWindow (machine_view h.old) w.old window.old }
    ensures turn { MakesWatchedTurn h.old h.new w.old w.new (turn_answer h.new.world.exit) }
    ensures answer { AnswersBy result h.new.world.exit }
    ensures window { HasUnwatchedWindow (machine_view h.new) w.new window.new }
{
    if !w.is_unused() {
        *window = CodeWindow::NONE;
        return watching_turn(h, w);
    }
    match h.find_start(window) {
        Some(from) => unwatched_turn(h, w, window, from),
        None if is_watch_call(h) => {
            *window = CodeWindow::NONE;
            serve_call(h, w);
            Ok(())
        }
        None => h.turn_outside(window),
    }
}

/// One turn, as `watch_turn` makes it, of a client that has not ended, with a window of code that turns hand on as long as the client set
/// no watchpoint. It answers only whether the run has ended. Source: own.
#[inline(always)]
pub fn next_watched_turn(
    h: &mut Host,
    w: &mut Watches,
    window: &mut CodeWindow,
) -> Result<(), Ended>
    requires no_exit { h.old.world.exit ≡ None }
    requires room { h.old.world.steps < MAX_STEPS }
    requires window { HasUnwatchedWindow (machine_view h.old) w.old window.old }
    ensures turn { MakesWatchedTurn h.old h.new w.old w.new (turn_answer h.new.world.exit) }
    ensures answer { AnswersBy result h.new.world.exit }
    ensures window { HasUnwatchedWindow (machine_view h.new) w.new window.new }
{
    match h.start_in(window) {
        Some(from) => unwatched_turn(h, w, window, from),
        None => turn_elsewhere(h, w, window),
    }
}

/// One turn of a host with its client's watchpoints. In protected mode a hit that is due is delivered as exception 1, in a turn of its own;
/// INT 31h functions 0B00h to 0B03h are served here; any other turn is the host's, and what its instruction hits is noted. After an exit it
/// returns that exit again and changes nothing. Source: own.
#[tactic(auto, unfolding(crate::specs::Turn::turn_with_watchpoints))]
pub fn watch_turn(h: &mut Host, w: &mut Watches) -> Result<(), Exit>
    requires { h.old.world.exit ≡ None → h.old.world.steps < MAX_STEPS }
    ensures { MakesWatchedTurn h.old h.new w.old w.new result }
{
    if let Some(exit) = h.exit() {
        return Err(exit);
    }
    let mut window = CodeWindow::NONE;
    let _ended = next_watched_turn(h, w, &mut window);
    match h.exit() {
        Some(exit) => Err(exit),
        None => Ok(()),
    }
}

/// Turns with watchpoints up to an exit, or as many as the bound, with the exit `Bound` then. After an exit it returns that exit again and
/// changes nothing. Source: own.
pub fn run_with_watchpoints(h: &mut Host, w: &mut Watches, bound: u32) -> Exit
    requires { h.old.world.exit ≡ None → h.old.world.steps + bound ≤ MAX_STEPS }
    ensures world { record { host = h.new.world; watching = w.new }
        ≡ run_with_watchpoints (record { host = h.old.world; watching = w.old }) bound }
    ensures answer { h.new.world.exit ≡ Some result }
{
    if let Some(exit) = h.exit() {
        return exit;
    }
    let mut window = CodeWindow::NONE;
    for count in 0..bound {
        if let Err(Ended) = next_watched_turn(h, w, &mut window) {
            return h.end_run();
        }
    }
    h.end_run()
}

/// Turns with watchpoints up to an exit, or as many as the bound, with the exit `Bound` then, from a host whose client has set no
/// watchpoint. Source: own.
#[tactic(auto, unfolding(crate::specs::Turn::watched_run), using(crate::proofs::TurnParts::host_part))]
pub fn watched_run(h: &mut Host, bound: u32) -> Exit
    requires { h.old.world.exit ≡ None → h.old.world.steps + bound ≤ MAX_STEPS }
    ensures world { h.new.world ≡ watched_run h.old.world bound }
    ensures answer { h.new.world.exit ≡ Some result }
{
    let mut w = Watches::new();
    run_with_watchpoints(h, &mut w, bound)
}
