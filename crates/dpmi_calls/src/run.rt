// A client's run, turn by turn.
ghost use Rattle.std.specs.Prelude.{◌≡◌, ◌≤◌, ◌<◌, ◌+◌, ◌⊎◌, true, false, None, Some, IsSome, IfOk, IfErr, OnOk};
ghost use Rattle.client_world.specs.{declared.limits.TheConstants.{MAX_STEPS}, WatchWorld.{WatchWorld}};
ghost use Rattle.dpmi_cli.specs.Load.{CanTick};
ghost use Rattle.dpmi_calls.specs.{Clients.{client_at_start, given, refusal_of, timer_given}, Runs.{IsRun, every_by, world_by}};
ghost use Rattle.timer_run.specs.Rounds.{with_new_timer};

use crate::start::{Client, load_client, timer_given};
use dpmi_cli::Reason;
use guest_space::CodeWindow;
use host_run::{Ended, Host};
use std::alloc::{AllocError, Global};
use timer_run::{Timer, next_round};
use watch_run::{Watches, next_watched_turn};

/// The run of a client: its host, the watchpoints that the client set, its timer where it has one, the window of code that turns hand on,
/// and how many turns were made.
#[derive(Drop)]
pub struct ClientRun<'a> {
    pub client: Client<'a>,
    pub host: Host,
    pub watches: Watches,
    pub timer: Option<Timer>,
    pub window: CodeWindow,
    pub turns: u32,
}

// A timer before its first round, where there is one.
fn timer_of(every: Option<u32>) -> Option<Timer>
    requires { CanTick every }
    ensures every { every_by result ≡ every }
    ensures new { (w : WatchWorld) → world_by result w ≡ with_new_timer w }
{
    match every {
        None => None,
        Some(every) => Some(Timer::new(every)),
    }
}

impl<'a> ClientRun<'a> {
    // The run of a client that is loaded, before its first turn.
    fn new(client: Client<'a>, host: Host) -> ClientRun<'a>
        requires host { host.world ≡ client_at_start (given client) 0 }
        requires timer { CanTick (timer_given client.timer) }
        ensures run { IsRun result }
        ensures turns { result.turns ≡ 0 }
        ensures client { result.client ≡ client.entry }
        ensures no_exit { result.host.world.exit ≡ None }
    {
        ClientRun {
            client,
            host,
            watches: Watches::new(),
            timer: timer_of(timer_given(client.timer)),
            window: CodeWindow::NONE,
            turns: 0,
        }
    }

    /// Loads a client for a run of at most `bound` turns. The run is before its first turn; or there is a reason of refusal. Fails when
    /// out of memory. Source: own.
    pub fn start(
        alloc: Global,
        client: Client<'a>,
        bound: u32,
    ) -> Result<Result<ClientRun<'a>, Reason>, AllocError>
        ensures run { IfOk result (λ r. IfOk r (λ run. IsRun run)) }
        ensures turns { IfOk result (λ r. IfOk r (λ run. run.turns ≡ 0)) }
        ensures client { IfOk result (λ r. IfOk r (λ run. run.client ≡ client.entry)) }
        ensures no_exit { IfOk result (λ r. IfOk r (λ run. run.host.world.exit ≡ None)) }
        ensures refused { IfOk result (λ r. IfErr r (λ reason. refusal_of (given client.entry) bound 0 ≡ Some reason)) }
        ensures taken { IfOk result (λ r. OnOk r (refusal_of (given client.entry) bound 0 ≡ None)) }
        ensures bound { IfOk result (λ r. OnOk r (bound ≤ MAX_STEPS)) }
    {
        match load_client(alloc, &client, bound, 0)? {
            Ok(host) => Ok(Ok(ClientRun::new(client, host))),
            Err(reason) => Ok(Err(reason)),
        }
    }

    /// Makes one turn of a client that has not ended, or one round with its timer. Returns whether it goes on. Source: own.
    #[inline(always)]
    pub fn next(&mut self) -> bool
        requires run { IsRun self.old }
        requires no_exit { self.old.host.world.exit ≡ None }
        requires room { self.old.turns < MAX_STEPS }
        ensures run { IsRun self.new }
        ensures client { self.new.client ≡ self.old.client }
        ensures turns { self.new.turns ≡ self.old.turns + 1 }
        ensures goes_on { result ≡ true → self.new.host.world.exit ≡ None }
        ensures ends { result ≡ false → IsSome self.new.host.world.exit }
    {
        self.turns += 1;
        match &mut self.timer {
            None => {
                match next_watched_turn(&mut self.host, &mut self.watches, &mut self.window) {
                    Ok(()) => true,
                    Err(Ended) => false,
                }
            }
            Some(timer) => {
                match next_round(&mut self.host, &mut self.watches, timer, &mut self.window) {
                    Ok(()) => true,
                    Err(Ended) => false,
                }
            }
        }
    }

    // Makes turns up to that one, or to the client's end.
    fn make_turns(&mut self, turn: u32)
        requires run { IsRun self.old }
        requires later { self.old.turns ≤ turn }
        requires room { turn ≤ MAX_STEPS }
        ensures run { IsRun self.new }
        ensures client { self.new.client ≡ self.old.client }
        ensures turns { self.new.turns ≤ turn }
        ensures over { (self.new.turns ≡ turn) ⊎ IsSome self.new.host.world.exit }
    {
        if self.host.exit().is_some() {
            return;
        }
        for done in self.turns..turn {
            if !self.next() {
                return;
            }
        }
    }

    /// Goes to a later turn. Turns after the client's end change nothing. Source: own.
    pub fn advance_to(&mut self, turn: u32)
        requires run { IsRun self.old }
        requires later { self.old.turns ≤ turn }
        requires room { turn ≤ MAX_STEPS }
        ensures run { IsRun self.new }
        ensures client { self.new.client ≡ self.old.client }
        ensures turns { self.new.turns ≡ turn }
    {
        self.make_turns(turn);
        self.turns = turn;
    }
}
