// What holds of every turn and run with watchpoints. Each is a function with nothing to do: its contract is the law.
ghost use Rattle.std.specs.Prelude.{ℕ, ◌≡◌, ◌≢◌, ◌<◌, ◌+◌, ◌++◌, All, IsErr, IsOk, IsSome, List, None, Some, false};
ghost use Rattle.client_world.specs.{declared.outcome.Exit.{Exit as AnExit}, declared.outcome.Exit.TheVariants.{ConsoleFull}};
ghost use Rattle.client_world.specs.{declared.watchpoints.Touch.{Touch as ATouch}, Access.{IsHeld}, Console.{Extends}, Soundness.{IsSound}};
ghost use Rattle.client_world.specs.{Soundness.{IsSoundHost}, WatchWorld.{WatchWorld, host_without_watches}, World.{HostWorld, World}};
ghost use Rattle.cpu_step.specs.{Step.{client_step}, Touched.{touched_by_fetch, touch_places, touched_by_step}};
ghost use Rattle.guest_space.specs.Code.{code_room};
ghost use Rattle.host_memory.specs.View.{MachineView};
ghost use Rattle.host_run.specs.{HandOver.{HandsOver}, Keys.{HasKeys}, Nested.{IsHandedOver, Stacked}, OtherTurns.{int31_call}};
ghost use Rattle.host_run.specs.{RealCalls.{from_client}, Run.{run, turns}};
ghost use Rattle.watch_run.specs.{Hits.{next_touches}, Turn.{is_watch_call, run_with_watchpoints, touched_by_watch_turn}};
ghost use Rattle.watch_run.specs.Turn.{turn_with_watchpoints, watched_run, watched_turns};

use cpu_step::{every_touch_is_an_access, only_an_event_has_no_touches};
use host_run::{every_nested_call_hands_over, every_touch_is_held};

/// A run from a host without watchpoints, in which no function on watchpoints is served, is the host's run.
pub fn a_run_without_watchpoints_is_the_hosts_run()
    ensures { (h : HostWorld) (n : ℕ) → ((k : ℕ) → k < n → is_watch_call (int31_call (turns h k)) ≡ false) →
        run_with_watchpoints (host_without_watches h) n ≡ host_without_watches (run h n) }
{}

/// A turn with watchpoints leads from a sound host to a sound host, and the keystrokes stay bytes. So do the turns of a run, and the whole
/// run.
pub fn every_watched_turn_is_sound()
    ensures turn { (w : WatchWorld) → IsSoundHost w.host → HasKeys w.host → IsSoundHost (turn_with_watchpoints w).host }
    ensures keys { (w : WatchWorld) → IsSound w.host.machine → HasKeys w.host → HasKeys (turn_with_watchpoints w).host }
    ensures turns { (h : HostWorld) (n : ℕ) → IsSound h.machine → HasKeys h → IsSound (watched_turns h n).machine }
    ensures turns_keys { (h : HostWorld) (n : ℕ) → IsSound h.machine → HasKeys h → HasKeys (watched_turns h n) }
    ensures host_turns { (h : HostWorld) (n : ℕ) → IsSoundHost h → HasKeys h → IsSoundHost (watched_turns h n) }
    ensures host_end { (h : HostWorld) (n : ℕ) → IsSoundHost h → HasKeys h → IsSoundHost (watched_run h n) }
{}

/// A turn with watchpoints changes the innermost record of a call at most, as the host's own turn does; and so does each turn of a run.
pub fn every_watched_turn_changes_the_innermost_record_at_most()
    ensures turn { (w : WatchWorld) → IsSound w.host.machine → HasKeys w.host → Stacked from_client w.host (turn_with_watchpoints w).host }
    ensures turns { (h : HostWorld) (n : ℕ) → IsSound h.machine → HasKeys h →
        Stacked from_client (watched_turns h n) (watched_turns h (n + 1)) }
{}

/// A turn with watchpoints is counted as one turn, unless there is an exit, and adds bytes at the console's end alone. One after which
/// there is an exit leaves the machine as it was, and but for a full console the keystrokes and the console too.
pub fn every_watched_turn_is_counted()
    ensures counted { (w : WatchWorld) → w.host.exit ≡ None → (turn_with_watchpoints w).host.steps ≡ w.host.steps + 1 }
    ensures console { (w : WatchWorld) → Extends w.host.console (turn_with_watchpoints w).host.console }
    ensures exit { (w : WatchWorld) → IsSound w.host.machine → HasKeys w.host → IsSome (turn_with_watchpoints w).host.exit →
        (turn_with_watchpoints w).host.machine ≡ w.host.machine }
    ensures outside { (w : WatchWorld) (exit : AnExit) → IsSound w.host.machine → HasKeys w.host →
        (turn_with_watchpoints w).host.exit ≡ Some exit → exit ≢ ConsoleFull →
        ((turn_with_watchpoints w).host.keys ≡ w.host.keys) × ((turn_with_watchpoints w).host.console ≡ w.host.console) }
{}

/// Each place that the client instruction of a turn with watchpoints touches lies in memory that the client holds.
pub fn every_touch_of_a_watched_turn_is_held()
    ensures { (w : WatchWorld) → All (IsHeld w.host.machine) (touched_by_watch_turn w) }
{
    every_touch_is_held();
}

/// Of two turns of a run with watchpoints, of which the second takes away the record that the first added, each call, reflection, callback
/// and exception hands over what it should.
pub fn every_nested_call_of_a_watched_run_hands_over()
    ensures { (h : HostWorld) (i j : ℕ) → IsSound h.machine → HasKeys h → (m : IsHandedOver from_client (watched_turns h) i j) →
        HandsOver from_client (watched_turns h i) (watched_turns h (i + 1)) (watched_turns h j) (watched_turns h (j + 1)) m.innermost }
{
    every_nested_call_hands_over();
}

/// What watchpoints are compared with is what the client's next instruction accesses: there are touches exactly where its step is no event,
/// and their places are those that the step reads and writes, in order.
pub fn every_compared_touch_is_an_access()
    ensures none { (v : MachineView) → next_touches v.world ≡ None → IsErr (client_step v) }
    ensures some { (v : MachineView) (list : List ATouch) → next_touches v.world ≡ Some list → IsOk (client_step v) }
    ensures places { (w : World) (list : List ATouch) → next_touches w ≡ Some list →
        touched_by_step w ≡ touched_by_fetch w 0 code_room ++ touch_places w list }
{
    only_an_event_has_no_touches();
    every_touch_is_an_access();
}
