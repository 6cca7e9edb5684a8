// What holds of every round and of every run with a timer. Each is a function with nothing to do: its contract is the law.
ghost use Rattle.std.specs.Prelude.{◌≡◌, ◌≢◌, ◌+◌, ℕ, All, IsSome, None, Some, false, true};
ghost use Rattle.client_world.specs.{declared.outcome.Exit.{Exit as AnExit}, declared.outcome.Exit.TheVariants.{ConsoleFull}};
ghost use Rattle.client_world.specs.{Access.{IsHeld}, Console.{Extends}, Soundness.{IsSound, IsSoundHost}, World.{HostWorld}};
ghost use Rattle.host_run.specs.{HandOver.{HandsOver}, Keys.{HasKeys}, Nested.{IsHandedOver, Stacked}, RealCalls.{from_anywhere}};
ghost use Rattle.host_run.specs.RealCalls.{from_client, from_outside};
ghost use Rattle.timer_run.specs.Rounds.{TimedWorld, is_interrupt, round_with_timer, source_of_round, timed_rounds, timed_run, timed_turns};
ghost use Rattle.timer_run.specs.{Rounds.{touched_by_round}, Timer.{TimerState as ATimer, timer_part}};

use host_run::every_nested_call_hands_over;
use watch_run::every_touch_of_a_watched_turn_is_held;

/// The timer's part of a round leads from a sound host to a sound host. So does a round, and the keystrokes stay bytes. So do the rounds of
/// a run, and the whole run.
pub fn every_round_is_sound()
    ensures part { (t : ATimer) (h : HostWorld) → IsSoundHost h → HasKeys h → IsSoundHost (timer_part t h).host }
    ensures round { (every : ℕ) (w : TimedWorld) → IsSoundHost w.watched.host → HasKeys w.watched.host →
        IsSoundHost (round_with_timer every w).watched.host }
    ensures keys { (every : ℕ) (w : TimedWorld) → IsSound w.watched.host.machine → HasKeys w.watched.host →
        HasKeys (round_with_timer every w).watched.host }
    ensures rounds { (every : ℕ) (h : HostWorld) (n : ℕ) → IsSound h.machine → HasKeys h → IsSound (timed_turns every h n).machine }
    ensures host_rounds { (every : ℕ) (h : HostWorld) (n : ℕ) → IsSoundHost h → HasKeys h → IsSoundHost (timed_turns every h n) }
    ensures host_end { (every : ℕ) (h : HostWorld) (n : ℕ) → IsSoundHost h → HasKeys h → IsSoundHost (timed_run every h n) }
{}

/// The timer's part of a round changes the innermost record of a call at most, and so does each round of a run. A round that is the
/// timer's interrupt reflects it from the machine as it is, and pops no frame. Every other round reflects only an interrupt of the client,
/// whose frame is popped.
pub fn every_round_changes_the_innermost_record_at_most()
    ensures part { (t : ATimer) (h : HostWorld) → IsSoundHost h → HasKeys h → Stacked from_outside h (timer_part t h).host }
    ensures interrupt { (every : ℕ) (w : TimedWorld) → IsSound w.watched.host.machine → HasKeys w.watched.host →
        is_interrupt every w ≡ true → Stacked from_outside w.watched.host (round_with_timer every w).watched.host }
    ensures turn { (every : ℕ) (w : TimedWorld) → IsSound w.watched.host.machine → HasKeys w.watched.host → is_interrupt every w ≡ false →
        Stacked from_client w.watched.host (round_with_timer every w).watched.host }
    ensures rounds { (every : ℕ) (h : HostWorld) (n : ℕ) → IsSound h.machine → HasKeys h →
        Stacked (source_of_round every (timed_rounds every h n)) (timed_turns every h n) (timed_turns every h (n + 1)) }
{}

/// A round is counted as one turn, unless there is an exit, and adds bytes at the console's end alone. One after which there is an exit
/// leaves the machine as it was, and but for a full console the keystrokes and the console too.
pub fn every_round_is_counted()
    ensures counted { (every : ℕ) (w : TimedWorld) → w.watched.host.exit ≡ None →
        (round_with_timer every w).watched.host.steps ≡ w.watched.host.steps + 1 }
    ensures console { (every : ℕ) (w : TimedWorld) → Extends w.watched.host.console (round_with_timer every w).watched.host.console }
    ensures exit { (every : ℕ) (w : TimedWorld) → IsSound w.watched.host.machine → HasKeys w.watched.host →
        IsSome (round_with_timer every w).watched.host.exit →
        (round_with_timer every w).watched.host.machine ≡ w.watched.host.machine }
    ensures outside { (every : ℕ) (w : TimedWorld) (exit : AnExit) → IsSound w.watched.host.machine → HasKeys w.watched.host →
        (round_with_timer every w).watched.host.exit ≡ Some exit → exit ≢ ConsoleFull →
        ((round_with_timer every w).watched.host.keys ≡ w.watched.host.keys)
        × ((round_with_timer every w).watched.host.console ≡ w.watched.host.console) }
{}

/// Each place that the client instruction of a round touches lies in memory that the client holds.
pub fn every_touch_of_a_round_is_held()
    ensures { (every : ℕ) (w : TimedWorld) → All (IsHeld w.watched.host.machine) (touched_by_round every w) }
{
    every_touch_of_a_watched_turn_is_held();
}

/// Of two rounds of a run of which the second takes away the record that the first added, each call, reflection, callback and exception
/// hands over what it should. So does each interrupt of the timer that is reflected: where the first of the two rounds is that interrupt,
/// it is reflected from the machine as it is; else the reflection is of the client's own interrupt, whose frame is popped.
pub fn every_nested_call_of_a_timed_run_hands_over()
    ensures { (every : ℕ) (h : HostWorld) (i j : ℕ) → IsSound h.machine → HasKeys h →
        (m : IsHandedOver from_anywhere (timed_turns every h) i j) →
        HandsOver (source_of_round every (timed_rounds every h i)) (timed_turns every h i) (timed_turns every h (i + 1))
        (timed_turns every h j) (timed_turns every h (j + 1)) m.innermost }
{
    every_nested_call_hands_over();
}
