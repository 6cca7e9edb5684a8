// Laws over what two clients write, each of a function with nothing to do: its contract is the law.
ghost use Rattle.std.specs.{Prelude.{◌≡◌, ◌≤◌, ◌<◌, ◌+◌, ◌*◌, ◌++◌, ℕ, [], IsSome}, List.{filter}};
ghost use Rattle.pair_run.specs.{declared.lines.Letter.{Letter as ALetter}, declared.lines.Letter.TheVariants.{A, B}, Run.{IsFirst}};
ghost use Rattle.pair_run.specs.{Run.{run_of, turns_of}, Slices.{OwnRun, all_bytes, gain, is_of, own_lines, own_run, pair_lines}};
ghost use Rattle.client_world.specs.WatchWorld.{WatchWorld};

use crate::Turns;

/// What two clients write for each of them depends on that client's own run alone: of their lines its own are those of its slices, whatever
/// the other client does.
pub fn each_client_writes_its_own_lines<T: Turns>()
    ensures a { (w : WatchWorld) (b : OwnRun) (n bound : ℕ) → 0 < n → T.steps_of w ≡ 0 →
        filter (is_of A) (pair_lines n (own_run T.turn T.console_of T.steps_of bound w) b)
        ≡ own_lines n A (own_run T.turn T.console_of T.steps_of bound w) }
    ensures b { (a : OwnRun) (w : WatchWorld) (n bound : ℕ) → 0 < n → T.steps_of w ≡ 0 →
        filter (is_of B) (pair_lines n a (own_run T.turn T.console_of T.steps_of bound w))
        ≡ own_lines n B (own_run T.turn T.console_of T.steps_of bound w) }
{}

/// The lines of a client hold what it writes in its run: all of it, in its order, and nothing else.
pub fn own_lines_hold_the_console<T: Turns>()
    ensures { (w : WatchWorld) (client : ALetter) (n bound : ℕ) → 0 < n → IsFirst T.console_of T.exit_of T.steps_of w →
        all_bytes (own_lines n client (own_run T.turn T.console_of T.steps_of bound w))
        ≡ T.console_of (run_of T.turn T.closed T.exit_of bound w) }
{}

/// A slice adds what it gains at the console's end.
pub fn a_slice_adds_its_gain<T: Turns>()
    ensures { (w : WatchWorld) (n bound k : ℕ) →
        (own_run T.turn T.console_of T.steps_of bound w).console ((k + 1) * n)
        ≡ (own_run T.turn T.console_of T.steps_of bound w).console (k * n) ++ gain n (own_run T.turn T.console_of T.steps_of bound w) k }
{}

/// A client that has ended before a slice gains nothing in it.
pub fn an_ended_client_is_silent<T: Turns>()
    ensures { (w : WatchWorld) (n bound k m : ℕ) → m ≤ k * n → IsSome (T.exit_of (turns_of T.turn m w)) →
        gain n (own_run T.turn T.console_of T.steps_of bound w) k ≡ [] }
{}
