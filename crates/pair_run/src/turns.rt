// A client that takes turns.
ghost use Rattle.std.specs.{Prelude.{◌≡◌, ◌≤◌, ◌+◌, ℕ, List, None, Some, IsSome}, declared.option.Option.{Option}};
ghost use Rattle.client_world.specs.{declared.limits.TheConstants.{MAX_STEPS}, declared.outcome.Exit.{Exit as AnExit}};
ghost use Rattle.client_world.specs.{declared.outcome.Exit.TheVariants.{Bound}, Console.{Extends}, WatchWorld.{WatchWorld}};
ghost use Rattle.pair_run.specs.Run.{turns_of};

use client_world::Exit;

/// A client that takes turns. It says what a turn makes of its world, and what a world shows; the laws are all that a pair of clients
/// relies on. Source: own.
pub trait Turns {
    /// The client's world.
    ghost world: { Self → WatchWorld };

    /// The world after one turn.
    ghost turn: { WatchWorld → WatchWorld };

    /// The world after `close`.
    ghost closed: { WatchWorld → WatchWorld };

    /// The bytes that the client wrote.
    ghost console_of: { WatchWorld → List ℕ };

    /// How the client ended, if it has.
    ghost exit_of: { WatchWorld → Option AnExit };

    /// The number of turns made.
    ghost steps_of: { WatchWorld → ℕ };

    /// Makes n turns, or those up to an exit. Returns the exit, if there is one.
    fn go(&mut self, n: u32) -> Option<Exit>
        requires { exit_of (world self.old) ≡ None → steps_of (world self.old) + n ≤ MAX_STEPS }
        ensures world { world self.new ≡ turns_of turn n (world self.old) }
        ensures exit { result ≡ exit_of (world self.new) };

    /// Ends the client's run at its bound.
    fn close(&mut self)
        requires { exit_of (world self.old) ≡ None }
        ensures { world self.new ≡ closed (world self.old) };

    /// The bytes that the client wrote.
    fn console(&self) -> &[u8]
        ensures { result.now ≡ console_of (world self.now) };

    /// A closed world has the exit `Bound`, and the console and the turns that it had before.
    ghost closed_is_bound: { (w : WatchWorld) →
        (exit_of (closed w) ≡ Some Bound) × (console_of (closed w) ≡ console_of w) × (steps_of (closed w) ≡ steps_of w) };

    /// A turn leaves a world with an exit as it is.
    ghost ended_stays: { (w : WatchWorld) → IsSome (exit_of w) → turn w ≡ w };

    /// Any other turn is counted.
    ghost turn_is_counted: { (w : WatchWorld) → exit_of w ≡ None → steps_of (turn w) ≡ steps_of w + 1 };

    /// A turn adds bytes at the console's end alone.
    ghost console_extends: { (w : WatchWorld) → Extends (console_of w) (console_of (turn w)) };
}
