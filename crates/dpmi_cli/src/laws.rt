// What holds of each run of the command. It is a function with nothing to do: its contract is the law.
ghost use Rattle.std.specs.{Prelude.{ℕ}, declared.option.Option.{Option}};
ghost use Rattle.client_world.specs.{Soundness.{IsSound}, World.{HostWorld}};
ghost use Rattle.host_run.specs.Keys.{HasKeys};
ghost use Rattle.dpmi_cli.specs.Laws.{RunKeepsTheLaws};

use host_run::{every_nested_call_hands_over, nested_calls_return_in_order};
use timer_run::{
    every_round_changes_the_innermost_record_at_most, every_round_is_sound,
    every_touch_of_a_round_is_held,
};
use watch_run::{
    every_touch_of_a_watched_turn_is_held, every_watched_turn_changes_the_innermost_record_at_most,
    every_watched_turn_is_sound,
};

/// Each run from a sound host, with its client's watchpoints, and with a timer or without one, keeps the laws.
pub fn every_run_keeps_the_laws()
    ensures { (w : HostWorld) (timer : Option ℕ) → IsSound w.machine → HasKeys w → RunKeepsTheLaws w timer }
{
    every_watched_turn_is_sound();
    every_touch_of_a_watched_turn_is_held();
    every_watched_turn_changes_the_innermost_record_at_most();
    every_round_is_sound();
    every_touch_of_a_round_is_held();
    every_round_changes_the_innermost_record_at_most();
    nested_calls_return_in_order();
    every_nested_call_hands_over();
}
