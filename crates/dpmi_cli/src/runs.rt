// The run of one client.
ghost use Rattle.std.specs.Prelude.{◌≡◌, ◌≤◌, ◌+◌, None, Some};
ghost use Rattle.client_world.specs.declared.limits.TheConstants.{MAX_STEPS};
ghost use Rattle.dpmi_cli.specs.{Load.{CanTick}, Runs.{host_at_end}};

use client_world::Exit;
use host_run::Host;
use timer_run::timed_run;
use watch_run::watched_run;

/// Runs a client with its watchpoints, and with a timer where there is one, up to an exit or the bound. Returns the exit. Source: own.
pub fn run_to_end(h: &mut Host, timer: Option<u32>, bound: u32) -> Exit
    requires timer { CanTick timer }
    requires room { h.old.world.exit ≡ None → h.old.world.steps + bound ≤ MAX_STEPS }
    ensures world { h.new.world ≡ host_at_end h.old.world timer bound }
    ensures answer { h.new.world.exit ≡ Some result }
{
    match timer {
        Some(every) => timed_run(h, every, bound),
        None => watched_run(h, bound),
    }
}
