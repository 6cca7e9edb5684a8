// A host with its client's watchpoints as a client that takes turns.
ghost use Rattle.std.specs.Prelude.{◌≡◌};
ghost use Rattle.client_world.specs.WatchWorld.{no_watches};

use client_world::Exit;
use guest_space::CodeWindow;
use host_run::{Ended, Host};
use pair_run::Turns;
use watch_run::{Watches, next_watched_turn};

/// A host that takes turns with another one, and its client's watchpoints.
#[derive(Drop)]
pub struct WatchedHost {
    pub(crate) host: Host,
    pub(crate) watches: Watches,
}

impl WatchedHost {
    /// The host, with no watchpoint.
    pub(crate) fn new(host: Host) -> WatchedHost
        ensures host { result.host ≡ host }
        ensures watches { result.watches ≡ no_watches }
    {
        WatchedHost {
            host,
            watches: Watches::new(),
        }
    }
}

impl Turns for WatchedHost {
    ghost use Rattle.std.proofs.Common.{refl};
    ghost use Rattle.watch_run.specs.Turn.{turn_with_watchpoints};
    ghost use Rattle.watch_run.proofs.WatchedTurns.{counts, extends, stays};
    ghost use Rattle.dpmi_cli.specs.Pairs.{host_with_bound_exit, host_console, host_exit, host_steps};

    ghost world = { λ c. record { host = c.host.world; watching = c.watches } };

    ghost turn = { turn_with_watchpoints };

    ghost closed = { host_with_bound_exit };

    ghost console_of = { host_console };

    ghost exit_of = { host_exit };

    ghost steps_of = { host_steps };

    // The turns of a slice hand on one window of code.
    fn go(&mut self, n: u32) -> Option<Exit> {
        if let Some(exit) = self.host.exit() {
            return Some(exit);
        }
        let mut window = CodeWindow::NONE;
        for count in 0..n {
            if let Err(Ended) = next_watched_turn(&mut self.host, &mut self.watches, &mut window) {
                return self.host.exit();
            }
        }
        self.host.exit()
    }

    fn close(&mut self) {
        self.host.stop_bound();
    }

    fn console(&self) -> &[u8] {
        self.host.console()
    }

    ghost closed_is_bound = { λ w. (refl, refl, refl) };

    ghost ended_stays = { stays };

    ghost turn_is_counted = { counts };

    ghost console_extends = { extends };
}
