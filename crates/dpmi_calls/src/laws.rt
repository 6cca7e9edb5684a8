// What holds of every call. A function with nothing to do: its contract is the law.
ghost use Rattle.std.specs.{Prelude.{◌≡◌, ℕ}, declared.option.Option.{Option}};
ghost use Rattle.client_world.specs.World.{HostWorld};
ghost use Rattle.dpmi_cli.specs.Runs.{host_at_end};
ghost use Rattle.dpmi_calls.specs.{Clients.{ClientGiven, IsVerdictOfCommand}, Turns.{host_after}};
ghost use Rattle.host_run.specs.Run.{with_bound_exit};

/// The turns that the calls count are those of the command's run: a run of at most that many ends in the host after them, with the exit
/// `Bound` where there is none. And where the numbers are in their ranges, the client is taken or refused as the command does with a file
/// of these bytes. Source: own.
pub fn every_call_makes_the_run_of_the_command()
    ensures turns { (timer : Option ℕ) (h : HostWorld) (n : ℕ) → host_at_end h timer n ≡ with_bound_exit (host_after timer h n) }
    ensures verdict { (c : ClientGiven) (bound trace : ℕ) → IsVerdictOfCommand c bound trace }
{}
