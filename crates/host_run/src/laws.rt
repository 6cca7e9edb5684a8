// The laws of the host's runs. Each is a function with nothing to do: its contract is the law.
ghost use Rattle.std.specs.Prelude.{◌≡◌, ◌≢◌, ◌≤◌, ◌<◌, ◌+◌, ℕ, List, All, Contains, None, Ok, Err, Some, IsSome};
ghost use Rattle.client_world.specs.{declared.faults.Event.TheVariants.{Fault as a_fault, Soft}, declared.faults.Fault.{Fault as AFault}};
ghost use Rattle.client_world.specs.{declared.faults.TheConstants.{GENERAL_PROTECTION}, declared.outcome.Exit.{Exit as AnExit}};
ghost use Rattle.client_world.specs.{declared.outcome.Exit.TheVariants.{ConsoleFull}, declared.registers.Regs.{Regs as AnyRegs}};
ghost use Rattle.client_world.specs.{declared.services.Carry.{Carry as ACarry}, Access.{IsHeld, fault_with}, Soundness.{IsSound}};
ghost use Rattle.client_world.specs.{Soundness.{IsSoundHost}, World.{HostWorld, World}, Console.{Extends}};
ghost use Rattle.interrupts.specs.Worlds.{world_interrupt, world_step};
ghost use Rattle.guest_ram.specs.Bytes.{AreBytes};
ghost use Rattle.host_memory.specs.View.{MachineView};
ghost use Rattle.mz_loader.specs.Refusal.{refusal};
ghost use Rattle.fault_service.specs.{Memory.{IsMachineView}, StepMemory.{interrupt_places, written_places}};
ghost use Rattle.host_run.specs.{Footprint.{ChangesOnly, client_footprint, client_turn}, HandOver.{HandsOver}, Keys.{HasKeys}};
ghost use Rattle.host_run.specs.{Nested.{HasTurns, IsHandedOver, LastPush, Matched, Stacked, host_depth}, RealCalls.{InterruptSource}};
ghost use Rattle.host_run.specs.{RealCalls.{from_anywhere, from_client, from_outside}, OtherTurns.{IsOneQuietTurn, exception_turn}};
ghost use Rattle.host_run.specs.{OtherTurns.{int31_turn, interrupt_turn}, Run.{with_bound_exit, turns, run}, Start.{blank, host_at_start}};
ghost use Rattle.host_run.specs.{Touched.{touched_by_turn}, declared.traps.Trap.TheVariants.{NoTrap}, Traps.{current_trap}, Turn.{turn}};

use cpu_step::every_touched_place_is_held;
use fault_service::{
    every_delivery_and_return_changes_only_its_bytes, every_step_changes_only_what_it_writes,
    every_written_place_is_touched_and_held,
};

/// Each place that the client instruction of a turn fetches, reads or writes lies in memory that the client holds.
pub fn every_touch_is_held()
    ensures { (w : HostWorld) → All (IsHeld w.machine) (touched_by_turn w) }
{
    every_touched_place_is_held();
}

/// Each byte that a turn's client instruction changes, or that its software interrupt pushes, is that of a place which the instruction
/// touches.
pub fn every_changed_place_is_touched()
    ensures written { (w : HostWorld) (u : World) → w.exit ≡ None → current_trap w.machine ≡ NoTrap → world_step w.machine ≡ Ok u →
        All (Contains (touched_by_turn w)) (written_places w.machine) }
    ensures pushed { (w : HostWorld) (u : World) (number len : ℕ) → w.exit ≡ None → current_trap w.machine ≡ NoTrap →
        world_step w.machine ≡ Err (Soft number len) → world_interrupt w.machine number len ≡ Ok u →
        All (Contains (touched_by_turn w)) (interrupt_places w.machine len) }
{
    every_written_place_is_touched_and_held();
}

/// A trap byte is HLT, which raises a general protection exception: at a trap no client instruction would run.
pub fn no_instruction_runs_at_a_trap()
    ensures { (w : World) → IsSound w → current_trap w ≢ NoTrap → world_step w ≡ Err (a_fault (fault_with GENERAL_PROTECTION 0)) }
{}

/// A turn leads from a sound world to a sound world: the megabyte keeps its size, its read-only part and its bytes, each segment register
/// stays a word, and what the services keep stays sound. So it is for a host, with two lines of the trace for each turn at most. The
/// keystrokes are bytes, as `Host` takes them, and stay so.
pub fn every_turn_is_sound()
    ensures machine { (w : HostWorld) → IsSound w.machine → HasKeys w → IsSound (turn w).machine }
    ensures keys { (w : HostWorld) → IsSound w.machine → HasKeys w → HasKeys (turn w) }
    ensures host { (w : HostWorld) → IsSoundHost w → HasKeys w → IsSoundHost (turn w) }
{}

/// Any number of turns leads from a sound world to a sound world, and so does a run. So it is for a host.
pub fn every_run_is_sound()
    ensures turns { (w : HostWorld) → IsSound w.machine → HasKeys w → (n : ℕ) → IsSound (turns w n).machine }
    ensures end { (w : HostWorld) → IsSound w.machine → HasKeys w → (n : ℕ) → IsSound (run w n).machine }
    ensures keys { (w : HostWorld) → IsSound w.machine → HasKeys w → (n : ℕ) → HasKeys (turns w n) }
    ensures host_turns { (w : HostWorld) → IsSoundHost w → HasKeys w → (n : ℕ) → IsSoundHost (turns w n) }
    ensures host_end { (w : HostWorld) → IsSoundHost w → HasKeys w → (n : ℕ) → IsSoundHost (run w n) }
{}

/// A turn leaves the records of the nested calls as they are, or adds one as it starts a call of real mode or a callback or delivers an
/// exception of protected mode, or takes the innermost one away as its call, callback or exception returns; and so does each turn of a run.
/// A turn that meets this where the client's interrupts alone are reflected, or those from outside alone, meets it where either are.
pub fn every_turn_changes_the_innermost_record_at_most()
    ensures turn { (w : HostWorld) → IsSound w.machine → HasKeys w → Stacked from_client w (turn w) }
    ensures turns { (w : HostWorld) → IsSound w.machine → HasKeys w → (n : ℕ) → Stacked from_client (turns w n) (turns w (n + 1)) }
    ensures anywhere { (source : InterruptSource) (w v : HostWorld) → Stacked source w v → Stacked from_anywhere w v }
{}

/// Calls return in order. In each row of hosts that follow one another as turns leave them, the depth changes by one at most. A turn that
/// takes a record away has a partner: the last turn before it that added one at that depth. It takes the record away that its partner
/// added, and until then that record stayed in its place, with those below it. Of each turn is given whose interrupt it may reflect.
pub fn nested_calls_return_in_order()
    ensures depth { (source : ℕ → InterruptSource) (w : ℕ → HostWorld) (n k : ℕ) → HasTurns source w n → k < n →
        (host_depth (w (k + 1)) ≤ host_depth (w k) + 1) × (host_depth (w k) ≤ host_depth (w (k + 1)) + 1) }
    ensures partner { (source : ℕ → InterruptSource) (w : ℕ → HostWorld) (n i j : ℕ) → HasTurns source w n → j < n → LastPush w i j →
        Matched w i j }
    ensures record_stays { (source : ℕ → InterruptSource) (w : ℕ → HostWorld) (n i j : ℕ) → HasTurns source w n → j < n →
        Matched w i j → IsHandedOver (source i) w i j }
{}

/// A call of real mode, a callback and an exception hand over what they should, whatever is nested in them. The procedure of a call starts
/// with the registers of the client's structure and with the client's words, or a reflected interrupt with the client's general registers
/// and flags; and the turn that takes its record away gives the client those of the procedure, and the structure its results. The procedure
/// of a callback finds the real caller's registers in its structure, and the turn that takes its record away gives real mode those of the
/// structure at the then present ES:(E)DI. The handler of an exception finds its frame at SS:ESP, and the turn that takes its record away
/// takes what the frame then holds. So it is of each two turns of which the second takes away the record that the first added, in a row of
/// hosts whose machines are sound, and in each run.
pub fn every_nested_call_hands_over()
    ensures matched { (source : InterruptSource) (w : ℕ → HostWorld) (i j : ℕ) → IsSound (w i).machine → IsSound (w j).machine →
        (h : IsHandedOver source w i j) → HandsOver source (w i) (w (i + 1)) (w j) (w (j + 1)) h.innermost }
    ensures run { (w : HostWorld) (i j : ℕ) → IsSound w.machine → HasKeys w → (h : IsHandedOver from_client (turns w) i j) →
        HandsOver from_client (turns w i) (turns w (i + 1)) (turns w j) (turns w (j + 1)) h.innermost }
{}

/// What the client wrote stays: a turn adds bytes at the console's end alone. So the console after some turns is a prefix of the console
/// after more, and of the console at the end of the run.
pub fn every_turn_extends_the_console()
    ensures turn { (w : HostWorld) → Extends w.console (turn w).console }
    ensures turns { (w : HostWorld) (m n : ℕ) → m ≤ n → Extends (turns w m).console (turns w n).console }
    ensures end { (w : HostWorld) (m n : ℕ) → m ≤ n → Extends (turns w m).console (run w n).console }
{}

/// The turns made in place of the host's own change the innermost record at most, too. So every sequence of hosts made by these turns and
/// the host's own nests. An interrupt from outside is reflected, where it is, from the machine as it is: no frame is popped.
pub fn every_other_turn_changes_the_innermost_record_at_most()
    ensures int31 { (w : HostWorld) (r : AnyRegs) (carry : ACarry) → Stacked from_client w (int31_turn w r carry) }
    ensures exception { (w : HostWorld) (f : AFault) → IsSound w.machine → HasKeys w → Stacked from_client w (exception_turn w f) }
    ensures interrupt { (w : HostWorld) (n : ℕ) → IsSound w.machine → HasKeys w → Stacked from_outside w (interrupt_turn w n) }
    ensures bound { (w : HostWorld) → Stacked from_client w (with_bound_exit w) }
{}

/// The turns made in place of the host's own lead from a sound host to a sound host. Each is counted as one turn, takes no keystroke and
/// adds nothing to the console. One that ends the run leaves the machine as it was.
pub fn every_other_turn_is_sound()
    ensures int31 { (w : HostWorld) (r : AnyRegs) (carry : ACarry) → IsSoundHost w → HasKeys w → IsSoundHost (int31_turn w r carry) }
    ensures exception { (w : HostWorld) (f : AFault) → IsSoundHost w → HasKeys w → IsSoundHost (exception_turn w f) }
    ensures interrupt { (w : HostWorld) (n : ℕ) → IsSoundHost w → HasKeys w → IsSoundHost (interrupt_turn w n) }
    ensures int31_alone { (w : HostWorld) (r : AnyRegs) (carry : ACarry) → IsOneQuietTurn w (int31_turn w r carry) }
    ensures exception_alone { (w : HostWorld) (f : AFault) → IsOneQuietTurn w (exception_turn w f) }
    ensures interrupt_alone { (w : HostWorld) (n : ℕ) → IsOneQuietTurn w (interrupt_turn w n) }
    ensures exception_exit { (w : HostWorld) (f : AFault) → IsSome (exception_turn w f).exit → (exception_turn w f).machine ≡ w.machine }
    ensures interrupt_exit { (w : HostWorld) (n : ℕ) → IsSome (interrupt_turn w n).exit → (interrupt_turn w n).machine ≡ w.machine }
{}

/// A turn of a run that goes on adds 1 to the count of turns, whatever the world; n turns add n at most.
pub fn every_turn_is_counted()
    ensures turn { (w : HostWorld) → w.exit ≡ None → (turn w).steps ≡ w.steps + 1 }
    ensures turns { (w : HostWorld) (n : ℕ) → (turns w n).steps ≤ w.steps + n }
{}

/// However many turns were made, the next touches memory that the client holds, and no other.
pub fn every_touch_of_a_run_is_held()
    ensures { (w : HostWorld) (n : ℕ) → All (IsHeld (turns w n).machine) (touched_by_turn (turns w n)) }
{
    every_touch_is_held();
}

/// The client's part of a turn changes no bytes of the memory but those of its footprint: what the instruction writes or its software
/// interrupt pushes, and not what it only reads; or the frame of its exception, and in protected mode the row of the exception's record. So
/// it is of the view of every machine; `Host::turn` promises it of each turn.
pub fn every_client_turn_changes_only_its_footprint()
    ensures { (v u : MachineView) → IsMachineView v → client_turn v ≡ Ok u → ChangesOnly (client_footprint v.world) v.bytes u.bytes }
{
    every_step_changes_only_what_it_writes();
    every_delivery_and_return_changes_only_its_bytes();
}

/// The world of a new host is sound, and so is the world that a file starts, if the file is one of bytes and is taken.
pub fn every_start_is_sound()
    ensures blank { (pages keep : ℕ) (keys : List ℕ) → IsSoundHost (blank pages keys keep) }
    ensures started { (pages keep : ℕ) (keys file : List ℕ) → AreBytes file → refusal file ≡ None →
        IsSoundHost (host_at_start pages keys keep file) }
{}

/// A turn that ends the run leaves the machine, and but for a full console the keystrokes and the console too.
pub fn every_exit_leaves_the_machine()
    ensures machine { (w : HostWorld) → IsSound w.machine → HasKeys w → IsSome (turn w).exit → (turn w).machine ≡ w.machine }
    ensures outside { (w : HostWorld) (exit : AnExit) → IsSound w.machine → HasKeys w → (turn w).exit ≡ Some exit → exit ≢ ConsoleFull →
        ((turn w).keys ≡ w.keys) × ((turn w).console ≡ w.console) }
{}

/// Once a run has ended, more turns change nothing.
pub fn once_ended_a_run_stays()
    ensures { (w : HostWorld) (m n : ℕ) → m ≤ n → IsSome (turns w m).exit → turns w n ≡ turns w m }
{}

/// A run whose bound lies past an exit ends in the world of that exit.
pub fn a_run_past_an_exit_is_over()
    ensures { (w : HostWorld) (m n : ℕ) → m ≤ n → IsSome (turns w m).exit → run w n ≡ turns w m }
{}
