// What holds of every call. Each is a function with nothing to do: its contract is the law.
ghost use Rattle.std.specs.Prelude.{◌≡◌, ◌≢◌};
ghost use Rattle.client_world.specs.{declared.outcome.Exit.{Exit as AnExit}, declared.outcome.Exit.TheVariants.{ConsoleFull}};
ghost use Rattle.client_world.specs.{declared.services.DosDone.TheVariants.{Ended}, Soundness.{IsSound}, World.{World}, Console.{Extends}};
ghost use Rattle.dos_calls.specs.{Calls.{CallState, dos_call}, Multiplex.{multiplex_call}, Kept.{HasOtherDosMemory, HasSameStack}};
ghost use Rattle.guest_ram.specs.Bytes.{AreBytes};

/// A call leads from a sound world to a sound one, where the keys are bytes. Those that are left are bytes, and a console of bytes stays
/// one. Source: own.
pub fn every_dos_call_is_sound()
    ensures world { (s : CallState) → IsSound s.world → AreBytes s.keys → IsSound (dos_call s).world }
    ensures keys { (s : CallState) → IsSound s.world → AreBytes s.keys → AreBytes (dos_call s).keys }
    ensures console { (s : CallState) → IsSound s.world → AreBytes s.keys → AreBytes s.console → AreBytes (dos_call s).console }
    ensures multiplex { (w : World) → IsSound w → IsSound (multiplex_call w) }
{}

/// A call changes registers and DOS memory alone, and INT 2Fh registers alone. Both leave the mode and the place of the stack, so that the
/// frame of their interrupt is where it was. Source: own.
pub fn every_dos_call_keeps_the_rest()
    ensures calls { (s : CallState) → HasOtherDosMemory s.world (dos_call s).world }
    ensures stack { (s : CallState) → HasSameStack s.world (dos_call s).world }
    ensures multiplex { (w : World) → multiplex_call w ≡ record w { regs = (multiplex_call w).regs } }
    ensures multiplex_stack { (w : World) → HasSameStack w (multiplex_call w) }
{}

/// What the client wrote before a call stays: a call adds bytes at the console's end alone. Source: own.
pub fn every_dos_call_extends_the_console()
    ensures { (s : CallState) → Extends s.console (dos_call s).console }
{}

/// A call that ends the client leaves the machine, and but for a full console the keys and the console too. Source: own.
pub fn every_end_of_a_dos_call_leaves_the_machine()
    ensures machine { (s : CallState) (exit : AnExit) → (dos_call s).done ≡ Ended exit → (dos_call s).world ≡ s.world }
    ensures outside { (s : CallState) (exit : AnExit) → (dos_call s).done ≡ Ended exit → exit ≢ ConsoleFull →
        ((dos_call s).keys ≡ s.keys) × ((dos_call s).console ≡ s.console) }
{}
