// What holds of every gate. Each is a function with nothing to do: its contract is the law.
ghost use Rattle.std.specs.Prelude.{◌≡◌, ℕ, Ok};
ghost use Rattle.client_world.specs.{declared.registers.Mode.TheVariants.{Protected as protected}, Services.{Served}, Soundness.{IsSound}};
ghost use Rattle.client_world.specs.World.{World};
ghost use Rattle.interrupts.specs.Worlds.{world_of_result};
ghost use Rattle.host_memory.specs.View.{MachineView};
ghost use Rattle.mode_gates.specs.{Entry.{entry}, FarFrames.{after_far_return, world_after_far_return}, Switches.{gate_service}};
ghost use Rattle.mode_gates.specs.Switches.{world_after_switch_to_protected, world_after_switch_to_real};

/// What a far return at a trap makes of the world depends on the world alone.
#[tactic(auto, using(crate::proofs::FarStates::far_alone))]
pub fn a_far_return_depends_on_the_world_alone()
    ensures { (v : MachineView) → world_of_result (after_far_return v) ≡ world_after_far_return v.world }
{}

/// A far return at a trap changes registers alone, and no byte of the memory.
pub fn a_far_return_changes_registers_alone()
    ensures { (v u : MachineView) → after_far_return v ≡ Ok u → u ≡ record v { world = record v.world { regs = u.world.regs } } }
{}

/// The entry changes the mode, the width, registers, the megabyte and descriptors alone.
pub fn the_entry_keeps_the_rest()
    ensures { (w : World) (s : Served) → entry w ≡ Ok s → s.world ≡ record w {
      mode = s.world.mode;
      regs = s.world.regs;
      width = s.world.width;
      dos = s.world.dos;
      descriptors = s.world.descriptors;
    } }
{}

/// A switch changes the mode and registers alone, and a function that gives addresses registers alone.
#[tactic(auto, using(crate::proofs::SwitchLaws::to_protected_switches, crate::proofs::SwitchLaws::to_real_switches, //
crate::proofs::SwitchLaws::kept_service))]
pub fn every_switch_keeps_the_rest()
    ensures to_protected { (w u : World) → world_after_switch_to_protected w ≡ Ok u → u ≡ record w { mode = u.mode; regs = u.regs } }
    ensures to_real { (w : World) →
        world_after_switch_to_real w ≡ record w { mode = (world_after_switch_to_real w).mode; regs = (world_after_switch_to_real w).regs } }
    ensures service { (ax : ℕ) (w : World) → (gate_service ax w).world ≡ record w { regs = (gate_service ax w).world.regs } }
{}

/// A far return at a trap, the entry, the switches and the functions that give their addresses lead from a sound world to a sound one.
pub fn every_gate_is_sound()
    ensures far { (w u : World) → IsSound w → world_after_far_return w ≡ Ok u → IsSound u }
    ensures entry { (w : World) (s : Served) → IsSound w → entry w ≡ Ok s → IsSound s.world }
    ensures to_protected { (w u : World) → IsSound w → world_after_switch_to_protected w ≡ Ok u → IsSound u }
    ensures to_real { (w : World) → IsSound w → w.mode ≡ protected → IsSound (world_after_switch_to_real w) }
    ensures service { (ax : ℕ) (w : World) → IsSound w → IsSound (gate_service ax w).world }
{}
