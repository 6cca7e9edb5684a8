// What holds of every answer. Each is a function with nothing to do: its contract is the law.
ghost use Rattle.std.specs.Prelude.{◌≡◌, ℕ, Ok, is_ok};
ghost use Rattle.client_world.specs.{declared.faults.Fault.{Fault}, declared.registers.Mode.TheVariants.{Real}, Soundness.{IsSound}};
ghost use Rattle.client_world.specs.World.{World};
ghost use Rattle.cpu_step.specs.Step.{client_step};
ghost use Rattle.host_memory.specs.View.{MachineView};
ghost use Rattle.interrupts.specs.{Delivery.{after_iret, real_delivery, software_interrupt}, RealFrames.{frame_fits}};
ghost use Rattle.interrupts.specs.Worlds.{HasOtherRegisters, HasOtherRegistersAndMemory, HasOtherState, world_of_result, world_delivery};
ghost use Rattle.interrupts.specs.Worlds.{world_interrupt, world_after_iret, world_step};

/// What a step, an interrupt, an exception and a return make of the world depends on the world alone, and not on the bytes that hold it.
pub fn every_answer_depends_on_the_world_alone()
    ensures step { (v : MachineView) → world_of_result (client_step v) ≡ world_step v.world }
    ensures interrupt { (v : MachineView) (n len : ℕ) → world_of_result (software_interrupt v n len) ≡ world_interrupt v.world n len }
    ensures delivery { (v : MachineView) (f : Fault) → world_of_result (real_delivery v f) ≡ world_delivery v.world f }
    ensures popped { (v : MachineView) → world_of_result (after_iret v) ≡ world_after_iret v.world }
{}

/// An interrupt, an exception and a return lead from a sound world to a sound one, and so does a step.
pub fn every_answer_is_sound()
    ensures interrupt { (v u : MachineView) (n len : ℕ) → IsSound v.world → software_interrupt v n len ≡ Ok u → IsSound u.world }
    ensures delivery { (v u : MachineView) (f : Fault) → IsSound v.world → real_delivery v f ≡ Ok u → IsSound u.world }
    ensures popped { (v u : MachineView) → IsSound v.world → after_iret v ≡ Ok u → IsSound u.world }
    ensures world_step { (w u : World) → IsSound w → world_step w ≡ Ok u → IsSound u }
    ensures world_interrupt { (w u : World) (n len : ℕ) → IsSound w → world_interrupt w n len ≡ Ok u → IsSound u }
    ensures world_delivery { (w u : World) (f : Fault) → IsSound w → world_delivery w f ≡ Ok u → IsSound u }
    ensures world_popped { (w u : World) → IsSound w → world_after_iret w ≡ Ok u → IsSound u }
{}

/// A return changes registers and the virtual interrupt flag alone, and no byte of the memory; the mode stays.
pub fn a_return_changes_registers_alone()
    ensures state { (v u : MachineView) → after_iret v ≡ Ok u → HasOtherState v u }
    ensures world { (w u : World) → world_after_iret w ≡ Ok u → HasOtherRegisters w u }
{}

/// A step, a software interrupt and an exception of real mode change registers, the virtual interrupt flag and memory alone.
pub fn every_answer_keeps_the_rest()
    ensures step { (w u : World) → world_step w ≡ Ok u → HasOtherRegistersAndMemory w u }
    ensures interrupt { (w u : World) (n len : ℕ) → world_interrupt w n len ≡ Ok u → HasOtherRegistersAndMemory w u }
    ensures delivery { (w u : World) (f : Fault) → world_delivery w f ≡ Ok u → HasOtherRegistersAndMemory w u }
{}

/// In real mode a frame can be popped exactly where its three words lie inside the stack segment.
pub fn a_real_frame_is_popped_where_it_fits()
    ensures { (w : World) → IsSound w → w.mode ≡ Real → is_ok (world_after_iret w) ≡ frame_fits w.regs.esp }
{}
