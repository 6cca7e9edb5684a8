// What holds of every delivery and every return. Each function has nothing to do: its contract is the law.
ghost use Rattle.std.specs.Prelude.{◌≡◌, ◌≢◌, ◌<◌, ℕ, All, Contains, None, Ok, Err};
ghost use Rattle.client_world.specs.{declared.faults.Event.TheVariants.{Soft}, declared.faults.Fault.{Fault}};
ghost use Rattle.client_world.specs.{declared.registers.Mode.TheVariants.{Protected}, declared.limits.TheConstants.{GREATEST_DEPTH}};
ghost use Rattle.client_world.specs.{Access.{IsHeld}, Soundness.{IsSound}, World.{World, depth}};
ghost use Rattle.cpu_step.specs.{Step.{client_step}, Touched.{touched_by_step}};
ghost use Rattle.host_memory.specs.View.{MachineView};
ghost use Rattle.fault_service.specs.{Delivery.{protected_delivery}, Return.{exception_return}, StepMemory.{InterruptLaw, RealDeliveryLaw}};
ghost use Rattle.fault_service.specs.{StepMemory.{StepLaw, interrupt_places, written_places}, Trip.{FrameLaw, RecordsLaw, TripLaw}};
ghost use Rattle.fault_service.specs.{Worlds.{world_exception_return, world_protected_delivery}, Memory.{DeliveryLaw, IsMachineView}};
ghost use Rattle.fault_service.specs.Memory.{ReturnLaw, LiesInStack};
ghost use Rattle.interrupts.specs.{Delivery.{software_interrupt}, Worlds.{world_of_result}};

use client_world::a_flags_image_gives_its_flags_back;
use guest_space::Machine;

/// A delivery changes no bytes of the memory but those of its frame and of its record's row, and a return none but those of the row of the
/// record that it pops. The frame lies in the host's protected-mode stack of the depth.
pub fn every_delivery_and_return_changes_only_its_bytes()
    ensures delivery { (v : MachineView) → IsMachineView v → DeliveryLaw v }
    ensures back { (v : MachineView) → IsMachineView v → ReturnLaw v }
    ensures frame { (w : World) → IsSound w → w.width ≢ None → depth w < GREATEST_DEPTH → LiesInStack w }
{}

/// What a delivery and a return make of the world depends on the world alone, and not on the bytes that hold it.
pub fn every_answer_depends_on_the_world_alone()
    ensures delivery { (v : MachineView) (f : Fault) → world_of_result (protected_delivery v f) ≡ world_protected_delivery v.world f }
    ensures back { (v : MachineView) → world_of_result (exception_return v) ≡ world_exception_return v.world }
{}

/// A delivery in protected mode and a return lead from a sound world to a sound one.
pub fn every_answer_is_sound()
    ensures delivery { (v u : MachineView) (f : Fault) → IsSound v.world → v.world.mode ≡ Protected → protected_delivery v f ≡ Ok u →
        IsSound u.world }
    ensures back { (v u : MachineView) → IsSound v.world → exception_return v ≡ Ok u → IsSound u.world }
{}

/// At the handler the frame is read at SS:ESP: the return address, the error code, and what the return restores.
pub fn the_frame_lies_at_the_handlers_stack_pointer()
    ensures { FrameLaw }
{}

/// After a handler has popped its return address, and where it leaves the memory as it was, whatever it leaves in the other registers: the
/// return leads to where the exception was, with the flags, the stack and the virtual interrupt flag of that time, and the records are
/// those from before the delivery.
pub fn a_return_gives_back_what_the_delivery_took()
    ensures back { TripLaw }
    ensures records { RecordsLaw }
{
    a_flags_image_gives_its_flags_back();
}

/// A client instruction changes no bytes of the memory but those of the places that it writes, and none of the host's frames. A software
/// interrupt, and an exception of real mode, changes none but those of the places to which it pushes.
pub fn every_step_changes_only_what_it_writes()
    ensures step { (v : MachineView) → IsMachineView v → StepLaw v }
    ensures interrupt { (v : MachineView) → IsMachineView v → InterruptLaw v }
    ensures exception { (v : MachineView) → IsMachineView v → RealDeliveryLaw v }
{}

/// What a client instruction writes, or its software interrupt pushes, it touches; and each such place lies in memory that the client
/// holds.
pub fn every_written_place_is_touched_and_held()
    ensures touched { (v u : MachineView) → client_step v ≡ Ok u → All (Contains (touched_by_step v.world)) (written_places v.world) }
    ensures pushed_touched { (v u : MachineView) (number len : ℕ) → client_step v ≡ Err (Soft number len) →
        software_interrupt v number len ≡ Ok u →
        All (Contains (touched_by_step v.world)) (interrupt_places v.world len) }
    ensures held { (w : World) → All (IsHeld w) (written_places w) }
    ensures pushed { (w : World) (len : ℕ) → All (IsHeld w) (interrupt_places w len) }
{}

/// The laws on bytes, of a machine that a caller has.
#[inline(always)]
pub fn a_machine_changes_only_what_is_written(m: &Machine)
    ensures step { StepLaw m.now }
    ensures interrupt { InterruptLaw m.now }
    ensures exception { RealDeliveryLaw m.now }
    ensures delivery { DeliveryLaw m.now }
    ensures back { ReturnLaw m.now }
{
    every_step_changes_only_what_it_writes();
    every_delivery_and_return_changes_only_its_bytes();
    let _ram = m.ram();
}
