// What holds of every step. Each is a function with nothing to do: its contract is the law.
ghost use Rattle.std.specs.{Prelude.{◌≡◌, All, IsErr, IsOk, List, None, Ok, Some}, declared.result.Result.{Result}};
ghost use Rattle.client_world.specs.{declared.faults.Event.{Event as AnEvent}, Access.{IsHeld}, Soundness.{IsSound}, World.{World}};
ghost use Rattle.client_world.specs.declared.watchpoints.Touch.{Touch};
ghost use Rattle.host_memory.specs.View.{MachineView};
ghost use Rattle.cpu_step.specs.{Step.{IsStep, client_step}, Touched.{DoesNotWrap, touched_by_instruction, touch_places, touched_by_step}};
ghost use Rattle.cpu_step.specs.Touched.{written_touch_places};
ghost use Rattle.guest_space.specs.Pending.{places_of_writes};
ghost use Rattle.insn_plan.specs.{Accesses.{touches}, Act.{Act, Pending}, Plan.{after_plan, plan_result}};

/// In a sound world what the grammar says of the client's next instruction is one outcome, and is what reading its bytes from left to
/// right gives. Source: own.
pub fn a_step_has_one_outcome()
    ensures is { (v : MachineView) → IsSound v.world → IsStep v (client_step v) }
    ensures only { (v : MachineView) (outcome : Result MachineView AnEvent) → IsSound v.world → IsStep v outcome →
        outcome ≡ client_step v }
{}

/// Every place that the client's next instruction touches lies in memory that the client holds. Source: own.
pub fn every_touched_place_is_held()
    ensures { (w : World) → All (IsHeld w) (touched_by_step w) }
{}

/// The touches of an instruction are what it reads and writes: they have the same places, in the same order, those that write have the
/// places that it writes, and no run wraps. Source: own.
pub fn every_touch_is_an_access()
    ensures places { (w : World) (act : Act) (list : List Touch) → touches w act ≡ Some list →
        touched_by_instruction w act ≡ touch_places w list }
    ensures written { (w : World) (act : Act) (p : Pending) (list : List Touch) → touches w act ≡ Some list →
        plan_result w act ≡ Ok p → written_touch_places w list ≡ places_of_writes w p.writes }
    ensures inside { (w : World) (act : Act) (list : List Touch) → touches w act ≡ Some list → All DoesNotWrap list }
{}

/// An instruction has touches exactly where it is no event. Source: own.
pub fn only_an_event_has_no_touches()
    ensures none { (v : MachineView) (act : Act) → touches v.world act ≡ None → IsErr (after_plan v (plan_result v.world act)) }
    ensures some { (v : MachineView) (act : Act) (list : List Touch) → touches v.world act ≡ Some list →
        IsOk (after_plan v (plan_result v.world act)) }
{}

/// A step leads from a sound world to a sound one. Source: own.
pub fn every_step_is_sound()
    ensures { (v u : MachineView) → IsSound v.world → client_step v ≡ Ok u → IsSound u.world }
{}
