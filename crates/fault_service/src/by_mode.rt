// Exceptions in either mode.
ghost use Rattle.std.specs.Prelude.{◌≡◌, Ok, Err, MatchResult};
ghost use Rattle.client_world.specs.{declared.faults.Fault.{Fault}, Soundness.{IsSound}};
ghost use Rattle.host_memory.specs.View.{MachineView};
ghost use Rattle.fault_service.specs.ByMode.{delivery, world_delivery_in};

use crate::delivery::deliver_in_protected_mode;
use crate::laws::every_answer_depends_on_the_world_alone;
use client_world::{Exit, Fault, Mode};
use guest_space::Machine;
use interrupts::deliver_in_real_mode;

/// Delivers an exception in either mode. `Deep` at the greatest depth in protected mode, else `Fault` of this exception where its handler
/// can't be loaded, or in real mode where no vector serves it or its frame can't be pushed; an exit leaves the machine as it was.
/// Source: 80386 Programmer's Reference Manual, ch. 9 and 15; DPMI 0.9, "Exceptions"; the exits are own.
#[tactic(auto, unfolding(crate::specs::ByMode::delivery))]
pub fn deliver(m: &mut Machine, f: Fault) -> Result<(), Exit>
    ensures machine { MatchResult result (λ _. delivery m.old f ≡ Ok m.new)
        (λ e. (delivery m.old f ≡ Err e) × (m.new ≡ m.old)) }
    ensures world { MatchResult result (λ _. world_delivery_in m.old.world.mode m.old.world f ≡ Ok m.new.world)
        (λ e. world_delivery_in m.old.world.mode m.old.world f ≡ Err e) }
{
    every_answer_depends_on_the_world_alone();
    match m.mode() {
        Mode::Real => deliver_in_real_mode(m, f),
        Mode::Protected => deliver_in_protected_mode(m, f),
    }
}

/// A delivery in either mode leads from a sound world to a sound one.
pub fn every_delivery_is_sound()
    ensures { (v u : MachineView) (f : Fault) → IsSound v.world → delivery v f ≡ Ok u → IsSound u.world }
{}
