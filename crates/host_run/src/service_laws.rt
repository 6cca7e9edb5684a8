// What holds of the functions of INT 31h, whatever their numbers. The function has nothing to do: its contract is the law.
ghost use Rattle.std.specs.Prelude.{◌≡◌, ◌≢◌, ℕ, Some};
ghost use Rattle.client_world.specs.{declared.services.Carry.TheVariants.{Set as set}, World.{World}};
ghost use Rattle.service_rows.specs.Reasons.{HasOtherAx, HasOtherAxAndBx};
ghost use Rattle.host_run.specs.{declared.families.Family.TheVariants.{DosMemory as dos_memory}, Families.{family_of, service}};

/// A function of INT 31h that is refused changes AX and BX alone, and one that isn't on DOS memory AX alone. So it is of every number,
/// also of those that no function has.
pub fn every_refused_function_changes_ax_and_bx_alone()
    ensures all { (ax : ℕ) (w : World) → (service ax w).carry ≡ set → HasOtherAxAndBx w (service ax w).world }
    ensures others { (ax : ℕ) (w : World) → family_of ax ≢ Some dos_memory → (service ax w).carry ≡ set →
        HasOtherAx w (service ax w).world }
{}
