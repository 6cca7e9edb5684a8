// What holds of every service. The function has nothing to do: its contract is the law.
ghost use Rattle.std.specs.Prelude.{◌≡◌};
ghost use Rattle.client_world.specs.{declared.services.Carry.TheVariants.{Set as set}, World.{World}};
ghost use Rattle.service_rows.specs.Reasons.{HasOtherAx, Service, family_outcome, outcome};

/// A service that is refused changes AX alone. Source: own.
pub fn every_refusal_changes_ax_alone()
    ensures service { (s : Service) (w : World) → (outcome s w).carry ≡ set → HasOtherAx w (outcome s w).world }
    ensures family { (s : Service) (w : World) → (family_outcome s w).carry ≡ set → HasOtherAx w (family_outcome s w).world }
{}
