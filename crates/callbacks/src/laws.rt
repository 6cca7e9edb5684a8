// What holds of every callback, of its return and of the services on callbacks. Each function has nothing to do: its contract is the law.
ghost use Rattle.std.specs.Prelude.{◌≡◌, ℕ, Ok};
ghost use Rattle.client_world.specs.declared.registers.Mode.TheVariants.{Protected as protected};
ghost use Rattle.client_world.specs.{declared.services.Carry.TheVariants.{Set as set}, Soundness.{IsSound}, World.{World}};
ghost use Rattle.callbacks.specs.{Callbacks.{enter_callback, leave_callback}, HandOver.{HasEntered, HasLeft, IsCallbackPopped}};
ghost use Rattle.callbacks.specs.{HandOver.{IsCallbackPushed, LeftByService, LeftForProcedure, LeftForReal}, Services.{callback_service}};
ghost use Rattle.service_rows.specs.Reasons.{HasOtherAx};

/// A callback, its return and the services on callbacks lead from a sound world to a sound one.
pub fn every_callback_is_sound()
    ensures serve { (w : World) (ax : ℕ) → IsSound w → w.mode ≡ protected → IsSound (callback_service ax w).world }
    ensures enter { (w u : World) (slot : ℕ) → IsSound w → enter_callback w slot ≡ Ok u → IsSound u }
    ensures leave { (w u : World) → IsSound w → leave_callback w ≡ Ok u → IsSound u }
{}

/// The services change the registers and the callbacks alone, and where they are refused AX alone. A callback changes the mode, the
/// registers, the virtual interrupt flag, the descriptors, the records and the client's memory alone, and its return the mode, the
/// registers, the virtual interrupt flag and the records.
pub fn every_callback_keeps_the_rest()
    ensures serve { (w : World) (ax : ℕ) → LeftByService w (callback_service ax w).world }
    ensures refused { (w : World) (ax : ℕ) → (callback_service ax w).carry ≡ set → HasOtherAx w (callback_service ax w).world }
    ensures enter { (w u : World) (slot : ℕ) → enter_callback w slot ≡ Ok u → LeftForProcedure w u }
    ensures leave { (w u : World) → leave_callback w ≡ Ok u → LeftForReal w u }
{}

/// From any world, a callback that starts pushes one record, and a return pops one.
pub fn every_callback_is_stacked()
    ensures enter { (w u : World) (slot : ℕ) → enter_callback w slot ≡ Ok u → IsCallbackPushed w u slot }
    ensures leave { (w u : World) → leave_callback w ≡ Ok u → IsCallbackPopped w u }
{}

/// A callback pushes one record, and hands to its procedure the real caller's registers, in its structure, and stack.
pub fn a_callback_hands_over_the_registers()
    ensures { (w u : World) (slot : ℕ) → IsSound w → enter_callback w slot ≡ Ok u → HasEntered w u slot }
{}

/// A return pops one record, and hands back to real mode the registers of the structure at ES:(E)DI.
pub fn a_return_hands_back_the_registers()
    ensures { (w u : World) → leave_callback w ≡ Ok u → HasLeft w u }
{}
