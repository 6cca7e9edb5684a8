// What holds of every call, reflection and return. Each function has nothing to do: its contract is the law.
ghost use Rattle.std.specs.Prelude.{◌≡◌, ◌≢◌, ℕ, ◌%◌, ◌<◌, true, [], ◌∷◌, ◌++◌, is_none, Ok};
ghost use Rattle.client_world.specs.{declared.calls.Call.{Call}, declared.calls.Call.TheVariants.{Reflect}};
ghost use Rattle.client_world.specs.{declared.calls.Record.TheVariants.{Sim}, declared.memory_map.TheConstants.{SEGMENT_SIZE}};
ghost use Rattle.client_world.specs.declared.registers.Mode.TheVariants.{Protected as protected, Real as real};
ghost use Rattle.client_world.specs.{declared.segments.SegReg.TheVariants.{Ss}, declared.services.Carry.TheVariants.{Clear as clear}};
ghost use Rattle.client_world.specs.{declared.services.Carry.TheVariants.{Set as set}, Access.{real_address}, Segments.{null_pointer}};
ghost use Rattle.client_world.specs.{Services.{es_di}, Soundness.{IsSound}, World.{World}};
ghost use Rattle.guest_space.specs.Transfer.{access_fault};
ghost use Rattle.service_rows.specs.Reasons.{HasOtherAx};
ghost use Rattle.translation.specs.HandOver.{HasBegun, HasEnded, HasReflected, IsPopped, LeftForCallee, LeftForClient};
ghost use Rattle.translation.specs.{RealStack.{is_writable_word}, SimulatedCall.{begin_call, end_call, reflect}};
ghost use Rattle.translation.specs.Structure.{structure_bytes};

/// A call, a reflection and a return lead from a sound world to a sound one.
pub fn every_call_is_sound()
    ensures begin { (w : World) (call : Call) → IsSound w → w.mode ≡ protected → IsSound (begin_call w call).world }
    ensures reflect { (w u : World) (n : ℕ) → IsSound w → w.mode ≡ protected → reflect w n ≡ Ok u → IsSound u }
    ensures end { (w u : World) → IsSound w → end_call w ≡ Ok u → IsSound u }
{}

/// A call and a reflection change the mode, the registers, the virtual interrupt flag, the megabyte and the records alone, and a call that
/// is refused AX alone; a return changes the bytes of memory blocks besides.
pub fn every_call_keeps_the_rest()
    ensures begin { (w : World) (call : Call) → LeftForCallee w (begin_call w call).world }
    ensures refused { (w : World) (call : Call) → (begin_call w call).carry ≡ set → HasOtherAx w (begin_call w call).world }
    ensures reflect { (w u : World) (n : ℕ) → reflect w n ≡ Ok u → LeftForCallee w u }
    ensures end { (w u : World) → end_call w ≡ Ok u → LeftForClient w u }
{}

/// From any world, a call that runs and a reflection push one record, and a return pops one.
pub fn every_call_is_stacked()
    ensures begin { (w : World) (call : Call) → (begin_call w call).carry ≡ clear →
        (begin_call w call).world.calls ≡ w.calls ++ Sim call w.regs w.vif (es_di w) ∷ [] }
    ensures reflect { (w u : World) (n : ℕ) → reflect w n ≡ Ok u → u.calls ≡ w.calls ++ Sim (Reflect n) w.regs w.vif null_pointer ∷ [] }
    ensures end { (w u : World) → end_call w ≡ Ok u → IsPopped w u }
{}

/// A call that runs pushes one record, and hands to the callee the registers of its structure and the client's words.
pub fn a_call_hands_over_its_structure_and_its_words()
    ensures { (w : World) (call : Call) → IsSound w → (begin_call w call).carry ≡ clear →
        HasBegun w (begin_call w call).world call (structure_bytes w (es_di w)) }
{}

/// A reflection pushes one record, and hands to the handler the client's flags and general registers.
pub fn a_reflection_hands_over_the_general_registers()
    ensures { (w u : World) (n : ℕ) → IsSound w → reflect w n ≡ Ok u → HasReflected w u n }
{}

/// A return pops one record, and hands to the client its registers, and to the structure of a call those of the callee.
pub fn a_return_hands_over_the_results()
    ensures { (w u : World) → IsSound w → end_call w ≡ Ok u → HasEnded w u }
{}

/// Different offsets of a real segment are different bytes of the megabyte.
pub fn the_bytes_of_a_real_segment_are_apart()
    ensures { (segment a b : ℕ) → a % SEGMENT_SIZE ≢ b % SEGMENT_SIZE → real_address segment a ≢ real_address segment b }
{}

/// A word of a callee's stack can be written exactly where the callee, in real mode, could push it.
pub fn a_stack_word_can_be_written_by_the_rules_of_real_mode()
    ensures { (w : World) (offset : ℕ) → w.mode ≡ real → w.regs.ss < 0x10000 → offset < SEGMENT_SIZE →
        is_writable_word w.regs.ss offset ≡ is_none (access_fault w Ss offset 2 true) }
{}
