// What holds of every service. Each is a function with nothing to do: its contract is the law.
ghost use Rattle.std.specs.Prelude.{ℕ, ◌≡◌, ◌↔◌, ◌+◌, ◌<◌, ◌≤◌, ◌⊎◌, true, List, length, Some, Ok};
ghost use Rattle.client_world.specs.{declared.dos_memory.DosRun.{DosRun}, declared.registers.Mode.TheVariants.{Protected as protected}};
ghost use Rattle.client_world.specs.{declared.services.Carry.TheVariants.{Set as set}, DosMemory.{block_segment, is_dpmi}, Selector.{Row}};
ghost use Rattle.client_world.specs.{Selector.{row_at_index}, Services.{bx, dx}, Soundness.{IsSound}, World.{World}};
ghost use Rattle.guest_space.specs.DosRuns.{dos_row, with_dos_rows};
ghost use Rattle.service_rows.specs.Reasons.{HasOtherAxAndBx};
ghost use Rattle.dos_blocks.specs.{Blocks.{entry_of_place}, Named.{HasNewBlock, LosesDescriptors, NamesBlock}};
ghost use Rattle.dos_blocks.specs.Services.{allocate_dos_block, dos_service, free_dos_block, place_of_selector};

/// A service leads from a sound world of protected mode to a sound one: of the descriptors of DOS blocks, each belongs to a block, and a
/// block has one for each 64 KB, in a row. Source: own.
#[tactic(auto, using(crate::proofs::ServiceLaws::sound_service))]
pub fn every_dos_service_is_sound()
    ensures { (ax : ℕ) (w : World) → IsSound w → w.mode ≡ protected → IsSound (dos_service ax w).world }
{}

/// A service changes registers, the megabyte, the arena and descriptors alone. Source: own.
#[tactic(auto, using(crate::proofs::ServiceLaws::kept_service))]
pub fn every_dos_service_keeps_the_rest()
    ensures { (ax : ℕ) (w : World) → (dos_service ax w).world ≡ record w {
      regs = (dos_service ax w).world.regs;
      dos = (dos_service ax w).world.dos;
      arena = (dos_service ax w).world.arena;
      descriptors = (dos_service ax w).world.descriptors;
    } }
{}

/// A service that is refused changes AX and BX alone. Source: own.
#[tactic(auto, using(crate::proofs::OneStep::refused_service))]
pub fn every_refused_dos_service_changes_ax_and_bx_alone()
    ensures { (ax : ℕ) (w : World) → (dos_service ax w).carry ≡ set → HasOtherAxAndBx w (dos_service ax w).world }
{}

/// The descriptors of a block lie in a row, each for its 64 KB, and no other descriptor changes. Source: DPMI 0.9, INT 31h function 0100h.
#[tactic(auto, using(guest_space::proofs::DosRows::row_inside, guest_space::proofs::DosRows::row_outside))]
pub fn the_descriptors_of_a_block_lie_in_a_row()
    ensures inside { (rows : List Row) (run : DosRun) (n j : ℕ) → run.first + n ≤ length rows → j < n →
        row_at_index (with_dos_rows rows run n) (run.first + j) ≡ dos_row run.seg run.after j }
    ensures outside { (rows : List Row) (run : DosRun) (n index : ℕ) → (index < run.first) ⊎ (run.first + n ≤ index) →
        row_at_index (with_dos_rows rows run n) index ≡ row_at_index rows index }
{}

/// Functions 0101h and 0102h find the block that a selector names, and no other. Each block has a selector that names it: that of its first
/// descriptor, with any privilege level. Source: own.
#[tactic(auto, using(crate::proofs::NamedLaws::each_named))]
pub fn a_selector_finds_the_block_that_it_names()
    ensures found { (w : World) (sel place : ℕ) → IsSound w → ((place_of_selector w sel ≡ Some place) ↔ NamesBlock w sel place) }
    ensures each { (w : World) (place : ℕ) → IsSound w → place < length w.arena → is_dpmi (entry_of_place w.arena place).state ≡ true →
        (sel : ℕ) × NamesBlock w sel place }
{}

/// After function 0100h has made a block, the selector in DX names it, and AX is its segment. Source: DPMI 0.9, INT 31h function 0100h.
pub fn a_block_that_is_made_is_named_by_its_first_selector()
    ensures { (w : World) → IsSound w → (allocate_dos_block w).answer ≡ Ok tt → HasNewBlock (allocate_dos_block w).world (bx w) }
{}

/// Function 0101h frees the block that DX names with all its descriptors, and no other descriptor. Source: DPMI 0.9, INT 31h function
/// 0101h.
#[tactic(auto, using(crate::proofs::NamedLaws::freed_answer, crate::proofs::NamedLaws::freed_block))]
pub fn a_block_that_is_freed_loses_its_descriptors()
    ensures answer { (w : World) (place : ℕ) → IsSound w → NamesBlock w (dx w) place → (free_dos_block w).answer ≡ Ok tt }
    ensures descriptors { (w : World) (place : ℕ) → IsSound w → NamesBlock w (dx w) place →
        LosesDescriptors w (free_dos_block w).world (block_segment (entry_of_place w.arena place)) }
{}
