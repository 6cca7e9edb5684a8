// Laws of all services. The contract of each function is the law; the function does nothing.
ghost use Rattle.std.specs.Prelude.{ℕ, ◌≡◌, ◌≤◌, Some, length};
ghost use Rattle.client_world.specs.{declared.registers.Mode.TheVariants.{Protected as protected}, Soundness.{IsSound}, World.{World}};
ghost use Rattle.client_world.specs.World.{MemoryBlock, block_at};
ghost use Rattle.block_services.specs.{Free.{IsLargest, largest_new_block}, Rows.{free_pages, new_base, block_service}};

/// A service keeps a world of protected mode sound. Source: own.
pub fn every_block_service_is_sound()
    ensures { (ax : ℕ) (w : World) → IsSound w → w.mode ≡ protected → IsSound (block_service ax w).world }
{}

/// A service changes registers, memory and pageable pages alone. Source: own.
pub fn every_block_service_keeps_the_rest()
    ensures { (ax : ℕ) (w : World) → (block_service ax w).world ≡ record w {
      regs = (block_service ax w).world.regs;
      dos = (block_service ax w).world.dos;
      blocks = (block_service ax w).world.blocks;
      pageable = (block_service ax w).world.pageable;
    } }
{}

/// A block that gets no more pages than it has keeps its address. Source: DPMI 0.9, INT 31h function 0503h; that it stays is own.
pub fn a_block_that_shrinks_stays()
    ensures { (w : World) (handle pages : ℕ) (block : MemoryBlock) → IsSound w → block_at w.blocks handle ≡ Some block →
        pages ≤ length block.locks → new_base w.blocks handle pages ≡ Some block.base }
{}

/// The table of function 0500h gives the size of the largest block for which there are pages and a gap. Source: DPMI 0.9, INT 31h function
/// 0500h.
pub fn the_table_gives_the_largest_block()
    ensures { (w : World) → IsLargest w.blocks (free_pages w) (largest_new_block w.blocks (free_pages w)) }
{}
