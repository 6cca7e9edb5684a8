// What holds of every service. Each is a function with nothing to do: its contract is the law.
ghost use Rattle.std.specs.Prelude.{ℕ, ◌≡◌, false, Some};
ghost use Rattle.client_world.specs.{declared.descriptors.Desc.{Desc}, declared.descriptors.Origin.TheVariants.{Segment}};
ghost use Rattle.client_world.specs.{declared.registers.Mode.TheVariants.{Protected as protected}, Descriptor.{byte_limit}};
ghost use Rattle.client_world.specs.{Selector.{row_at_index}, Soundness.{HasOrigin, IsSound}, World.{World}};
ghost use Rattle.desc_services.specs.Rows.{is_no_limit, desc_with_limit, segment_index, descriptor_service};

/// A service leads from a sound world of protected mode to a sound one. Source: own.
pub fn every_descriptor_service_is_sound()
    ensures { (ax : ℕ) (w : World) → IsSound w → w.mode ≡ protected → IsSound (descriptor_service ax w).world }
{}

/// A service changes registers, memory and descriptors alone. Source: own.
pub fn every_descriptor_service_keeps_the_rest()
    ensures { (ax : ℕ) (w : World) → (descriptor_service ax w).world ≡ record w {
      regs = (descriptor_service ax w).world.regs;
      dos = (descriptor_service ax w).world.dos;
      blocks = (descriptor_service ax w).world.blocks;
      descriptors = (descriptor_service ax w).world.descriptors;
    } }
{}

/// A limit that function 0008h takes is the last byte that the segment then allows. Source: DPMI 0.9, INT 31h function 0008h.
pub fn a_limit_that_is_set_is_the_limit()
    ensures { (d : Desc) (limit : ℕ) → is_no_limit limit ≡ false → byte_limit (desc_with_limit d limit) ≡ limit }
{}

/// Function 0002h finds the descriptor of a real segment wherever it is: a sound world has one at most. Source: DPMI 0.9, INT 31h function
/// 0002h.
pub fn the_descriptor_of_a_segment_is_found()
    ensures { (w : World) (index segment : ℕ) → IsSound w → HasOrigin (row_at_index w.descriptors index) (Segment segment) →
        segment_index w.descriptors segment ≡ Some index }
{}
