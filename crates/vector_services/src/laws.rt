// Laws of all services. The contract of each function is the law; the function does nothing.
ghost use Rattle.std.specs.Prelude.{ℕ, ◌≡◌};
ghost use Rattle.client_world.specs.{Soundness.{IsSound}, World.{World}};
ghost use Rattle.vector_services.specs.Rows.{vector_service};

/// A service keeps a world sound. Source: own.
pub fn every_vector_service_is_sound()
    ensures { (ax : ℕ) (w : World) → IsSound w → IsSound (vector_service ax w).world }
{}

/// A service changes registers, memory, the virtual interrupt flag and vectors alone. Source: own.
pub fn every_vector_service_keeps_the_rest()
    ensures { (ax : ℕ) (w : World) → (vector_service ax w).world ≡ record w {
      regs = (vector_service ax w).world.regs;
      vif = (vector_service ax w).world.vif;
      dos = (vector_service ax w).world.dos;
      interrupt_vectors = (vector_service ax w).world.interrupt_vectors;
      exception_vectors = (vector_service ax w).world.exception_vectors;
    } }
{}
