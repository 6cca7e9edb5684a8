// What holds of every start. It is a function with nothing to do: its contract is the law.
ghost use Rattle.std.specs.Prelude.{◌≡◌, ℕ, List, None};
ghost use Rattle.client_world.specs.Soundness.{IsSound};
ghost use Rattle.guest_ram.specs.Bytes.{AreBytes};
ghost use Rattle.host_memory.specs.Blank.{blank_world};
ghost use Rattle.mz_loader.specs.{Refusal.{refusal}, Start.{world_at_start}};

/// The client of a file that is loaded starts in a sound world. Source: own.
pub fn every_start_is_sound()
    ensures { (file : List ℕ) (pages : ℕ) → AreBytes file → refusal file ≡ None →
        IsSound (world_at_start file (blank_world pages)) }
{}
