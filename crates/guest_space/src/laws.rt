// What holds of every read and write, for any world. Each is a fact that callers get by a call of the function, which does nothing.
ghost use Rattle.std.specs.Prelude.{ℕ, ◌≡◌, ◌≢◌, ◌≤◌, ◌<◌, ◌+◌, ◌*◌, Bool, true, false, List, Ok, None, length};
ghost use Rattle.std.specs.declared.option.Option.{Option};
ghost use Rattle.client_world.specs.declared.host_frames.TheConstants.{PAGE_SIZE, BUDGET_FRAMES};
ghost use Rattle.client_world.specs.declared.limits.TheConstants.{GREATEST_DEPTH};
ghost use Rattle.client_world.specs.{declared.memory_map.TheConstants.{PROTECTED_STACK_SIZE}, declared.place.Place.{Place}};
ghost use Rattle.client_world.specs.{declared.registers.Mode.{Mode}, declared.registers.Regs.{Regs}, declared.registers.Width.{Width}};
ghost use Rattle.client_world.specs.{declared.segments.FarPtr.{FarPtr}, declared.segments.SegReg.{SegReg}};
ghost use Rattle.client_world.specs.{declared.selectors.TheConstants.{HOST_STACKS}, Access.{access, far_access, is_reachable}};
ghost use Rattle.client_world.specs.{Selector.{selector_of}, Soundness.{IsSound}, World.{World}};
ghost use Rattle.guest_ram.specs.Bytes.{AreBytes, put, region};
ghost use Rattle.host_memory.specs.{Holds.{Holds}, Layout.{world_of}, Records.{record_size}, View.{MachineView, OnlyAt}};
ghost use Rattle.guest_space.specs.{declared.pending.Write.{Write}, Pending.{after_writes, places_of_writes}, Far.{far_bytes}};
ghost use Rattle.guest_space.specs.{Far.{after_far_write, further}, Records.{OnlyAtAndRow, record_place}, Transfer.{HasOtherMemory}};
ghost use Rattle.guest_space.specs.Transfer.{places_of_access, after_store, with_places};

/// A write that has no fault changes the bytes of its places, and nothing else in the memory.
pub fn every_write_changes_only_its_places()
    ensures { (b : List ℕ) (budget : ℕ) (mode : Mode) (regs : Regs) (vif : Bool) (width : Option Width) →
        Holds b budget → IsSound (world_of b budget mode regs vif width) →
        (seg : SegReg) (offset n : ℕ) (bytes : List ℕ) (places : List Place) →
        access (world_of b budget mode regs vif width) seg offset n true ≡ Ok places →
        OnlyAt places b (after_store (record { world = world_of b budget mode regs vif width; bytes = b }) seg offset n bytes).bytes }
{}

/// A write moves no place: the accesses after it are those before it.
pub fn a_write_changes_no_access()
    ensures near { (v : MachineView) (places : List Place) (bytes : List ℕ) (seg : SegReg) (offset n : ℕ) (write : Bool) →
        access (with_places v places bytes).world seg offset n write ≡ access v.world seg offset n write }
    ensures far { (v : MachineView) (places : List Place) (bytes : List ℕ) (p : FarPtr) (n : ℕ) (write : Bool) →
        far_access (with_places v places bytes).world p n write ≡ far_access v.world p n write }
    ensures reachable { (v : MachineView) (places : List Place) (bytes : List ℕ) (p : FarPtr) (n : ℕ) (write : Bool) →
        is_reachable (with_places v places bytes).world p n write ≡ is_reachable v.world p n write }
{}

/// A part of a run that is reachable is reachable.
pub fn a_reachable_run_is_reachable_in_parts()
    ensures { (w : World) (p : FarPtr) (n k m : ℕ) (write : Bool) → is_reachable w p n write ≡ true → k + m ≤ n →
        is_reachable w (further p k) m write ≡ true }
{}

/// What is read at a part of a run that is reachable is that part of what is read at the run.
pub fn a_part_is_read_as_in_the_run()
    ensures { (w : World) (p : FarPtr) (n k m : ℕ) → is_reachable w p n false ≡ true → k + m ≤ n →
        far_bytes w (further p k) m ≡ region (far_bytes w p n) k m }
{}

/// What was written at a far pointer is read there.
pub fn what_was_written_is_read()
    ensures { (v : MachineView) (p : FarPtr) (n : ℕ) (bytes : List ℕ) → IsSound v.world → n ≤ PAGE_SIZE → length bytes ≡ n →
        is_reachable v.world p n true ≡ true → far_bytes (after_far_write v p n bytes).world p n ≡ bytes }
{}

/// Once there is a width, the host's protected-mode stacks are memory that may be read and written, at every depth.
pub fn the_protected_stacks_are_reachable()
    ensures { (w : World) (off n : ℕ) (write : Bool) → IsSound w → w.width ≢ None → off + n ≤ GREATEST_DEPTH * PROTECTED_STACK_SIZE →
        is_reachable w (record { sel = selector_of HOST_STACKS; off = off }) n write ≡ true }
{}

/// A write changes nothing of the world but the bytes of the megabyte and of memory blocks.
#[tactic(auto, using(crate::proofs::MemoryAlone::other_all, crate::proofs::MemoryAlone::other_far))]
pub fn every_write_changes_the_memory_alone()
    ensures near { (v : MachineView) (writes : List Write) → HasOtherMemory v.world (after_writes v writes).world }
    ensures far { (v : MachineView) (p : FarPtr) (n : ℕ) (bytes : List ℕ) → HasOtherMemory v.world (after_far_write v p n bytes).world }
{}

/// A write at a far pointer changes the bytes of its places, and nothing else in the memory; where it has a fault, nothing.
pub fn every_far_write_changes_only_its_places()
    ensures { (b : List ℕ) (budget : ℕ) (mode : Mode) (regs : Regs) (vif : Bool) (width : Option Width) →
        Holds b budget → IsSound (world_of b budget mode regs vif width) → (p : FarPtr) (n : ℕ) (bytes : List ℕ) →
        OnlyAt (places_of_access (far_access (world_of b budget mode regs vif width) p n true)) b
        (after_far_write (record { world = world_of b budget mode regs vif width; bytes = b }) p n bytes).bytes }
{}

/// Writes that are made one after another change the bytes of their places, and nothing else in the memory.
pub fn all_writes_change_only_their_places()
    ensures { (b : List ℕ) (budget : ℕ) (mode : Mode) (regs : Regs) (vif : Bool) (width : Option Width) →
        Holds b budget → IsSound (world_of b budget mode regs vif width) → (writes : List Write) →
        OnlyAt (places_of_writes (world_of b budget mode regs vif width) writes) b
        (after_writes (record { world = world_of b budget mode regs vif width; bytes = b }) writes).bytes }
{}

/// A write of bytes at a far pointer leaves a sound world sound, and what it makes of the world depends on the world alone.
pub fn every_far_write_is_sound()
    ensures sound { (v : MachineView) (p : FarPtr) (n : ℕ) (bytes : List ℕ) → IsSound v.world → AreBytes bytes →
        IsSound (after_far_write v p n bytes).world }
    ensures alone { (v u : MachineView) (p : FarPtr) (n : ℕ) (bytes : List ℕ) → v.world ≡ u.world →
        (after_far_write v p n bytes).world ≡ (after_far_write u p n bytes).world }
{}

/// The row of a record that is written after other writes changes its own bytes besides, and no address.
pub fn every_row_changes_only_itself()
    ensures { (places : List Place) (old new : List ℕ) (budget row : ℕ) (bytes : List ℕ) → OnlyAt places old new →
        length old ≡ PAGE_SIZE * (BUDGET_FRAMES + budget) → row < GREATEST_DEPTH → length bytes ≡ record_size →
        OnlyAtAndRow places row old (put new (record_place row) bytes) }
{}
