// The laws over the definitions of this crate.
ghost use Rattle.std.specs.{Prelude.{◌≡◌, ◌<◌, ◌^◌, ℕ, Bool, true, List}, declared.option.Option.{Option}};
ghost use Rattle.client_world.specs.{Access.{place_of, may_touch}, Soundness.{IsSound}, World.{World}};
ghost use Rattle.client_world.specs.{declared.host_frames.TheConstants.{PAGE_DIRECTORY}, declared.registers.Mode.{Mode}};
ghost use Rattle.client_world.specs.{declared.registers.Regs.{Regs}, declared.registers.Width.{Width}};
ghost use Rattle.page_tables.specs.Walk.{walked};
ghost use Rattle.host_memory.specs.{Holds.{Holds}, HoldsWorld.{HoldsWorld}, Law.{walk_result, StandsAt}, Layout.{world_of}};

/// A walk of the page tables of a memory that holds a sound world ends exactly where the client may touch, at the address of the place, and
/// else fails as the place says. The world's byte at a place that the client may touch is at that address, in none of the host's frames.
pub fn every_walk_ends_where_the_client_may_touch()
    ensures walks { (b : List ℕ) (budget : ℕ) (mode : Mode) (regs : Regs) (vif : Bool) (width : Option Width) →
        Holds b budget → IsSound (world_of b budget mode regs vif width) → (lin : ℕ) (write : Bool) → lin < 2 ^ 32 →
        walked b PAGE_DIRECTORY lin write ≡ walk_result b (place_of (world_of b budget mode regs vif width) lin) write }
    ensures bytes { (b : List ℕ) (budget : ℕ) (mode : Mode) (regs : Regs) (vif : Bool) (width : Option Width) →
        Holds b budget → (lin : ℕ) (write : Bool) →
        may_touch (place_of (world_of b budget mode regs vif width) lin) write ≡ true →
        StandsAt b (world_of b budget mode regs vif width) (place_of (world_of b budget mode regs vif width) lin) }
{}

/// A memory that holds a sound world has exactly the bytes that the world asks for, each in its place, said with no decoding.
pub fn every_memory_that_holds_a_world_has_its_bytes()
    ensures { (b : List ℕ) (budget : ℕ) (mode : Mode) (regs : Regs) (vif : Bool) (width : Option Width) →
        Holds b budget → IsSound (world_of b budget mode regs vif width) → HoldsWorld b (world_of b budget mode regs vif width) }
{}

/// Every memory that holds a sound world, said with no decoding, is walked so too: a walk of the page tables ends exactly where the client
/// may touch in that world, at the address of the place, and else fails as the place says. The world's byte at a place that the client may
/// touch is at that address, in none of the host's frames.
pub fn every_memory_that_holds_a_world_is_walked_so()
    ensures walks { (b : List ℕ) (w : World) → HoldsWorld b w → IsSound w → (lin : ℕ) (write : Bool) → lin < 2 ^ 32 →
        walked b PAGE_DIRECTORY lin write ≡ walk_result b (place_of w lin) write }
    ensures bytes { (b : List ℕ) (w : World) → HoldsWorld b w → IsSound w → (lin : ℕ) (write : Bool) →
        may_touch (place_of w lin) write ≡ true → StandsAt b w (place_of w lin) }
{}
