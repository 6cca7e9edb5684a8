// The descriptors of the client's table.
ghost use Rattle.std.specs.Prelude.{◌≡◌, ◌≢◌, ◌≤◌, ◌<◌, ◌↔◌, ◌⊎◌, ℕ, IfSome, IsNone, Some, None, slice_set};
ghost use Rattle.client_world.specs.declared.host_frames.TheConstants.{DESCRIPTORS, FIRST_FREE_DESCRIPTOR};
ghost use Rattle.client_world.specs.declared.selectors.TheConstants.{HOST_CODE, HOST_STACKS};
ghost use Rattle.client_world.specs.{declared.descriptors.Origin.TheVariants.{Host as host}, FreeRuns.{IsFreeRunOf, IsFirstFreeRunOf}};
ghost use Rattle.client_world.specs.{Selector.{FitsRow, row_at_index, row_of_selector}, Soundness.{IsSound, IsOfDosBlock, host_code}};
ghost use Rattle.client_world.specs.Soundness.{host_stacks};
ghost use Rattle.guest_ram.specs.Bytes.{put};
ghost use Rattle.desc_table.specs.Rows.{row_address, row_bytes};

use crate::hidden_parts::all_parts;
use crate::machine::Machine;
use client_world::host_frames::DESCRIPTORS;
use client_world::limits::GREATEST_DEPTH;
use client_world::memory_map::{PROTECTED_STACK_SIZE, PROTECTED_STACKS, ROM_START};
use client_world::selectors::{HOST_CODE, HOST_STACKS, index_of, is_local};
use client_world::{Desc, Kind, Origin, Width};
use desc_table::{free_run, look, set};

// The host's code: 16-bit, from F0000h, limit FFFFh.
fn host_code() -> Desc
    ensures { Some (result, host) ≡ host_code }
{
    Desc::plain(Kind::Code, ROM_START, 0xFFFF, false)
}

// The segment of the host's protected-mode stacks, of the client's width.
fn host_stacks(width: Width) -> Desc
    ensures { Some (result, host) ≡ host_stacks width }
{
    Desc::plain(
        Kind::WRITABLE_DATA,
        PROTECTED_STACKS,
        GREATEST_DEPTH * PROTECTED_STACK_SIZE - 1,
        width == Width::ThirtyTwo,
    )
}

impl Machine {
    // The descriptor at an index below 8192 and its origin.
    fn row(&self, index: u16) -> Option<(Desc, Origin)>
        requires { index < DESCRIPTORS }
        ensures row { result ≡ row_at_index self.now.world.descriptors index }
        ensures fits { FitsRow result }
    {
        look(&self.ram, index)
    }

    /// The descriptor at an index and its origin, or `None` where there is none, as from index 8192 on. Source: own.
    #[tactic(auto, using(crate::proofs::RowCalls::none_beyond))]
    pub fn desc(&self, index: u16) -> Option<(Desc, Origin)>
        ensures row { result ≡ row_at_index self.now.world.descriptors index }
        ensures fits { FitsRow result }
    {
        if u32::from(index) < DESCRIPTORS {
            self.row(index)
        } else {
            self.soundness();
            None
        }
    }

    /// The descriptor that a selector names and its origin, or `None` where the selector names none of the client's table. Source: 80386
    /// Programmer's Reference Manual, ch. 5, "Selectors".
    pub fn desc_of(&self, sel: u16) -> Option<(Desc, Origin)>
        ensures row { result ≡ row_of_selector self.now.world.descriptors sel }
        ensures fits { FitsRow result }
    {
        if is_local(sel) {
            self.row(index_of(sel))
        } else {
            None
        }
    }

    /// Puts a descriptor and its origin at an index below 8192, or frees the index. The descriptors of DOS blocks are changed with their
    /// blocks, by `arena_put_dpmi`, and not by this. Source: own.
    pub fn set_desc(&mut self, index: u16, row: Option<(Desc, Origin)>)
        requires index { index < DESCRIPTORS }
        requires width { self.old.world.width ≢ None }
        requires old_origin { ¬ IsOfDosBlock (row_at_index self.old.world.descriptors index) }
        requires new_origin { ¬ IsOfDosBlock row }
        requires sound { IsSound (record self.old.world { descriptors = slice_set self.old.world.descriptors index row }) }
        ensures world { self.new.world
            ≡ record self.old.world { descriptors = slice_set self.old.world.descriptors index row } }
        ensures bytes { self.new.bytes ≡ put self.old.bytes (row_address index) (row_bytes row) }
    {
        set(&mut self.ram, index, row);
        let parts = all_parts(&self.ram, self.mode, &self.regs);
        self.hidden = parts;
    }

    /// The first index from 64 on at which n indices one after another are free. `None` where n is 0 or there is no such run. Source: own.
    pub fn free_descs(&self, n: u16) -> Option<u16>
        ensures none { IsNone result ↔ ((n ≡ 0)
            ⊎ ((first : ℕ) → FIRST_FREE_DESCRIPTOR ≤ first → ¬ IsFreeRunOf self.now.world.descriptors first n)) }
        ensures first { IfSome result (λ first. IsFirstFreeRunOf self.now.world.descriptors first n) }
    {
        free_run(&self.ram, n)
    }

    /// Sets the client's width, once, and makes the two descriptors of the host. Source: own.
    pub fn set_width(&mut self, w: Width)
        requires { self.old.world.width ≡ None }
        ensures world { self.new.world ≡ record self.old.world {
          width = Some w;
          descriptors = slice_set (slice_set self.old.world.descriptors HOST_CODE host_code) HOST_STACKS (host_stacks w);
        } }
        ensures bytes { self.new.bytes
            ≡ put (put self.old.bytes (row_address HOST_CODE) (row_bytes host_code)) (row_address HOST_STACKS) (row_bytes (host_stacks w)) }
    {
        set(&mut self.ram, HOST_CODE, Some((host_code(), Origin::Host)));
        set(
            &mut self.ram,
            HOST_STACKS,
            Some((host_stacks(w), Origin::Host)),
        );
        self.width = Some(w);
        self.hidden = all_parts(&self.ram, self.mode, &self.regs);
    }
}
