// The memory blocks: their rows, pages, bytes and lock counts, all held in the bytes of the memory.
ghost use Rattle.std.specs.Prelude.{◌≡◌, ◌≢◌, ◌≤◌, ◌<◌, None, Some, slice_index};
ghost use Rattle.client_world.specs.{declared.limits.TheConstants.{MAX_BLOCKS}, declared.place.Place.{Place}, Access.{IsHeld, HasByte}};
ghost use Rattle.client_world.specs.{Access.{bytes_of_block, place_of}, Soundness.{pages_of_blocks}, World.{block_at, with_block_at}};
ghost use Rattle.block_memory.specs.BlockSizes.{CanMake, CanSize, sized_block, fresh_block, IsBlocks, lock_in, with_lock, row_seen};
ghost use Rattle.block_memory.specs.BlockSizes.{blocks_with_zero_page, locked_pages};
ghost use Rattle.host_memory.specs.Layout.{address_of};

use crate::machine::Machine;
use crate::pages::empty_cache;
use block_memory::{
    block_row, drop_block, extend_block, locked_pages, region_page, resize_block, used_pages,
};
use client_world::BlockRow;
use client_world::host_frames::{
    BLOCK_ROW_SIZE, BLOCK_ROWS, BLOCK_TABLES, LOCK_COUNT_SIZE, LOCK_COUNTS, PAGE_ENTRY_SIZE,
    PAGE_SIZE,
};
use client_world::limits::MAX_BLOCKS;
use client_world::memory_map::{BLOCK_REGION, BLOCK_REGION_END};

impl Machine {
    /// Makes a memory block of that many pages at a linear address, for a handle of 1 to `MAX_BLOCKS` that isn't held. Its bytes are 0, and
    /// none of its pages is locked. Source: own.
    pub fn block_make(&mut self, handle: u16, base: u32, pages: u32)
        requires width { self.old.world.width ≢ None }
        requires some { 0 < handle }
        requires most { handle ≤ MAX_BLOCKS }
        requires free { block_at self.old.world.blocks handle ≡ None }
        requires room { CanMake self.old.world.blocks self.old.world.budget base pages }
        ensures world { self.new.world ≡ record self.old.world {
          blocks = with_block_at self.old.world.blocks handle (Some (fresh_block base pages));
        } }
        ensures addresses { (p : Place) → IsHeld self.old.world p → address_of self.new.bytes p ≡ address_of self.old.bytes p }
    {
        self.soundness();
        extend_block(&mut self.ram, handle as u32 - 1, base, 0, pages);
        self.cache = empty_cache();
    }

    /// Frees the memory block of a handle. Source: own.
    pub fn block_drop(&mut self, handle: u16)
        requires some { 0 < handle }
        requires most { handle ≤ MAX_BLOCKS }
        requires held { block_at self.old.world.blocks handle ≢ None }
        ensures world { self.new.world ≡ record self.old.world { blocks = with_block_at self.old.world.blocks handle None } }
        ensures addresses { (p : Place) → IsHeld self.new.world p → address_of self.new.bytes p ≡ address_of self.old.bytes p }
    {
        self.soundness();
        drop_block(&mut self.ram, handle as u32 - 1);
        self.cache = empty_cache();
    }

    /// Gives the memory block of a handle that linear address and that many pages. The pages that it keeps keep their contents and lock
    /// counts; further pages are 0 and not locked. Source: own.
    pub fn block_size(&mut self, handle: u16, base: u32, pages: u32)
        requires some { 0 < handle }
        requires most { handle ≤ MAX_BLOCKS }
        requires room { CanSize self.old.world.blocks self.old.world.budget handle base pages }
        ensures world { self.new.world ≡ record self.old.world {
          blocks = with_block_at self.old.world.blocks handle (sized_block base pages (block_at self.old.world.blocks handle));
        } }
        ensures addresses { (p : Place) → IsHeld self.old.world p → IsHeld self.new.world p →
            address_of self.new.bytes p ≡ address_of self.old.bytes p }
    {
        self.soundness();
        resize_block(&mut self.ram, handle as u32 - 1, base, pages);
        self.cache = empty_cache();
    }

    /// The lock count of the page of a linear address, 0 where no memory block covers it. Source: own.
    pub fn lock_count(&self, lin: u32) -> u16
        ensures { result ≡ lock_in self.now.world.blocks (place_of self.now.world lin) }
    {
        if lin < BLOCK_REGION {
            0
        } else if lin < BLOCK_REGION_END {
            self.ram.get16(PAGE_SIZE * LOCK_COUNTS + LOCK_COUNT_SIZE * region_page(lin))
        } else {
            0
        }
    }

    /// Sets the lock count of the page of a linear address that a memory block covers. Source: own.
    pub fn set_lock_count(&mut self, lin: u32, n: u16)
        requires { IsBlocks (place_of self.old.world lin) }
        ensures world { self.new.world ≡ record self.old.world {
          blocks = with_lock self.old.world.blocks (place_of self.old.world lin) n;
        } }
        ensures addresses { (p : Place) → address_of self.new.bytes p ≡ address_of self.old.bytes p }
    {
        let page = region_page(lin);
        self.ram
            .set16(PAGE_SIZE * LOCK_COUNTS + LOCK_COUNT_SIZE * page, n);
    }

    /// Fills the page of a linear address that a memory block covers with zeros. Source: own.
    pub fn zero_page(&mut self, lin: u32)
        requires { IsBlocks (place_of self.old.world lin) }
        ensures world { self.new.world
            ≡ record self.old.world { blocks = blocks_with_zero_page self.old.world.blocks (place_of self.old.world lin) } }
        ensures addresses { (p : Place) → address_of self.new.bytes p ≡ address_of self.old.bytes p }
    {
        let entry = self.ram.get32(PAGE_SIZE * BLOCK_TABLES + PAGE_ENTRY_SIZE * region_page(lin));
        self.ram.fill(PAGE_SIZE * (entry / PAGE_SIZE), PAGE_SIZE, 0);
    }

    /// The number of pages of all memory blocks. Source: own.
    pub fn pages_used(&self) -> u32
        ensures { result ≡ pages_of_blocks self.now.world.blocks }
    {
        used_pages(&self.ram)
    }

    /// The number of locked pages of all memory blocks. Source: own.
    pub fn pages_locked(&self) -> u32
        ensures { result ≡ locked_pages self.now.world.blocks }
    {
        locked_pages(&self.ram)
    }

    /// The linear address and the number of pages of the memory block of a handle, or `None` where it isn't held. Source: own.
    pub fn block(&self, handle: u16) -> Option<BlockRow>
        ensures { result ≡ row_seen (block_at self.now.world.blocks handle) }
    {
        self.soundness();
        if handle == 0 {
            return None;
        }
        if MAX_BLOCKS < handle as u32 {
            return None;
        }
        let row = PAGE_SIZE * BLOCK_ROWS + BLOCK_ROW_SIZE * (handle as u32 - 1);
        let pages = self.ram.get32(row + 4);
        if pages == 0 {
            return None;
        }
        let base = self.ram.get32(row);
        Some(BlockRow { base, pages })
    }

    /// A byte of the memory block of a handle. Source: own.
    pub fn block8(&self, handle: u16, at: u32) -> u8
        requires { HasByte (block_at self.now.world.blocks handle) at }
        ensures { result ≡ slice_index (bytes_of_block (block_at self.now.world.blocks handle)) at }
    {
        self.soundness();
        let (base, _) = block_row(&self.ram, handle as u32 - 1);
        let page = region_page(base) + at / PAGE_SIZE;
        let entry = self
            .ram
            .get32(PAGE_SIZE * BLOCK_TABLES + PAGE_ENTRY_SIZE * page);
        self.ram
            .get8(PAGE_SIZE * (entry / PAGE_SIZE) + at % PAGE_SIZE)
    }
}
