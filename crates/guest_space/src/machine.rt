// The machine: what the processor keeps, and the memory that holds all else.
ghost use Rattle.std.specs.Prelude.{◌≡◌, ◌≢◌, ◌≤◌, ◌<◌, ◌^◌, ℕ, Bool, true, IfOk, None};
ghost use Rattle.client_world.specs.{declared.host_frames.TheConstants.{PAGE_DIRECTORY}, declared.limits.TheConstants.{MAX_PAGES}};
ghost use Rattle.client_world.specs.{declared.registers.Mode.TheVariants.{Protected as protected}, Access.{may_touch, place_of}};
ghost use Rattle.client_world.specs.{General.{with_general}, Segments.{with_selector}, Soundness.{HasSegments, IsSound}};
ghost use Rattle.host_memory.specs.{Blank.{blank_world}, HoldsWorld.{HoldsWorld}, Law.{walk_result, StandsAt}};
ghost use Rattle.page_tables.specs.Walk.{walked};
ghost use Rattle.guest_space.specs.Registers.{with_registers};

use crate::hidden_parts::{
    Hidden, all_parts, have_same_selectors, number, part_of_selector, parts_after,
};
use crate::pages::{CACHE_SIZE, CacheEntry, empty_cache};
use client_world::limits::MAX_PAGES;
use client_world::{Flags, Mode, Regs, SegReg, Width};
use guest_ram::Ram;
use host_memory::blank_memory;
use std::alloc::{AllocError, Global};
use std::marker::Model;

/// A machine. Its descriptors, vectors, memory blocks, records, callbacks and the list of DOS memory lie in the bytes of its memory alone;
/// contracts see the world that they hold, and the bytes. The hidden parts of the segment registers are what these find in them,
/// and the entries of the cache what the page tables say.
#[derive(Drop)]
pub struct Machine {
    pub(crate) ram: Ram,
    pub(crate) pages: u32,
    pub(crate) regs: Regs,
    pub(crate) mode: Mode,
    pub(crate) width: Option<Width>,
    pub(crate) vif: bool,
    pub(crate) hidden: [Option<Hidden>; 6],
    pub(crate) cache: [CacheEntry; CACHE_SIZE],
}

impl Model for Machine {
    ghost use Rattle.std.specs.Prelude.{◌≡◌};
    ghost use Rattle.client_world.specs.Soundness.{IsSound};
    ghost use Rattle.desc_table.specs.Rows.{rows_from, rows_start};
    ghost use Rattle.guest_space.specs.Cache.{Warm};
    ghost use Rattle.guest_space.specs.HiddenParts.{all_found};
    ghost use Rattle.host_memory.specs.View.{MachineView};
    ghost use Rattle.host_memory.specs.Layout.{world_of};
    ghost use Rattle.host_memory.specs.Holds.{Holds};

    ghost Value = { MachineView };

    ghost view = { λ m. record { world = world_of m.ram m.pages m.mode m.regs m.vif m.width; bytes = m.ram } };

    ghost invariant = { λ m. (Holds m.ram m.pages) × (IsSound (world_of m.ram m.pages m.mode m.regs m.vif m.width))
        × (m.hidden ≡ all_found m.mode m.regs (rows_from m.ram rows_start)) × (Warm m.ram m.cache) };
}

impl Machine {
    /// A new machine with a budget of 1 to `MAX_PAGES` pages for memory blocks, or `AllocError` where memory is short. Source: own.
    pub fn new(alloc: Global, pages: u32) -> Result<Machine, AllocError>
        requires some { 0 < pages }
        requires few { pages ≤ MAX_PAGES }
        ensures { IfOk result (λ machine. machine.world ≡ blank_world pages) }
    {
        let ram = blank_memory(alloc, pages)?;
        let hidden = all_parts(&ram, Mode::Real, &Regs::ZERO);
        Ok(Machine {
            ram,
            pages,
            regs: Regs::ZERO,
            mode: Mode::Real,
            width: None,
            vif: true,
            hidden,
            cache: empty_cache(),
        })
    }

    /// The memory, which holds the world. Every world of a machine is sound. A walk of the page tables ends exactly where the client may
    /// touch, at the address of the place, and otherwise fails as the place says; the world's byte at a place that the client may touch
    /// lies at that address, in none of the host's frames.
    pub fn ram(&self) -> &Ram
        ensures bytes { result.now ≡ self.now.bytes }
        ensures holds { HoldsWorld self.now.bytes self.now.world }
        ensures sound { IsSound self.now.world }
        ensures walks { (lin : ℕ) (write : Bool) → lin < 2 ^ 32 →
            walked self.now.bytes PAGE_DIRECTORY lin write ≡ walk_result self.now.bytes (place_of self.now.world lin) write }
        ensures places { (lin : ℕ) (write : Bool) → may_touch (place_of self.now.world lin) write ≡ true →
            StandsAt self.now.bytes self.now.world (place_of self.now.world lin) }
    {
        &self.ram
    }

    /// Every world of a machine is sound.
    pub fn soundness(&self)
        ensures { IsSound self.now.world }
    {
        let _ = &self.ram;
    }

    /// The registers.
    #[tactic(auto, unfolding(host_memory::specs::Layout::world_of))]
    pub fn regs(&self) -> Regs
        ensures { result ≡ self.now.world.regs }
    {
        self.regs
    }

    /// The registers, lent.
    #[inline(always)]
    #[tactic(auto, unfolding(host_memory::specs::Layout::world_of))]
    pub fn registers(&self) -> &Regs
        ensures { result.now ≡ self.now.world.regs }
    {
        &self.regs
    }

    /// Sets the instruction pointer.
    #[inline(always)]
    pub fn set_eip(&mut self, eip: u32)
        ensures { self.new ≡ with_registers (record self.old.world.regs { eip = eip }) self.old }
    {
        self.regs.eip = eip;
        segments_fit(self.regs);
    }

    /// Sets the flags.
    #[inline(always)]
    pub fn set_flags(&mut self, flags: Flags)
        ensures { self.new ≡ with_registers (record self.old.world.regs { flags = flags }) self.old }
    {
        self.regs.flags = flags;
        segments_fit(self.regs);
    }

    /// Sets the general register of a number 0 to 7; greater numbers are EDI.
    #[inline(always)]
    pub fn set_general(&mut self, n: u8, v: u32)
        ensures { self.new ≡ with_registers (with_general self.old.world.regs n v) self.old }
    {
        self.regs.set_general(n, v);
        segments_fit(self.regs);
    }

    /// Sets a segment register to a selector, or in real mode a segment, and asks nothing. Source: own.
    #[inline(always)]
    pub fn set_selector(&mut self, seg: SegReg, sel: u16)
        ensures { self.new ≡ with_registers (with_selector self.old.world.regs seg sel) self.old }
    {
        let is_same = self.regs.selector(seg) == sel;
        self.regs.set_selector(seg, sel);
        segments_fit(self.regs);
        if !is_same {
            self.hidden[number(seg)] = part_of_selector(&self.ram, self.mode, seg, sel);
        }
    }

    /// Sets the registers.
    pub fn set_regs(&mut self, r: Regs)
        ensures world { self.new.world ≡ record self.old.world { regs = r } }
        ensures bytes { self.new.bytes ≡ self.old.bytes }
    {
        segments_fit(r);
        if have_same_selectors(&self.regs, &r) {
            self.regs = r;
        } else {
            self.hidden = parts_after(&self.ram, self.mode, &self.hidden, &self.regs, &r);
            self.regs = r;
        }
    }

    /// The processor's mode.
    #[tactic(auto, unfolding(host_memory::specs::Layout::world_of))]
    pub fn mode(&self) -> Mode
        ensures { result ≡ self.now.world.mode }
    {
        self.mode
    }

    /// Sets the processor's mode; to protected mode only once there is a width. Source: own.
    pub fn set_mode(&mut self, m: Mode)
        requires width { m ≡ protected → self.old.world.width ≢ None }
        ensures world { self.new.world ≡ record self.old.world { mode = m } }
        ensures bytes { self.new.bytes ≡ self.old.bytes }
    {
        self.mode = m;
        self.hidden = all_parts(&self.ram, self.mode, &self.regs);
    }

    /// The client's width, `None` before its entry to protected mode.
    #[tactic(auto, unfolding(host_memory::specs::Layout::world_of))]
    pub fn width(&self) -> Option<Width>
        ensures { result ≡ self.now.world.width }
    {
        self.width
    }

    /// Whether virtual interrupts are enabled.
    #[tactic(auto, unfolding(host_memory::specs::Layout::world_of))]
    pub fn vif(&self) -> bool
        ensures { result ≡ self.now.world.vif }
    {
        self.vif
    }

    /// Enables or disables virtual interrupts.
    pub fn set_vif(&mut self, on: bool)
        ensures world { self.new.world ≡ record self.old.world { vif = on } }
        ensures bytes { self.new.bytes ≡ self.old.bytes }
    {
        self.vif = on;
    }

    /// The pages that memory blocks may have together.
    #[tactic(auto, unfolding(host_memory::specs::Layout::world_of))]
    pub fn budget(&self) -> u32
        ensures budget { result ≡ self.now.world.budget }
        ensures most { result ≤ MAX_PAGES }
    {
        self.pages
    }
}

// Each segment register holds a word: the type says so, and contracts see numbers alone.
pub(crate) fn segments_fit(r: Regs)
    ensures { HasSegments r }
{}
