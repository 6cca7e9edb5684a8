// From a linear address to the memory: by the page tables, and by the cache of their translations.
ghost use Rattle.std.specs.Prelude.{ℕ, ◌≡◌, ◌≤◌, ◌<◌, ◌%◌, IfSome, MatchResult, Ok, None, Some, true, false, ◌/◌, IsTrue, List};
ghost use Rattle.client_world.specs.{declared.host_frames.TheConstants.{PAGE_SIZE, PAGE_DIRECTORY}, Access.{may_touch, page_fault}};
ghost use Rattle.client_world.specs.Access.{place_of};
ghost use Rattle.guest_space.specs.{Transfer.{translated, linear_access, fault_of}, Cache.{ends, Hit, Warm}};
ghost use Rattle.guest_space.specs.declared.pages.TheConstants.{CACHE_SIZE};
ghost use Rattle.page_tables.specs.Walk.{IsFrame, TablesInside, walked};

use crate::machine::Machine;
use crate::memory::is_in_page;
use crate::segments::fault_with;
use client_world::faults::{PAGE_FAULT, PROTECTION_CODE, USER_CODE, WRITE_CODE};
use client_world::host_frames::{PAGE_DIRECTORY, PAGE_SIZE};
use client_world::{Fault, SegReg};
use guest_ram::Ram;
use page_tables::walk;

/// The number of entries of the cache.
pub(crate) const CACHE_SIZE: usize = 64;

// A number that no page has.
const NO_PAGE: u32 = 0x10_0000;

/// Where a linear page lies in the memory: its frame, and whether it may be written. Only a page that may be read is in use, and it is at
/// its own place: its number modulo the number of entries. An entry that isn't in use has a number that no page has, so that a look
/// compares numbers alone; `used` says the same.
/// Source: 80386 Programmer's Reference Manual, ch. 5, "Page Translation Cache".
#[derive(Clone, Copy, Debug, PartialEq, Eq)]
pub struct CacheEntry {
    pub used: bool,
    pub page: u32,
    pub frame: u32,
    pub writable: bool,
}

const EMPTY: CacheEntry = CacheEntry {
    used: false,
    page: NO_PAGE,
    frame: 0,
    writable: false,
};

/// A cache with no entry in use.
pub(crate) fn empty_cache() -> [CacheEntry; CACHE_SIZE]
    ensures { (b : List ℕ) → Warm b result }
{
    [EMPTY; CACHE_SIZE]
}

/// The place of a linear address's page in the cache.
#[inline(always)]
pub(crate) fn cache_place(lin: u32) -> usize
    ensures place { result ≡ lin / PAGE_SIZE % CACHE_SIZE }
    ensures inside { result < CACHE_SIZE }
{
    (lin / PAGE_SIZE) as usize % CACHE_SIZE
}

impl CacheEntry {
    /// Whether the entry tells of the page of a linear address, and for a write that it may be written.
    #[inline(always)]
    pub(crate) fn serves(&self, lin: u32, write: bool) -> bool
        ensures { IsTrue result → (self.now.page ≡ lin / PAGE_SIZE) × (write ≡ true → self.now.writable ≡ true) }
    {
        self.page == lin / PAGE_SIZE && (!write || self.writable)
    }
}

// Whether the byte of a linear address may be written.
fn is_writable(ram: &Ram, lin: u32) -> bool
    requires root { IsFrame ram.now PAGE_DIRECTORY }
    requires tables { TablesInside ram.now PAGE_DIRECTORY }
    ensures { result ≡ ends (walked ram.now PAGE_DIRECTORY lin true) }
{
    walk(ram, PAGE_DIRECTORY, lin, true).is_ok()
}

// The entry of a page of which a byte may be read, by where that ends.
fn entry_of(ram: &Ram, lin: u32, at: u32) -> CacheEntry
    requires root { IsFrame ram.now PAGE_DIRECTORY }
    requires tables { TablesInside ram.now PAGE_DIRECTORY }
    requires ends { walked ram.now PAGE_DIRECTORY lin false ≡ Ok at }
    ensures used { result.used ≡ true }
    ensures hit { Hit ram.now result }
    ensures page { result.page ≡ lin / PAGE_SIZE }
{
    CacheEntry {
        used: true,
        page: lin / PAGE_SIZE,
        frame: at / PAGE_SIZE,
        writable: is_writable(ram, lin),
    }
}

// The exception of an access to a forbidden page: whether a page is there, and whether it is a write.
fn page_fault(present: bool, write: bool) -> Fault
    ensures { result ≡ page_fault present write }
{
    let protection = if present { PROTECTION_CODE } else { 0 };
    let access = if write { WRITE_CODE } else { 0 };
    fault_with(PAGE_FAULT, USER_CODE + protection + access)
}

impl Machine {
    /// Where the byte of a linear address lies in the memory, where the cache has its page, for a write as one that may be written;
    /// `None` says nothing.
    #[inline(always)]
    pub(crate) fn noted_address(&self, lin: u32, write: bool) -> Option<u32>
        ensures { IfSome result (λ at. translated self.now lin write ≡ Ok at) }
    {
        let entry = &self.cache[cache_place(lin)];
        if entry.serves(lin, write) {
            Some(PAGE_SIZE * entry.frame + lin % PAGE_SIZE)
        } else {
            None
        }
    }

    /// Where the byte of a linear address lies in the memory, or the page fault of its access.
    #[inline(always)]
    pub(crate) fn translate(&self, lin: u32, write: bool) -> Result<u32, Fault>
        ensures { result ≡ translated self.now lin write }
    {
        match self.noted_address(lin, write) {
            Some(at) => Ok(at),
            None => self.walk_to(lin, write),
        }
    }

    // The same, by a walk of the page tables.
    #[inline(always)]
    fn walk_to(&self, lin: u32, write: bool) -> Result<u32, Fault>
        ensures { result ≡ translated self.now lin write }
    {
        match walk(&self.ram, PAGE_DIRECTORY, lin, write) {
            Ok(at) => Ok(at),
            Err(fault) => Err(page_fault(fault.present, write)),
        }
    }

    /// Whether the client may read the byte of a linear address, or write it.
    /// Source: 80386 Programmer's Reference Manual, ch. 6, "Page-Level Protection"; which pages it may touch is own.
    #[tactic(auto, unfolding(crate::specs::Transfer::translated))]
    pub fn may_touch(&self, lin: u32, write: bool) -> bool
        ensures { result ≡ may_touch (place_of self.now.world lin) write }
    {
        self.translate(lin, write).is_ok()
    }

    /// Whether each of n bytes from a linear address on may be touched, or the fault of the first that may not.
    #[inline(always)]
    pub(crate) fn check(&self, lin: u32, n: u32, write: bool) -> Result<(), Fault>
        requires some { 0 < n }
        requires few { n ≤ PAGE_SIZE }
        ensures { MatchResult result (λ _. fault_of (linear_access self.now.world lin n write) ≡ None)
            (λ fault. fault_of (linear_access self.now.world lin n write) ≡ Some fault) }
    {
        self.holds_world();
        self.translate(lin, write)?;
        if !is_in_page(lin, n) {
            let first = PAGE_SIZE - lin % PAGE_SIZE;
            self.translate(lin.wrapping_add(first), write)?;
        }
        Ok(())
    }

    // Notes where the page of a linear address lies, where it may be read.
    fn note(&mut self, lin: u32)
        ensures { self.new ≡ self.old }
    {
        if let Ok(at) = walk(&self.ram, PAGE_DIRECTORY, lin, false) {
            self.cache[cache_place(lin)] = entry_of(&self.ram, lin, at);
        }
    }

    /// Makes further accesses to the page of one byte at an offset of a segment register faster, where that byte may be read. Source: own.
    #[inline(never)]
    pub fn warm(&mut self, seg: SegReg, off: u32)
        ensures { self.new ≡ self.old }
    {
        if let Ok(base) = self.segment_base(seg, off, 1, false) {
            let lin = base.wrapping_add(off);
            if self.noted_address(lin, false).is_none() {
                self.note(lin);
            }
        }
    }
}
