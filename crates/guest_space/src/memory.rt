// Bytes read and written through segment registers: where a quick look shows them, at the hidden part of the register and at the cache for
// the page, and else by the tables.
ghost use Rattle.std.specs.Prelude.{ℕ, slice_index, ◌≡◌, ◌≤◌, ◌<◌, ◌+◌, ◌%◌, OnOk, IfErr, IfSome, MatchResult, nat_le, Ok, Err, None, Some};
ghost use Rattle.std.specs.Prelude.{true, false, length, [], ◌∷◌, IsTrue, IsFalse};
ghost use Rattle.client_world.specs.{declared.host_frames.TheConstants.{PAGE_SIZE}, Access.{access, byte_of, bytes_of, may_touch}};
ghost use Rattle.client_world.specs.Access.{place_of, places_from};
ghost use Rattle.host_memory.specs.View.{OnlyAt};
ghost use Rattle.guest_space.specs.{Machines.{HoldsItsWorld}, Transfer.{read_result, places_of_access, access_fault, after_store}};
ghost use Rattle.guest_space.specs.{Transfer.{translated, linear_access, bytes_at, fault_of, with_places}, Pending.{byte_count}};
ghost use Rattle.guest_space.specs.{Pending.{write_fault, after_write}, WriteRuns.{IsRun}};

use crate::machine::Machine;
use crate::pending::{Write, byte_count};
use client_world::host_frames::PAGE_SIZE;
use client_world::{Fault, SegReg};

/// Each element of a run of bytes is below 100h: the type says so, and contracts see numbers alone. Source: own.
pub fn are_bytes(bytes: &[u8])
    ensures { (i : ℕ) → slice_index bytes.now i < 0x100 }
{}

// Whether n bytes from a linear address on, at least one, lie in one page.
#[inline(always)]
pub(crate) fn is_in_page(lin: u32, n: u32) -> bool
    requires { n ≤ PAGE_SIZE }
    ensures { result ≡ nat_le (lin % PAGE_SIZE + n) PAGE_SIZE }
{
    lin % PAGE_SIZE + n <= PAGE_SIZE
}

impl Machine {
    /// The memory holds the machine's world.
    #[inline(always)]
    pub fn holds_world(&self)
        ensures { HoldsItsWorld self.now }
    {
        let _pages = self.pages;
    }

    // The byte at a linear address, or the page fault of its read.
    fn load8(&self, lin: u32) -> Result<u8, Fault>
        ensures { MatchResult result
            (λ byte. (may_touch (place_of self.now.world lin) false ≡ true) × (byte ≡ byte_of self.now.world (place_of self.now.world lin)))
            (λ fault. translated self.now lin false ≡ Err fault) }
    {
        let at = self.translate(lin, false)?;
        Ok(self.ram.get8(at))
    }

    // Puts a byte at a linear address where it may be written.
    fn put8(&mut self, lin: u32, v: u8)
        requires { may_touch (place_of self.old.world lin) true ≡ true }
        ensures { self.new ≡ with_places self.old (place_of self.old.world lin ∷ []) (v ∷ []) }
    {
        if let Ok(at) = self.translate(lin, true) {
            self.ram.set8(at, v);
        }
    }

    /// The N bytes from a linear address on.
    #[inline(always)]
    pub(crate) fn load<const N: usize>(&self, lin: u32) -> Result<[u8; N], Fault>
        requires some { 0 < N }
        requires few { N ≤ PAGE_SIZE }
        ensures { result ≡ bytes_at self.now.world (linear_access self.now.world lin N false) }
    {
        self.holds_world();
        if is_in_page(lin, N as u32) {
            let at = self.translate(lin, false)?;
            return Ok(self.ram.get(at));
        }

        let mut bytes = [0; N];
        for i in 0..N {
            bytes[i] = self.load8(lin.wrapping_add(i as u32))?;
        }
        Ok(bytes)
    }

    /// The N bytes at an offset of a segment register, or the fault of the access, 1 to 4096 of them.
    /// Source: 80386 Programmer's Reference Manual, ch. 5 and 6.
    #[inline(always)]
    #[tactic(auto, unfolding(crate::specs::Transfer::read_result, client_world::specs::Access::access))]
    pub fn read<const N: usize>(&self, seg: SegReg, off: u32) -> Result<[u8; N], Fault>
        requires some { 0 < N }
        requires few { N ≤ PAGE_SIZE }
        ensures { result ≡ read_result self.now.world seg off N }
    {
        match self.quick_base(seg, off, N as u32, false) {
            Some(base) => self.load(base.wrapping_add(off)),
            None => self.read_checked(seg, off),
        }
    }

    // The same, by the segment's rules in either mode.
    #[inline(never)]
    #[tactic(auto, unfolding(crate::specs::Transfer::read_result, client_world::specs::Access::access))]
    fn read_checked<const N: usize>(&self, seg: SegReg, off: u32) -> Result<[u8; N], Fault>
        requires some { 0 < N }
        requires few { N ≤ PAGE_SIZE }
        ensures { result ≡ read_result self.now.world seg off N }
    {
        let base = self.segment_base(seg, off, N as u32, false)?;
        self.load(base.wrapping_add(off))
    }

    /// Whether n bytes at an offset of a segment register may be read, or written, or the fault of the access, 1 to 4096 of them. Source:
    /// 80386 Programmer's Reference Manual, ch. 5 and 6.
    #[inline(always)]
    pub fn probe(&self, seg: SegReg, off: u32, n: u32, write: bool) -> Result<(), Fault>
        requires some { 0 < n }
        requires few { n ≤ PAGE_SIZE }
        ensures { MatchResult result (λ _. access_fault self.now.world seg off n write ≡ None)
            (λ fault. access_fault self.now.world seg off n write ≡ Some fault) }
    {
        match self.quick_base(seg, off, n, write) {
            Some(base) => self.check(base.wrapping_add(off), n, write),
            None => self.probe_checked(seg, off, n, write),
        }
    }

    // The same, by the segment's rules in either mode.
    #[inline(never)]
    #[tactic(auto, unfolding(crate::specs::Transfer::access_fault, client_world::specs::Access::access))]
    fn probe_checked(&self, seg: SegReg, off: u32, n: u32, write: bool) -> Result<(), Fault>
        requires some { 0 < n }
        requires few { n ≤ PAGE_SIZE }
        ensures { MatchResult result (λ _. access_fault self.now.world seg off n write ≡ None)
            (λ fault. access_fault self.now.world seg off n write ≡ Some fault) }
    {
        let base = self.segment_base(seg, off, n, write)?;
        self.check(base.wrapping_add(off), n, write)
    }

    /// Reads bytes from a linear address on, all of which may be read.
    pub(crate) fn load_into(&self, lin: u32, into: &mut [u8])
        requires some { 0 < length into.old }
        requires few { length into.old ≤ PAGE_SIZE }
        requires readable { fault_of (linear_access self.now.world lin (length into.old) false) ≡ None }
        ensures { into.new ≡ bytes_of self.now.world (places_from self.now.world.blocks lin (length into.old)) }
    {
        for i in 0..into.len() {
            if let Ok(byte) = self.load8(lin.wrapping_add(i as u32)) {
                into[i] = byte;
            }
        }
    }

    /// Puts bytes from a linear address on, all of which may be written.
    pub(crate) fn put(&mut self, lin: u32, bytes: &[u8])
        requires some { 0 < length bytes.now }
        requires few { length bytes.now ≤ PAGE_SIZE }
        requires writable { fault_of (linear_access self.old.world lin (length bytes.now) true) ≡ None }
        ensures { self.new ≡ with_places self.old (places_from self.old.world.blocks lin (length bytes.now)) bytes.now }
    {
        for i in 0..bytes.len() {
            self.put8(lin.wrapping_add(i as u32), bytes[i]);
        }
    }

    /// Puts N bytes from a linear address on; a fault changes nothing.
    #[inline(always)]
    pub(crate) fn store<const N: usize>(&mut self, lin: u32, bytes: &[u8; N]) -> Result<(), Fault>
        requires some { 0 < N }
        requires few { N ≤ PAGE_SIZE }
        ensures done { OnOk result ((fault_of (linear_access self.old.world lin N true) ≡ None)
            × (self.new ≡ with_places self.old (places_from self.old.world.blocks lin N) bytes.now)) }
        ensures refused { IfErr result (λ fault.
            (fault_of (linear_access self.old.world lin N true) ≡ Some fault) × (self.new ≡ self.old)) }
    {
        self.holds_world();
        if is_in_page(lin, N as u32) {
            are_bytes(bytes);
            let at = self.translate(lin, true)?;
            self.ram.write(at, bytes);
        } else {
            self.check(lin, N as u32, true)?;
            self.put(lin, bytes);
        }
        Ok(())
    }

    /// Puts N bytes at an offset of a segment register, 1 to 4096 of them; a fault changes nothing. Of the memory only the bytes of the
    /// write's places change, and none of the host's frames.
    /// Source: 80386 Programmer's Reference Manual, ch. 5 and 6.
    #[inline(always)]
    pub fn write<const N: usize>(&mut self, seg: SegReg, off: u32, v: [u8; N]) -> Result<(), Fault>
        requires some { 0 < N }
        requires few { N ≤ PAGE_SIZE }
        ensures done { OnOk result ((access_fault self.old.world seg off N true ≡ None)
            × (self.new ≡ after_store self.old seg off N v.entry)) }
        ensures refused { IfErr result (λ fault.
            (access_fault self.old.world seg off N true ≡ Some fault) × (self.new ≡ self.old)) }
        ensures only { OnlyAt (places_of_access (access self.old.world seg off N true)) self.old.bytes self.new.bytes }
    {
        self.holds_world();
        match self.quick_base(seg, off, N as u32, true) {
            Some(base) => self.store(base.wrapping_add(off), &v),
            None => self.write_checked(seg, off, v),
        }
    }

    // The same, by the segment's rules in either mode.
    #[inline(never)]
    fn write_checked<const N: usize>(
        &mut self,
        seg: SegReg,
        off: u32,
        v: [u8; N],
    ) -> Result<(), Fault>
        requires some { 0 < N }
        requires few { N ≤ PAGE_SIZE }
        ensures done { OnOk result ((access_fault self.old.world seg off N true ≡ None)
            × (self.new ≡ after_store self.old seg off N v.entry)) }
        ensures refused { IfErr result (λ fault.
            (access_fault self.old.world seg off N true ≡ Some fault) × (self.new ≡ self.old)) }
    {
        let base = self.segment_base(seg, off, N as u32, true)?;
        self.store(base.wrapping_add(off), &v)
    }
}

impl Machine {
    // The N bytes from a linear address on, where they lie in one page that the cache has; `None` says nothing.
    #[inline(always)]
    fn load_quickly<const N: usize>(&self, lin: u32) -> Option<[u8; N]>
        requires some { 0 < N }
        requires few { N ≤ PAGE_SIZE }
        ensures { IfSome result (λ bytes. bytes_at self.now.world (linear_access self.now.world lin N false) ≡ Ok bytes) }
    {
        if !is_in_page(lin, N as u32) {
            return None;
        }
        let at = self.noted_address(lin, false)?;
        Some(self.ram.get(at))
    }

    /// The N bytes at an offset of a segment register, 1 to 4096 of them, where a quick look shows them; `None` says nothing.
    /// Source: own.
    #[inline(always)]
    pub fn read_quickly<const N: usize>(&self, seg: SegReg, off: u32) -> Option<[u8; N]>
        requires some { 0 < N }
        requires few { N ≤ PAGE_SIZE }
        ensures { IfSome result (λ bytes. read_result self.now.world seg off N ≡ Ok bytes) }
    {
        let base = self.quick_base(seg, off, N as u32, false)?;
        self.load_quickly(base.wrapping_add(off))
    }

    /// The address in the memory of n bytes at an offset of a segment register, where a quick look shows that they lie in one page and may
    /// be read and written; `None` says nothing. Source: own.
    #[inline(always)]
    pub fn noted_run(&self, seg: SegReg, off: u32, n: u32) -> Option<u32>
        requires { n ≤ PAGE_SIZE }
        ensures { IfSome result (λ at. IsRun self.now seg off n at) }
    {
        let base = self.quick_base(seg, off, n, true)?;
        let lin = base.wrapping_add(off);
        if is_in_page(lin, n) {
            self.noted_address(lin, true)
        } else {
            None
        }
    }

    /// N bytes at an offset of a segment register, whose address in the memory is known. Source: own.
    #[inline(always)]
    pub fn read_run<const N: usize>(&self, seg: SegReg, off: u32, at: u32) -> [u8; N]
        requires some { 0 < N }
        requires few { N ≤ PAGE_SIZE }
        requires run { IsRun self.now seg off N at }
        ensures { read_result self.now.world seg off N ≡ Ok result }
    {
        self.part_of_run(seg, off, N as u32, at, 0)
    }

    /// Makes a write of whose bytes the address in the memory is known; it has no fault. Source: own.
    #[inline(always)]
    pub fn write_run(&mut self, x: &Write, at: u32)
        requires { IsRun self.old x.now.seg x.now.off (byte_count x.now.width) at }
        ensures allowed { write_fault self.old.world x.now ≡ None }
        ensures written { self.new ≡ after_write self.old x.now }
    {
        self.holds_world();
        self.make_at(x, at);
    }

    /// Makes a write where a quick look shows that it has no fault, and returns `true`; else it does nothing. Source: own.
    #[inline(always)]
    pub fn write_one_quickly(&mut self, x: &Write) -> bool
        ensures made { IsTrue result → (write_fault self.old.world x.now ≡ None) × (self.new ≡ after_write self.old x.now) }
        ensures kept { IsFalse result → self.new ≡ self.old }
    {
        match self.noted_run(x.seg, x.off, u32::from(byte_count(x.width))) {
            Some(at) => {
                self.write_run(x, at);
                true
            }
            None => false,
        }
    }
}
