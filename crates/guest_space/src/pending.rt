// Writes that are probed all together before the first is made.
ghost use Rattle.std.specs.Prelude.{◌≡◌, IsTrue, IsFalse, OnOk, IfErr, MatchResult, None, Some, true};
ghost use Rattle.client_world.specs.Access.{access};
ghost use Rattle.guest_ram.specs.Bytes.{dword_bytes};
ghost use Rattle.host_memory.specs.{Vectors.{word_bytes}, View.{OnlyAt}};
ghost use Rattle.guest_space.specs.Pending.{IsCountOfWidth, byte_count, number_bytes, write_fault, after_write, first_write_fault};
ghost use Rattle.guest_space.specs.{Pending.{after_writes, places_of_writes}, Transfer.{places_of_access}};

use crate::machine::Machine;
use client_world::{Fault, SegReg, low_half};

/// A write that is asked for: a number of 8, 16 or 32 bits (any other width counts as 32) at an offset of a segment register. Source: own.
#[derive(Clone, Copy, Debug, PartialEq, Eq)]
pub struct Write {
    pub seg: SegReg,
    pub width: u8,
    pub off: u32,
    pub value: u32,
}

/// The number of bytes of a width of 8, 16 or 32 bits; any other width counts as 32.
#[inline(always)]
pub fn byte_count(width: u8) -> u8
    ensures value { result ≡ byte_count width }
    ensures count { IsCountOfWidth result }
{
    match width {
        8 => 1,
        16 => 2,
        _ => 4,
    }
}

/// The bytes of a word, least byte first.
#[inline(always)]
pub fn word_bytes(v: u16) -> [u8; 2]
    ensures word { result ≡ word_bytes v }
    ensures number { result ≡ number_bytes 16 v }
{
    v.to_le_bytes()
}

/// The bytes of a doubleword, least byte first.
#[inline(always)]
pub fn dword_bytes(v: u32) -> [u8; 4]
    ensures dword { result ≡ dword_bytes v }
    ensures number { result ≡ number_bytes 32 v }
{
    v.to_le_bytes()
}

impl Machine {
    // The fault of a write, if it has one.
    #[inline(always)]
    fn fault_of_write(&self, x: &Write) -> Option<Fault>
        ensures { result ≡ write_fault self.now.world x.now }
    {
        self.probe(x.seg, x.off, u32::from(byte_count(x.width)), true)
            .err()
    }

    /// Makes a write, or returns its fault and changes nothing. Of the memory only the bytes of the write's places change, and none of the
    /// host's frames. Source: 80386 Programmer's Reference Manual, ch. 5 and 6.
    #[inline(always)]
    pub fn write_one(&mut self, x: &Write) -> Result<(), Fault>
        ensures made { MatchResult result
            (λ _. (write_fault self.old.world x.now ≡ None) × (self.new ≡ after_write self.old x.now))
            (λ fault. (write_fault self.old.world x.now ≡ Some fault) × (self.new ≡ self.old)) }
        ensures only { OnlyAt
            (places_of_access (access self.old.world x.now.seg x.now.off (byte_count x.now.width) true))
            self.old.bytes self.new.bytes }
    {
        self.holds_world();
        if x.width == 8 {
            self.write(x.seg, x.off, [(x.value % 0x100) as u8])
        } else if x.width == 16 {
            self.write(x.seg, x.off, word_bytes(low_half(x.value)))
        } else {
            self.write(x.seg, x.off, dword_bytes(x.value))
        }
    }

    // Makes a write that has no fault.
    #[inline(always)]
    fn make_probed(&mut self, x: &Write)
        requires { write_fault self.old.world x.now ≡ None }
        ensures { self.new ≡ after_write self.old x.now }
    {
        let _ = self.write_one(x);
    }

    /// The fault of the first of some writes that has one, or `None` where none has. Source: own.
    pub fn first_fault(&self, writes: &[Write]) -> Option<Fault>
        ensures { result ≡ first_write_fault self.now.world writes.now }
    {
        for x in writes {
            if let Some(fault) = self.fault_of_write(x) {
                return Some(fault);
            }
        }
        None
    }

    // Makes some writes, all of which are probed first.
    #[inline(never)]
    fn write_probed(&mut self, writes: &[Write]) -> Result<(), Fault>
        ensures done { OnOk result ((first_write_fault self.old.world writes.now ≡ None)
            × (self.new ≡ after_writes self.old writes.now)) }
        ensures refused { IfErr result (λ fault.
            (first_write_fault self.old.world writes.now ≡ Some fault) × (self.new ≡ self.old)) }
    {
        if let Some(fault) = self.first_fault(writes) {
            return Err(fault);
        }

        for x in writes {
            self.make_probed(x);
        }
        Ok(())
    }

    /// Makes all of some writes in their order, where one look shows that none has a fault, and returns `true`; else it does nothing.
    /// Source: own.
    #[inline(always)]
    pub fn write_quickly(&mut self, writes: &[Write]) -> bool
        ensures made { IsTrue result → (first_write_fault self.old.world writes.now ≡ None)
            × (self.new ≡ after_writes self.old writes.now) }
        ensures kept { IsFalse result → self.new ≡ self.old }
    {
        match self.shift_of(writes) {
            Some(shift) => {
                self.make_runs(shift, writes);
                true
            }
            None => false,
        }
    }

    /// Makes all of some writes in their order; or, where one of them has a fault, makes none and returns the first such fault. Of the
    /// memory only the bytes of the writes' places change, and none of the host's frames. Source: own.
    pub fn write_all(&mut self, writes: &[Write]) -> Result<(), Fault>
        ensures done { OnOk result ((first_write_fault self.old.world writes.now ≡ None)
            × (self.new ≡ after_writes self.old writes.now)) }
        ensures refused { IfErr result (λ fault.
            (first_write_fault self.old.world writes.now ≡ Some fault) × (self.new ≡ self.old)) }
        ensures only { OnlyAt (places_of_writes self.old.world writes.now) self.old.bytes self.new.bytes }
    {
        self.holds_world();
        if writes.len() == 1 {
            self.write_one(&writes[0])
        } else if self.write_quickly(writes) {
            Ok(())
        } else {
            self.write_probed(writes)
        }
    }
}
