// Bytes at far pointers, by the rules of protected mode, whatever the mode is.
ghost use Rattle.std.specs.Prelude.{◌≡◌, ◌≤◌, ◌<◌, IsTrue, true, false, [], ◌∷◌, length};
ghost use Rattle.client_world.specs.{declared.host_frames.TheConstants.{PAGE_SIZE}, Access.{far_access, is_reachable}};
ghost use Rattle.host_memory.specs.View.{OnlyAt};
ghost use Rattle.guest_space.specs.{Far.{far_bytes, after_far_write}, Transfer.{places_of_access}};

use crate::machine::Machine;
use client_world::{FarPtr, SegReg};

impl Machine {
    /// Whether n bytes at a far pointer may be read, or written, 1 to 4096 of them, by the rules of protected mode in either mode. Source:
    /// 80386 Programmer's Reference Manual, ch. 5 and 6.
    pub fn far_ok(&self, p: FarPtr, n: u32, write: bool) -> bool
        requires some { 0 < n }
        requires few { n ≤ PAGE_SIZE }
        ensures { result ≡ is_reachable self.now.world p n write }
    {
        match self.protected_base(SegReg::Es, p.sel, p.off, n, write) {
            Ok(base) => self.check(base.wrapping_add(p.off), n, write).is_ok(),
            Err(_) => false,
        }
    }

    /// Reads the bytes at a far pointer, 1 to 4096 of them, which are reachable. Source: 80386 Programmer's Reference Manual, ch. 5 and 6.
    pub fn read_bytes(&self, p: FarPtr, into: &mut [u8])
        requires some { 0 < length into.old }
        requires few { length into.old ≤ PAGE_SIZE }
        requires reachable { IsTrue (is_reachable self.now.world p (length into.old) false) }
        ensures { into.new ≡ far_bytes self.now.world p (length into.old) }
    {
        if let Ok(base) = self.protected_base(SegReg::Es, p.sel, p.off, into.len() as u32, false) {
            self.load_into(base.wrapping_add(p.off), into);
        }
    }

    /// Writes bytes at a far pointer, 1 to 4096 of them, which are reachable for writing. Of the memory only the bytes of their places
    /// change, and none of the host's frames. Source: 80386 Programmer's Reference Manual, ch. 5 and 6.
    pub fn write_bytes(&mut self, p: FarPtr, bytes: &[u8])
        requires some { 0 < length bytes.now }
        requires few { length bytes.now ≤ PAGE_SIZE }
        requires reachable { IsTrue (is_reachable self.old.world p (length bytes.now) true) }
        ensures written { self.new ≡ after_far_write self.old p (length bytes.now) bytes.now }
        ensures only { OnlyAt (places_of_access (far_access self.old.world p (length bytes.now) true))
            self.old.bytes self.new.bytes }
    {
        self.holds_world();
        if let Ok(base) = self.protected_base(SegReg::Es, p.sel, p.off, bytes.len() as u32, true) {
            self.put(base.wrapping_add(p.off), bytes);
        }
    }

    /// The byte at a far pointer, which is reachable. Source: 80386 Programmer's Reference Manual, ch. 5 and 6.
    pub fn far_get8(&self, p: FarPtr) -> u8
        requires { IsTrue (is_reachable self.now.world p 1 false) }
        ensures { result ∷ [] ≡ far_bytes self.now.world p 1 }
    {
        let mut byte = [0];
        self.read_bytes(p, &mut byte);
        byte[0]
    }

    /// Puts a byte at a far pointer, which is reachable for writing. Of the memory only that byte changes. Source: 80386 Programmer's
    /// Reference Manual, ch. 5 and 6.
    pub fn far_set8(&mut self, p: FarPtr, v: u8)
        requires { IsTrue (is_reachable self.old.world p 1 true) }
        ensures written { self.new ≡ after_far_write self.old p 1 (v ∷ []) }
        ensures only { OnlyAt (places_of_access (far_access self.old.world p 1 true)) self.old.bytes self.new.bytes }
    {
        self.write_bytes(p, &[v]);
    }
}
