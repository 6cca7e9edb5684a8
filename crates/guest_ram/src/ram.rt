// A list of bytes that never changes its length.
ghost use Rattle.std.specs.{Prelude.{◌≡◌, ◌≤◌, ◌<◌, ◌+◌, ◌*◌, List, ℕ, true, IfOk, length, slice_index, slice_set}, Borrow.{full_share}};
ghost use Rattle.std.specs.Borrow.{sem, u8};
ghost use Rattle.guest_ram.specs.{Bytes.{all_fit, word_of, with_word, dword, dword_bytes, put, region}, Listed.{copies, zeros}};
ghost use Rattle.guest_ram.specs.{Owned.{bytes_type}, declared.ram.TheConstants.{FRAME_SIZE, MAX_FRAMES}};
ghost use denote.Array.{Array};
ghost use denote.RawPtr.{lies_at, room_for};

use std::alloc::{AllocError, Allocator, Global};
use std::marker::Model;

/// The bytes of a frame. Source: 80386 Programmer's Reference Manual, ch. 5, "Page Translation".
pub const FRAME_SIZE: u32 = 4096;

/// The most frames of a memory. Source: own.
pub const MAX_FRAMES: u32 = 65_536;

/// The memory of the machine, seen as the list of its bytes. Its length never changes.
pub struct Ram {
    pub(crate) block: *mut u8,
    pub(crate) frames: u32,
    pub(crate) alloc: Global,
    ghost bytes: { List ℕ },
    ghost long: { length bytes ≡ FRAME_SIZE * frames },
    ghost few: { frames ≤ MAX_FRAMES },
    ghost fit: { all_fit bytes ≡ true },
}

impl Model for Ram {
    ghost use Rattle.std.specs.Prelude.{◌≡◌, ◌≤◌, ◌*◌, List, ℕ, length, true};
    ghost use Rattle.guest_ram.specs.Owned.{block_owns, block_shares};
    ghost use Rattle.guest_ram.specs.declared.ram.TheConstants.{FRAME_SIZE, MAX_FRAMES};

    ghost Value = { List ℕ };

    ghost also_owns = { λ r. block_owns r.alloc r.block (FRAME_SIZE * r.frames) r.bytes };

    ghost also_shares = { λ r _ κ. block_shares r.block (FRAME_SIZE * r.frames) r.bytes κ };

    ghost view = { λ r. r.bytes };

    ghost invariant = { λ r. length r.bytes ≤ MAX_FRAMES * FRAME_SIZE };
}

impl Ram {
    /// That many frames of zero bytes, 1 to `MAX_FRAMES`, or `AllocError` where memory is short. Source: own.
    pub fn new(alloc: Global, frames: u32) -> Result<Ram, AllocError>
        requires some { 0 < frames }
        requires few { frames ≤ MAX_FRAMES }
        ensures size { IfOk result (λ ram. length ram ≡ frames * FRAME_SIZE) }
        ensures zero { IfOk result (λ ram. (at : ℕ) → slice_index ram at ≡ 0) }
    {
        zeroed(&alloc, frames)
    }

    /// The number of bytes.
    pub fn len(&self) -> u32
        ensures { result ≡ length self.now }
    {
        self.frames * FRAME_SIZE
    }

    /// Each is a byte.
    pub fn bytes_fit(&self)
        ensures { (at : ℕ) → slice_index self.now at < 0x100 }
    {
        let _ = &self.frames;
    }

    /// The byte at an address, which is below `len`.
    pub fn get8(&self, at: u32) -> u8
        requires { at < length self.now }
        ensures { result ≡ slice_index self.now at }
    {
        self.byte_at(at as usize)
    }

    /// The word at an address, least byte first. Source: 80386 Programmer's Reference Manual, ch. 2, "Data Types".
    pub fn get16(&self, at: u32) -> u16
        requires { at + 1 < length self.now }
        ensures { result ≡ word_of self.now at }
    {
        self.word_at(at as usize)
    }

    /// The doubleword at an address, least byte first. Source: 80386 Programmer's Reference Manual, ch. 2, "Data Types".
    #[tactic(auto, unfolding(crate::specs::Bytes::dword))]
    pub fn get32(&self, at: u32) -> u32
        requires { at + 3 < length self.now }
        ensures { result ≡ dword self.now at }
    {
        let from = at as usize;
        u32::from(self.word_at(from)) + 0x1_0000 * u32::from(self.word_at(from + 2))
    }

    /// The N bytes from an address on.
    pub fn get<const N: usize>(&self, at: u32) -> [u8; N]
        requires { at + N ≤ length self.now }
        ensures { result ≡ region self.now at N }
    {
        let from = at as usize;
        let mut run = [0; N];
        for i in 0..N {
            run[i] = self.byte_at(from + i);
        }
        run
    }

    /// Puts a byte at an address.
    pub fn set8(&mut self, at: u32, v: u8)
        requires { at < length self.old }
        ensures bytes { self.new ≡ slice_set self.old at v }
        ensures size { length self.new ≡ length self.old }
    {
        unsafe { *self.block.add(at as usize) = v }
    }

    /// Puts a word at an address, least byte first. Source: 80386 Programmer's Reference Manual, ch. 2, "Data Types".
    pub fn set16(&mut self, at: u32, v: u16)
        requires { at + 1 < length self.old }
        ensures bytes { self.new ≡ with_word self.old at v }
        ensures size { length self.new ≡ length self.old }
    {
        let low = (v % 0x100) as u8;
        let high = (v / 0x100) as u8;
        unsafe {
            let place = self.block.add(at as usize);
            *place = low;
            *place.add(1) = high;
        }
    }

    /// Puts a doubleword at an address, least byte first. Source: 80386 Programmer's Reference Manual, ch. 2, "Data Types".
    pub fn set32(&mut self, at: u32, v: u32)
        requires { at + 3 < length self.old }
        ensures bytes { self.new ≡ put self.old at (dword_bytes v) }
        ensures size { length self.new ≡ length self.old }
    {
        let first = (v % 0x100) as u8;
        let second = (v / 0x100 % 0x100) as u8;
        let third = (v / 0x1_0000 % 0x100) as u8;
        let fourth = (v / 0x100_0000) as u8;
        unsafe {
            let place = self.block.add(at as usize);
            *place = first;
            *place.add(1) = second;
            *place.add(2) = third;
            *place.add(3) = fourth;
        }
    }

    /// Puts bytes from an address on.
    pub fn write(&mut self, at: u32, bytes: &[u8])
        requires { at + length bytes.now ≤ length self.old }
        ensures bytes { self.new ≡ put self.old at bytes.now }
        ensures size { length self.new ≡ length self.old }
    {
        let _ = &self.frames;
        // As few stores as there can be: doublewords, then a word, then a byte.
        let fours = bytes.len() / 4;
        for k in 0..fours {
            self.set32(at + 4 * k as u32, doubleword(bytes, 4 * k));
        }
        let twos = bytes.len() / 2;
        for k in 2 * fours..twos {
            self.set16(at + 2 * k as u32, word(bytes, 2 * k));
        }
        for i in 2 * twos..bytes.len() {
            self.set8(at + i as u32, bytes[i]);
        }
    }

    /// Copies n bytes from an address to another; the two ranges may overlap.
    pub fn copy(&mut self, from: u32, to: u32, n: u32)
        requires source { from + n ≤ length self.old }
        requires target { to + n ≤ length self.old }
        ensures bytes { self.new ≡ put self.old to (region self.old from n) }
        ensures size { length self.new ≡ length self.old }
    {
        if to <= from {
            self.copy_up(from, to, n);
        } else {
            self.copy_down(from, to, n);
        }
    }

    /// Puts n copies of a byte from an address on.
    pub fn fill(&mut self, at: u32, n: u32, v: u8)
        requires { at + n ≤ length self.old }
        ensures bytes { self.new ≡ put self.old at (copies n v) }
        ensures size { length self.new ≡ length self.old }
    {
        let n = n as usize;
        let place = unsafe { self.block.add(at as usize) };
        let mut i = 0;
        while i < n {
            unsafe { *place.add(i) = v };
            i += 1;
        }
    }

    // The byte at an address as wide as a pointer: sums of such addresses need no cast, so neighbouring
    // bytes become one load.
    #[inline(always)]
    fn byte_at(&self, at: usize) -> u8
        requires { at < length self.now }
        ensures { result ≡ slice_index self.now at }
    {
        unsafe { *self.block.add(at) }
    }

    // The word at such an address, least byte first.
    #[inline(always)]
    fn word_at(&self, at: usize) -> u16
        requires { at + 1 < length self.now }
        ensures { result ≡ word_of self.now at }
    {
        // The bytes are so few that their addresses fit.
        let _ = &self.frames;
        u16::from(self.byte_at(at)) + 0x100 * u16::from(self.byte_at(at + 1))
    }

    // From the first byte on: the bytes that are still to be copied aren't overwritten.
    fn copy_up(&mut self, from: u32, to: u32, n: u32)
        requires source { from + n ≤ length self.old }
        requires order { to ≤ from }
        ensures bytes { self.new ≡ put self.old to (region self.old from n) }
        ensures size { length self.new ≡ length self.old }
    {
        let _ = &self.frames;
        for i in 0..n {
            let v = self.get8(from + i);
            self.set8(to + i, v);
        }
    }

    // From the last byte on.
    fn copy_down(&mut self, from: u32, to: u32, n: u32)
        requires target { to + n ≤ length self.old }
        requires order { from ≤ to }
        ensures bytes { self.new ≡ put self.old to (region self.old from n) }
        ensures size { length self.new ≡ length self.old }
    {
        let _ = &self.frames;
        for i in 0..n {
            let last = n - 1 - i;
            let v = self.get8(from + last);
            self.set8(to + last, v);
        }
    }

    // Gives the block back.
    fn free(self, alloc: &Global) {
        let Ram {
            block,
            frames,
            alloc: _,
        } = self;
        unsafe { alloc.deallocate(block, FRAME_SIZE as usize * frames as usize, 1) }
    }
}

impl Drop for Ram {
    fn drop(self) {
        let alloc = self.alloc;
        self.free(&alloc);
    }
}

/// The word at an index of a run of bytes, least byte first. Source: 80386 Programmer's Reference Manual, ch. 2, "Data Types".
pub fn word(bytes: &[u8], i: usize) -> u16
    requires { i + 1 < length bytes.now }
    ensures { result ≡ word_of bytes.now i }
{
    u16::from(bytes[i]) + 0x100 * u16::from(bytes[i + 1])
}

/// The doubleword at an index of a run of bytes, least byte first. Source: 80386 Programmer's Reference Manual, ch. 2, "Data Types".
#[tactic(auto, unfolding(crate::specs::Bytes::dword))]
pub fn doubleword(bytes: &[u8], i: usize) -> u32
    requires { i + 3 < length bytes.now }
    ensures { result ≡ dword bytes.now i }
{
    u32::from(word(bytes, i)) + 0x1_0000 * u32::from(word(bytes, i + 2))
}

// One block of that many frames, each byte 0.
fn zeroed(alloc: &Global, frames: u32) -> Result<Ram, AllocError>
    requires { frames ≤ MAX_FRAMES }
    ensures { IfOk result (λ ram. ram ≡ zeros (FRAME_SIZE * frames)) }
{
    let size = FRAME_SIZE as usize * frames as usize;
    match alloc.allocate(size, 1) {
        Ok(block) => {
            unsafe { put_zeros(block, size) };
            Ok(Ram {
                block,
                frames,
                alloc: *alloc,
            })
        }
        Err(error) => Err(error),
    }
}

// Puts a 0 at each of n places from p on.
unsafe fn put_zeros(p: *mut u8, n: usize)
    requires* { sem 𝓛 (room_for (bytes_type n) p) }
    ensures* { sem 𝓛 (lies_at (Array u8 n) full_share p (zeros n)) }
{
    let mut i = 0;
    while i < n {
        *p.add(i) = 0;
        i += 1;
    }
}
