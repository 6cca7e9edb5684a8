// Several reads or writes whose bytes lie in one page: one look at the segment and one walk of the page tables serve all of them.
ghost use Rattle.std.specs.Prelude.{◌≡◌, ◌<◌, ◌≤◌, ◌+◌, ℕ, All, IfSome, None, ◌*◌, List, Ok, slice_index_or};
ghost use Rattle.client_world.specs.{declared.host_frames.TheConstants.{PAGE_SIZE}, declared.memory_map.TheConstants.{SEGMENT_SIZE}};
ghost use Rattle.guest_space.specs.{Pending.{byte_count, first_write_fault, after_write, after_writes}, Transfer.{after_store}};
ghost use Rattle.guest_space.specs.{Transfer.{read_result}, WriteRuns.{LiesIn, IsRun, AreRuns}};

use crate::machine::Machine;
use crate::memory::{are_bytes, is_in_page};
use crate::pending::{Write, byte_count, dword_bytes, word_bytes};
use client_world::host_frames::PAGE_SIZE;
use client_world::memory_map::SEGMENT_SIZE;
use client_world::{SegReg, low_half};

// The lowest offset of some writes, and the one after their last byte, if all of them are made through that segment register.
#[inline(always)]
fn span_of(seg: SegReg, writes: &[Write]) -> Option<(u32, u64)>
    ensures { IfSome result (λ span. All (λ x. LiesIn seg span.0 span.1 x) writes.now) }
{
    let mut low = u32::MAX;
    let mut high = 0_u64;
    for x in writes {
        if x.seg != seg {
            return None;
        }
        let end = u64::from(x.off) + u64::from(byte_count(x.width));
        low = low.min(x.off);
        high = high.max(end);
    }
    Some((low, high))
}

impl Machine {
    // The address in the memory of n bytes at an offset of a segment register, if they lie in one page and may be written.
    #[inline(always)]
    pub(crate) fn run_at(&self, seg: SegReg, off: u32, n: u32) -> Option<u32>
        requires { n ≤ PAGE_SIZE }
        ensures { IfSome result (λ at. IsRun self.now seg off n at) }
    {
        let base = match self.quick_base(seg, off, n, true) {
            Some(base) => base,
            None => self.segment_base(seg, off, n, true).ok()?,
        };
        let lin = base.wrapping_add(off);
        if is_in_page(lin, n) {
            self.translate(lin, true).ok()
        } else {
            None
        }
    }

    // The distance from a write's offset to the address of its bytes in the memory, modulo 2^32. It is the same for all of some writes
    // that lie in one page and have no fault. `None` says nothing.
    #[inline(always)]
    pub(crate) fn shift_of(&self, writes: &[Write]) -> Option<u32>
        ensures runs { IfSome result (λ shift. AreRuns self.now shift writes.now) }
        ensures none { IfSome result (λ _. first_write_fault self.now.world writes.now ≡ None) }
    {
        self.holds_world();
        let seg = writes.first()?.seg;
        let (low, high) = span_of(seg, writes)?;
        let start = u64::from(low);
        if high < start || u64::from(PAGE_SIZE) < high - start {
            return None;
        }

        let at = self.run_at(seg, low, (high - start) as u32)?;
        Some(at.wrapping_sub(low))
    }

    // Puts N bytes at an offset of a segment register, whose address in the memory is known.
    #[inline(always)]
    pub(crate) fn put_run<const N: usize>(
        &mut self,
        seg: SegReg,
        off: u32,
        at: u32,
        bytes: &[u8; N],
    )
        requires some { 0 < N }
        requires run { IsRun self.old seg off N at }
        ensures bytes { self.new ≡ after_store self.old seg off N bytes.now }
        ensures kept { (s : SegReg) (offset n address : ℕ) → IsRun self.old s offset n address → IsRun self.new s offset n address }
    {
        are_bytes(bytes);
        self.ram.write(at, bytes);
    }

    // Makes a write, of whose bytes the address in the memory is known.
    #[inline(always)]
    pub(crate) fn make_at(&mut self, x: &Write, at: u32)
        requires { IsRun self.old x.now.seg x.now.off (byte_count x.now.width) at }
        ensures written { self.new ≡ after_write self.old x.now }
        ensures kept { (s : SegReg) (offset n address : ℕ) → IsRun self.old s offset n address → IsRun self.new s offset n address }
    {
        if x.width == 8 {
            self.put_run(x.seg, x.off, at, &[(x.value % 0x100) as u8]);
        } else if x.width == 16 {
            self.put_run(x.seg, x.off, at, &word_bytes(low_half(x.value)));
        } else {
            self.put_run(x.seg, x.off, at, &dword_bytes(x.value));
        }
    }

    // Makes some writes, whose addresses in the memory are their offsets plus a shift.
    #[inline(always)]
    pub(crate) fn make_runs(&mut self, shift: u32, writes: &[Write])
        requires { AreRuns self.old shift writes.now }
        ensures { self.new ≡ after_writes self.old writes.now }
    {
        for x in writes {
            self.make_at(x, x.off.wrapping_add(shift));
        }
    }
}

// The most bytes of an item of a run of eight: the run is a page at most. Source: own.
const MAX_ITEM: u32 = 512;

impl Machine {
    // The N bytes at a distance in bytes from the beginning of a run, whose address in the memory is known.
    #[inline(always)]
    pub(crate) fn part_of_run<const N: usize>(
        &self,
        seg: SegReg,
        off: u32,
        n: u32,
        at: u32,
        from: u32,
    ) -> [u8; N]
        requires some { 0 < N }
        requires part { from + N ≤ n }
        requires run { IsRun self.now seg off n at }
        ensures { read_result self.now.world seg (off + from) N ≡ Ok result }
    {
        self.ram.get(at + from)
    }

    /// Eight items of N bytes each, 1 to 512, one after another from an offset of a segment register on, where one look shows that all of
    /// them lie below the offset 10000h and in one page, and may be read and written; `None` says nothing. Source: own.
    #[inline(always)]
    pub fn read_eight<const N: usize>(&self, seg: SegReg, off: u32) -> Option<[[u8; N]; 8]>
        ensures items { IfSome result (λ items. (k : ℕ) (d : List ℕ) → k < 8 →
            read_result self.now.world seg (off + N * k) N ≡ Ok (slice_index_or items k d)) }
        ensures inside { IfSome result (λ _. off + N * 8 ≤ SEGMENT_SIZE) }
    {
        if N == 0 || N > MAX_ITEM as usize {
            return None;
        }
        let size = N as u32;
        let n = 8 * size;
        if off >= SEGMENT_SIZE || n > SEGMENT_SIZE - off {
            return None;
        }

        let at = self.run_at(seg, off, n)?;
        Some([
            self.part_of_run(seg, off, n, at, 0),
            self.part_of_run(seg, off, n, at, size),
            self.part_of_run(seg, off, n, at, 2 * size),
            self.part_of_run(seg, off, n, at, 3 * size),
            self.part_of_run(seg, off, n, at, 4 * size),
            self.part_of_run(seg, off, n, at, 5 * size),
            self.part_of_run(seg, off, n, at, 6 * size),
            self.part_of_run(seg, off, n, at, 7 * size),
        ])
    }
}
