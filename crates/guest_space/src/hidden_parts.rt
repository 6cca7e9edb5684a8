// The hidden parts of the segment registers.
ghost use Rattle.std.specs.Prelude.{◌≡◌, ◌<◌, ◌^◌, IsTrue, Ok, false};
ghost use Rattle.client_world.specs.{declared.registers.Mode.TheVariants.{Protected as protected}, declared.segments.SegReg.{SegReg}};
ghost use Rattle.client_world.specs.{declared.segments.SegReg.TheVariants.{Cs as cs}, Descriptor.{access_byte, is_within}};
ghost use Rattle.client_world.specs.{Segments.{selector}, Selector.{FitsRow}};
ghost use Rattle.desc_table.specs.Rows.{HasRows, rows_from, rows_start};
ghost use Rattle.guest_space.specs.HiddenParts.{all_found, base_within, is_data_with, number, part_in_row, part_of_selector};

use crate::segments::{fault_with, stack_or, suits_register};
use client_world::faults::GENERAL_PROTECTION;
use client_world::memory_map::{PARAGRAPH_SIZE, SEGMENT_SIZE};
use client_world::selectors::{index_of, is_local, is_null};
use client_world::{Desc, Fault, Mode, Origin, Regs, SegReg, is_set};
use desc_table::access_bits::{EXECUTABLE, EXPAND_DOWN, WRITABLE};
use desc_table::{access_byte, look};
use guest_ram::Ram;

// The access byte of present data that may be written, which every segment is in real mode.
const REAL_ACCESS: u8 = 0xF3;

// The number of bytes up to the greatest offset of a segment of 16 bits, and of one of 32.
const SPAN_OF_16_BITS: u64 = 0x1_0000;

const SPAN_OF_32_BITS: u64 = 0x1_0000_0000;

/// What the processor keeps of the segment that a segment register names: the linear address of its first byte, the last byte that its
/// limit names, its access byte, and its bit D or B. Source: 80386 Programmer's Reference Manual, ch. 5, figure 5-7.
#[derive(Clone, Copy, Debug, PartialEq, Eq)]
pub struct Hidden {
    pub base: u32,
    pub limit: u32,
    pub access: u8,
    pub size: bool,
}

// Whether the access byte is one of data, with that bit set.
#[inline(always)]
fn is_data_with(access: u8, bit: u32) -> bool
    requires { 0 < bit }
    ensures { result ≡ is_data_with access bit }
{
    let access = u32::from(access);
    !is_set(access, EXECUTABLE) && is_set(access, bit)
}

impl Hidden {
    // Whether n bytes at an offset lie up to the limit, and the segment doesn't expand down, and may be written if they shall be. The
    // access is allowed then.
    #[inline(always)]
    pub(crate) fn allows(&self, off: u32, n: u32, write: bool) -> bool
        ensures { IsTrue result → (seg : SegReg) → base_within self.now seg off n write ≡ Ok self.now.base }
    {
        !is_data_with(self.access, EXPAND_DOWN)
            && (!write || is_data_with(self.access, WRITABLE))
            && u64::from(off) + u64::from(n.saturating_sub(1)) <= u64::from(self.limit)
    }

    // Whether a byte at an offset lies up to the limit, of a segment that doesn't expand down. It may be fetched then.
    #[inline(always)]
    pub(crate) fn has_code_at(&self, off: u32) -> bool
        ensures { IsTrue result → is_data_with self.now.access 4 ≡ false → base_within self.now cs off 1 false ≡ Ok self.now.base }
    {
        off <= self.limit
    }

    // Whether n bytes at an offset lie inside the segment.
    fn contains(&self, off: u32, n: u32) -> bool
        ensures { result ≡ is_within (is_data_with self.now.access 4) self.now.size self.now.limit off n }
    {
        let end = u64::from(off) + u64::from(n);
        if is_data_with(self.access, EXPAND_DOWN) {
            let span = if self.size {
                SPAN_OF_32_BITS
            } else {
                SPAN_OF_16_BITS
            };
            self.limit < off && end <= span
        } else {
            end <= u64::from(self.limit) + 1 && end <= SPAN_OF_32_BITS
        }
    }

    /// An access to n bytes at an offset: the linear address of the segment's first byte, or the fault.
    pub(crate) fn base_within(
        &self,
        seg: SegReg,
        off: u32,
        n: u32,
        write: bool,
    ) -> Result<u32, Fault>
        ensures { result ≡ base_within self.now seg off n write }
    {
        if write && !is_data_with(self.access, WRITABLE) {
            Err(fault_with(GENERAL_PROTECTION, 0))
        } else if !self.contains(off, n) {
            Err(fault_with(stack_or(seg, GENERAL_PROTECTION), 0))
        } else {
            Ok(self.base)
        }
    }
}

/// The place of a register's part among the six.
#[inline(always)]
pub(crate) fn number(seg: SegReg) -> usize
    ensures value { result ≡ number seg }
    ensures few { result < 6 }
{
    match seg {
        SegReg::Es => 0,
        SegReg::Cs => 1,
        SegReg::Ss => 2,
        SegReg::Ds => 3,
        SegReg::Fs => 4,
        SegReg::Gs => 5,
    }
}

// The part that a row of the table gives a register.
fn part_in_row(seg: SegReg, row: Option<(Desc, Origin)>) -> Option<Hidden>
    requires { FitsRow row }
    ensures { result ≡ part_in_row seg row }
{
    let Some((d, _)) = row else {
        return None;
    };
    if !suits_register(seg, d.kind) || !d.present {
        return None;
    }
    Some(Hidden {
        base: d.base,
        limit: d.byte_limit(),
        access: access_byte(&d),
        size: d.size,
    })
}

// The part of a register that holds a selector in protected mode.
#[inline(never)]
#[tactic(auto, unfolding(crate::specs::HiddenParts::part_of_selector))]
fn protected_part(ram: &Ram, seg: SegReg, sel: u16) -> Option<Hidden>
    requires { HasRows ram.now }
    ensures { result ≡ part_of_selector protected (rows_from ram.now rows_start) seg sel }
{
    if is_null(sel) {
        None
    } else if !is_local(sel) {
        None
    } else {
        part_in_row(seg, look(ram, index_of(sel)))
    }
}

/// The part of a register that holds a selector, or in real mode a segment.
#[inline(always)]
#[tactic(auto, unfolding(crate::specs::HiddenParts::part_of_selector))]
pub(crate) fn part_of_selector(ram: &Ram, mode: Mode, seg: SegReg, sel: u16) -> Option<Hidden>
    requires { HasRows ram.now }
    ensures { result ≡ part_of_selector mode (rows_from ram.now rows_start) seg sel }
{
    match mode {
        Mode::Real => Some(Hidden {
            base: u32::from(sel) * PARAGRAPH_SIZE,
            limit: SEGMENT_SIZE - 1,
            access: REAL_ACCESS,
            size: false,
        }),
        Mode::Protected => protected_part(ram, seg, sel),
    }
}

/// The parts of all six registers.
pub(crate) fn all_parts(ram: &Ram, mode: Mode, r: &Regs) -> [Option<Hidden>; 6]
    requires { HasRows ram.now }
    ensures { result ≡ all_found mode r.now (rows_from ram.now rows_start) }
{
    [
        part_of_selector(ram, mode, SegReg::Es, r.es),
        part_of_selector(ram, mode, SegReg::Cs, r.cs),
        part_of_selector(ram, mode, SegReg::Ss, r.ss),
        part_of_selector(ram, mode, SegReg::Ds, r.ds),
        part_of_selector(ram, mode, SegReg::Fs, r.fs),
        part_of_selector(ram, mode, SegReg::Gs, r.gs),
    ]
}

// The part of a register after its selector has changed, if it has.
fn part_after(
    ram: &Ram,
    mode: Mode,
    seg: SegReg,
    was: Option<Hidden>,
    old: u16,
    new: u16,
) -> Option<Hidden>
    requires rows { HasRows ram.now }
    requires was { was ≡ part_of_selector mode (rows_from ram.now rows_start) seg old }
    ensures { result ≡ part_of_selector mode (rows_from ram.now rows_start) seg new }
{
    if old == new {
        was
    } else {
        part_of_selector(ram, mode, seg, new)
    }
}

/// Whether the six segment registers hold the same.
#[inline(always)]
pub(crate) fn have_same_selectors(r: &Regs, s: &Regs) -> bool
    ensures { IsTrue result → (seg : SegReg) → selector r.now seg ≡ selector s.now seg }
{
    r.es == s.es && r.cs == s.cs && r.ss == s.ss && r.ds == s.ds && r.fs == s.fs && r.gs == s.gs
}

/// The parts of all six registers after some of them have changed, from what they were.
#[inline(never)]
pub(crate) fn parts_after(
    ram: &Ram,
    mode: Mode,
    parts: &[Option<Hidden>; 6],
    old: &Regs,
    new: &Regs,
) -> [Option<Hidden>; 6]
    requires rows { HasRows ram.now }
    requires parts { parts.now ≡ all_found mode old.now (rows_from ram.now rows_start) }
    ensures { result ≡ all_found mode new.now (rows_from ram.now rows_start) }
{
    [
        part_after(ram, mode, SegReg::Es, parts[0], old.es, new.es),
        part_after(ram, mode, SegReg::Cs, parts[1], old.cs, new.cs),
        part_after(ram, mode, SegReg::Ss, parts[2], old.ss, new.ss),
        part_after(ram, mode, SegReg::Ds, parts[3], old.ds, new.ds),
        part_after(ram, mode, SegReg::Fs, parts[4], old.fs, new.fs),
        part_after(ram, mode, SegReg::Gs, parts[5], old.gs, new.gs),
    ]
}
