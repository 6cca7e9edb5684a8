// Segment registers: where an access through one begins, how it is refused before any page is asked, and which selectors one takes.
ghost use Rattle.std.specs.Prelude.{◌≡◌, IfSome, IsTrue, None, Ok, false, ◌&&◌, ◌||◌, not, MatchResult, OnOk, IfErr, Some};
ghost use Rattle.client_world.specs.Access.{fault_with, stack_or, suits_register, base_in_row, protected_base, segment_base};
ghost use Rattle.client_world.specs.{Selector.{row_of_selector}, Loading.{transfer_fault, is_privileged, data_fault, stack_fault}};
ghost use Rattle.client_world.specs.{Loading.{code_fault, load_fault, register_fault}, Segments.{selector, with_selector}};
ghost use Rattle.client_world.specs.Descriptor.{is_code, is_writable};
ghost use Rattle.guest_space.specs.{HiddenParts.{found}, SegmentRows.{base_of_row, first_byte, has_size_bit, is_big}};

use crate::hidden_parts::{Hidden, number};
use crate::machine::Machine;
use client_world::faults::{GENERAL_PROTECTION, SEGMENT_NOT_PRESENT, STACK_EXCEPTION};
use client_world::selectors::{CLIENT_PRIVILEGE, is_null, privilege_of, selector_code};
use client_world::{Desc, Fault, Kind, Mode, Origin, SegReg};

/// The exception with that number and code.
pub(crate) fn fault_with(number: u8, code: u32) -> Fault
    ensures { result ≡ fault_with number code }
{
    Fault { number, code }
}

// Of an access through SS the stack's exception, else that one.
#[inline(always)]
pub(crate) fn stack_or(seg: SegReg, number: u8) -> u8
    ensures { result ≡ stack_or seg number }
{
    match seg {
        SegReg::Ss => STACK_EXCEPTION,
        _ => number,
    }
}

// Whether what the segment holds suits the register: CS takes code, and SS data that may be written.
pub(crate) fn suits_register(seg: SegReg, kind: Kind) -> bool
    ensures { result ≡ suits_register seg kind }
{
    match seg {
        SegReg::Cs => kind.is_code(),
        SegReg::Ss => kind.is_writable(),
        _ => true,
    }
}

// An access through a row of the table.
fn base_in_row(
    seg: SegReg,
    sel: u16,
    row: Option<(Desc, Origin)>,
    off: u32,
    n: u32,
    write: bool,
) -> Result<u32, Fault>
    ensures { result ≡ base_in_row seg sel row off n write }
{
    let Some((d, _)) = row else {
        return Err(fault_with(stack_or(seg, GENERAL_PROTECTION), selector_code(sel)));
    };
    if !suits_register(seg, d.kind) {
        Err(fault_with(stack_or(seg, GENERAL_PROTECTION), selector_code(sel)))
    } else if !d.present {
        Err(fault_with(stack_or(seg, SEGMENT_NOT_PRESENT), selector_code(sel)))
    } else if write && !d.kind.is_writable() {
        Err(fault_with(GENERAL_PROTECTION, 0))
    } else if !d.is_inside(off, n) {
        Err(fault_with(stack_or(seg, GENERAL_PROTECTION), 0))
    } else {
        Ok(d.base)
    }
}

impl Machine {
    // The hidden part of a segment register.
    #[inline(always)]
    pub(crate) fn part(&self, seg: SegReg) -> &Option<Hidden>
        ensures { result.now ≡ found self.now.world.mode self.now.world.regs self.now.world.descriptors seg }
    {
        &self.hidden[number(seg)]
    }

    /// The linear address of the segment's first byte, where a quick look at the hidden part shows that the segment allows the access;
    /// `None` says nothing.
    #[inline(always)]
    pub(crate) fn quick_base(&self, seg: SegReg, off: u32, n: u32, write: bool) -> Option<u32>
        ensures { IfSome result (λ base.
            segment_base self.now.world.mode self.now.world.regs self.now.world.descriptors seg off n write ≡ Ok base) }
    {
        match self.part(seg) {
            Some(part) if part.allows(off, n, write) => Some(part.base),
            _ => None,
        }
    }

    /// An access through a selector by the rules of protected mode: the linear address of the segment's first byte, or the fault.
    pub(crate) fn protected_base(
        &self,
        seg: SegReg,
        sel: u16,
        off: u32,
        n: u32,
        write: bool,
    ) -> Result<u32, Fault>
        ensures { result ≡ protected_base self.now.world.descriptors seg sel off n write }
    {
        if is_null(sel) {
            Err(fault_with(GENERAL_PROTECTION, 0))
        } else {
            base_in_row(seg, sel, self.desc_of(sel), off, n, write)
        }
    }

    /// An access to n bytes at an offset of a segment register: the linear address of the segment's first byte, or the fault.
    #[inline(never)]
    pub(crate) fn segment_base(
        &self,
        seg: SegReg,
        off: u32,
        n: u32,
        write: bool,
    ) -> Result<u32, Fault>
        ensures { result ≡ segment_base self.now.world.mode self.now.world.regs self.now.world.descriptors seg off n write }
    {
        match self.part(seg) {
            Some(part) => part.base_within(seg, off, n, write),
            // In real mode there is a part; what is wrong with a selector of protected mode, the table says.
            None => self.protected_base(seg, self.registers().selector(seg), off, n, write),
        }
    }

    // Whether the row of a selector has its bit D or B set.
    #[inline(never)]
    fn has_size_bit(&self, sel: u16) -> bool
        ensures { result ≡ has_size_bit (row_of_selector self.now.world.descriptors sel) }
    {
        match self.desc_of(sel) {
            None => false,
            Some((d, _)) => d.size,
        }
    }

    /// Whether the segment in a register has 32 bits: its bit D or B is 1.
    /// Source: 80386 Programmer's Reference Manual, ch. 16, "How the 80386 Implements 16-Bit and 32-Bit Features".
    #[inline(always)]
    pub fn is_big(&self, seg: SegReg) -> bool
        ensures { result ≡ is_big self.now.world.mode self.now.world.descriptors (selector self.now.world.regs seg) }
    {
        match self.part(seg) {
            Some(part) => part.size,
            // In real mode there is a part.
            None => self.has_size_bit(self.registers().selector(seg)),
        }
    }

    /// Whether the segment in a register has 32 bits, where its hidden part shows it; `None` says nothing. Source: own.
    #[inline(always)]
    pub fn quick_size(&self, seg: SegReg) -> Option<bool>
        ensures { IfSome result (λ big.
            big ≡ is_big self.now.world.mode self.now.world.descriptors (selector self.now.world.regs seg)) }
    {
        match self.part(seg) {
            Some(part) => Some(part.size),
            None => None,
        }
    }

    // The base in the row of a selector.
    #[inline(never)]
    fn base_of_row(&self, sel: u16) -> u32
        ensures { result ≡ base_of_row (row_of_selector self.now.world.descriptors sel) }
    {
        match self.desc_of(sel) {
            None => 0,
            Some((d, _)) => d.base,
        }
    }

    /// The linear address of the first byte of the segment in a register, whether the segment may be used or not; 0 where protected mode
    /// has no row for it. Source: 80386 Programmer's Reference Manual, ch. 5, "Segment Translation".
    #[inline(always)]
    pub fn first_byte(&self, seg: SegReg) -> u32
        ensures { result ≡ first_byte self.now.world.mode self.now.world.descriptors (selector self.now.world.regs seg) }
    {
        match self.part(seg) {
            Some(part) => part.base,
            // In real mode there is a part.
            None => self.base_of_row(self.registers().selector(seg)),
        }
    }

    /// Whether a quick look at the hidden part of CS shows that a near transfer may go to an offset: one byte may be fetched there. `false`
    /// says nothing. Source: own.
    #[inline(always)]
    pub fn is_near_target(&self, off: u32) -> bool
        ensures { IsTrue result → transfer_fault self.now.world self.now.world.regs.cs off false ≡ None }
    {
        match self.part(SegReg::Cs) {
            // Code doesn't expand down.
            Some(part) => part.has_code_at(off),
            None => false,
        }
    }
}

// Whether the privilege level that the selector asks for isn't the client's.
fn is_privileged(sel: u16) -> bool
    ensures { result ≡ is_privileged sel }
{
    privilege_of(sel) != CLIENT_PRIVILEGE
}

// Whether SS doesn't take such a selector of a segment that holds that.
fn is_barred_stack(sel: u16, kind: Kind) -> bool
    ensures { result ≡ is_privileged sel || not (is_writable kind) }
{
    is_privileged(sel) || !kind.is_writable()
}

// Whether CS doesn't take such a selector of a segment that holds that; by a return it takes privilege level 3 alone.
fn is_barred_code(sel: u16, kind: Kind, ret: bool) -> bool
    ensures { result ≡ not (is_code kind) || ret && is_privileged sel }
{
    !kind.is_code() || ret && is_privileged(sel)
}

impl Machine {
    // DS, ES, FS and GS take null, data and code.
    fn check_data(&self, sel: u16) -> Result<(), Fault>
        ensures { MatchResult result (λ _. data_fault self.now.world.descriptors sel ≡ None)
            (λ fault. data_fault self.now.world.descriptors sel ≡ Some fault) }
    {
        if is_null(sel) {
            return Ok(());
        }

        match self.desc_of(sel) {
            None => Err(fault_with(GENERAL_PROTECTION, selector_code(sel))),
            Some((d, _)) if !d.present => Err(fault_with(SEGMENT_NOT_PRESENT, selector_code(sel))),
            Some(_) => Ok(()),
        }
    }

    // SS takes writable data, with privilege level 3.
    fn check_stack(&self, sel: u16) -> Result<(), Fault>
        ensures { MatchResult result (λ _. stack_fault self.now.world.descriptors sel ≡ None)
            (λ fault. stack_fault self.now.world.descriptors sel ≡ Some fault) }
    {
        if is_null(sel) {
            return Err(fault_with(GENERAL_PROTECTION, 0));
        }

        match self.desc_of(sel) {
            None => Err(fault_with(GENERAL_PROTECTION, selector_code(sel))),
            Some((d, _)) if is_barred_stack(sel, d.kind) => {
                Err(fault_with(GENERAL_PROTECTION, selector_code(sel)))
            }
            Some((d, _)) if !d.present => Err(fault_with(STACK_EXCEPTION, selector_code(sel))),
            Some(_) => Ok(()),
        }
    }

    // CS takes code, and with it an offset inside the segment; a return takes privilege level 3 alone.
    fn check_code(&self, sel: u16, off: u32, ret: bool) -> Result<(), Fault>
        ensures { MatchResult result (λ _. code_fault self.now.world.descriptors sel off ret ≡ None)
            (λ fault. code_fault self.now.world.descriptors sel off ret ≡ Some fault) }
    {
        if is_null(sel) {
            return Err(fault_with(GENERAL_PROTECTION, 0));
        }

        match self.desc_of(sel) {
            None => Err(fault_with(GENERAL_PROTECTION, selector_code(sel))),
            Some((d, _)) if is_barred_code(sel, d.kind, ret) => {
                Err(fault_with(GENERAL_PROTECTION, selector_code(sel)))
            }
            Some((d, _)) if !d.present => Err(fault_with(SEGMENT_NOT_PRESENT, selector_code(sel))),
            Some((d, _)) if !d.is_inside(off, 1) => Err(fault_with(GENERAL_PROTECTION, 0)),
            Some(_) => Ok(()),
        }
    }

    /// Whether a selector may be loaded into a segment register, by the rules of protected mode in either mode. The offset, and whether it
    /// is a return, matter for CS alone. Source: 80386 Programmer's Reference Manual, ch. 17, MOV, JMP and RET.
    #[tactic(auto, unfolding(client_world::specs::Loading::load_fault))]
    pub fn loadable(&self, seg: SegReg, sel: u16, off: u32, ret: bool) -> Result<(), Fault>
        ensures { MatchResult result (λ _. load_fault self.now.world.descriptors seg sel off ret ≡ None)
            (λ fault. load_fault self.now.world.descriptors seg sel off ret ≡ Some fault) }
    {
        match seg {
            SegReg::Cs => self.check_code(sel, off, ret),
            SegReg::Ss => self.check_stack(sel),
            _ => self.check_data(sel),
        }
    }

    /// Whether a selector may be loaded into a segment register: in protected mode by its rules, in real mode every word; or the fault.
    /// Source: 80386 Programmer's Reference Manual, ch. 17, MOV.
    #[inline(always)]
    #[tactic(auto, unfolding(host_memory::specs::Layout::world_of))]
    pub fn check_load(&self, seg: SegReg, sel: u16) -> Result<(), Fault>
        ensures { MatchResult result (λ _. register_fault self.now.world seg sel ≡ None)
            (λ fault. register_fault self.now.world seg sel ≡ Some fault) }
    {
        match self.mode {
            Mode::Real => Ok(()),
            Mode::Protected => self.loadable(seg, sel, 0, false),
        }
    }

    /// Loads a segment register: in protected mode by its rules, in real mode every word; or gives the fault of the selector, which changes
    /// nothing. CS is loaded by a far transfer, and no instruction loads it so. Source: 80386 Programmer's Reference Manual, ch. 17, MOV.
    #[inline(always)]
    pub fn load_seg(&mut self, seg: SegReg, sel: u16) -> Result<(), Fault>
        ensures loaded { OnOk result (register_fault self.old.world seg sel ≡ None) }
        ensures world { OnOk result (self.new.world
            ≡ record self.old.world { regs = with_selector self.old.world.regs seg sel }) }
        ensures bytes { self.new.bytes ≡ self.old.bytes }
        ensures refused { IfErr result (λ fault.
            (register_fault self.old.world seg sel ≡ Some fault) × (self.new ≡ self.old)) }
    {
        self.check_load(seg, sel)?;
        self.set_selector(seg, sel);
        Ok(())
    }
}
