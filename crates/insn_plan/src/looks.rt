// The ways to look at memory: quickly, or by the tables.
ghost use Rattle.std.specs.Prelude.{◌≡◌, ℕ, IfErr, IfOk, IfSome, IsTrue, MatchResult, None, Ok, Some, false};
ghost use Rattle.std.specs.declared.option.Option.{Option};
ghost use Rattle.client_world.specs.{Loading.{transfer_fault}, declared.faults.Fault.{Fault as AFault}};
ghost use Rattle.client_world.specs.{declared.segments.SegReg.{SegReg as Segment}, World.{World}};
ghost use Rattle.guest_space.specs.{Pending.{byte_count}, WriteRuns.{IsRun}};
ghost use Rattle.host_memory.specs.View.{MachineView};
ghost use Rattle.insn_forms.specs.{Kinds.{is_width}, declared.insn.Insn.{Insn}};
ghost use Rattle.insn_plan.specs.{Act.{Act, From, value_of}, Looks.{CarriesOutBy, Clears, Reports, Shows, Writes}, Operands.{source}};
ghost use Rattle.insn_plan.specs.{Plan.{CarriesOut}, Registers.{offset_of}};

use crate::operands::{
    at_hand, given, note_and_write, noted_place, shown, write_quickly, write_there,
};
use crate::raised::Raised;
use crate::read::{note_and_read, number_there, read_quickly};
use crate::registers::offset_of;
use crate::targets::check_near;
use client_world::{Fault, SegReg};
use guest_space::Machine;
use insn_forms::{Insn, MemForm, Operand};

/// A number in memory that is read and written back: its offset, where it is in the memory as far as the look knows, and its value.
#[derive(Clone, Copy)]
pub struct NumberInMemory<P> {
    pub off: u32,
    pub at: P,
    pub value: u32,
}

/// A way to look at memory. A row is written once, over any of them; they differ in what a look that misses reports. Source: own.
pub trait Look {
    /// What a look that misses returns.
    type Missed: Drop;

    /// What a look that shows a number knows of where it is: its address in the memory, or nothing.
    type Place: Copy;

    /// The fault that it reports, if any.
    ghost reported: { Self.Missed → Option AFault };

    /// That a number of a width at an offset of a segment register is there, and may be read and written.
    ghost knows: { MachineView → Segment → ℕ → ℕ → Self.Place → Type 0 };

    /// Reads a number of a width at an offset of a segment register.
    fn read(m: &mut Machine, seg: SegReg, off: u32, width: u8) -> Result<u32, Self::Missed>
        ensures value { Shows reported result (value_of m.old.world (From seg off (byte_count width))) }
        ensures kept { m.new ≡ m.old };

    /// Reads an operand, in memory at that width.
    fn source(
        m: &mut Machine,
        addr32: bool,
        width: u8,
        operand: &Operand,
    ) -> Result<u32, Self::Missed>
        ensures value { Shows reported result (value_of m.old.world (source m.old.world.regs addr32 width operand.now)) }
        ensures kept { m.new ≡ m.old };

    /// Writes a number of a width at an offset of a segment register. The registers and the virtual interrupt flag stay.
    fn write(
        m: &mut Machine,
        seg: SegReg,
        off: u32,
        width: u8,
        value: u32,
    ) -> Result<(), Self::Missed>
        ensures { Writes reported m.old m.new result (record { seg = seg; off = off; width = width; value = value }) };

    /// Reads a number of a width in memory that is to be written back.
    fn number(
        m: &mut Machine,
        addr32: bool,
        width: u8,
        form: &MemForm,
    ) -> Result<NumberInMemory<Self::Place>, Self::Missed>
        ensures off { IfOk result (λ number. number.off ≡ offset_of m.old.world.regs addr32 form.now) }
        ensures at { IfOk result (λ number. knows m.old form.now.seg width number.off number.at) }
        ensures value { MatchResult result
            (λ number. value_of m.old.world (From form.now.seg number.off (byte_count width)) ≡ Ok number.value)
            (λ missed. Reports (reported missed)
            (value_of m.old.world (From form.now.seg (offset_of m.old.world.regs addr32 form.now) (byte_count width)))) }
        ensures kept { m.new ≡ m.old };

    /// Writes it back, with another value.
    fn put_back(
        m: &mut Machine,
        seg: SegReg,
        width: u8,
        off: u32,
        at: Self::Place,
        value: u32,
    ) -> Result<(), Self::Missed>
        requires { knows m.old seg width off at }
        ensures { Writes reported m.old m.new result (record { seg = seg; off = off; width = width; value = value }) };

    /// Reads an operand ahead of a number in memory, so that it isn't read while that is kept; `None` where its look comes after it. Quick
    /// looks read it where it isn't in memory, and miss where it is.
    fn ahead(
        m: &Machine,
        addr32: bool,
        width: u8,
        operand: &Operand,
    ) -> Result<Option<u32>, Self::Missed>
        ensures value { IfOk result (λ ahead. IfSome ahead (λ v.
            value_of m.now.world (source m.now.world.regs addr32 width operand.now) ≡ Ok v)) }
        ensures silent { IfErr result (λ missed. reported missed ≡ None) };

    /// A case that clients rarely have. Quick looks miss there, so that it is compiled for the tables alone.
    fn rare() -> Result<(), Self::Missed>
        ensures { IfErr result (λ missed. reported missed ≡ None) };

    /// Whether a near transfer may go to an offset.
    fn check_near(m: &Machine, off: u32) -> Result<(), Self::Missed>
        ensures { Clears reported result (transfer_fault m.now.world m.now.world.regs.cs off false) };
}

/// What a quick look that misses returns: nothing is known of the access.
#[derive(Drop)]
pub struct Unshown;

/// Quick looks: at registers, hidden parts and the cache. They miss wherever the tables would have to be asked, and report nothing then.
/// Source: own.
pub struct Quick;

impl Look for Quick {
    type Missed = Unshown;

    type Place = u32;

    ghost reported = { λ missed. None };

    ghost knows = { λ v seg width off at. IsRun v seg off (byte_count width) at };

    #[inline(always)]
    fn read(m: &mut Machine, seg: SegReg, off: u32, width: u8) -> Result<u32, Unshown> {
        match read_quickly(m, seg, off, width) {
            Some(v) => Ok(v),
            None => Err(Unshown),
        }
    }

    #[inline(always)]
    fn source(m: &mut Machine, addr32: bool, width: u8, operand: &Operand) -> Result<u32, Unshown> {
        match shown(m, addr32, width, operand) {
            Some(v) => Ok(v),
            None => Err(Unshown),
        }
    }

    #[inline(always)]
    fn write(m: &mut Machine, seg: SegReg, off: u32, width: u8, value: u32) -> Result<(), Unshown> {
        match write_quickly(m, seg, off, width, value) {
            Some(()) => Ok(()),
            None => Err(Unshown),
        }
    }

    #[inline(always)]
    fn number(
        m: &mut Machine,
        addr32: bool,
        width: u8,
        form: &MemForm,
    ) -> Result<NumberInMemory<u32>, Unshown> {
        match noted_place(m, addr32, width, form) {
            Some((off, at)) => {
                let value = number_there(m, form.seg, width, off, at);
                Ok(NumberInMemory { off, at, value })
            }
            None => Err(Unshown),
        }
    }

    #[inline(always)]
    fn put_back(
        m: &mut Machine,
        seg: SegReg,
        width: u8,
        off: u32,
        at: u32,
        value: u32,
    ) -> Result<(), Unshown> {
        write_there(m, seg, width, off, at, value);
        Ok(())
    }

    #[inline(always)]
    fn ahead(
        m: &Machine,
        addr32: bool,
        width: u8,
        operand: &Operand,
    ) -> Result<Option<u32>, Unshown> {
        match at_hand(m, addr32, width, operand) {
            Some(v) => Ok(Some(v)),
            None => Err(Unshown),
        }
    }

    #[inline(always)]
    fn rare() -> Result<(), Unshown> {
        Err(Unshown)
    }

    #[inline(always)]
    fn check_near(m: &Machine, off: u32) -> Result<(), Unshown> {
        if m.is_near_target(off) {
            Ok(())
        } else {
            Err(Unshown)
        }
    }
}

/// Looks by the tables, which also note the page for quick looks to come. Where one misses, it reports the fault of the access.
pub(crate) struct Tables;

impl Look for Tables {
    type Missed = Fault;

    type Place = ();

    ghost reported = { λ missed. Some missed };

    ghost knows = { λ v seg width off at. Unit };

    #[inline(always)]
    fn read(m: &mut Machine, seg: SegReg, off: u32, width: u8) -> Result<u32, Fault> {
        note_and_read(m, seg, off, width)
    }

    #[inline(always)]
    #[tactic(auto, unfolding(crate::specs::Operands::source, crate::specs::Act::value_of))]
    fn source(m: &mut Machine, addr32: bool, width: u8, operand: &Operand) -> Result<u32, Fault> {
        match operand {
            Operand::Mem(form) => {
                let off = offset_of(m.registers(), addr32, form);
                note_and_read(m, form.seg, off, width)
            }
            _ => Ok(given(m.registers(), operand)),
        }
    }

    #[inline(always)]
    fn write(m: &mut Machine, seg: SegReg, off: u32, width: u8, value: u32) -> Result<(), Fault> {
        note_and_write(m, seg, off, width, value)
    }

    #[inline(always)]
    fn number(
        m: &mut Machine,
        addr32: bool,
        width: u8,
        form: &MemForm,
    ) -> Result<NumberInMemory<()>, Fault> {
        let off = offset_of(m.registers(), addr32, form);
        let value = note_and_read(m, form.seg, off, width)?;
        Ok(NumberInMemory { off, at: (), value })
    }

    #[inline(always)]
    fn put_back(
        m: &mut Machine,
        seg: SegReg,
        width: u8,
        off: u32,
        at: (),
        value: u32,
    ) -> Result<(), Fault> {
        note_and_write(m, seg, off, width, value)
    }

    #[inline(always)]
    fn ahead(
        m: &Machine,
        addr32: bool,
        width: u8,
        operand: &Operand,
    ) -> Result<Option<u32>, Fault> {
        Ok(None)
    }

    #[inline(always)]
    fn rare() -> Result<(), Fault> {
        Ok(())
    }

    #[inline(always)]
    fn check_near(m: &Machine, off: u32) -> Result<(), Fault> {
        check_near(m, off)
    }
}

/// The width of a register operand, `own`. Quick looks miss where it differs from the instruction's, so that elsewhere the compiler knows
/// it.
/// Source: own.
#[inline(always)]
pub fn register_width<L: Look>(width: u8, own: u8) -> Result<u8, L::Missed>
    ensures is { IfOk result (λ w. w ≡ own) }
    ensures silent { IfErr result (λ missed. L.reported missed ≡ None) }
{
    if own == width {
        return Ok(width);
    }
    L::rare()?;
    Ok(own)
}

/// Reads an operand, unless a look ahead has read it; or gives what the look that misses returns. The machine stays. Source: own.
#[inline(always)]
pub fn source_after<L: Look>(
    m: &mut Machine,
    addr32: bool,
    width: u8,
    operand: &Operand,
    ahead: Option<u32>,
) -> Result<u32, L::Missed>
    requires { IfSome ahead (λ v. value_of m.old.world (source m.old.world.regs addr32 width operand.now) ≡ Ok v) }
    ensures value { Shows L.reported result (value_of m.old.world (source m.old.world.regs addr32 width operand.now)) }
    ensures kept { m.new ≡ m.old }
{
    match ahead {
        Some(v) => Ok(v),
        None => L::source(m, addr32, width, operand),
    }
}

/// A row of the instruction table, written once for any way to look. EIP is already after the instruction.
pub trait InsnRow: Copy {
    /// What the instruction does.
    ghost plan: { Self → World → Insn → Act };

    /// Carries it out where no look misses; where one does, nothing is changed.
    fn carry_out<L: Look>(self, m: &mut Machine, i: &Insn) -> Result<(), L::Missed>
        requires { IsTrue (is_width i.now.width) }
        ensures { CarriesOutBy L.reported m.old m.new result (plan self m.old.world i.now) };
}

// A row by the tables.
#[cold]
#[inline(never)]
#[tactic(auto, using(crate::proofs::WrittenState::fault_reported))]
fn carry_out_by_tables<R: InsnRow>(row: R, m: &mut Machine, i: &Insn) -> Result<(), Raised>
    requires { IsTrue (is_width i.now.width) }
    ensures { CarriesOut m.old m.new result (R.plan row m.old.world i.now) }
{
    row.carry_out::<Tables>(m, i)?;
    Ok(())
}

/// Carries out an instruction by its row, or gives its event, which changes nothing: quickly, and by the tables where a quick look misses.
/// Source: own.
#[inline(never)]
pub fn run_row<R: InsnRow>(row: R, m: &mut Machine, i: &Insn) -> Result<(), Raised>
    requires { IsTrue (is_width i.now.width) }
    ensures { CarriesOut m.old m.new result (R.plan row m.old.world i.now) }
{
    match row.carry_out::<Quick>(m, i) {
        Ok(()) => Ok(()),
        Err(_) => carry_out_by_tables(row, m, i),
    }
}
