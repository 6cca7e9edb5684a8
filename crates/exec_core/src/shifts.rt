// Shifts and rotates, and the double shifts.
ghost use Rattle.std.specs.Prelude.{◌≡◌, IfSome, IsTrue, Ok};
ghost use Rattle.cpu_alu.specs.DoubleShifts.{shld_of, shrd_of};
ghost use Rattle.cpu_values.specs.Word.{IsWidth, cut};
ghost use Rattle.exec_core.specs.{Shaped.{with_result}, Shifts.{DoubleFormula, shift, shift_in}};
ghost use Rattle.insn_forms.specs.{Kinds.{is_width}, declared.insn.Operand.TheVariants.{Mem}};
ghost use Rattle.insn_plan.specs.{Act.{value_of}, Looks.{CarriesOutBy}, Operands.{source}, Plan.{CarriesOut}, Registers.{register}};

use crate::arithmetic::{at_register, at_width, change_first, change_number, flags_of};
use crate::shaped::ShapedRow;
use crate::shift_operations::{Shift, ShiftAt};
use client_world::Flags;
use cpu_alu::{shld, shrd};
use cpu_values::cut;
use guest_space::Machine;
use insn_forms::{Insn, MemForm, Operand};
use insn_plan::{
    InsnRow, Look, Raised, put_register, put_with_flags, register, register_width, source,
    source_after,
};

// The result and the flags of a shift by a count, of which the low byte counts.
#[inline(always)]
fn shifted<const W: u8, O: ShiftAt<W>>(m: &Machine, a: u32, count: u32) -> (u32, Flags)
    requires { IsWidth W }
    ensures { result ≡ O.formula W (cut W a) (cut 8 count) m.now.world.regs.flags }
{
    let (v, flags) = O::apply(cut::<W>(u64::from(a)), (count % 0x100) as u8, flags_of(m));
    (v.get(), flags)
}

// A register of a width becomes itself moved, by a shift of W bits.
#[inline(always)]
fn shift_register<const W: u8, O: ShiftAt<W>>(m: &mut Machine, own: u8, n: u8, count: u32)
    requires { IsWidth W }
    ensures { let r = m.old.world.regs in
        m.new ≡ with_result own n (O.formula W (cut W (register r own n)) (cut 8 count) r.flags) m.old }
{
    let a = register(m.registers(), own, n);
    let (v, flags) = shifted::<W, O>(m, a, count);
    m.set_flags(flags);
    put_register(m, own, n, v);
}

// A number in memory becomes itself moved, by a shift of W bits.
#[inline(always)]
#[tactic(auto, unfolding(crate::specs::Shifts::shift, insn_plan::specs::Operands::source, insn_plan::specs::Operands::put_operand, //
insn_plan::specs::Act::value_of, insn_plan::specs::Plan::after_plan, insn_plan::specs::Plan::after_commit, //
guest_space::specs::Pending::first_write_fault, guest_space::specs::Pending::after_writes))]
fn shift_in_memory<const W: u8, L: Look, O: ShiftAt<W>>(
    m: &mut Machine,
    i: &Insn,
    form: &MemForm,
    ahead: Option<u32>,
) -> Result<(), L::Missed>
    requires width { IsWidth W }
    requires same { i.now.width ≡ W }
    requires first { i.now.first ≡ Mem form.now }
    requires ahead { IfSome ahead (λ v. value_of m.old.world (source m.old.world.regs i.now.addr32 8 i.now.second) ≡ Ok v) }
    ensures { CarriesOutBy L.reported m.old m.new result (shift O.formula m.old.world i.now) }
{
    change_number!(L, W, m, i, form, a, count: 8, ahead => shifted::<W, O>(m, a, count))
}

// The row of a shift of W bits.
#[inline(always)]
#[tactic(auto, unfolding(crate::specs::Shifts::shift, insn_plan::specs::Operands::source, insn_plan::specs::Operands::put_operand, //
insn_plan::specs::Act::value_of, insn_plan::specs::Plan::after_plan, insn_plan::specs::Plan::after_commit, //
guest_space::specs::Pending::first_write_fault, guest_space::specs::Pending::after_writes))]
fn shift_at<const W: u8, L: Look, O: ShiftAt<W>>(m: &mut Machine, i: &Insn) -> Result<(), L::Missed>
    requires width { IsWidth W }
    requires same { i.now.width ≡ W }
    ensures { CarriesOutBy L.reported m.old m.new result (shift O.formula m.old.world i.now) }
{
    change_first!(L, W, m, i, a, count: 8, ahead => shifted::<W, O>(m, a, count),
        own, n => at_register!(n, n => shift_register::<W, O>(m, own, n, count)),
        form => shift_in_memory::<W, L, O>(m, i, form, ahead))
}

/// SHL, SHR, SAR, ROL, ROR, RCL, RCR. Source: 80386 Programmer's Reference Manual, ch. 17.
#[derive(Clone, Copy)]
pub(crate) struct Shifting<O>(pub O);

impl<O: Shift> InsnRow for Shifting<O> {
    ghost plan = { λ row w i. shift O.formula w i };

    #[inline(always)]
    fn carry_out<L: Look>(self, m: &mut Machine, i: &Insn) -> Result<(), L::Missed> {
        at_width!(i.width, shift_at, L, O, m, i)
    }
}

impl<const W: u8, O: Shift + ShiftAt<W>> ShapedRow<W> for Shifting<O> {
    const SECOND_WIDTH: u8 = 8;

    ghost SECOND_WIDTH = { 8 };

    #[inline(always)]
    fn on_register(self, m: &mut Machine, i: &Insn, n: u8, b: u32) {
        shift_register::<W, O>(m, W, n, b);
    }

    #[inline(always)]
    fn in_memory<L: Look>(
        self,
        m: &mut Machine,
        i: &Insn,
        form: &MemForm,
        b: u32,
    ) -> Result<(), L::Missed> {
        shift_in_memory::<W, L, O>(m, i, form, Some(b))
    }
}

// A double shift at a width: its result, and the flags.
macro_rules! double_shifted {
    ($formula:ident, $width:expr, $a:expr, $b:expr, $n:expr, $flags:expr) => {
        match $width {
            8 => {
                let (v, f) = $formula::<8>(cut::<8>(u64::from($a)), cut::<8>(u64::from($b)), $n, $flags);
                (v.get(), f)
            }
            16 => {
                let (v, f) = $formula::<16>(cut::<16>(u64::from($a)), cut::<16>(u64::from($b)), $n, $flags);
                (v.get(), f)
            }
            _ => {
                let (v, f) = $formula::<32>(cut::<32>(u64::from($a)), cut::<32>(u64::from($b)), $n, $flags);
                (v.get(), f)
            }
        }
    };
}

/// A double shift: bits of a second number come in.
pub(crate) trait DoubleShift {
    ghost formula: { DoubleFormula };

    /// The number `a` moved by `n` and the flags, where bits of `b` come in and the flags were `f`.
    fn apply(width: u8, a: u32, b: u32, n: u8, f: Flags) -> (u32, Flags)
        requires { IsTrue (is_width width) }
        ensures { result ≡ formula width (cut width a) (cut width b) n f };
}

/// SHLD.
pub(crate) struct ShiftLeftDouble;

impl DoubleShift for ShiftLeftDouble {
    ghost formula = { shld_of };

    fn apply(width: u8, a: u32, b: u32, n: u8, f: Flags) -> (u32, Flags) {
        double_shifted!(shld, width, a, b, n, f)
    }
}

/// SHRD.
pub(crate) struct ShiftRightDouble;

impl DoubleShift for ShiftRightDouble {
    ghost formula = { shrd_of };

    fn apply(width: u8, a: u32, b: u32, n: u8, f: Flags) -> (u32, Flags) {
        double_shifted!(shrd, width, a, b, n, f)
    }
}

/// SHLD, SHRD. Source: 80386 Programmer's Reference Manual, ch. 17.
#[inline(never)]
#[tactic(auto, unfolding(crate::specs::Shifts::shift_in, insn_plan::specs::Plan::after_plan))]
pub(crate) fn shift_in<O: DoubleShift>(m: &mut Machine, i: &Insn) -> Result<(), Raised>
    requires { IsTrue (is_width i.now.width) }
    ensures { CarriesOut m.old m.new result (shift_in O.formula m.old.world i.now) }
{
    let a = source(m, i.addr32, i.width, &i.first)?;
    let b = source(m, i.addr32, i.width, &i.second)?;
    let n = (source(m, i.addr32, 8, &i.third)? % 0x100) as u8;
    let (v, flags) = O::apply(i.width, a, b, n, m.registers().flags);
    put_with_flags(m, flags, i.addr32, i.width, &i.first, v)
}
