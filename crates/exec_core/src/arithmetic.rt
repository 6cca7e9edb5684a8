// Arithmetic and logic of two operands and of one.
#![tactic(auto, unfolding(crate::specs::Arithmetic::binary, insn_plan::specs::Operands::source, //
insn_plan::specs::Operands::put_operand, insn_plan::specs::Act::value_of, crate::specs::Arithmetic::compare, //
crate::specs::Arithmetic::unary, insn_plan::specs::Plan::after_plan, insn_plan::specs::Plan::after_commit, //
guest_space::specs::Pending::first_write_fault, guest_space::specs::Pending::after_writes))]

ghost use Rattle.std.specs.Prelude.{◌≡◌, IfSome, IsTrue, Ok};
ghost use Rattle.cpu_alu.specs.Sums.{sub_of};
ghost use Rattle.cpu_values.specs.Word.{IsWidth, cut};
ghost use Rattle.exec_core.specs.{Arithmetic.{binary, compare, unary}, Shaped.{with_result}};
ghost use Rattle.guest_space.specs.Registers.{with_registers};
ghost use Rattle.insn_forms.specs.{Kinds.{is_width}, declared.insn.Operand.TheVariants.{Mem}};
ghost use Rattle.insn_plan.specs.{Act.{value_of}, Looks.{CarriesOutBy}, Operands.{source}, Registers.{register}};

use crate::operations::{Binary, BinaryAt, Unary, UnaryAt};
use crate::shaped::ShapedRow;
use client_world::Flags;
use cpu_alu::sub;
use cpu_values::cut;
use guest_space::Machine;
use insn_forms::{Insn, MemForm, Operand};
use insn_plan::{InsnRow, Look, offset_of, put_register, register, register_width, source_after};

// The row of an operation at a width of 8, 16 or 32 bits, which the compiler then knows.
macro_rules! at_width {
    ($width:expr, $row:ident, $look:ident, $operation:ident, $m:ident, $i:ident) => {
        match $width {
            8 => $row::<8, $look, $operation>($m, $i),
            16 => $row::<16, $look, $operation>($m, $i),
            _ => $row::<32, $look, $operation>($m, $i),
        }
    };
}

// The row of a move, at a width of 8, 16 or 32 bits, which the compiler then knows.
macro_rules! at_known_width {
    ($row:ident, $look:ident, $m:ident, $i:ident) => {
        match $i.width {
            8 => $row::<$look>($m, $i, 8),
            16 => $row::<$look>($m, $i, 16),
            _ => $row::<$look>($m, $i, 32),
        }
    };
}

pub(crate) use at_known_width;
pub(crate) use at_width;

// Does something with a register's number, once for each, so that the compiler knows the register.
macro_rules! at_register {
    ($number:expr, $n:ident => $body:expr) => {
        match $number {
            0 => { let $n = 0u8; $body }
            1 => { let $n = 1u8; $body }
            2 => { let $n = 2u8; $body }
            3 => { let $n = 3u8; $body }
            4 => { let $n = 4u8; $body }
            5 => { let $n = 5u8; $body }
            6 => { let $n = 6u8; $body }
            $n => $body,
        }
    };
}

pub(crate) use at_register;

// Replaces a number in memory by a result, and sets the flags. `$a` names its old value in `$result`, which gives result and flags; `$b`
// names the second operand's, of its own width, where the operation has one, and `$ahead` is that where it is known.
macro_rules! change_number {
    ($look:ident, $width:ident, $m:ident, $i:ident, $form:ident, $a:ident
    $(, $b:ident: $second_width:expr, $ahead:ident)? => $result:expr) => {{
        let number = $look::number($m, $i.addr32, $width, $form)?;
        $(let $b = source_after::<$look>($m, $i.addr32, $second_width, &$i.second, $ahead)?;)?
        let $a = number.value;
        let (v, flags) = $result;
        $look::put_back($m, $form.seg, $width, number.off, number.at, v)?;
        $m.set_flags(flags);
        Ok(())
    }};
}

pub(crate) use change_number;

// Replaces the first operand by a result, and sets the flags. `$a` names its old value in `$result`, which gives result and flags; `$b`
// names the second operand's, of its own width, where the operation has one. `$change` does it on the register `$n` of the width `$own`,
// and `$put` in memory, where `$ahead` is the second operand's value if it is known.
macro_rules! change_first {
    ($look:ident, $width:ident, $m:ident, $i:ident, $a:ident $(, $b:ident: $second_width:expr, $ahead:ident)? => $result:expr,
    $own:ident, $n:ident => $change:expr, $form:ident => $put:expr) => {
        match &$i.first {
            Operand::Mem($form) => {
                $(let $ahead = $look::ahead($m, $i.addr32, $second_width, &$i.second)?;)?
                $put
            }
            Operand::Reg { width, number } => {
                let ($own, $n) = (register_width::<$look>($width, *width)?, *number);
                $(let $b = $look::source($m, $i.addr32, $second_width, &$i.second)?;)?
                $change;
                Ok(())
            }
            first => {
                $look::rare()?;
                let $a = $look::source($m, $i.addr32, $width, first)?;
                $(let $b = $look::source($m, $i.addr32, $second_width, &$i.second)?;)?
                let (_, flags) = $result;
                $m.set_flags(flags);
                Ok(())
            }
        }
    };
}

pub(crate) use change_first;

// The flags, each read by itself: then the compiler knows that it is 0 or 1, and stores none that an operation keeps.
#[inline(always)]
pub(crate) fn flags_of(m: &Machine) -> Flags
    ensures { result ≡ m.now.world.regs.flags }
{
    let f = &m.registers().flags;
    Flags {
        cf: f.cf,
        pf: f.pf,
        af: f.af,
        zf: f.zf,
        sf: f.sf,
        df: f.df,
        of: f.of,
    }
}

// The result and the flags of an operation of two numbers.
#[inline(always)]
fn result_of<const W: u8, O: BinaryAt<W>>(m: &Machine, a: u32, b: u32) -> (u32, Flags)
    requires { IsWidth W }
    ensures { result ≡ O.formula W (cut W a) (cut W b) m.now.world.regs.flags }
{
    let f = flags_of(m);
    let (v, flags) = O::apply(cut::<W>(u64::from(a)), cut::<W>(u64::from(b)), f);
    (v.get(), flags)
}

// A register of a width becomes the result of an operation of W bits.
#[inline(always)]
fn change<const W: u8, O: BinaryAt<W>>(m: &mut Machine, own: u8, n: u8, b: u32)
    requires { IsWidth W }
    ensures { let r = m.old.world.regs in
        m.new ≡ with_result own n (O.formula W (cut W (register r own n)) (cut W b) r.flags) m.old }
{
    let a = register(m.registers(), own, n);
    let (v, flags) = result_of::<W, O>(m, a, b);
    m.set_flags(flags);
    put_register(m, own, n, v);
}

// A number in memory becomes the result of an operation of W bits.
#[inline(always)]
fn change_in_memory<const W: u8, L: Look, O: BinaryAt<W>>(
    m: &mut Machine,
    i: &Insn,
    form: &MemForm,
    ahead: Option<u32>,
) -> Result<(), L::Missed>
    requires width { IsWidth W }
    requires same { i.now.width ≡ W }
    requires first { i.now.first ≡ Mem form.now }
    requires ahead { IfSome ahead (λ v. value_of m.old.world (source m.old.world.regs i.now.addr32 W i.now.second) ≡ Ok v) }
    ensures { CarriesOutBy L.reported m.old m.new result (binary O.formula m.old.world i.now) }
{
    change_number!(L, W, m, i, form, a, b: W, ahead => result_of::<W, O>(m, a, b))
}

// The row of an operation of two numbers of W bits.
#[inline(always)]
fn binary_at<const W: u8, L: Look, O: BinaryAt<W>>(
    m: &mut Machine,
    i: &Insn,
) -> Result<(), L::Missed>
    requires width { IsWidth W }
    requires same { i.now.width ≡ W }
    ensures { CarriesOutBy L.reported m.old m.new result (binary O.formula m.old.world i.now) }
{
    change_first!(L, W, m, i, a, b: W, ahead => result_of::<W, O>(m, a, b),
        own, n => change::<W, O>(m, own, n, b), form => change_in_memory::<W, L, O>(m, i, form, ahead))
}

/// ADD, OR, ADC, SBB, AND, SUB, XOR. Source: 80386 Programmer's Reference Manual, ch. 17.
#[derive(Clone, Copy)]
pub(crate) struct Arithmetic<O>(pub O);

impl<O: Binary> InsnRow for Arithmetic<O> {
    ghost plan = { λ row w i. binary O.formula w i };

    #[inline(always)]
    fn carry_out<L: Look>(self, m: &mut Machine, i: &Insn) -> Result<(), L::Missed> {
        at_width!(i.width, binary_at, L, O, m, i)
    }
}

impl<const W: u8, O: Binary + BinaryAt<W>> ShapedRow<W> for Arithmetic<O> {
    const SECOND_WIDTH: u8 = W;

    ghost SECOND_WIDTH = { W };

    #[inline(always)]
    fn on_register(self, m: &mut Machine, i: &Insn, n: u8, b: u32) {
        change::<W, O>(m, W, n, b);
    }

    #[inline(always)]
    fn in_memory<L: Look>(
        self,
        m: &mut Machine,
        i: &Insn,
        form: &MemForm,
        b: u32,
    ) -> Result<(), L::Missed> {
        change_in_memory::<W, L, O>(m, i, form, Some(b))
    }
}

// The flags of an operation of two numbers of W bits.
#[inline(always)]
fn set_flags_of<const W: u8, O: BinaryAt<W>>(m: &mut Machine, a: u32, b: u32)
    requires { IsWidth W }
    ensures { let r = m.old.world.regs in
        m.new ≡ with_registers (record r { flags = (O.formula W (cut W a) (cut W b) r.flags).1 }) m.old }
{
    let (_, flags) = result_of::<W, O>(m, a, b);
    m.set_flags(flags);
}

// The row of a comparison of two numbers of W bits.
#[inline(always)]
fn compare_at<const W: u8, L: Look, O: BinaryAt<W>>(
    m: &mut Machine,
    i: &Insn,
) -> Result<(), L::Missed>
    requires width { IsWidth W }
    requires same { i.now.width ≡ W }
    ensures { CarriesOutBy L.reported m.old m.new result (compare O.formula m.old.world i.now) }
{
    let a = L::source(m, i.addr32, W, &i.first)?;
    let b = L::source(m, i.addr32, W, &i.second)?;
    set_flags_of::<W, O>(m, a, b);
    Ok(())
}

/// CMP and TEST. Source: 80386 Programmer's Reference Manual, ch. 17.
#[derive(Clone, Copy)]
pub(crate) struct Comparison<O>(pub O);

impl<O: Binary> InsnRow for Comparison<O> {
    ghost plan = { λ row w i. compare O.formula w i };

    #[inline(always)]
    fn carry_out<L: Look>(self, m: &mut Machine, i: &Insn) -> Result<(), L::Missed> {
        at_width!(i.width, compare_at, L, O, m, i)
    }
}

impl<const W: u8, O: Binary + BinaryAt<W>> ShapedRow<W> for Comparison<O> {
    const SECOND_WIDTH: u8 = W;

    ghost SECOND_WIDTH = { W };

    #[inline(always)]
    fn on_register(self, m: &mut Machine, i: &Insn, n: u8, b: u32) {
        let a = register(m.registers(), W, n);
        set_flags_of::<W, O>(m, a, b);
    }

    #[inline(always)]
    fn in_memory<L: Look>(
        self,
        m: &mut Machine,
        i: &Insn,
        form: &MemForm,
        b: u32,
    ) -> Result<(), L::Missed> {
        let off = offset_of(m.registers(), i.addr32, form);
        let a = L::read(m, form.seg, off, W)?;
        set_flags_of::<W, O>(m, a, b);
        Ok(())
    }
}

/// The flags of a comparison of two numbers at a width.
#[inline(always)]
pub(crate) fn difference_flags(width: u8, a: u32, b: u32, f: Flags) -> Flags
    requires { IsTrue (is_width width) }
    ensures { result ≡ (sub_of width (cut width a) (cut width b) f).1 }
{
    match width {
        8 => sub::<8>(cut::<8>(u64::from(a)), cut::<8>(u64::from(b)), f).1,
        16 => sub::<16>(cut::<16>(u64::from(a)), cut::<16>(u64::from(b)), f).1,
        _ => sub::<32>(cut::<32>(u64::from(a)), cut::<32>(u64::from(b)), f).1,
    }
}

// The result and the flags of an operation of one number.
#[inline(always)]
fn result_of_one<const W: u8, O: UnaryAt<W>>(m: &Machine, a: u32) -> (u32, Flags)
    requires { IsWidth W }
    ensures { result ≡ O.formula W (cut W a) m.now.world.regs.flags }
{
    let (v, flags) = O::apply(cut::<W>(u64::from(a)), flags_of(m));
    (v.get(), flags)
}

// A register of a width becomes the result of an operation of W bits.
#[inline(always)]
fn change_one<const W: u8, O: UnaryAt<W>>(m: &mut Machine, own: u8, n: u8)
    requires { IsWidth W }
    ensures { let r = m.old.world.regs in
        m.new ≡ with_result own n (O.formula W (cut W (register r own n)) r.flags) m.old }
{
    let a = register(m.registers(), own, n);
    let (v, flags) = result_of_one::<W, O>(m, a);
    m.set_flags(flags);
    put_register(m, own, n, v);
}

// A number in memory becomes the result of an operation of W bits.
#[inline(always)]
fn change_one_in_memory<const W: u8, L: Look, O: UnaryAt<W>>(
    m: &mut Machine,
    i: &Insn,
    form: &MemForm,
) -> Result<(), L::Missed>
    requires width { IsWidth W }
    requires same { i.now.width ≡ W }
    requires first { i.now.first ≡ Mem form.now }
    ensures { CarriesOutBy L.reported m.old m.new result (unary O.formula m.old.world i.now) }
{
    change_number!(L, W, m, i, form, a => result_of_one::<W, O>(m, a))
}

// The row of an operation of one number of W bits.
#[inline(always)]
fn unary_at<const W: u8, L: Look, O: UnaryAt<W>>(m: &mut Machine, i: &Insn) -> Result<(), L::Missed>
    requires width { IsWidth W }
    requires same { i.now.width ≡ W }
    ensures { CarriesOutBy L.reported m.old m.new result (unary O.formula m.old.world i.now) }
{
    change_first!(L, W, m, i, a => result_of_one::<W, O>(m, a),
        own, n => change_one::<W, O>(m, own, n), form => change_one_in_memory::<W, L, O>(m, i, form))
}

/// INC, DEC, NEG, NOT. Source: 80386 Programmer's Reference Manual, ch. 17.
#[derive(Clone, Copy)]
pub(crate) struct OneOperand<O>(pub O);

impl<O: Unary> InsnRow for OneOperand<O> {
    ghost plan = { λ row w i. unary O.formula w i };

    #[inline(always)]
    fn carry_out<L: Look>(self, m: &mut Machine, i: &Insn) -> Result<(), L::Missed> {
        at_width!(i.width, unary_at, L, O, m, i)
    }
}

impl<const W: u8, O: Unary + UnaryAt<W>> ShapedRow<W> for OneOperand<O> {
    const SECOND_WIDTH: u8 = W;

    ghost SECOND_WIDTH = { W };

    #[inline(always)]
    fn on_register(self, m: &mut Machine, i: &Insn, n: u8, b: u32) {
        change_one::<W, O>(m, W, n);
    }

    #[inline(always)]
    fn in_memory<L: Look>(
        self,
        m: &mut Machine,
        i: &Insn,
        form: &MemForm,
        b: u32,
    ) -> Result<(), L::Missed> {
        change_one_in_memory::<W, L, O>(m, i, form)
    }
}
