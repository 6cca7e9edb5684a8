// Moves.
#![tactic(auto, unfolding(crate::specs::Moves::mov, insn_plan::specs::Operands::put_operand, crate::specs::Moves::movzx, //
crate::specs::Moves::movsx, crate::specs::Moves::xchg, crate::specs::Moves::lea, crate::specs::Moves::xlat, crate::specs::Moves::cwd, //
insn_plan::specs::Plan::after_plan, insn_plan::specs::Plan::after_commit, guest_space::specs::Pending::first_write_fault, //
guest_space::specs::Pending::after_writes))]

ghost use Rattle.std.specs.Prelude.{◌≡◌, ◌<◌, ◌^◌, IsTrue, Ok};
ghost use Rattle.cpu_values.specs.Word.{cut};
ghost use Rattle.exec_core.specs.Moves.{mov, movzx, movsx, xchg, lea, xlat, cbw, cwd, sign_extended, sign_bits, half_width, operand_offset};
ghost use Rattle.insn_forms.specs.{Kinds.{is_width}, Shapes.{HasShape, shape_width}, declared.insn.Operand.TheVariants.{Mem}};
ghost use Rattle.insn_plan.specs.{Act.{value_of}, Looks.{CarriesOutBy}, Operands.{source}, Plan.{CarriesOut}};

use crate::arithmetic::at_known_width;
use crate::shaped::{ShapedRow, at_shape};
use client_world::general::{EAX, EDX};
use guest_space::Machine;
use insn_forms::{Insn, MemForm, Operand};
use insn_plan::{
    InsnRow, Look, Next, Raised, cut_address, offset_of, put_operand, put_register, read_width,
    register, register_width, source,
};

/// A number cut to a width of 8, 16 or 32 bits.
#[inline(always)]
pub(crate) fn cut(width: u8, v: u32) -> u32
    requires { IsTrue (is_width width) }
    ensures value { result ≡ cut width v }
    ensures fits { result < 2 ^ width }
{
    match width {
        8 => v % 0x100,
        16 => v % 0x1_0000,
        _ => v,
    }
}

// A number in memory becomes what the source gives.
#[inline(always)]
fn mov_to_memory<L: Look>(
    m: &mut Machine,
    i: &Insn,
    form: &MemForm,
    width: u8,
    v: u32,
) -> Result<(), L::Missed>
    requires width { i.now.width ≡ width }
    requires first { i.now.first ≡ Mem form.now }
    requires second { value_of m.old.world (source m.old.world.regs i.now.addr32 width i.now.second) ≡ Ok v }
    ensures { CarriesOutBy L.reported m.old m.new result (mov m.old.world i.now) }
{
    let off = offset_of(m.registers(), i.addr32, form);
    L::write(m, form.seg, off, width, v)
}

// The row of MOV at a width.
#[inline(always)]
fn mov_at<L: Look>(m: &mut Machine, i: &Insn, width: u8) -> Result<(), L::Missed>
    requires { i.now.width ≡ width }
    ensures { CarriesOutBy L.reported m.old m.new result (mov m.old.world i.now) }
{
    let v = L::source(m, i.addr32, width, &i.second)?;
    match &i.first {
        Operand::Reg { width: own, number } => {
            let own = register_width::<L>(width, *own)?;
            put_register(m, own, *number, v);
        }
        Operand::Mem(form) => mov_to_memory::<L>(m, i, form, width, v)?,
        _ => {}
    }
    Ok(())
}

/// MOV. Source: 80386 Programmer's Reference Manual, ch. 17.
#[derive(Clone, Copy)]
pub(crate) struct Mov;

impl InsnRow for Mov {
    ghost plan = { λ row w i. mov w i };

    #[inline(always)]
    fn carry_out<L: Look>(self, m: &mut Machine, i: &Insn) -> Result<(), L::Missed> {
        at_known_width!(mov_at, L, m, i)
    }
}

impl<const W: u8> ShapedRow<W> for Mov {
    const SECOND_WIDTH: u8 = W;

    ghost SECOND_WIDTH = { W };

    #[inline(always)]
    fn on_register(self, m: &mut Machine, i: &Insn, n: u8, b: u32) {
        put_register(m, W, n, b);
    }

    #[inline(always)]
    fn in_memory<L: Look>(
        self,
        m: &mut Machine,
        i: &Insn,
        form: &MemForm,
        b: u32,
    ) -> Result<(), L::Missed> {
        mov_to_memory::<L>(m, i, form, W, b)
    }
}

/// MOVZX. Source: 80386 Programmer's Reference Manual, ch. 17.
#[inline(never)]
pub(crate) fn movzx(m: &mut Machine, i: &Insn, from: u8) -> Result<(), Raised>
    requires { IsTrue (is_width from) }
    ensures { CarriesOut m.old m.new result (movzx m.old.world i.now from) }
{
    let v = source(m, i.addr32, from, &i.second)?;
    put_operand(m, i.addr32, i.width, &i.first, cut(from, v))
}

// A number of some bits with its sign in the bits above, up to a width.
#[inline(always)]
fn sign_extended(from: u8, width: u8, v: u32) -> u32
    requires from { IsTrue (is_width from) }
    requires width { IsTrue (is_width width) }
    requires fits { v < 2 ^ from }
    ensures { result ≡ sign_extended from width v }
{
    let v = u64::from(v);
    if v < 1u64 << (from - 1) {
        v as u32
    } else {
        (v + (1u64 << width)).saturating_sub(1u64 << from) as u32
    }
}

/// MOVSX. Source: 80386 Programmer's Reference Manual, ch. 17.
#[inline(never)]
pub(crate) fn movsx(m: &mut Machine, i: &Insn, from: u8) -> Result<(), Raised>
    requires from { IsTrue (is_width from) }
    requires width { IsTrue (is_width i.now.width) }
    ensures { CarriesOut m.old m.new result (movsx m.old.world i.now from) }
{
    let v = source(m, i.addr32, from, &i.second)?;
    let v = sign_extended(from, i.width, cut(from, v));
    put_operand(m, i.addr32, i.width, &i.first, v)
}

/// XCHG. Source: 80386 Programmer's Reference Manual, ch. 17.
#[inline(never)]
pub(crate) fn xchg(m: &mut Machine, i: &Insn) -> Result<(), Raised>
    ensures { CarriesOut m.old m.new result (xchg m.old.world i.now) }
{
    let a = source(m, i.addr32, i.width, &i.first)?;
    let b = source(m, i.addr32, i.width, &i.second)?;
    let mut next = Next::new(m);
    next.put(m.registers(), i.addr32, i.width, &i.first, b);
    next.put(m.registers(), i.addr32, i.width, &i.second, a);
    next.settle(m)
}

// The offset of an operand in memory.
#[inline(always)]
fn operand_offset(m: &Machine, i: &Insn, operand: &Operand) -> u32
    ensures { result ≡ operand_offset m.now.world i.now operand.now }
{
    match operand {
        Operand::Mem(f) => offset_of(m.registers(), i.addr32, f),
        _ => 0,
    }
}

// Puts an offset into the register of a shape, `known` as a constant, whose registers have that width.
#[inline(always)]
fn put_offset(
    m: &mut Machine,
    i: &Insn,
    shape: usize,
    known: u16,
    width: u8,
    off: u32,
) -> Result<(), Raised>
    requires shape { HasShape shape i.now }
    requires known { known ≡ shape }
    requires some { known < 264 }
    requires wide { shape_width known ≡ width }
    requires width { IsTrue (is_width width) }
    requires off { off ≡ operand_offset m.old.world i.now i.now.second }
    ensures { CarriesOut m.old m.new result (lea m.old.world i.now) }
{
    put_register(m, width, (known % 8) as u8, cut(width, off));
    Ok(())
}

/// LEA. Its shape leads to its register. Source: 80386 Programmer's Reference Manual, ch. 17.
#[inline(never)]
pub(crate) fn lea(m: &mut Machine, i: &Insn, shape: usize) -> Result<(), Raised>
    requires width { IsTrue (is_width i.now.width) }
    requires shape { HasShape shape i.now }
    ensures { CarriesOut m.old m.new result (lea m.old.world i.now) }
{
    let off = operand_offset(m, i, &i.second);
    at_shape!(
        shape, known,
        248 249 250 251 252 253 254 255 => put_offset(m, i, shape, known, 16, off),
        256 257 258 259 260 261 262 263 => put_offset(m, i, shape, known, 32, off),
        _ => put_operand(m, i.addr32, i.width, &i.first, cut(i.width, off))
    )
}

/// XLAT. Source: 80386 Programmer's Reference Manual, ch. 17.
#[inline(never)]
pub(crate) fn xlat(m: &mut Machine, i: &Insn) -> Result<(), Raised>
    ensures { CarriesOut m.old m.new result (xlat m.old.world i.now) }
{
    let r = m.registers();
    let off = cut_address(i.addr32, u64::from(r.ebx) + u64::from(r.eax % 0x100));
    let v = read_width(m, i.seg, off, 8)?;
    put_register(m, 8, EAX, v);
    Ok(())
}

// Half of a width.
fn half_width(width: u8) -> u8
    ensures value { result ≡ half_width width }
    ensures width { IsTrue (is_width result) }
{
    if width == 16 { 8 } else { 16 }
}

/// CBW and CWDE. Source: 80386 Programmer's Reference Manual, ch. 17.
#[inline(never)]
#[tactic(auto, using(crate::proofs::Parts::half_fits), unfolding(crate::specs::Moves::cbw, insn_plan::specs::Plan::after_plan, //
insn_plan::specs::Plan::after_commit, guest_space::specs::Pending::first_write_fault, guest_space::specs::Pending::after_writes))]
pub(crate) fn cbw(m: &mut Machine, i: &Insn) -> Result<(), Raised>
    requires { IsTrue (is_width i.now.width) }
    ensures { CarriesOut m.old m.new result (cbw m.old.world i.now) }
{
    let half = half_width(i.width);
    let v = sign_extended(half, i.width, register(m.registers(), half, EAX));
    put_register(m, i.width, EAX, v);
    Ok(())
}

// The sign of a number as all bits of a width.
fn sign_bits(width: u8, v: u32) -> u32
    requires { IsTrue (is_width width) }
    ensures { result ≡ sign_bits width v }
{
    if u64::from(v) < 1u64 << (width - 1) {
        0
    } else {
        ((1u64 << width) - 1) as u32
    }
}

/// CWD and CDQ. Source: 80386 Programmer's Reference Manual, ch. 17.
#[inline(never)]
pub(crate) fn cwd(m: &mut Machine, i: &Insn) -> Result<(), Raised>
    requires { IsTrue (is_width i.now.width) }
    ensures { CarriesOut m.old m.new result (cwd m.old.world i.now) }
{
    let sign = sign_bits(i.width, register(m.registers(), i.width, EAX));
    put_register(m, i.width, EDX, sign);
    Ok(())
}
