// Products and quotients.
#![tactic(auto, unfolding(insn_plan::specs::Registers::register, crate::specs::Products::multiply, //
crate::specs::Products::multiply_two, crate::specs::Products::multiply_three, crate::specs::Products::imul, //
crate::specs::Products::divide, insn_plan::specs::Plan::after_plan, insn_plan::specs::Plan::after_commit, //
guest_space::specs::Pending::first_write_fault, guest_space::specs::Pending::after_writes))]

ghost use Rattle.std.specs.Prelude.{◌≡◌, IsTrue};
ghost use Rattle.client_world.specs.{Access.{fault_with}, declared.faults.TheConstants.{DIVIDE_ERROR}};
ghost use Rattle.client_world.specs.declared.faults.Event.TheVariants.{Fault as fault};
ghost use Rattle.cpu_alu.specs.{Products.{mul_of, imul_of}, Quotients.{div_of, idiv_of}};
ghost use Rattle.cpu_values.specs.Word.{cut};
ghost use Rattle.exec_core.specs.Products.{Product, Quotient, multiply, multiply_two, multiply_three, imul, divide, with_double};
ghost use Rattle.exec_core.specs.Products.{high_register};
ghost use Rattle.guest_space.specs.Registers.{with_registers};
ghost use Rattle.insn_forms.specs.Kinds.{is_width};
ghost use Rattle.insn_plan.specs.{Act.{with_flags}, Operands.{put_operand}, Plan.{CarriesOut, Follows, after_commit}, Registers.{register}};

use client_world::faults::DIVIDE_ERROR;
use client_world::general::{EAX, EDX};
use client_world::{Fault, Flags, Regs};
use cpu_alu::{div, idiv, imul, mul};
use cpu_values::cut;
use guest_space::Machine;
use insn_forms::{Insn, Operand};
use insn_plan::{Raised, put_register, put_with_flags, register, source};

/// The number of AH among the registers of 8 bits.
pub(crate) const AH: u8 = 4;

// A product at a width.
macro_rules! product_at_width {
    ($formula:ident, $width:expr, $a:expr, $b:expr, $flags:expr) => {
        match $width {
            8 => {
                let (low, high, f) = $formula::<8>(cut::<8>(u64::from($a)), cut::<8>(u64::from($b)), $flags);
                (low.get(), high.get(), f)
            }
            16 => {
                let (low, high, f) = $formula::<16>(cut::<16>(u64::from($a)), cut::<16>(u64::from($b)), $flags);
                (low.get(), high.get(), f)
            }
            _ => {
                let (low, high, f) = $formula::<32>(cut::<32>(u64::from($a)), cut::<32>(u64::from($b)), $flags);
                (low.get(), high.get(), f)
            }
        }
    };
}

// A quotient at a width.
macro_rules! quotient_at_width {
    ($formula:ident, $width:expr, $low:expr, $high:expr, $by:expr) => {
        match $width {
            8 => {
                let (q, r) = $formula::<8>(cut::<8>(u64::from($low)), cut::<8>(u64::from($high)), cut::<8>(u64::from($by)))?;
                Some((q.get(), r.get()))
            }
            16 => {
                let (q, r) = $formula::<16>(cut::<16>(u64::from($low)), cut::<16>(u64::from($high)), cut::<16>(u64::from($by)))?;
                Some((q.get(), r.get()))
            }
            _ => {
                let (q, r) = $formula::<32>(cut::<32>(u64::from($low)), cut::<32>(u64::from($high)), cut::<32>(u64::from($by)))?;
                Some((q.get(), r.get()))
            }
        }
    };
}

/// Numbers with a sign or without one, in products and quotients.
pub(crate) trait Sign {
    ghost product: { Product };

    ghost quotient: { Quotient };

    /// A product at a width: its low half, its high half, and the flags.
    fn product(width: u8, a: u32, b: u32, f: Flags) -> (u32, u32, Flags)
        requires { IsTrue (is_width width) }
        ensures { result ≡ product width (cut width a) (cut width b) f };

    /// The quotient of a double word, its low half first, and the remainder; or none.
    fn quotient(width: u8, low: u32, high: u32, by: u32) -> Option<(u32, u32)>
        requires { IsTrue (is_width width) }
        ensures { result ≡ quotient width (cut width low) (cut width high) (cut width by) };
}

/// Numbers without a sign, for MUL and DIV.
pub(crate) struct Unsigned;

impl Sign for Unsigned {
    ghost product = { mul_of };

    ghost quotient = { div_of };

    fn product(width: u8, a: u32, b: u32, f: Flags) -> (u32, u32, Flags) {
        product_at_width!(mul, width, a, b, f)
    }

    fn quotient(width: u8, low: u32, high: u32, by: u32) -> Option<(u32, u32)> {
        quotient_at_width!(div, width, low, high, by)
    }
}

/// Numbers with a sign, for IMUL and IDIV.
pub(crate) struct Signed;

impl Sign for Signed {
    ghost product = { imul_of };

    ghost quotient = { idiv_of };

    fn product(width: u8, a: u32, b: u32, f: Flags) -> (u32, u32, Flags) {
        product_at_width!(imul, width, a, b, f)
    }

    fn quotient(width: u8, low: u32, high: u32, by: u32) -> Option<(u32, u32)> {
        quotient_at_width!(idiv, width, low, high, by)
    }
}

/// Exception 0.
pub(crate) fn divide_error() -> Raised
    ensures { result ≡ fault (fault_with DIVIDE_ERROR 0) }
{
    Raised::from(Fault {
        number: DIVIDE_ERROR,
        code: 0,
    })
}

// Puts a double word into its registers, its low half first.
fn put_double(m: &mut Machine, width: u8, low: u32, high: u32)
    ensures { m.new ≡ with_registers (with_double width low high m.old.world.regs) m.old }
{
    put_register(m, width, EAX, low);
    put_register(m, width, high_register(width), high);
}

/// The register of a double word's high half.
pub(crate) fn high_register(width: u8) -> u8
    ensures { result ≡ high_register width }
{
    if width == 8 { AH } else { EDX }
}

/// The register of a number, and that it has no more bits than the width.
pub(crate) fn word_in(r: &Regs, width: u8, n: u8) -> u32
    requires { IsTrue (is_width width) }
    ensures value { result ≡ register r.now width n }
    ensures in_range { cut width (register r.now width n) ≡ register r.now width n }
{
    match width {
        8 => register(r, 8, n),
        16 => register(r, 16, n),
        _ => register(r, 32, n),
    }
}

/// MUL, and IMUL of one operand. Source: 80386 Programmer's Reference Manual, ch. 17.
#[inline(never)]
pub(crate) fn multiply<S: Sign>(m: &mut Machine, i: &Insn) -> Result<(), Raised>
    requires { IsTrue (is_width i.now.width) }
    ensures { CarriesOut m.old m.new result (multiply S.product m.old.world i.now) }
{
    let a = source(m, i.addr32, i.width, &i.first)?;
    let by = word_in(m.registers(), i.width, EAX);
    let (low, high, flags) = S::product(i.width, by, a, m.registers().flags);
    m.set_flags(flags);
    put_double(m, i.width, low, high);
    Ok(())
}

// Puts the low half of IMUL's product where the first operand names and sets the flags, or gives the fault of the write.
fn put_low_product(m: &mut Machine, i: &Insn, a: u32, b: u32) -> Result<(), Raised>
    requires { IsTrue (is_width i.now.width) }
    ensures { let value = imul_of i.now.width (cut i.now.width a) (cut i.now.width b) m.old.world.regs.flags in
        Follows m.old m.new result
        (after_commit m.old (put_operand m.old.world.regs i.now.addr32 i.now.width i.now.first value.0 (with_flags value.2 m.old.world))) }
{
    let (low, _, flags) = Signed::product(i.width, a, b, m.registers().flags);
    put_with_flags(m, flags, i.addr32, i.width, &i.first, low)
}

// IMUL of two operands.
fn multiply_two(m: &mut Machine, i: &Insn) -> Result<(), Raised>
    requires { IsTrue (is_width i.now.width) }
    ensures { CarriesOut m.old m.new result (multiply_two m.old.world i.now) }
{
    let a = source(m, i.addr32, i.width, &i.first)?;
    let b = source(m, i.addr32, i.width, &i.second)?;
    put_low_product(m, i, a, b)
}

// IMUL of three operands.
fn multiply_three(m: &mut Machine, i: &Insn) -> Result<(), Raised>
    requires { IsTrue (is_width i.now.width) }
    ensures { CarriesOut m.old m.new result (multiply_three m.old.world i.now) }
{
    let a = source(m, i.addr32, i.width, &i.second)?;
    let b = source(m, i.addr32, i.width, &i.third)?;
    put_low_product(m, i, a, b)
}

/// IMUL, by the number of its operands. Source: 80386 Programmer's Reference Manual, ch. 17.
#[inline(never)]
pub(crate) fn multiply_signed(m: &mut Machine, i: &Insn) -> Result<(), Raised>
    requires { IsTrue (is_width i.now.width) }
    ensures { CarriesOut m.old m.new result (imul m.old.world i.now) }
{
    if i.second == Operand::Empty {
        multiply::<Signed>(m, i)
    } else if i.third == Operand::Empty {
        multiply_two(m, i)
    } else {
        multiply_three(m, i)
    }
}

/// DIV and IDIV; exception 0 where there is no quotient. Source: 80386 Programmer's Reference Manual, ch. 17.
#[inline(never)]
pub(crate) fn divide<S: Sign>(m: &mut Machine, i: &Insn) -> Result<(), Raised>
    requires { IsTrue (is_width i.now.width) }
    ensures { CarriesOut m.old m.new result (divide S.quotient m.old.world i.now) }
{
    let by = source(m, i.addr32, i.width, &i.first)?;
    let low = word_in(m.registers(), i.width, EAX);
    let high = word_in(m.registers(), i.width, high_register(i.width));
    let Some((quotient, remainder)) = S::quotient(i.width, low, high, by) else {
        return Err(divide_error());
    };
    put_double(m, i.width, quotient, remainder);
    Ok(())
}
