// The operations of this crate, and what each of them does.
ghost use Rattle.std.specs.Prelude.{◌≡◌, IfNone, IfSome, IsTrue, false, not, true};
ghost use Rattle.exec_core.specs.Dispatch.{is_core, core_row, IsCore};
ghost use Rattle.insn_forms.specs.{Kinds.{is_segment, is_width, has_good_number, operand_kind}, Shapes.{HasShape}};
ghost use Rattle.insn_plan.specs.Plan.{CarriesOut};

use crate::arithmetic::{Arithmetic, Comparison, OneOperand};
use crate::bits::{Reset, Set, Toggle, bit_change, bit_scan, bit_test, setcc};
use crate::decimal::{
    adjust_after_addition, adjust_after_product, adjust_after_subtraction, adjust_before_division,
    decimal_adjust_after_addition, decimal_adjust_after_subtraction,
};
use crate::flag_rows::{clc, cld, cmc, lahf, sahf, stc, std, wait};
use crate::moves::{Mov, cbw, cwd, lea, movsx, movzx, xchg, xlat};
use crate::operations::{
    Add, AddWithCarry, And, Complement, Decrement, ExclusiveOr, Increment, Negate, Or, Subtract,
    SubtractWithBorrow,
};
use crate::products::{Signed, Unsigned, divide, multiply, multiply_signed};
use crate::shaped::{run_shaped, run_shift};
use crate::shift_operations::{
    RotateLeft, RotateLeftThroughCarry, RotateRight, RotateRightThroughCarry, ShiftArithmeticRight,
    ShiftLeft, ShiftRight,
};
use crate::shifts::{ShiftLeftDouble, ShiftRightDouble, Shifting, shift_in};
use crate::stacks::{popa, pusha, run_pop, run_push};
use crate::strings::{Cmps, Lods, Movs, Scas, Stos};
use client_world::Event;
use guest_space::Machine;
use insn_forms::{Insn, Op, Operand, Owner};
use insn_plan::{Raised, run_row};

// Whether an operand isn't a segment register.
fn is_no_segment(operand: &Operand) -> bool
    ensures { result ≡ not (is_segment (operand_kind operand.now)) }
{
    !matches!(operand, Operand::Seg(_))
}

/// Whether the instruction is one of this crate. Source: own.
#[tactic(auto, unfolding(crate::specs::Dispatch::is_core))]
pub fn is_core(i: &Insn) -> bool
    ensures { result ≡ is_core i.now.op i.now.first i.now.second }
{
    match i.op.traits().owner {
        Owner::Core => true,
        Owner::Flow => false,
        Owner::ByFirst => is_no_segment(&i.first),
        Owner::ByOperands => is_no_segment(&i.first) && is_no_segment(&i.second),
    }
}

/// Carries out an instruction of this crate, of `len` bytes, whose EIP is already after it. An event, in one word, leaves the machine as it
/// was. `None`: the instruction isn't one of this crate, and nothing is done. Its shape leads to its registers.
/// Source: 80386 Programmer's Reference Manual, ch. 17; that an instruction that faults changes nothing is own.
#[inline(always)]
#[tactic(auto, unfolding(crate::specs::Dispatch::is_core, crate::specs::Dispatch::core_row))]
pub fn carry_out_core(
    m: &mut Machine,
    insn: &Insn,
    len: u8,
    shape: u16,
) -> Option<Result<(), Raised>>
    requires width { IsTrue (is_width insn.now.width) }
    requires number { IsTrue (has_good_number insn.now.op) }
    requires shape { HasShape shape insn.now }
    ensures done { IfSome result (λ r. CarriesOut m.old m.new r (core_row insn.now.op m.old.world insn.now len)) }
    ensures core { IfSome result (λ r. is_core insn.now.op insn.now.first insn.now.second ≡ true) }
    ensures other { IfNone result (is_core insn.now.op insn.now.first insn.now.second ≡ false) }
    ensures kept { IfNone result (m.new ≡ m.old) }
{
    let shape = usize::from(shape);
    match insn.op {
        Op::Mov if is_no_segment(&insn.first) && is_no_segment(&insn.second) => Some(run_shaped(
            Mov, m, insn, shape,
        )),
        Op::Add => Some(run_shaped(Arithmetic(Add), m, insn, shape)),
        Op::Or => Some(run_shaped(Arithmetic(Or), m, insn, shape)),
        Op::Adc => Some(run_shaped(Arithmetic(AddWithCarry), m, insn, shape)),
        Op::Sbb => Some(run_shaped(Arithmetic(SubtractWithBorrow), m, insn, shape)),
        Op::And => Some(run_shaped(Arithmetic(And), m, insn, shape)),
        Op::Sub => Some(run_shaped(Arithmetic(Subtract), m, insn, shape)),
        Op::Xor => Some(run_shaped(Arithmetic(ExclusiveOr), m, insn, shape)),
        Op::Cmp => Some(run_shaped(Comparison(Subtract), m, insn, shape)),
        Op::Test => Some(run_shaped(Comparison(And), m, insn, shape)),
        Op::Inc => Some(run_shaped(OneOperand(Increment), m, insn, shape)),
        Op::Dec => Some(run_shaped(OneOperand(Decrement), m, insn, shape)),
        Op::Not => Some(run_shaped(OneOperand(Complement), m, insn, shape)),
        Op::Neg => Some(run_shaped(OneOperand(Negate), m, insn, shape)),
        Op::Mul => Some(multiply::<Unsigned>(m, insn)),
        Op::Imul => Some(multiply_signed(m, insn)),
        Op::Div => Some(divide::<Unsigned>(m, insn)),
        Op::Idiv => Some(divide::<Signed>(m, insn)),
        Op::Daa => Some(decimal_adjust_after_addition(m)),
        Op::Das => Some(decimal_adjust_after_subtraction(m)),
        Op::Aaa => Some(adjust_after_addition(m)),
        Op::Aas => Some(adjust_after_subtraction(m)),
        Op::Aam => Some(adjust_after_product(m, insn)),
        Op::Aad => Some(adjust_before_division(m, insn)),
        Op::Rol => Some(run_shift(Shifting(RotateLeft), m, insn, shape)),
        Op::Ror => Some(run_shift(Shifting(RotateRight), m, insn, shape)),
        Op::Rcl => Some(run_shift(Shifting(RotateLeftThroughCarry), m, insn, shape)),
        Op::Rcr => Some(run_shift(Shifting(RotateRightThroughCarry), m, insn, shape)),
        Op::Shl => Some(run_shift(Shifting(ShiftLeft), m, insn, shape)),
        Op::Shr => Some(run_shift(Shifting(ShiftRight), m, insn, shape)),
        Op::Sar => Some(run_shift(Shifting(ShiftArithmeticRight), m, insn, shape)),
        Op::Shld => Some(shift_in::<ShiftLeftDouble>(m, insn)),
        Op::Shrd => Some(shift_in::<ShiftRightDouble>(m, insn)),
        Op::Bt => Some(bit_test(m, insn)),
        Op::Bts => Some(bit_change::<Set>(m, insn)),
        Op::Btr => Some(bit_change::<Reset>(m, insn)),
        Op::Btc => Some(bit_change::<Toggle>(m, insn)),
        Op::Bsf => Some(bit_scan(m, insn, true)),
        Op::Bsr => Some(bit_scan(m, insn, false)),
        Op::Setcc(n) => Some(setcc(m, insn, n)),
        Op::Movzx(from) => Some(movzx(m, insn, from)),
        Op::Movsx(from) => Some(movsx(m, insn, from)),
        Op::Xchg => Some(xchg(m, insn)),
        Op::Lea => Some(lea(m, insn, shape)),
        Op::Xlat => Some(xlat(m, insn)),
        Op::Cbw => Some(cbw(m, insn)),
        Op::Cwd => Some(cwd(m, insn)),
        Op::Lahf => Some(lahf(m)),
        Op::Sahf => Some(sahf(m)),
        Op::Push if is_no_segment(&insn.first) => Some(run_push(m, insn, shape)),
        Op::Pop if is_no_segment(&insn.first) => Some(run_pop(m, insn, shape)),
        Op::Pusha => Some(pusha(m, insn)),
        Op::Popa => Some(popa(m, insn)),
        Op::Movs => Some(run_row(Movs { len }, m, insn)),
        Op::Cmps => Some(run_row(Cmps { len }, m, insn)),
        Op::Stos => Some(run_row(Stos { len }, m, insn)),
        Op::Lods => Some(run_row(Lods { len }, m, insn)),
        Op::Scas => Some(run_row(Scas { len }, m, insn)),
        Op::Clc => Some(clc(m)),
        Op::Stc => Some(stc(m)),
        Op::Cmc => Some(cmc(m)),
        Op::Cld => Some(cld(m)),
        Op::Std => Some(std(m)),
        Op::Wait => Some(wait(m)),
        // With a segment register they are exec_flow's, and so are all others.
        Op::Mov | Op::Push | Op::Pop => None,
        _ => None,
    }
}

/// Runs an instruction of this crate, whose EIP is already after it. An event leaves the machine as it was.
/// Source: 80386 Programmer's Reference Manual, ch. 17; that an instruction that faults changes nothing is own.
pub fn run_core(m: &mut Machine, insn: &Insn, len: u8) -> Result<(), Event>
    requires core { IsCore insn.now }
    requires width { IsTrue (is_width insn.now.width) }
    requires number { IsTrue (has_good_number insn.now.op) }
    ensures { CarriesOut m.old m.new result (core_row insn.now.op m.old.world insn.now len) }
{
    match carry_out_core(m, insn, len, insn.shape()) {
        Some(Ok(())) => Ok(()),
        Some(Err(raised)) => Err(raised.event()),
        None => unreachable!(),
    }
}
