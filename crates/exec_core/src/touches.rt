// What the instructions of this crate access. Each function has a pattern of accesses, which is that of all the rows that its contract
// names.
ghost use Rattle.std.specs.Prelude.{◌≡◌, ◌<◌, ◌+◌, ◌++◌, ◌∷◌, [], true, MatchOption, IsTrue, None, Some, ℕ, length};
ghost use Rattle.exec_core.specs.{Arithmetic.{Formula, SingleFormula, binary, compare, unary}, Bits.{setcc, bit_test, bit_change}};
ghost use Rattle.exec_core.specs.{Bits.{bit_scan}, Decimal.{aad, aam}, Dispatch.{IsCore, core_row}, Moves.{mov, movzx, movsx, xchg, lea}};
ghost use Rattle.exec_core.specs.{Moves.{xlat}, Products.{Product, multiply, multiply_two, multiply_three, imul, divide}};
ghost use Rattle.exec_core.specs.{Shifts.{DoubleFormula, shift, shift_in}, Stacks.{push, pop, pusha, popa}, Strings.{is_over}};
ghost use Rattle.exec_core.specs.Strings.{source_element, destination_element, movs, cmps, stos, lods, scas};
ghost use Rattle.insn_forms.specs.Kinds.{is_width, has_good_number};
ghost use Rattle.insn_plan.specs.{Accesses.{Notes, and_read, with_next_eip, touches}, Act.{value_of}, Registers.{cut_address}};
ghost use Rattle.insn_plan.specs.Stack.{regs_after_pops};
ghost use Rattle.guest_space.specs.Pending.{byte_count};
ghost use Rattle.client_world.specs.declared.segments.SegReg.TheVariants.{Es};

use crate::bits::bit_operand;
use crate::moves::cut;
use crate::products::{Sign, Signed, Unsigned, divide_error, high_register, word_in};
use arrayvec::ArrayVec;
use client_world::general::EAX;
use client_world::{Regs, SegReg, Touch};
use guest_space::{Machine, byte_count};
use insn_forms::{Insn, Op, Operand, Rep};
use insn_plan::{Accesses, MAX_ACCESSES, Raised, cut_address, esp_up};

// Reads the first two operands, and puts into the first.
#[tactic(auto, unfolding(crate::specs::Arithmetic::binary, crate::specs::Products::multiply_two, //
insn_plan::specs::Accesses::accesses_after), using(insn_plan::proofs::AccessLists::put_accesses))]
fn both_into_first(a: &mut Accesses<'_>, i: &Insn) -> Result<(), Raised>
    requires { length a.old.accesses ≡ 0 }
    ensures arithmetic { (formula : Formula) → Notes a.old a.new result (binary formula a.old.world i.now) }
    ensures product { Notes a.old a.new result (multiply_two a.old.world i.now) }
{
    a.operand(i.addr32, i.width, &i.first)?;
    a.operand(i.addr32, i.width, &i.second)?;
    a.put(i.addr32, i.width, &i.first);
    Ok(())
}

// Reads the first two operands.
#[tactic(auto, unfolding(crate::specs::Arithmetic::compare, insn_plan::specs::Accesses::accesses_after))]
fn both(a: &mut Accesses<'_>, i: &Insn) -> Result<(), Raised>
    requires { length a.old.accesses ≡ 0 }
    ensures { (formula : Formula) → Notes a.old a.new result (compare formula a.old.world i.now) }
{
    a.operand(i.addr32, i.width, &i.first)?;
    a.operand(i.addr32, i.width, &i.second)?;
    Ok(())
}

// Reads the first operand, and puts into it.
#[tactic(auto, unfolding(crate::specs::Arithmetic::unary, insn_plan::specs::Accesses::accesses_after), //
using(insn_plan::proofs::AccessLists::put_accesses))]
fn first_into_first(a: &mut Accesses<'_>, i: &Insn) -> Result<(), Raised>
    requires { length a.old.accesses ≡ 0 }
    ensures { (formula : SingleFormula) → Notes a.old a.new result (unary formula a.old.world i.now) }
{
    a.operand(i.addr32, i.width, &i.first)?;
    a.put(i.addr32, i.width, &i.first);
    Ok(())
}

// Puts into the first operand, at a width.
#[tactic(auto, unfolding(crate::specs::Bits::setcc, crate::specs::Moves::lea, insn_plan::specs::Accesses::accesses_after), //
using(insn_plan::proofs::AccessLists::put_accesses))]
fn into_first(a: &mut Accesses<'_>, i: &Insn, width: u8) -> Result<(), Raised>
    requires { length a.old.accesses ≡ 0 }
    ensures byte { width ≡ 8 → (n : ℕ) → Notes a.old a.new result (setcc a.old.world i.now n) }
    ensures word { width ≡ i.now.width → Notes a.old a.new result (lea a.old.world i.now) }
{
    a.put(i.addr32, width, &i.first);
    Ok(())
}

// Reads the second operand at a width, and puts into the first.
#[tactic(auto, unfolding(crate::specs::Moves::mov, crate::specs::Moves::movzx, crate::specs::Moves::movsx, //
insn_plan::specs::Accesses::accesses_after), using(insn_plan::proofs::AccessLists::put_accesses))]
fn second_into_first(a: &mut Accesses<'_>, i: &Insn, from: u8) -> Result<(), Raised>
    requires { length a.old.accesses ≡ 0 }
    ensures same { from ≡ i.now.width → Notes a.old a.new result (mov a.old.world i.now) }
    ensures zeros { Notes a.old a.new result (movzx a.old.world i.now from) }
    ensures signs { Notes a.old a.new result (movsx a.old.world i.now from) }
{
    a.operand(i.addr32, from, &i.second)?;
    a.put(i.addr32, i.width, &i.first);
    Ok(())
}

// XCHG.
#[tactic(auto, unfolding(crate::specs::Moves::xchg, insn_plan::specs::Accesses::accesses_after), //
using(insn_plan::proofs::AccessLists::put_accesses))]
fn xchg(a: &mut Accesses<'_>, i: &Insn) -> Result<(), Raised>
    requires { length a.old.accesses ≡ 0 }
    ensures { Notes a.old a.new result (xchg a.old.world i.now) }
{
    a.operand(i.addr32, i.width, &i.first)?;
    a.operand(i.addr32, i.width, &i.second)?;
    a.put(i.addr32, i.width, &i.first);
    a.put(i.addr32, i.width, &i.second);
    Ok(())
}

// XLAT.
#[tactic(auto, unfolding(crate::specs::Moves::xlat, insn_plan::specs::Accesses::accesses_after))]
fn xlat(a: &mut Accesses<'_>, i: &Insn) -> Result<(), Raised>
    requires { length a.old.accesses ≡ 0 }
    ensures { Notes a.old a.new result (xlat a.old.world i.now) }
{
    let r = a.regs();
    let off = u64::from(r.ebx) + u64::from(r.eax % 0x100);
    a.read(i.seg, cut_address(i.addr32, off), 1)?;
    Ok(())
}

// MUL, and IMUL of one operand.
#[tactic(auto, unfolding(crate::specs::Products::multiply, insn_plan::specs::Accesses::accesses_after))]
fn multiply(a: &mut Accesses<'_>, i: &Insn) -> Result<(), Raised>
    requires { length a.old.accesses ≡ 0 }
    ensures { (product : Product) → Notes a.old a.new result (multiply product a.old.world i.now) }
{
    a.operand(i.addr32, i.width, &i.first)?;
    Ok(())
}

// IMUL of three operands.
#[tactic(auto, unfolding(crate::specs::Products::multiply_three, insn_plan::specs::Accesses::accesses_after), //
using(insn_plan::proofs::AccessLists::put_accesses))]
fn multiply_three(a: &mut Accesses<'_>, i: &Insn) -> Result<(), Raised>
    requires { length a.old.accesses ≡ 0 }
    ensures { Notes a.old a.new result (multiply_three a.old.world i.now) }
{
    a.operand(i.addr32, i.width, &i.second)?;
    a.operand(i.addr32, i.width, &i.third)?;
    a.put(i.addr32, i.width, &i.first);
    Ok(())
}

// IMUL.
#[tactic(auto, unfolding(crate::specs::Products::imul))]
fn imul(a: &mut Accesses<'_>, i: &Insn) -> Result<(), Raised>
    requires { length a.old.accesses ≡ 0 }
    ensures { Notes a.old a.new result (imul a.old.world i.now) }
{
    if i.second == Operand::Empty {
        multiply(a, i)
    } else if i.third == Operand::Empty {
        both_into_first(a, i)
    } else {
        multiply_three(a, i)
    }
}

// DIV and IDIV.
#[tactic(auto, unfolding(crate::specs::Products::divide, insn_plan::specs::Accesses::accesses_after))]
fn divide<S: Sign>(a: &mut Accesses<'_>, i: &Insn) -> Result<(), Raised>
    requires width { IsTrue (is_width i.now.width) }
    requires start { length a.old.accesses ≡ 0 }
    ensures { Notes a.old a.new result (divide S.quotient a.old.world i.now) }
{
    let by = a.operand(i.addr32, i.width, &i.first)?;
    let r = a.regs();
    let low = word_in(&r, i.width, EAX);
    let high = word_in(&r, i.width, high_register(i.width));
    match S::quotient(i.width, low, high, by) {
        None => Err(divide_error()),
        Some(_) => Ok(()),
    }
}

// AAD.
#[tactic(auto, unfolding(crate::specs::Decimal::aad, insn_plan::specs::Accesses::accesses_after))]
fn aad(a: &mut Accesses<'_>, i: &Insn) -> Result<(), Raised>
    requires { length a.old.accesses ≡ 0 }
    ensures { Notes a.old a.new result (aad a.old.world i.now) }
{
    a.operand(i.addr32, 8, &i.first)?;
    Ok(())
}

// AAM.
#[tactic(auto, unfolding(crate::specs::Decimal::aam, insn_plan::specs::Accesses::accesses_after))]
fn aam(a: &mut Accesses<'_>, i: &Insn) -> Result<(), Raised>
    requires { length a.old.accesses ≡ 0 }
    ensures { Notes a.old a.new result (aam a.old.world i.now) }
{
    let base = a.operand(i.addr32, 8, &i.first)?;
    let r = a.regs();
    match cpu_alu::aam(r.ax(), (base % 0x100) as u8, r.flags) {
        None => Err(divide_error()),
        Some(_) => Ok(()),
    }
}

// SHL, SHR, SAR, ROL, ROR, RCL, RCR.
#[tactic(auto, unfolding(crate::specs::Shifts::shift, insn_plan::specs::Accesses::accesses_after), //
using(insn_plan::proofs::AccessLists::put_accesses))]
fn shift(a: &mut Accesses<'_>, i: &Insn) -> Result<(), Raised>
    requires { length a.old.accesses ≡ 0 }
    ensures { (formula : Formula) → Notes a.old a.new result (shift formula a.old.world i.now) }
{
    a.operand(i.addr32, i.width, &i.first)?;
    a.operand(i.addr32, 8, &i.second)?;
    a.put(i.addr32, i.width, &i.first);
    Ok(())
}

// SHLD, SHRD.
#[tactic(auto, unfolding(crate::specs::Shifts::shift_in, insn_plan::specs::Accesses::accesses_after), //
using(insn_plan::proofs::AccessLists::put_accesses))]
fn shift_in(a: &mut Accesses<'_>, i: &Insn) -> Result<(), Raised>
    requires { length a.old.accesses ≡ 0 }
    ensures { (formula : DoubleFormula) → Notes a.old a.new result (shift_in formula a.old.world i.now) }
{
    a.operand(i.addr32, i.width, &i.first)?;
    a.operand(i.addr32, i.width, &i.second)?;
    a.operand(i.addr32, 8, &i.third)?;
    a.put(i.addr32, i.width, &i.first);
    Ok(())
}

// BT.
#[tactic(auto, unfolding(crate::specs::Bits::bit_test, insn_plan::specs::Accesses::accesses_after))]
fn bit_test(a: &mut Accesses<'_>, i: &Insn) -> Result<(), Raised>
    requires width { IsTrue (is_width i.now.width) }
    requires start { length a.old.accesses ≡ 0 }
    ensures { Notes a.old a.new result (bit_test a.old.world i.now) }
{
    let offset = a.operand(i.addr32, i.width, &i.second)?;
    let place = bit_operand(i, cut(i.width, offset));
    a.operand(i.addr32, i.width, &place)?;
    Ok(())
}

// BTS, BTR, BTC.
#[tactic(auto, unfolding(crate::specs::Bits::bit_change, insn_plan::specs::Accesses::accesses_after), //
using(insn_plan::proofs::AccessLists::put_accesses))]
fn bit_change(a: &mut Accesses<'_>, i: &Insn) -> Result<(), Raised>
    requires width { IsTrue (is_width i.now.width) }
    requires start { length a.old.accesses ≡ 0 }
    ensures { (change : ℕ → ℕ → ℕ) → Notes a.old a.new result (bit_change change a.old.world i.now) }
{
    let offset = a.operand(i.addr32, i.width, &i.second)?;
    let place = bit_operand(i, cut(i.width, offset));
    a.operand(i.addr32, i.width, &place)?;
    a.put(i.addr32, i.width, &place);
    Ok(())
}

// BSF and BSR.
#[tactic(auto, unfolding(crate::specs::Bits::bit_scan, insn_plan::specs::Accesses::accesses_after), //
using(insn_plan::proofs::AccessLists::put_accesses))]
fn bit_scan(a: &mut Accesses<'_>, i: &Insn) -> Result<(), Raised>
    requires width { IsTrue (is_width i.now.width) }
    requires start { length a.old.accesses ≡ 0 }
    ensures { (place : ℕ → ℕ → ℕ) → Notes a.old a.new result (bit_scan place a.old.world i.now) }
{
    let v = a.operand(i.addr32, i.width, &i.second)?;
    if cut(i.width, v) != 0 {
        a.put(i.addr32, i.width, &i.first);
    }
    Ok(())
}

// PUSH.
#[tactic(auto, unfolding(crate::specs::Stacks::push, insn_plan::specs::Accesses::accesses_after), //
using(insn_plan::proofs::AccessLists::pushed_accesses))]
fn push(a: &mut Accesses<'_>, i: &Insn) -> Result<(), Raised>
    requires { length a.old.accesses ≡ 0 }
    ensures { Notes a.old a.new result (push a.old.world i.now) }
{
    a.operand(i.addr32, i.width, &i.first)?;
    a.push(i.width, a.regs().esp);
    Ok(())
}

// The registers after an item of a width is popped.
#[tactic(auto, unfolding(insn_plan::specs::Stack::regs_after_pops))]
fn popped(a: &Accesses<'_>, width: u8) -> Regs
    ensures { result ≡ regs_after_pops a.now.world width 1 a.now.world.regs }
{
    let r = a.regs();
    let esp = esp_up(a.has_big_stack(), u32::from(byte_count(width)), r.esp);
    Regs { esp, ..r }
}

// POP.
#[tactic(auto, unfolding(crate::specs::Stacks::pop, insn_plan::specs::Accesses::accesses_after), //
using(insn_plan::proofs::AccessLists::put_accesses))]
fn pop(a: &mut Accesses<'_>, i: &Insn) -> Result<(), Raised>
    requires { length a.old.accesses ≡ 0 }
    ensures { Notes a.old a.new result (pop a.old.world i.now) }
{
    a.stack_item(i.width, 0)?;
    a.put_with(&popped(a, i.width), i.addr32, i.width, &i.first);
    Ok(())
}

// PUSHA.
#[tactic(auto, unfolding(crate::specs::Stacks::pusha, insn_plan::specs::Accesses::accesses_after), //
using(insn_plan::proofs::AccessLists::pushed_accesses, insn_plan::proofs::AccessLists::pushed_esp))]
fn pusha(a: &mut Accesses<'_>, i: &Insn) -> Result<(), Raised>
    requires { length a.old.accesses ≡ 0 }
    ensures { Notes a.old a.new result (pusha a.old.world i.now) }
{
    let esp = a.push(i.width, a.regs().esp);
    let esp = a.push(i.width, esp);
    let esp = a.push(i.width, esp);
    let esp = a.push(i.width, esp);
    let esp = a.push(i.width, esp);
    let esp = a.push(i.width, esp);
    let esp = a.push(i.width, esp);
    a.push(i.width, esp);
    Ok(())
}

// POPA.
#[tactic(auto, unfolding(crate::specs::Stacks::popa, insn_plan::specs::Accesses::accesses_after))]
fn popa(a: &mut Accesses<'_>, i: &Insn) -> Result<(), Raised>
    requires { length a.old.accesses ≡ 0 }
    ensures { Notes a.old a.new result (popa a.old.world i.now) }
{
    a.stack_item(i.width, 0)?;
    a.stack_item(i.width, 1)?;
    a.stack_item(i.width, 2)?;
    a.stack_item(i.width, 4)?;
    a.stack_item(i.width, 5)?;
    a.stack_item(i.width, 6)?;
    a.stack_item(i.width, 7)?;
    Ok(())
}

// Whether there is nothing to do: a counter of 0 under a repeat prefix.
fn is_over(a: &Accesses<'_>, i: &Insn) -> bool
    ensures { result ≡ is_over a.now.world i.now }
{
    i.rep != Rep::Plain && cut_address(i.addr32, u64::from(a.regs().ecx)) == 0
}

// Reads the element at (E)SI.
fn read_source(a: &mut Accesses<'_>, i: &Insn) -> Result<u32, Raised>
    requires { length a.old.accesses < 2 }
    ensures value { result ≡ value_of a.old.world (source_element a.old.world i.now) }
    ensures noted { a.new ≡ record a.old { accesses = and_read a.old.accesses (source_element a.old.world i.now) } }
    ensures room { length a.new.accesses ≡ length a.old.accesses + 1 }
{
    let off = cut_address(i.addr32, u64::from(a.regs().esi));
    a.read_width(i.seg, off, byte_count(i.width))
}

// Reads the element at ES:(E)DI.
fn read_destination(a: &mut Accesses<'_>, i: &Insn) -> Result<u32, Raised>
    requires { length a.old.accesses < 2 }
    ensures value { result ≡ value_of a.old.world (destination_element a.old.world i.now) }
    ensures noted { a.new ≡ record a.old { accesses = and_read a.old.accesses (destination_element a.old.world i.now) } }
    ensures room { length a.new.accesses ≡ length a.old.accesses + 1 }
{
    let off = cut_address(i.addr32, u64::from(a.regs().edi));
    a.read_width(SegReg::Es, off, byte_count(i.width))
}

// Writes the element at ES:(E)DI.
fn write_destination(a: &mut Accesses<'_>, i: &Insn)
    requires { length a.old.accesses < 2 }
    ensures { a.new ≡ record a.old {
      accesses = a.old.accesses ++ record {
        seg = Es;
        off = cut_address i.now.addr32 a.old.world.regs.edi;
        count = byte_count i.now.width;
        write = true;
      } ∷ [];
    } }
{
    let off = cut_address(i.addr32, u64::from(a.regs().edi));
    a.write(SegReg::Es, off, i.width);
}

// MOVS.
#[tactic(auto, unfolding(crate::specs::Strings::movs, insn_plan::specs::Accesses::accesses_after))]
fn movs(a: &mut Accesses<'_>, i: &Insn, len: u8) -> Result<(), Raised>
    requires { length a.old.accesses ≡ 0 }
    ensures { Notes a.old a.new result (movs a.old.world i.now len) }
{
    if !is_over(a, i) {
        read_source(a, i)?;
        write_destination(a, i);
    }
    Ok(())
}

// CMPS.
#[tactic(auto, unfolding(crate::specs::Strings::cmps, insn_plan::specs::Accesses::accesses_after))]
fn cmps(a: &mut Accesses<'_>, i: &Insn, len: u8) -> Result<(), Raised>
    requires { length a.old.accesses ≡ 0 }
    ensures { Notes a.old a.new result (cmps a.old.world i.now len) }
{
    if !is_over(a, i) {
        read_source(a, i)?;
        read_destination(a, i)?;
    }
    Ok(())
}

// STOS.
#[tactic(auto, unfolding(crate::specs::Strings::stos, insn_plan::specs::Accesses::accesses_after))]
fn stos(a: &mut Accesses<'_>, i: &Insn, len: u8) -> Result<(), Raised>
    requires { length a.old.accesses ≡ 0 }
    ensures { Notes a.old a.new result (stos a.old.world i.now len) }
{
    if !is_over(a, i) {
        write_destination(a, i);
    }
    Ok(())
}

// LODS.
#[tactic(auto, unfolding(crate::specs::Strings::lods, insn_plan::specs::Accesses::accesses_after))]
fn lods(a: &mut Accesses<'_>, i: &Insn, len: u8) -> Result<(), Raised>
    requires { length a.old.accesses ≡ 0 }
    ensures { Notes a.old a.new result (lods a.old.world i.now len) }
{
    if !is_over(a, i) {
        read_source(a, i)?;
    }
    Ok(())
}

// SCAS.
#[tactic(auto, unfolding(crate::specs::Strings::scas, insn_plan::specs::Accesses::accesses_after))]
fn scas(a: &mut Accesses<'_>, i: &Insn, len: u8) -> Result<(), Raised>
    requires { length a.old.accesses ≡ 0 }
    ensures { Notes a.old a.new result (scas a.old.world i.now len) }
{
    if !is_over(a, i) {
        read_destination(a, i)?;
    }
    Ok(())
}

// Follows an instruction of this crate.
#[tactic(auto, unfolding(crate::specs::Dispatch::is_core, crate::specs::Dispatch::core_row, crate::specs::Decimal::adjust, //
crate::specs::Moves::cbw, crate::specs::Moves::cwd, crate::specs::FlagRows::lahf, crate::specs::FlagRows::sahf, //
crate::specs::FlagRows::clc, crate::specs::FlagRows::stc, crate::specs::FlagRows::cmc, crate::specs::FlagRows::cld, //
crate::specs::FlagRows::std, crate::specs::FlagRows::wait, insn_plan::specs::Accesses::accesses_after))]
fn follow(a: &mut Accesses<'_>, insn: &Insn, len: u8) -> Result<(), Raised>
    requires core { IsCore insn.now }
    requires width { IsTrue (is_width insn.now.width) }
    requires start { length a.old.accesses ≡ 0 }
    ensures { Notes a.old a.new result (core_row insn.now.op a.old.world insn.now len) }
{
    match insn.op {
        Op::Add | Op::Or | Op::Adc | Op::Sbb | Op::And | Op::Sub | Op::Xor => {
            both_into_first(a, insn)
        }
        Op::Cmp | Op::Test => both(a, insn),
        Op::Inc | Op::Dec | Op::Not | Op::Neg => first_into_first(a, insn),
        Op::Mul => multiply(a, insn),
        Op::Imul => imul(a, insn),
        Op::Div => divide::<Unsigned>(a, insn),
        Op::Idiv => divide::<Signed>(a, insn),
        Op::Aam => aam(a, insn),
        Op::Aad => aad(a, insn),
        Op::Rol | Op::Ror | Op::Rcl | Op::Rcr | Op::Shl | Op::Shr | Op::Sar => shift(a, insn),
        Op::Shld | Op::Shrd => shift_in(a, insn),
        Op::Bt => bit_test(a, insn),
        Op::Bts | Op::Btr | Op::Btc => bit_change(a, insn),
        Op::Bsf | Op::Bsr => bit_scan(a, insn),
        Op::Setcc(_) => into_first(a, insn, 8),
        Op::Lea => into_first(a, insn, insn.width),
        Op::Mov => second_into_first(a, insn, insn.width),
        Op::Movzx(from) | Op::Movsx(from) => second_into_first(a, insn, from),
        Op::Xchg => xchg(a, insn),
        Op::Xlat => xlat(a, insn),
        Op::Push => push(a, insn),
        Op::Pop => pop(a, insn),
        Op::Pusha => pusha(a, insn),
        Op::Popa => popa(a, insn),
        Op::Movs => movs(a, insn, len),
        Op::Cmps => cmps(a, insn, len),
        Op::Stos => stos(a, insn, len),
        Op::Lods => lods(a, insn, len),
        Op::Scas => scas(a, insn, len),
        _ => Ok(()),
    }
}

/// The bytes that an instruction of this crate, of `len` bytes, reads and writes, one touch for each access, reads first. The machine is at
/// the instruction. `None` where the instruction faults, also where only a write is refused.
/// Source: 80386 Programmer's Reference Manual, ch. 17, "Operation"; that reads come first is own.
#[tactic(auto, unfolding(insn_plan::specs::Accesses::touches))]
pub fn touches_core(m: &Machine, insn: &Insn, len: u8) -> Option<ArrayVec<Touch, MAX_ACCESSES>>
    requires core { IsCore insn.now }
    requires width { IsTrue (is_width insn.now.width) }
    requires number { IsTrue (has_good_number insn.now.op) }
    ensures { let w = with_next_eip len m.now.world in let found = touches w (core_row insn.now.op w insn.now len) in
        MatchOption result (found ≡ None) (λ list. found ≡ Some list.items) }
{
    let mut a = Accesses::new(m, len);
    match follow(&mut a, insn, len) {
        Ok(()) => a.touches(),
        Err(_) => None,
    }
}
