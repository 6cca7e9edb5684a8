// PUSH and POP of general registers and memory, PUSHA and POPA.
#![tactic(auto, unfolding(crate::specs::Stacks::push, crate::specs::Stacks::pop, insn_plan::specs::Stack::regs_after_pops, //
insn_plan::specs::Operands::put_operand, client_world::specs::General::with_general, crate::specs::Stacks::popa, //
insn_plan::specs::Plan::after_plan, insn_plan::specs::Plan::after_commit, guest_space::specs::Pending::first_write_fault, //
guest_space::specs::Pending::after_writes))]

ghost use Rattle.std.specs.Prelude.{◌≡◌, ◌≢◌, ◌<◌, ℕ, IsTrue, Ok, false, slice_index};
ghost use Rattle.exec_core.specs.Stacks.{push, pop, pusha, popa};
ghost use Rattle.guest_space.specs.Registers.{with_registers};
ghost use Rattle.insn_plan.specs.{Act.{done, value_of}, Looks.{CarriesOutBy}, Operands.{source}, Plan.{CarriesOut, after_plan}};
ghost use Rattle.insn_plan.specs.{Plan.{plan_result}, Registers.{with_register}, Stack.{has_big_stack, pending_of_pushes, stack_item}};
ghost use Rattle.insn_forms.specs.{Kinds.{is_width}, Shapes.{HasShape, shape_width}, declared.insn.Insn.{Insn}};

use crate::arithmetic::{at_known_width, at_register};
use crate::shaped::at_shape;
use client_world::general::{EAX, EBP, EBX, ECX, EDI, EDX, ESI, ESP};
use client_world::{Regs, SegReg};
use guest_space::{Machine, Write, byte_count};
use insn_forms::{Insn, Operand};
use insn_plan::{
    InsnRow, Look, Quick, Raised, eight_items, esp_up, has_big_stack, item_pushed, look_at_top,
    offset_of, popped_esp, push_number, put_register, register, register_width, run_row,
    settle_pushes, settle_quickly, shown_in_memory, stack_item,
};

// The row of PUSH at a width.
#[inline(always)]
fn push_at<L: Look>(m: &mut Machine, i: &Insn, width: u8) -> Result<(), L::Missed>
    requires { i.now.width ≡ width }
    ensures { CarriesOutBy L.reported m.old m.new result (push m.old.world i.now) }
{
    let v = L::source(m, i.addr32, width, &i.first)?;
    push_number::<L>(m, width, v)
}

// PUSH as a row.
#[derive(Clone, Copy)]
struct Push;

impl InsnRow for Push {
    ghost plan = { λ row w i. push w i };

    #[inline(always)]
    fn carry_out<L: Look>(self, m: &mut Machine, i: &Insn) -> Result<(), L::Missed> {
        at_known_width!(push_at, L, m, i)
    }
}

// PUSH at a width that is known, of an operand that gives v.
#[inline(never)]
fn push_value<const W: u8>(m: &mut Machine, i: &Insn, v: u32) -> Result<(), Raised>
    requires good { IsTrue (is_width i.now.width) }
    requires width { i.now.width ≡ W }
    requires first { value_of m.old.world (source m.old.world.regs i.now.addr32 W i.now.first) ≡ Ok v }
    ensures { CarriesOut m.old m.new result (push m.old.world i.now) }
{
    match push_number::<Quick>(m, W, v) {
        Ok(()) => Ok(()),
        Err(_) => run_row(Push, m, i),
    }
}

// PUSH of the register of a shape, `known` as a constant.
#[inline(always)]
fn push_register<const W: u8>(
    m: &mut Machine,
    i: &Insn,
    shape: usize,
    known: u16,
) -> Result<(), Raised>
    requires good { IsTrue (is_width i.now.width) }
    requires shape { HasShape shape i.now }
    requires known { known ≡ shape }
    requires some { known < 264 }
    requires width { shape_width known ≡ W }
    ensures { CarriesOut m.old m.new result (push m.old.world i.now) }
{
    let v = register(m.registers(), W, (known % 8) as u8);
    push_value::<W>(m, i, v)
}

// PUSH of a number in memory.
#[inline(never)]
fn push_memory<const W: u8>(m: &mut Machine, i: &Insn) -> Result<(), Raised>
    requires good { IsTrue (is_width i.now.width) }
    requires width { i.now.width ≡ W }
    ensures { CarriesOut m.old m.new result (push m.old.world i.now) }
{
    match shown_in_memory(m, i.addr32, W, &i.first) {
        Some(v) => push_value::<W>(m, i, v),
        None => run_row(Push, m, i),
    }
}

/// PUSH. Its shape leads to its register. Source: 80386 Programmer's Reference Manual, ch. 17.
#[inline(never)]
pub(crate) fn run_push(m: &mut Machine, i: &Insn, shape: usize) -> Result<(), Raised>
    requires width { IsTrue (is_width i.now.width) }
    requires shape { HasShape shape i.now }
    ensures { CarriesOut m.old m.new result (push m.old.world i.now) }
{
    at_shape!(
        shape, known,
        224 225 226 227 228 229 230 231 => push_register::<16>(m, i, shape, known),
        232 233 234 235 236 237 238 239 => push_register::<32>(m, i, shape, known),
        292 => push_memory::<16>(m, i),
        293 => push_memory::<32>(m, i),
        _ => run_row(Push, m, i)
    )
}

// Sets ESP, and then a register of a width to what was popped.
#[inline(always)]
fn put_popped(m: &mut Machine, esp: u32, width: u8, n: u8, v: u32)
    ensures { m.new ≡ with_registers (with_register (record m.old.world.regs { esp = esp }) width n v) m.old }
{
    m.set_general(ESP, esp);
    put_register(m, width, n, v);
}

// The row of POP at a width.
#[inline(always)]
fn pop_at<L: Look>(m: &mut Machine, i: &Insn, width: u8) -> Result<(), L::Missed>
    requires { i.now.width ≡ width }
    ensures { CarriesOutBy L.reported m.old m.new result (pop m.old.world i.now) }
{
    let v = look_at_top::<L>(m, width)?;
    let esp = popped_esp(m, width, 1);
    match &i.first {
        Operand::Reg { width: own, number } => {
            let own = register_width::<L>(width, *own)?;
            put_popped(m, esp, own, *number, v);
        }
        Operand::Mem(form) => {
            let r = Regs { esp, ..m.regs() };
            L::write(m, form.seg, offset_of(&r, i.addr32, form), width, v)?;
            m.set_general(ESP, esp);
        }
        _ => m.set_general(ESP, esp),
    }
    Ok(())
}

// POP as a row.
#[derive(Clone, Copy)]
struct Pop;

impl InsnRow for Pop {
    ghost plan = { λ row w i. pop w i };

    #[inline(always)]
    fn carry_out<L: Look>(self, m: &mut Machine, i: &Insn) -> Result<(), L::Missed> {
        at_known_width!(pop_at, L, m, i)
    }
}

// POP into the register of a shape.
#[inline(never)]
fn pop_register<const W: u8>(m: &mut Machine, i: &Insn, shape: usize) -> Result<(), Raised>
    requires good { IsTrue (is_width i.now.width) }
    requires shape { HasShape shape i.now }
    requires some { shape < 264 }
    requires width { shape_width shape ≡ W }
    ensures { CarriesOut m.old m.new result (pop m.old.world i.now) }
{
    let Ok(v) = look_at_top::<Quick>(m, W) else {
        return run_row(Pop, m, i);
    };
    let esp = popped_esp(m, W, 1);
    let number = (shape % 8) as u8;
    at_register!(number, n => put_popped(m, esp, W, n, v));
    Ok(())
}

/// POP. Its shape leads to its register. Source: 80386 Programmer's Reference Manual, ch. 17.
#[inline(never)]
pub(crate) fn run_pop(m: &mut Machine, i: &Insn, shape: usize) -> Result<(), Raised>
    requires width { IsTrue (is_width i.now.width) }
    requires shape { HasShape shape i.now }
    ensures { CarriesOut m.old m.new result (pop m.old.world i.now) }
{
    match shape {
        224..=231 => pop_register::<16>(m, i, shape),
        232..=239 => pop_register::<32>(m, i, shape),
        _ => run_row(Pop, m, i),
    }
}

// The eight pushes of PUSHA at a width, where it is known whether the stack pointer is ESP: their writes, and ESP after them.
#[inline(always)]
fn eight_pushes(m: &Machine, width: u8, big: bool) -> ([Write; 8], u32)
    requires { big ≡ has_big_stack m.now.world }
    ensures { (i : Insn) → i.width ≡ width → pusha m.now.world i ≡ done (pending_of_pushes m.now.world result.0 result.1) }
{
    let r = m.registers();
    let (ax, esp) = item_pushed(big, width, r.esp, register(r, width, EAX));
    let (cx, esp) = item_pushed(big, width, esp, register(r, width, ECX));
    let (dx, esp) = item_pushed(big, width, esp, register(r, width, EDX));
    let (bx, esp) = item_pushed(big, width, esp, register(r, width, EBX));
    let (sp, esp) = item_pushed(big, width, esp, register(r, width, ESP));
    let (bp, esp) = item_pushed(big, width, esp, register(r, width, EBP));
    let (si, esp) = item_pushed(big, width, esp, register(r, width, ESI));
    let (di, esp) = item_pushed(big, width, esp, register(r, width, EDI));
    ([ax, cx, dx, bx, sp, bp, si, di], esp)
}

// PUSHA at any width, on any stack.
#[inline(never)]
fn pusha_in_general(m: &mut Machine, i: &Insn) -> Result<(), Raised>
    ensures { CarriesOut m.old m.new result (pusha m.old.world i.now) }
{
    let (writes, esp) = eight_pushes(m, i.width, has_big_stack(m));
    settle_pushes(m, &writes, esp)
}

// PUSHA at a width that is known, where the stack pointer is SP.
#[inline(always)]
fn pusha_of_width(m: &mut Machine, i: &Insn, width: u8) -> Result<(), Raised>
    requires width { width ≡ i.now.width }
    requires small { has_big_stack m.old.world ≡ false }
    ensures { CarriesOut m.old m.new result (pusha m.old.world i.now) }
{
    let (writes, esp) = eight_pushes(m, width, false);
    if settle_quickly(m, &writes, esp) {
        Ok(())
    } else {
        pusha_in_general(m, i)
    }
}

/// PUSHA. Source: 80386 Programmer's Reference Manual, ch. 17.
#[inline(never)]
pub(crate) fn pusha(m: &mut Machine, i: &Insn) -> Result<(), Raised>
    ensures { CarriesOut m.old m.new result (pusha m.old.world i.now) }
{
    if has_big_stack(m) {
        pusha_in_general(m, i)
    } else if i.width == 16 {
        pusha_of_width(m, i, 16)
    } else if i.width == 32 {
        pusha_of_width(m, i, 32)
    } else {
        pusha_in_general(m, i)
    }
}

// Sets the registers to the items that POPA reads, by their places on the stack, and ESP; the item at place 3 is passed over.
#[inline(always)]
fn set_popped(m: &mut Machine, i: &Insn, width: u8, items: [u32; 8])
    requires width { width ≡ i.now.width }
    requires items { (k : ℕ) → k < 8 → k ≢ 3 →
        value_of m.old.world (stack_item m.old.world i.now.width k) ≡ Ok (slice_index items k) }
    ensures { after_plan m.old (plan_result m.old.world (popa m.old.world i.now)) ≡ Ok m.new }
{
    let bytes = 8 * u32::from(byte_count(width));
    let esp = esp_up(has_big_stack(m), bytes, m.registers().esp);
    m.set_general(ESP, esp);
    put_register(m, width, EDI, items[0]);
    put_register(m, width, ESI, items[1]);
    put_register(m, width, EBP, items[2]);
    put_register(m, width, EBX, items[4]);
    put_register(m, width, EDX, items[5]);
    put_register(m, width, ECX, items[6]);
    put_register(m, width, EAX, items[7]);
}

// POPA, item by item.
#[inline(never)]
fn popa_by_items(m: &mut Machine, i: &Insn) -> Result<(), Raised>
    ensures { CarriesOut m.old m.new result (popa m.old.world i.now) }
{
    let di = stack_item(m, i.width, 0)?;
    let si = stack_item(m, i.width, 1)?;
    let bp = stack_item(m, i.width, 2)?;
    let bx = stack_item(m, i.width, 4)?;
    let dx = stack_item(m, i.width, 5)?;
    let cx = stack_item(m, i.width, 6)?;
    let ax = stack_item(m, i.width, 7)?;
    set_popped(m, i, i.width, [di, si, bp, 0, bx, dx, cx, ax]);
    Ok(())
}

// POPA at a width that is known.
#[inline(always)]
fn popa_of_width(m: &mut Machine, i: &Insn, width: u8) -> Result<(), Raised>
    requires { width ≡ i.now.width }
    ensures { CarriesOut m.old m.new result (popa m.old.world i.now) }
{
    match eight_items(m, width) {
        Some(items) => {
            set_popped(m, i, width, items);
            Ok(())
        }
        None => popa_by_items(m, i),
    }
}

/// POPA. Source: 80386 Programmer's Reference Manual, ch. 17.
#[inline(never)]
pub(crate) fn popa(m: &mut Machine, i: &Insn) -> Result<(), Raised>
    ensures { CarriesOut m.old m.new result (popa m.old.world i.now) }
{
    if i.width == 16 {
        popa_of_width(m, i, 16)
    } else if i.width == 32 {
        popa_of_width(m, i, 32)
    } else {
        popa_by_items(m, i)
    }
}
