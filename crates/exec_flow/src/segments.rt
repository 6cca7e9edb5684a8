// Segment registers loaded and stored.
#![tactic(auto, unfolding(crate::specs::Segments::mov_to_segment, crate::specs::Segments::with_loaded_segment, //
crate::specs::Segments::mov_from_segment, crate::specs::Segments::mov_segment, crate::specs::Segments::push_segment, //
crate::specs::Segments::pop_into, client_world::specs::General::with_general, insn_plan::specs::Stack::regs_after_pops, //
crate::specs::Segments::pop_segment, insn_plan::specs::Plan::after_plan, insn_plan::specs::Plan::after_commit, //
guest_space::specs::Pending::first_write_fault, guest_space::specs::Pending::after_writes))]

ghost use Rattle.exec_flow.specs.Segments.{mov_to_segment, mov_from_segment, mov_segment, push_segment, pop_into, pop_segment};
ghost use Rattle.exec_flow.specs.Segments.{load_pointer};
ghost use Rattle.insn_plan.specs.Plan.{CarriesOut};

use crate::pointers::{pointer, pointer_offset, pointer_selector};
use client_world::general::ESP;
use client_world::{SegReg, low_half};
use guest_space::Machine;
use insn_forms::{Insn, Operand};
use insn_plan::{Raised, popped_esp, push_item, put_operand, source, top_item};

// MOV into a segment register.
#[inline(always)]
fn mov_to_segment(m: &mut Machine, i: &Insn, seg: SegReg) -> Result<(), Raised>
    ensures { CarriesOut m.old m.new result (mov_to_segment m.old.world i.now seg) }
{
    let v = source(m, i.addr32, 16, &i.second)?;
    m.load_seg(seg, low_half(v))?;
    Ok(())
}

// MOV from a segment register.
#[inline(always)]
fn mov_from_segment(m: &mut Machine, i: &Insn) -> Result<(), Raised>
    ensures { CarriesOut m.old m.new result (mov_from_segment m.old.world i.now) }
{
    let v = source(m, i.addr32, 16, &i.second)?;
    put_operand(m, i.addr32, 16, &i.first, v)
}

/// MOV with a segment register. Source: 80386 Programmer's Reference Manual, ch. 17.
#[inline(never)]
pub(crate) fn mov_segment(m: &mut Machine, i: &Insn) -> Result<(), Raised>
    ensures { CarriesOut m.old m.new result (mov_segment m.old.world i.now) }
{
    match i.first {
        Operand::Seg(seg) => mov_to_segment(m, i, seg),
        Operand::Empty
        | Operand::Reg { .. }
        | Operand::Mem(_)
        | Operand::Imm(_)
        | Operand::Far(_) => mov_from_segment(m, i),
    }
}

/// PUSH of a segment register. Source: 80386 Programmer's Reference Manual, ch. 17.
#[inline(never)]
pub(crate) fn push_segment(m: &mut Machine, i: &Insn) -> Result<(), Raised>
    ensures { CarriesOut m.old m.new result (push_segment m.old.world i.now) }
{
    let v = source(m, i.addr32, i.width, &i.first)?;
    push_item(m, i.width, v)
}

// POP into a segment register.
#[inline(always)]
fn pop_into(m: &mut Machine, i: &Insn, seg: SegReg) -> Result<(), Raised>
    ensures { CarriesOut m.old m.new result (pop_into m.old.world i.now seg) }
{
    let v = top_item(m, i.width)?;
    let sel = low_half(v);
    m.check_load(seg, sel)?;
    m.set_general(ESP, popped_esp(m, i.width, 1));
    m.set_selector(seg, sel);
    Ok(())
}

/// POP of a segment register. Source: 80386 Programmer's Reference Manual, ch. 17.
#[inline(never)]
pub(crate) fn pop_segment(m: &mut Machine, i: &Insn) -> Result<(), Raised>
    ensures { CarriesOut m.old m.new result (pop_segment m.old.world i.now) }
{
    match i.first {
        Operand::Seg(seg) => pop_into(m, i, seg),
        Operand::Empty
        | Operand::Reg { .. }
        | Operand::Mem(_)
        | Operand::Imm(_)
        | Operand::Far(_) => Ok(()),
    }
}

/// LES, LDS, LSS, LFS, LGS. Source: 80386 Programmer's Reference Manual, ch. 17, LGS/LSS/LDS/LES/LFS.
#[inline(never)]
#[tactic(auto, unfolding(crate::specs::Segments::load_pointer, crate::specs::Segments::with_loaded_segment, //
insn_plan::specs::Plan::after_plan), using(crate::proofs::Loaded::settled_with_selector, insn_plan::proofs::WrittenState::refused_with))]
pub(crate) fn load_pointer(m: &mut Machine, i: &Insn, seg: SegReg) -> Result<(), Raised>
    ensures { CarriesOut m.old m.new result (load_pointer seg m.old.world i.now) }
{
    let p = pointer(m, i, &i.second)?;
    let sel = pointer_selector(i, p);
    m.check_load(seg, sel)?;
    put_operand(m, i.addr32, i.width, &i.first, pointer_offset(i, p))?;
    m.set_selector(seg, sel);
    Ok(())
}
