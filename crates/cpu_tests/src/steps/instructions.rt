// Worked rows of instructions by themselves: an instruction, and what it makes of registers, flags and memory.
ghost use Rattle.std.specs.Prelude.{◌≡◌};
ghost use Rattle.insn_forms.specs.Kinds.{is_width};

use super::{Differing, compare_all, same};
use crate::letters::flags;
use cases::*;
use client_world::{Event, Regs, SegReg};
use exec_core::{is_core, run_core};
use exec_flow::run_flow;
use guest_space::Machine;
use insn_forms::Insn;
use rows::families;
use std::test::Fail;
use steps::{ALL_OR_NOTHING, PUSHED_AND_POPPED, REPEATED, Step};

mod cases;
mod rows;
mod steps;

// What an executing crate takes for granted of an instruction.
pub(crate) fn has_width(i: &Insn) -> bool
    ensures { result ≡ is_width i.now.width }
{
    i.width == 8 || (i.width == 16 || i.width == 32)
}

// Whether an instruction of two bytes that is run, by the crate that has it, has this event, or none.
#[tactic(auto, using(cpu_step::proofs::CoreOrFlow::flow_where_not_core))]
fn runs_to(m: &mut Machine, insn: &Insn, event: Option<Event>) -> bool {
    if !has_width(insn) || !insn.op.traits().numbered {
        return false;
    }
    let answer = if is_core(insn) {
        run_core(m, insn, 2)
    } else {
        run_flow(m, insn, 2)
    };
    answer.err() == event
}

// The memory of a case, by the segments with which each begins.
fn set_memory(m: &mut Machine) -> bool {
    m.set_regs(START);
    m.write(SegReg::Ds, 0x100, MEMORY.data.to_le_bytes())
        .is_ok()
        && m.write(SegReg::Es, 0x200, MEMORY.extra.to_le_bytes())
            .is_ok()
        && m.write(SegReg::Ss, 0x2FE, MEMORY.stack.to_le_bytes())
            .is_ok()
}

fn has_memory(m: &mut Machine, memory: Memory) -> bool {
    m.set_regs(START);
    m.read::<4>(SegReg::Ds, 0x100) == Ok(memory.data.to_le_bytes())
        && m.read::<4>(SegReg::Es, 0x200) == Ok(memory.extra.to_le_bytes())
        && m.read::<4>(SegReg::Ss, 0x2FE) == Ok(memory.stack.to_le_bytes())
}

fn compare(m: &mut Machine, case: &Case) -> Result<(), Differing> {
    let before = Regs {
        flags: flags(case.flags_before),
        ..case.before
    };
    let after = Regs {
        flags: flags(case.flags_after),
        ..case.after
    };
    same(Differing::Memory, set_memory(m))?;
    m.set_regs(before);
    same(Differing::Event, runs_to(m, &case.insn, case.event))?;
    same(Differing::Registers, m.regs() == after)?;
    same(Differing::Memory, has_memory(m, case.memory))
}

#[test]
fn rows_leave_what_they_say(rt: HostRuntime) -> Result<(), Fail> {
    for (family, cases) in families().iter().enumerate() {
        let mut m = Machine::new(rt.alloc(), 1)?;
        let compared = compare_all(&mut m, *cases, compare);
        assert_eq!(rt; compared, Ok(()), "family {family}");
    }
    Ok(())
}

// Puts bytes at DS:0100h.
fn put(m: &mut Machine, bytes: &[u8]) -> bool {
    let mut at = 0x100;
    for byte in bytes {
        if at >= 0x1_0000 || m.write(SegReg::Ds, at, [*byte]).is_err() {
            return false;
        }
        at += 1;
    }
    true
}

// Whether these bytes are at a place.
fn has_bytes(m: &Machine, place: (SegReg, u32), bytes: &[u8]) -> bool {
    let (seg, mut at) = place;
    for byte in bytes {
        if at >= 0x1_0000 || m.read::<1>(seg, at) != Ok([*byte]) {
            return false;
        }
        at += 1;
    }
    true
}

fn take_step(m: &mut Machine, step: &Step) -> Result<(), Differing> {
    m.set_regs(step.before);
    same(Differing::Memory, put(m, step.data))?;
    same(Differing::Event, runs_to(m, &step.insn, step.event))?;
    same(Differing::Registers, m.regs() == step.after)?;
    same(Differing::Memory, has_bytes(m, step.place, step.bytes))
}

#[test]
fn steps_follow_one_another(rt: HostRuntime) -> Result<(), Fail> {
    let sequences = [&PUSHED_AND_POPPED[..], &ALL_OR_NOTHING[..], &REPEATED[..]];
    for (sequence, steps) in sequences.iter().enumerate() {
        let mut m = Machine::new(rt.alloc(), 1)?;
        let compared = compare_all(&mut m, *steps, take_step);
        assert_eq!(rt; compared, Ok(()), "sequence {sequence}");
    }
    Ok(())
}
