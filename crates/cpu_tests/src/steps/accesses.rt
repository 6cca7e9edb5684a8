// What instructions access in real mode: runs of linear addresses, by the crate that has the instruction. The values come from the manual's
// rules by hand.
use super::instructions::has_width;
use super::{Differing, same};
use crate::insns::*;
use client_world::{SegReg, Touch};
use exec_core::{is_core, touches_core};
use exec_flow::touches_flow;
use guest_space::Machine;
use insn_forms::{Insn, MemForm, Op, Operand};

// An instruction of two bytes, whether it is an event, and else its touches.
pub(crate) struct Touched {
    insn: Insn,
    is_event: bool,
    touches: &'static [Touch],
}

macro_rules! touched {
    ($insn:expr, [$($touch:expr),*]) => {
        Touched { insn: $insn, is_event: false, touches: &[$($touch),*] }
    };
    ($insn:expr) => {
        Touched { insn: $insn, is_event: true, touches: &[] }
    };
}

macro_rules! run {
    (read $lin:expr, $len:expr) => {
        Touch { lin: $lin, len: $len, write: false }
    };
    (write $lin:expr, $len:expr) => {
        Touch { lin: $lin, len: $len, write: true }
    };
}

const AX: Operand = reg!(16, 0);

// The place DS:0100h, which BX points to.
const DATA: Operand = mem!(SegReg::Ds, Some(3), None, 0);

pub(crate) static TOUCHED: [Touched; 18] = [
    // an operand that is changed is read and then written
    touched!(
        insn!(Op::Add, 16, DATA, AX),
        [run!(read 0x1_0100, 2), run!(write 0x1_0100, 2)]
    ),
    touched!(
        insn!(Op::Cmp, 8, DATA, reg!(8, 0)),
        [run!(read 0x1_0100, 1)]
    ),
    touched!(
        insn!(Op::Mov, 32, DATA, reg!(32, 0)),
        [run!(write 0x1_0100, 4)]
    ),
    touched!(insn!(Op::Lea, 16, AX, DATA), []),
    touched!(
        insn!(Op::Movs, 16, NONE, NONE),
        [run!(read 0x1_0100, 2), run!(write 0x2_0200, 2)]
    ),
    touched!(insn!(Op::Push, 16, AX, NONE), [run!(write 0x3_02FE, 2)]),
    // a word at offset FFFFh, a division by 0, and a byte past the segment's limit are events
    touched!(insn!(Op::Mov, 16, AX, mem!(SegReg::Ds, None, None, 0xFFFF))),
    touched!(insn!(Op::Div, 16, DATA, NONE)),
    touched!(insn!(Op::Mov, 8, mem!(SegReg::Ds, None, None, 0x1_0100), reg!(8, 0), addr32: true)),
    // a far pointer is one run
    touched!(insn!(Op::Les, 16, AX, DATA), [run!(read 0x1_0100, 4)]),
    touched!(insn!(Op::Jmp, 16, Operand::Imm(0x10), NONE), []),
    touched!(
        insn!(Op::Call, 16, Operand::Imm(0x10), NONE),
        [run!(write 0x3_02FE, 2)]
    ),
    touched!(
        insn!(Op::Retf, 16, NONE, NONE),
        [run!(read 0x3_0300, 2), run!(read 0x3_0302, 2)]
    ),
    touched!(
        insn!(Op::Push, 16, Operand::Seg(SegReg::Es), NONE),
        [run!(write 0x3_02FE, 2)]
    ),
    // ENTER of level 2 reads the frame pointer of level 1 before it pushes
    touched!(
        insn!(Op::Enter, 16, Operand::Imm(0), Operand::Imm(2)),
        [
            run!(read 0x3_01FE, 2),
            run!(write 0x3_02FE, 2),
            run!(write 0x3_02FC, 2),
            run!(write 0x3_02FA, 2)
        ]
    ),
    // AX lies outside both bounds, which are 0
    touched!(insn!(Op::Bound, 16, AX, DATA)),
    touched!(insn!(Op::Int, 8, Operand::Imm(0x21), NONE)),
    touched!(insn!(Op::Hlt, 16, NONE, NONE)),
];

// Whether an instruction touches what a row says.
#[tactic(auto, using(cpu_step::proofs::CoreOrFlow::flow_where_not_core))]
fn has_touches(m: &Machine, row: &Touched) -> bool {
    let insn = &row.insn;
    if !has_width(insn) || !insn.op.traits().numbered {
        return false;
    }
    let found = if is_core(insn) {
        touches_core(m, insn, 2)
    } else {
        touches_flow(m, insn, 2)
    };
    match &found {
        Some(list) => !row.is_event && list.as_slice() == row.touches,
        None => row.is_event,
    }
}

pub(crate) fn compare_touches(m: &mut Machine, row: &Touched) -> Result<(), Differing> {
    same(Differing::Memory, has_touches(m, row))
}
