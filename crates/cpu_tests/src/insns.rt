// Instructions and their operands, written short.
use client_world::SegReg;
use insn_forms::{Insn, Op, Operand, Rep};

// What an instruction is where nothing else is named.
pub(crate) const PLAIN: Insn = Insn {
    op: Op::Wait,
    width: 16,
    addr32: false,
    seg: SegReg::Ds,
    rep: Rep::Plain,
    locked: false,
    first: Operand::Empty,
    second: Operand::Empty,
    third: Operand::Empty,
};

pub(crate) const NONE: Operand = Operand::Empty;

// An instruction with other parts named.
macro_rules! insn {
    ($op:expr, $width:expr, $first:expr, $second:expr $(, $field:ident: $v:expr)*) => {
        Insn { op: $op, width: $width, first: $first, second: $second, $($field: $v,)* ..PLAIN }
    };
}

// A register, by its width and its number.
macro_rules! reg {
    ($width:expr, $number:expr) => {
        Operand::Reg { width: $width, number: $number }
    };
}

// A place in memory: the segment, the numbers of base and index, the scale if it isn't 1, and the displacement.
macro_rules! mem {
    ($seg:expr, $base:expr, $index:expr, $disp:expr) => {
        mem!($seg, $base, $index, 1, $disp)
    };
    ($seg:expr, $base:expr, $index:expr, $scale:expr, $disp:expr) => {
        Operand::Mem(MemForm { base: $base, index: $index, scale: $scale, disp: $disp, seg: $seg })
    };
}

pub(crate) use insn;
pub(crate) use mem;
pub(crate) use reg;
