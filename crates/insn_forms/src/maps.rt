// The two opcode maps as static tables, in the order of the opcodes.
// Source: 80386 Programmer's Reference Manual, appendix A.
use crate::insn::Op;
use crate::rows::{Form, Row, Slot};

// A row with an operation.
macro_rules! row {
    ($op:expr, $first:ident $second:ident $third:ident) => {
        Row { op: Some($op), first: Form::$first, second: Form::$second, third: Form::$third }
    };
}

// A row without one.
macro_rules! none {
    ($first:ident $second:ident) => {
        Row { op: None, first: Form::$first, second: Form::$second, third: Form::Empty }
    };
}

// The only row of an opcode.
macro_rules! alone {
    ($op:expr, $first:ident $second:ident $third:ident) => {
        Slot::Alone(row!($op, $first $second $third))
    };
}

// Group 1: arithmetic with these forms.
macro_rules! arithmetic {
    ($first:ident $second:ident) => {
        [
            row!(Op::Add, $first $second Empty),
            row!(Op::Or, $first $second Empty),
            row!(Op::Adc, $first $second Empty),
            row!(Op::Sbb, $first $second Empty),
            row!(Op::And, $first $second Empty),
            row!(Op::Sub, $first $second Empty),
            row!(Op::Xor, $first $second Empty),
            row!(Op::Cmp, $first $second Empty),
        ]
    };
}

// Group 2: shifts and rotates by this count.
macro_rules! shifts {
    ($first:ident $count:ident) => {
        [
            row!(Op::Rol, $first $count Empty),
            row!(Op::Ror, $first $count Empty),
            row!(Op::Rcl, $first $count Empty),
            row!(Op::Rcr, $first $count Empty),
            row!(Op::Shl, $first $count Empty),
            row!(Op::Shr, $first $count Empty),
            none!($first $count),
            row!(Op::Sar, $first $count Empty),
        ]
    };
}

// Group 3: operations on one operand, and TEST with an immediate.
macro_rules! unary {
    ($first:ident $immediate:ident) => {
        [
            row!(Op::Test, $first $immediate Empty),
            none!($first Empty),
            row!(Op::Not, $first Empty Empty),
            row!(Op::Neg, $first Empty Empty),
            row!(Op::Mul, $first Empty Empty),
            row!(Op::Imul, $first Empty Empty),
            row!(Op::Div, $first Empty Empty),
            row!(Op::Idiv, $first Empty Empty),
        ]
    };
}

// A group that has a row at reg 0 alone.
macro_rules! first {
    ($op:expr, $first:ident $second:ident) => {
        [
            row!($op, $first $second Empty),
            none!($first $second),
            none!($first $second),
            none!($first $second),
            none!($first $second),
            none!($first $second),
            none!($first $second),
            none!($first $second),
        ]
    };
}

// No row at any reg field.
const NONE: Slot = Slot::Alone(none!(Empty Empty));

const GROUP_80: Slot = Slot::Group(0);

const GROUP_81: Slot = Slot::Group(1);

const GROUP_83: Slot = Slot::Group(2);

const GROUP_8C: Slot = Slot::Group(3);

const GROUP_8E: Slot = Slot::Group(4);

const GROUP_8F: Slot = Slot::Group(5);

const GROUP_C0: Slot = Slot::Group(6);

const GROUP_C1: Slot = Slot::Group(7);

const GROUP_C6: Slot = Slot::Group(8);

const GROUP_C7: Slot = Slot::Group(9);

const GROUP_D0: Slot = Slot::Group(10);

const GROUP_D1: Slot = Slot::Group(11);

const GROUP_D2: Slot = Slot::Group(12);

const GROUP_D3: Slot = Slot::Group(13);

const GROUP_F6: Slot = Slot::Group(14);

const GROUP_F7: Slot = Slot::Group(15);

const GROUP_FE: Slot = Slot::Group(16);

const GROUP_FF: Slot = Slot::Group(17);

const GROUP_0F00: Slot = Slot::Group(18);

const GROUP_0F01: Slot = Slot::Group(19);

const GROUP_0FBA: Slot = Slot::Group(20);

/// The one-byte map.
pub static ONE_BYTE_MAP: [Slot; 256] = [
    // Opcodes 00 to 0F
    alone!(Op::Add, Eb Gb Empty),
    alone!(Op::Add, Ev Gv Empty),
    alone!(Op::Add, Gb Eb Empty),
    alone!(Op::Add, Gv Ev Empty),
    alone!(Op::Add, Al Ib Empty),
    alone!(Op::Add, Ax Iz Empty),
    alone!(Op::Push, SegEs Empty Empty),
    alone!(Op::Pop, SegEs Empty Empty),
    alone!(Op::Or, Eb Gb Empty),
    alone!(Op::Or, Ev Gv Empty),
    alone!(Op::Or, Gb Eb Empty),
    alone!(Op::Or, Gv Ev Empty),
    alone!(Op::Or, Al Ib Empty),
    alone!(Op::Or, Ax Iz Empty),
    alone!(Op::Push, SegCs Empty Empty),
    NONE,
    // Opcodes 10 to 1F
    alone!(Op::Adc, Eb Gb Empty),
    alone!(Op::Adc, Ev Gv Empty),
    alone!(Op::Adc, Gb Eb Empty),
    alone!(Op::Adc, Gv Ev Empty),
    alone!(Op::Adc, Al Ib Empty),
    alone!(Op::Adc, Ax Iz Empty),
    alone!(Op::Push, SegSs Empty Empty),
    alone!(Op::Pop, SegSs Empty Empty),
    alone!(Op::Sbb, Eb Gb Empty),
    alone!(Op::Sbb, Ev Gv Empty),
    alone!(Op::Sbb, Gb Eb Empty),
    alone!(Op::Sbb, Gv Ev Empty),
    alone!(Op::Sbb, Al Ib Empty),
    alone!(Op::Sbb, Ax Iz Empty),
    alone!(Op::Push, SegDs Empty Empty),
    alone!(Op::Pop, SegDs Empty Empty),
    // Opcodes 20 to 2F
    alone!(Op::And, Eb Gb Empty),
    alone!(Op::And, Ev Gv Empty),
    alone!(Op::And, Gb Eb Empty),
    alone!(Op::And, Gv Ev Empty),
    alone!(Op::And, Al Ib Empty),
    alone!(Op::And, Ax Iz Empty),
    NONE,
    alone!(Op::Daa, Empty Empty Empty),
    alone!(Op::Sub, Eb Gb Empty),
    alone!(Op::Sub, Ev Gv Empty),
    alone!(Op::Sub, Gb Eb Empty),
    alone!(Op::Sub, Gv Ev Empty),
    alone!(Op::Sub, Al Ib Empty),
    alone!(Op::Sub, Ax Iz Empty),
    NONE,
    alone!(Op::Das, Empty Empty Empty),
    // Opcodes 30 to 3F
    alone!(Op::Xor, Eb Gb Empty),
    alone!(Op::Xor, Ev Gv Empty),
    alone!(Op::Xor, Gb Eb Empty),
    alone!(Op::Xor, Gv Ev Empty),
    alone!(Op::Xor, Al Ib Empty),
    alone!(Op::Xor, Ax Iz Empty),
    NONE,
    alone!(Op::Aaa, Empty Empty Empty),
    alone!(Op::Cmp, Eb Gb Empty),
    alone!(Op::Cmp, Ev Gv Empty),
    alone!(Op::Cmp, Gb Eb Empty),
    alone!(Op::Cmp, Gv Ev Empty),
    alone!(Op::Cmp, Al Ib Empty),
    alone!(Op::Cmp, Ax Iz Empty),
    NONE,
    alone!(Op::Aas, Empty Empty Empty),
    // Opcodes 40 to 4F
    alone!(Op::Inc, Zv Empty Empty),
    alone!(Op::Inc, Zv Empty Empty),
    alone!(Op::Inc, Zv Empty Empty),
    alone!(Op::Inc, Zv Empty Empty),
    alone!(Op::Inc, Zv Empty Empty),
    alone!(Op::Inc, Zv Empty Empty),
    alone!(Op::Inc, Zv Empty Empty),
    alone!(Op::Inc, Zv Empty Empty),
    alone!(Op::Dec, Zv Empty Empty),
    alone!(Op::Dec, Zv Empty Empty),
    alone!(Op::Dec, Zv Empty Empty),
    alone!(Op::Dec, Zv Empty Empty),
    alone!(Op::Dec, Zv Empty Empty),
    alone!(Op::Dec, Zv Empty Empty),
    alone!(Op::Dec, Zv Empty Empty),
    alone!(Op::Dec, Zv Empty Empty),
    // Opcodes 50 to 5F
    alone!(Op::Push, Zv Empty Empty),
    alone!(Op::Push, Zv Empty Empty),
    alone!(Op::Push, Zv Empty Empty),
    alone!(Op::Push, Zv Empty Empty),
    alone!(Op::Push, Zv Empty Empty),
    alone!(Op::Push, Zv Empty Empty),
    alone!(Op::Push, Zv Empty Empty),
    alone!(Op::Push, Zv Empty Empty),
    alone!(Op::Pop, Zv Empty Empty),
    alone!(Op::Pop, Zv Empty Empty),
    alone!(Op::Pop, Zv Empty Empty),
    alone!(Op::Pop, Zv Empty Empty),
    alone!(Op::Pop, Zv Empty Empty),
    alone!(Op::Pop, Zv Empty Empty),
    alone!(Op::Pop, Zv Empty Empty),
    alone!(Op::Pop, Zv Empty Empty),
    // Opcodes 60 to 6F
    alone!(Op::Pusha, Empty Empty Empty),
    alone!(Op::Popa, Empty Empty Empty),
    alone!(Op::Bound, Gv M Empty),
    alone!(Op::Arpl, Ew Gw Empty),
    NONE,
    NONE,
    NONE,
    NONE,
    alone!(Op::Push, Iz Empty Empty),
    alone!(Op::Imul, Gv Ev Iz),
    alone!(Op::Push, Is Empty Empty),
    alone!(Op::Imul, Gv Ev Is),
    alone!(Op::Ins, Xb Empty Empty),
    alone!(Op::Ins, Xv Empty Empty),
    alone!(Op::Outs, Xb Empty Empty),
    alone!(Op::Outs, Xv Empty Empty),
    // Opcodes 70 to 7F
    alone!(Op::Jcc(0), Jb Empty Empty),
    alone!(Op::Jcc(1), Jb Empty Empty),
    alone!(Op::Jcc(2), Jb Empty Empty),
    alone!(Op::Jcc(3), Jb Empty Empty),
    alone!(Op::Jcc(4), Jb Empty Empty),
    alone!(Op::Jcc(5), Jb Empty Empty),
    alone!(Op::Jcc(6), Jb Empty Empty),
    alone!(Op::Jcc(7), Jb Empty Empty),
    alone!(Op::Jcc(8), Jb Empty Empty),
    alone!(Op::Jcc(9), Jb Empty Empty),
    alone!(Op::Jcc(10), Jb Empty Empty),
    alone!(Op::Jcc(11), Jb Empty Empty),
    alone!(Op::Jcc(12), Jb Empty Empty),
    alone!(Op::Jcc(13), Jb Empty Empty),
    alone!(Op::Jcc(14), Jb Empty Empty),
    alone!(Op::Jcc(15), Jb Empty Empty),
    // Opcodes 80 to 8F
    GROUP_80,
    GROUP_81,
    GROUP_80,
    GROUP_83,
    alone!(Op::Test, Eb Gb Empty),
    alone!(Op::Test, Ev Gv Empty),
    alone!(Op::Xchg, Eb Gb Empty),
    alone!(Op::Xchg, Ev Gv Empty),
    alone!(Op::Mov, Eb Gb Empty),
    alone!(Op::Mov, Ev Gv Empty),
    alone!(Op::Mov, Gb Eb Empty),
    alone!(Op::Mov, Gv Ev Empty),
    GROUP_8C,
    alone!(Op::Lea, Gv M Empty),
    GROUP_8E,
    GROUP_8F,
    // Opcodes 90 to 9F
    alone!(Op::Xchg, Ax Zv Empty),
    alone!(Op::Xchg, Ax Zv Empty),
    alone!(Op::Xchg, Ax Zv Empty),
    alone!(Op::Xchg, Ax Zv Empty),
    alone!(Op::Xchg, Ax Zv Empty),
    alone!(Op::Xchg, Ax Zv Empty),
    alone!(Op::Xchg, Ax Zv Empty),
    alone!(Op::Xchg, Ax Zv Empty),
    alone!(Op::Cbw, Empty Empty Empty),
    alone!(Op::Cwd, Empty Empty Empty),
    alone!(Op::CallFar, Ip Empty Empty),
    alone!(Op::Wait, Empty Empty Empty),
    alone!(Op::Pushf, Empty Empty Empty),
    alone!(Op::Popf, Empty Empty Empty),
    alone!(Op::Sahf, Empty Empty Empty),
    alone!(Op::Lahf, Empty Empty Empty),
    // Opcodes A0 to AF
    alone!(Op::Mov, Al Ob Empty),
    alone!(Op::Mov, Ax Ov Empty),
    alone!(Op::Mov, Ob Al Empty),
    alone!(Op::Mov, Ov Ax Empty),
    alone!(Op::Movs, Xb Empty Empty),
    alone!(Op::Movs, Xv Empty Empty),
    alone!(Op::Cmps, Xb Empty Empty),
    alone!(Op::Cmps, Xv Empty Empty),
    alone!(Op::Test, Al Ib Empty),
    alone!(Op::Test, Ax Iz Empty),
    alone!(Op::Stos, Xb Empty Empty),
    alone!(Op::Stos, Xv Empty Empty),
    alone!(Op::Lods, Xb Empty Empty),
    alone!(Op::Lods, Xv Empty Empty),
    alone!(Op::Scas, Xb Empty Empty),
    alone!(Op::Scas, Xv Empty Empty),
    // Opcodes B0 to BF
    alone!(Op::Mov, Zb Ib Empty),
    alone!(Op::Mov, Zb Ib Empty),
    alone!(Op::Mov, Zb Ib Empty),
    alone!(Op::Mov, Zb Ib Empty),
    alone!(Op::Mov, Zb Ib Empty),
    alone!(Op::Mov, Zb Ib Empty),
    alone!(Op::Mov, Zb Ib Empty),
    alone!(Op::Mov, Zb Ib Empty),
    alone!(Op::Mov, Zv Iz Empty),
    alone!(Op::Mov, Zv Iz Empty),
    alone!(Op::Mov, Zv Iz Empty),
    alone!(Op::Mov, Zv Iz Empty),
    alone!(Op::Mov, Zv Iz Empty),
    alone!(Op::Mov, Zv Iz Empty),
    alone!(Op::Mov, Zv Iz Empty),
    alone!(Op::Mov, Zv Iz Empty),
    // Opcodes C0 to CF
    GROUP_C0,
    GROUP_C1,
    alone!(Op::Ret, Iw Empty Empty),
    alone!(Op::Ret, Empty Empty Empty),
    alone!(Op::Les, Gv M Empty),
    alone!(Op::Lds, Gv M Empty),
    GROUP_C6,
    GROUP_C7,
    alone!(Op::Enter, Iw Ib Empty),
    alone!(Op::Leave, Empty Empty Empty),
    alone!(Op::Retf, Iw Empty Empty),
    alone!(Op::Retf, Empty Empty Empty),
    alone!(Op::Int3, Empty Empty Empty),
    alone!(Op::Int, Ib Empty Empty),
    alone!(Op::Into, Empty Empty Empty),
    alone!(Op::Iret, Empty Empty Empty),
    // Opcodes D0 to DF
    GROUP_D0,
    GROUP_D1,
    GROUP_D2,
    GROUP_D3,
    alone!(Op::Aam, Ib Empty Empty),
    alone!(Op::Aad, Ib Empty Empty),
    NONE,
    alone!(Op::Xlat, Empty Empty Empty),
    alone!(Op::Esc, Ev Empty Empty),
    alone!(Op::Esc, Ev Empty Empty),
    alone!(Op::Esc, Ev Empty Empty),
    alone!(Op::Esc, Ev Empty Empty),
    alone!(Op::Esc, Ev Empty Empty),
    alone!(Op::Esc, Ev Empty Empty),
    alone!(Op::Esc, Ev Empty Empty),
    alone!(Op::Esc, Ev Empty Empty),
    // Opcodes E0 to EF
    alone!(Op::Loopne, Jb Empty Empty),
    alone!(Op::Loope, Jb Empty Empty),
    alone!(Op::Loop, Jb Empty Empty),
    alone!(Op::Jcxz, Jb Empty Empty),
    alone!(Op::In, Al Ib Empty),
    alone!(Op::In, Ax Ib Empty),
    alone!(Op::Out, Ib Al Empty),
    alone!(Op::Out, Ib Ax Empty),
    alone!(Op::Call, Jz Empty Empty),
    alone!(Op::Jmp, Jz Empty Empty),
    alone!(Op::JmpFar, Ip Empty Empty),
    alone!(Op::Jmp, Jb Empty Empty),
    alone!(Op::In, Al Dx Empty),
    alone!(Op::In, Ax Dx Empty),
    alone!(Op::Out, Dx Al Empty),
    alone!(Op::Out, Dx Ax Empty),
    // Opcodes F0 to FF
    NONE,
    NONE,
    NONE,
    NONE,
    alone!(Op::Hlt, Empty Empty Empty),
    alone!(Op::Cmc, Empty Empty Empty),
    GROUP_F6,
    GROUP_F7,
    alone!(Op::Clc, Empty Empty Empty),
    alone!(Op::Stc, Empty Empty Empty),
    alone!(Op::Cli, Empty Empty Empty),
    alone!(Op::Sti, Empty Empty Empty),
    alone!(Op::Cld, Empty Empty Empty),
    alone!(Op::Std, Empty Empty Empty),
    GROUP_FE,
    GROUP_FF,
];

/// The second map, after 0F.
pub static TWO_BYTE_MAP: [Slot; 256] = [
    // Opcodes 00 to 0F
    GROUP_0F00,
    GROUP_0F01,
    alone!(Op::Lar, Gv Ew Empty),
    alone!(Op::Lsl, Gv Ew Empty),
    NONE,
    NONE,
    alone!(Op::Clts, Empty Empty Empty),
    NONE,
    NONE,
    NONE,
    NONE,
    NONE,
    NONE,
    NONE,
    NONE,
    NONE,
    // Opcodes 10 to 1F
    NONE,
    NONE,
    NONE,
    NONE,
    NONE,
    NONE,
    NONE,
    NONE,
    NONE,
    NONE,
    NONE,
    NONE,
    NONE,
    NONE,
    NONE,
    NONE,
    // Opcodes 20 to 2F
    alone!(Op::MovControl, ModRm Empty Empty),
    alone!(Op::MovDebug, ModRm Empty Empty),
    alone!(Op::MovControl, ModRm Empty Empty),
    alone!(Op::MovDebug, ModRm Empty Empty),
    alone!(Op::MovTest, ModRm Empty Empty),
    NONE,
    alone!(Op::MovTest, ModRm Empty Empty),
    NONE,
    NONE,
    NONE,
    NONE,
    NONE,
    NONE,
    NONE,
    NONE,
    NONE,
    // Opcodes 30 to 3F
    NONE,
    NONE,
    NONE,
    NONE,
    NONE,
    NONE,
    NONE,
    NONE,
    NONE,
    NONE,
    NONE,
    NONE,
    NONE,
    NONE,
    NONE,
    NONE,
    // Opcodes 40 to 4F
    NONE,
    NONE,
    NONE,
    NONE,
    NONE,
    NONE,
    NONE,
    NONE,
    NONE,
    NONE,
    NONE,
    NONE,
    NONE,
    NONE,
    NONE,
    NONE,
    // Opcodes 50 to 5F
    NONE,
    NONE,
    NONE,
    NONE,
    NONE,
    NONE,
    NONE,
    NONE,
    NONE,
    NONE,
    NONE,
    NONE,
    NONE,
    NONE,
    NONE,
    NONE,
    // Opcodes 60 to 6F
    NONE,
    NONE,
    NONE,
    NONE,
    NONE,
    NONE,
    NONE,
    NONE,
    NONE,
    NONE,
    NONE,
    NONE,
    NONE,
    NONE,
    NONE,
    NONE,
    // Opcodes 70 to 7F
    NONE,
    NONE,
    NONE,
    NONE,
    NONE,
    NONE,
    NONE,
    NONE,
    NONE,
    NONE,
    NONE,
    NONE,
    NONE,
    NONE,
    NONE,
    NONE,
    // Opcodes 80 to 8F
    alone!(Op::Jcc(0), Jz Empty Empty),
    alone!(Op::Jcc(1), Jz Empty Empty),
    alone!(Op::Jcc(2), Jz Empty Empty),
    alone!(Op::Jcc(3), Jz Empty Empty),
    alone!(Op::Jcc(4), Jz Empty Empty),
    alone!(Op::Jcc(5), Jz Empty Empty),
    alone!(Op::Jcc(6), Jz Empty Empty),
    alone!(Op::Jcc(7), Jz Empty Empty),
    alone!(Op::Jcc(8), Jz Empty Empty),
    alone!(Op::Jcc(9), Jz Empty Empty),
    alone!(Op::Jcc(10), Jz Empty Empty),
    alone!(Op::Jcc(11), Jz Empty Empty),
    alone!(Op::Jcc(12), Jz Empty Empty),
    alone!(Op::Jcc(13), Jz Empty Empty),
    alone!(Op::Jcc(14), Jz Empty Empty),
    alone!(Op::Jcc(15), Jz Empty Empty),
    // Opcodes 90 to 9F
    alone!(Op::Setcc(0), Eb Empty Empty),
    alone!(Op::Setcc(1), Eb Empty Empty),
    alone!(Op::Setcc(2), Eb Empty Empty),
    alone!(Op::Setcc(3), Eb Empty Empty),
    alone!(Op::Setcc(4), Eb Empty Empty),
    alone!(Op::Setcc(5), Eb Empty Empty),
    alone!(Op::Setcc(6), Eb Empty Empty),
    alone!(Op::Setcc(7), Eb Empty Empty),
    alone!(Op::Setcc(8), Eb Empty Empty),
    alone!(Op::Setcc(9), Eb Empty Empty),
    alone!(Op::Setcc(10), Eb Empty Empty),
    alone!(Op::Setcc(11), Eb Empty Empty),
    alone!(Op::Setcc(12), Eb Empty Empty),
    alone!(Op::Setcc(13), Eb Empty Empty),
    alone!(Op::Setcc(14), Eb Empty Empty),
    alone!(Op::Setcc(15), Eb Empty Empty),
    // Opcodes A0 to AF
    alone!(Op::Push, SegFs Empty Empty),
    alone!(Op::Pop, SegFs Empty Empty),
    NONE,
    alone!(Op::Bt, Ev Gv Empty),
    alone!(Op::Shld, Ev Gv Ib),
    alone!(Op::Shld, Ev Gv Cl),
    NONE,
    NONE,
    alone!(Op::Push, SegGs Empty Empty),
    alone!(Op::Pop, SegGs Empty Empty),
    NONE,
    alone!(Op::Bts, Ev Gv Empty),
    alone!(Op::Shrd, Ev Gv Ib),
    alone!(Op::Shrd, Ev Gv Cl),
    NONE,
    alone!(Op::Imul, Gv Ev Empty),
    // Opcodes B0 to BF
    NONE,
    NONE,
    alone!(Op::Lss, Gv M Empty),
    alone!(Op::Btr, Ev Gv Empty),
    alone!(Op::Lfs, Gv M Empty),
    alone!(Op::Lgs, Gv M Empty),
    alone!(Op::Movzx(8), Gv Eb Empty),
    alone!(Op::Movzx(16), Gv Ew Empty),
    NONE,
    NONE,
    GROUP_0FBA,
    alone!(Op::Btc, Ev Gv Empty),
    alone!(Op::Bsf, Gv Ev Empty),
    alone!(Op::Bsr, Gv Ev Empty),
    alone!(Op::Movsx(8), Gv Eb Empty),
    alone!(Op::Movsx(16), Gv Ew Empty),
    // Opcodes C0 to CF
    NONE,
    NONE,
    NONE,
    NONE,
    NONE,
    NONE,
    NONE,
    NONE,
    NONE,
    NONE,
    NONE,
    NONE,
    NONE,
    NONE,
    NONE,
    NONE,
    // Opcodes D0 to DF
    NONE,
    NONE,
    NONE,
    NONE,
    NONE,
    NONE,
    NONE,
    NONE,
    NONE,
    NONE,
    NONE,
    NONE,
    NONE,
    NONE,
    NONE,
    NONE,
    // Opcodes E0 to EF
    NONE,
    NONE,
    NONE,
    NONE,
    NONE,
    NONE,
    NONE,
    NONE,
    NONE,
    NONE,
    NONE,
    NONE,
    NONE,
    NONE,
    NONE,
    NONE,
    // Opcodes F0 to FF
    NONE,
    NONE,
    NONE,
    NONE,
    NONE,
    NONE,
    NONE,
    NONE,
    NONE,
    NONE,
    NONE,
    NONE,
    NONE,
    NONE,
    NONE,
    NONE,
];

/// The groups, by the reg field.
pub static GROUPS: [[Row; 8]; 21] = [
    // Opcode 80
    arithmetic!(Eb Ib),
    // Opcode 81
    arithmetic!(Ev Iz),
    // Opcode 83
    arithmetic!(Ev Is),
    // Opcode 8C
    [
        row!(Op::Mov, RvMw Sw Empty),
        row!(Op::Mov, RvMw Sw Empty),
        row!(Op::Mov, RvMw Sw Empty),
        row!(Op::Mov, RvMw Sw Empty),
        row!(Op::Mov, RvMw Sw Empty),
        row!(Op::Mov, RvMw Sw Empty),
        none!(RvMw Sw),
        none!(RvMw Sw),
    ],
    // Opcode 8E
    [
        row!(Op::Mov, Sw Ew Empty),
        none!(Sw Ew),
        row!(Op::Mov, Sw Ew Empty),
        row!(Op::Mov, Sw Ew Empty),
        row!(Op::Mov, Sw Ew Empty),
        row!(Op::Mov, Sw Ew Empty),
        none!(Sw Ew),
        none!(Sw Ew),
    ],
    // Opcode 8F
    first!(Op::Pop, Ev Empty),
    // Opcode C0
    shifts!(Eb Ib),
    // Opcode C1
    shifts!(Ev Ib),
    // Opcode C6
    first!(Op::Mov, Eb Ib),
    // Opcode C7
    first!(Op::Mov, Ev Iz),
    // Opcode D0
    shifts!(Eb Const1),
    // Opcode D1
    shifts!(Ev Const1),
    // Opcode D2
    shifts!(Eb Cl),
    // Opcode D3
    shifts!(Ev Cl),
    // Opcode F6
    unary!(Eb Ib),
    // Opcode F7
    unary!(Ev Iz),
    // Opcode FE
    [
        row!(Op::Inc, Eb Empty Empty),
        row!(Op::Dec, Eb Empty Empty),
        none!(Eb Empty),
        none!(Eb Empty),
        none!(Eb Empty),
        none!(Eb Empty),
        none!(Eb Empty),
        none!(Eb Empty),
    ],
    // Opcode FF
    [
        row!(Op::Inc, Ev Empty Empty),
        row!(Op::Dec, Ev Empty Empty),
        row!(Op::Call, Ev Empty Empty),
        row!(Op::CallFar, M Empty Empty),
        row!(Op::Jmp, Ev Empty Empty),
        row!(Op::JmpFar, M Empty Empty),
        row!(Op::Push, Ev Empty Empty),
        none!(Ev Empty),
    ],
    // Opcode 0F00
    [
        row!(Op::Sldt, Ew Empty Empty),
        row!(Op::Str, Ew Empty Empty),
        row!(Op::Lldt, Ew Empty Empty),
        row!(Op::Ltr, Ew Empty Empty),
        row!(Op::Verr, Ew Empty Empty),
        row!(Op::Verw, Ew Empty Empty),
        none!(Ew Empty),
        none!(Ew Empty),
    ],
    // Opcode 0F01
    [
        row!(Op::Sgdt, M Empty Empty),
        row!(Op::Sidt, M Empty Empty),
        row!(Op::Lgdt, M Empty Empty),
        row!(Op::Lidt, M Empty Empty),
        row!(Op::Smsw, Ew Empty Empty),
        none!(Ew Empty),
        row!(Op::Lmsw, Ew Empty Empty),
        none!(Ew Empty),
    ],
    // Opcode 0FBA
    [
        none!(Ev Ib),
        none!(Ev Ib),
        none!(Ev Ib),
        none!(Ev Ib),
        row!(Op::Bt, Ev Ib Empty),
        row!(Op::Bts, Ev Ib Empty),
        row!(Op::Btr, Ev Ib Empty),
        row!(Op::Btc, Ev Ib Empty),
    ],
];
