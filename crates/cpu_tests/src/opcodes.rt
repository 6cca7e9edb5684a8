// Rows of the manual's opcode map.
use insn_forms::Form::{Cl, Eb, Empty, Ev, Ew, Gv, Ib, Is, Iw, Jb, M, ModRm, Sw};
use insn_forms::OpMap::{self, One, Two};
use insn_forms::{Op, Row, row_of};

macro_rules! row {
    ($op:expr, $first:expr, $second:expr, $third:expr) => {
        Row { op: $op, first: $first, second: $second, third: $third }
    };
}

// A map, an opcode, the reg field, and their row; one without an operation is invalid.
static ROWS: [(OpMap, u8, u8, Row); 14] = [
    (One, 0x31, 0, row!(Some(Op::Xor), Ev, Gv, Empty)),
    (One, 0x75, 0, row!(Some(Op::Jcc(5)), Jb, Empty, Empty)),
    (One, 0x83, 7, row!(Some(Op::Cmp), Ev, Is, Empty)),
    (One, 0x8e, 1, row!(None, Sw, Ew, Empty)),
    (One, 0xc8, 0, row!(Some(Op::Enter), Iw, Ib, Empty)),
    (One, 0xd3, 4, row!(Some(Op::Shl), Ev, Cl, Empty)),
    (One, 0xd6, 0, row!(None, Empty, Empty, Empty)),
    (One, 0xff, 3, row!(Some(Op::CallFar), M, Empty, Empty)),
    (One, 0xff, 8, row!(None, Empty, Empty, Empty)),
    (Two, 0x24, 0, row!(Some(Op::MovTest), ModRm, Empty, Empty)),
    (Two, 0x9f, 0, row!(Some(Op::Setcc(15)), Eb, Empty, Empty)),
    (Two, 0xac, 0, row!(Some(Op::Shrd), Ev, Gv, Ib)),
    (Two, 0xba, 7, row!(Some(Op::Btc), Ev, Ib, Empty)),
    (Two, 0xbf, 0, row!(Some(Op::Movsx(16)), Gv, Ew, Empty)),
];

#[test]
fn rows_are_those_of_the_manual(rt: HostRuntime) {
    let differing = ROWS.iter().position(|(map, opcode, reg, wanted)| row_of(*map, *opcode, *reg)
        != *wanted);
    assert_eq!(rt; differing, None);
}
