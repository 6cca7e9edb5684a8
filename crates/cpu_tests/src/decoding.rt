// Bytes and what they begin with, by the manual and an independent disassembler.
use crate::insns::*;
use arrayvec::ArrayVec;
use client_world::FarPtr;
use client_world::SegReg::{Ds, Es, Fs, Gs, Ss};
use insn_decode::Decoded::{self, Invalid, More, Whole};
use insn_decode::decode;
use insn_forms::Operand::{Far, Imm, Seg};
use insn_forms::{Insn, MemForm, Op, Operand, Rep};

// Bytes, whether operands and addresses have 32 bits by default, and what the first 15 of the bytes are decoded to.
type Row = (&'static [u8], bool, Decoded);

fn decoded(bytes: &[u8], big: bool) -> Decoded {
    let mut front = ArrayVec::new();
    for byte in bytes {
        let _ = front.try_push(*byte);
    }
    decode(&front, big)
}

// The number of the first row that is decoded to something else.
fn first_differing(rows: &[Row]) -> Option<usize> {
    rows.iter()
        .position(|(bytes, big, wanted)| decoded(bytes, *big) != *wanted)
}

// The numbers of registers.
const NO: Option<u8> = None;

const AX: Option<u8> = Some(0);

const CX: Option<u8> = Some(1);

const BX: Option<u8> = Some(3);

const SP: Option<u8> = Some(4);

const BP: Option<u8> = Some(5);

const SI: Option<u8> = Some(6);

const DI: Option<u8> = Some(7);

// Bytes that begin with an instruction of that length, in code of 16 bits or, if `big`, of 32.
macro_rules! whole {
    (big $bytes:expr => $len:expr, $insn:expr) => {
        (&$bytes, true, Whole($insn, $len))
    };
    ($bytes:expr => $len:expr, $insn:expr) => {
        (&$bytes, false, Whole($insn, $len))
    };
}

// The place that BX points to.
const AT_BX: Operand = mem!(Ds, BX, NO, 0);

static BEGINNINGS: [Row; 14] = [
    (&[], false, More),
    (&[0x0f], false, More),
    (&[0x66, 0xb8, 0x01, 0x00], false, More),
    (&[0xf0, 0x01], false, More),
    (&[0x66; 15], false, More),
    whole!([0x66, 0xb8, 0x01, 0x00, 0x00, 0x00] => 6, insn!(Op::Mov, 32, reg!(32, 0), Imm(1))),
    whole!([0xf3, 0x90] => 2, insn!(Op::Xchg, 16, reg!(16, 0), reg!(16, 0), rep: Rep::Rep)),
    (&[0xf0, 0x01, 0xc0], false, Invalid),
    (&[0xf0, 0x89], false, Invalid),
    (&[0xd6], false, Invalid),
    (&[0x8e, 0xc8], false, Invalid),
    (&[0x8d, 0xc0], false, Invalid),
    (&[0xf6, 0x08], false, Invalid),
    (&[0x67, 0x8b, 0x04, 0x25], false, More),
];

#[test]
fn the_table_of_bytes(rt: HostRuntime) {
    assert_eq!(rt; first_differing(&BEGINNINGS), None);
}

// MOV of AX and of EAX, with 16-bit and with 32-bit addresses.
macro_rules! mov_16 {
    ($place:expr) => {
        insn!(Op::Mov, 16, reg!(16, 0), $place)
    };
}

macro_rules! mov_32 {
    ($place:expr) => {
        insn!(Op::Mov, 32, reg!(32, 0), $place, addr32: true)
    };
}

static SHAPES_16: [Row; 10] = [
    whole!([0x8b, 0x00, 0, 0] => 2, mov_16!(mem!(Ds, BX, SI, 0))),
    whole!([0x8b, 0x01, 0, 0] => 2, mov_16!(mem!(Ds, BX, DI, 0))),
    whole!([0x8b, 0x42, 0xfe, 0] => 3, mov_16!(mem!(Ss, BP, SI, 0xffff_fffe))),
    whole!([0x8b, 0x43, 0x7f, 0] => 3, mov_16!(mem!(Ss, BP, DI, 0x7f))),
    whole!([0x8b, 0x04, 0, 0] => 2, mov_16!(mem!(Ds, SI, NO, 0))),
    whole!([0x8b, 0x85, 0x34, 0x12] => 4, mov_16!(mem!(Ds, DI, NO, 0x1234))),
    whole!([0x8b, 0x06, 0x34, 0x12] => 4, mov_16!(mem!(Ds, NO, NO, 0x1234))),
    whole!([0x8b, 0x46, 0x80, 0] => 3, mov_16!(mem!(Ss, BP, NO, 0xffff_ff80))),
    whole!([0x8b, 0x87, 0xff, 0xff] => 4, mov_16!(mem!(Ds, BX, NO, 0xffff))),
    whole!([0x8b, 0xc7, 0, 0] => 2, mov_16!(reg!(16, 7))),
];

#[test]
fn shapes_of_16_bit_addressing(rt: HostRuntime) {
    assert_eq!(rt; first_differing(&SHAPES_16), None);
}

static SHAPES_32: [Row; 11] = [
    whole!(big [0x8b, 0x01, 0, 0, 0, 0, 0] => 2, mov_32!(mem!(Ds, CX, NO, 0))),
    whole!(big [0x8b, 0x45, 8, 0, 0, 0, 0] => 3, mov_32!(mem!(Ss, BP, NO, 8))),
    whole!(big [0x8b, 0x05, 1, 2, 3, 4, 0] => 6, mov_32!(mem!(Ds, NO, NO, 0x0403_0201))),
    whole!(big [0x8b, 0x86, 1, 2, 3, 4, 0] => 6, mov_32!(mem!(Ds, SI, NO, 0x0403_0201))),
    whole!(big [0x8b, 0x04, 0x24, 0, 0, 0, 0] => 3, mov_32!(mem!(Ss, SP, NO, 0))),
    whole!(big [0x8b, 0x04, 0xe4, 0, 0, 0, 0] => 3, mov_32!(mem!(Ss, SP, NO, 0))),
    whole!(big [0x8b, 0x04, 0x98, 0, 0, 0, 0] => 3, mov_32!(mem!(Ds, AX, BX, 4, 0))),
    whole!(big [0x8b, 0x44, 0xf5, 1, 0, 0, 0] => 4, mov_32!(mem!(Ss, BP, SI, 8, 1))),
    whole!(big [0x8b, 0x04, 0x6d, 1, 0, 0, 0] => 7, mov_32!(mem!(Ds, NO, BP, 2, 1))),
    whole!(big [0x8b, 0x84, 0x25, 1, 0, 0, 0] => 7, mov_32!(mem!(Ss, BP, NO, 1))),
    whole!(big [0x8b, 0xc4, 0, 0, 0, 0, 0] => 2, mov_32!(reg!(32, 4))),
];

#[test]
fn shapes_of_32_bit_addressing(rt: HostRuntime) {
    assert_eq!(rt; first_differing(&SHAPES_32), None);
}

// ADD of CX to memory, with segment, LOCK and repetition.
macro_rules! add {
    ($($field:ident: $v:expr),*) => {
        insn!(Op::Add, 16, mem!(Gs, BX, NO, 0), reg!(16, 1) $(, $field: $v)*)
    };
}

static PREFIXES: [Row; 5] = [
    whole!([0x65, 0x01, 0x0f, 0, 0, 0] => 3, add!(seg: Gs)),
    whole!([0x26, 0x3e, 0x65, 0x01, 0x0f, 0] => 5, add!(seg: Gs)),
    whole!([0xf0, 0x65, 0x01, 0x0f, 0, 0] => 4, add!(seg: Gs, locked: true)),
    whole!([0x65, 0xf0, 0xf0, 0x01, 0x0f, 0] => 5, add!(seg: Gs, locked: true)),
    whole!([0xf3, 0xf0, 0x65, 0xf2, 0x01, 0x0f] => 6, add!(seg: Gs, locked: true, rep: Rep::Repne)),
];

#[test]
fn segment_and_repeat_prefixes(rt: HostRuntime) {
    assert_eq!(rt; first_differing(&PREFIXES), None);
}

const MOVS: Insn = insn!(Op::Movs, 32, NONE, NONE, addr32: true, seg: Fs, rep: Rep::Rep);

static SIZES: [Row; 5] = [
    whole!([0x67, 0x66, 0x64, 0xf3, 0xa5, 0, 0] => 5, MOVS),
    whole!([0x66, 0x66, 0x67, 0x67, 0xf3, 0x64, 0xa5] => 7, MOVS),
    whole!(big [0x64, 0xf3, 0xa5, 0, 0, 0, 0] => 3, MOVS),
    whole!(big [0x66, 0x40, 0, 0, 0, 0, 0] => 2, insn!(Op::Inc, 16, reg!(16, 0), NONE, addr32: true)),
    whole!(big [0x67, 0x8b, 0x07, 0, 0, 0, 0] => 3, insn!(Op::Mov, 32, reg!(32, 0), AT_BX)),
];

#[test]
fn size_prefixes(rt: HostRuntime) {
    assert_eq!(rt; first_differing(&SIZES), None);
}

static LOCKED: [Row; 12] = [
    (&[0xf0, 0x03, 0x07], false, Invalid),
    (&[0xf0, 0x90], false, Invalid),
    (&[0xf0, 0x0f, 0xaf], false, Invalid),
    (&[0xf0, 0x80, 0x38], false, Invalid),
    (&[0xf0, 0x0f, 0xa3, 0xc8], false, Invalid),
    (&[0xf0, 0xf6, 0x07], false, Invalid),
    (&[0xf0, 0x0f], false, More),
    whole!([0xf0, 0xfe, 0x07, 0] => 3, insn!(Op::Inc, 8, AT_BX, NONE, locked: true)),
    whole!([0xf0, 0xf7, 0x1f, 0] => 3, insn!(Op::Neg, 16, AT_BX, NONE, locked: true)),
    whole!([0xf0, 0x86, 0x07, 0] => 3, insn!(Op::Xchg, 8, AT_BX, reg!(8, 0), locked: true)),
    whole!([0xf0, 0x83, 0x0f, 0xff] => 4, insn!(Op::Or, 16, AT_BX, Imm(0xffff), locked: true)),
    whole!([0xf0, 0x0f, 0xbb, 0x07] => 4, insn!(Op::Btc, 16, AT_BX, reg!(16, 0), locked: true)),
];

#[test]
fn lock_is_refused_where_it_may_not_stand(rt: HostRuntime) {
    assert_eq!(rt; first_differing(&LOCKED), None);
}

static GROUPS: [Row; 13] = [
    (&[0xc0, 0xf0, 1], false, Invalid),
    (&[0xff, 0xff], false, Invalid),
    (&[0xff, 0xd8], false, Invalid),
    (&[0x8f, 0xc8], false, Invalid),
    (&[0x8c, 0xf0], false, Invalid),
    (&[0x0f, 0xba, 0xd8], false, Invalid),
    (&[0x0f, 0x01, 0xc8], false, Invalid),
    (&[0x0f, 0x25], false, Invalid),
    whole!([0xd1, 0xf8] => 2, insn!(Op::Sar, 16, reg!(16, 0), Imm(1))),
    whole!([0x0f, 0xba, 0xe8, 5] => 4, insn!(Op::Bts, 16, reg!(16, 0), Imm(5))),
    whole!([0x0f, 0x20, 0x04] => 3, insn!(Op::MovControl, 16, NONE, NONE)),
    whole!(big [0x8c, 0xd8] => 2, insn!(Op::Mov, 16, reg!(32, 0), Seg(Ds), addr32: true)),
    whole!([0x0f, 0x97, 0xf8] => 3, insn!(Op::Setcc(7), 8, reg!(8, 0), NONE)),
];

#[test]
fn groups_lack_some_rows(rt: HostRuntime) {
    assert_eq!(rt; first_differing(&GROUPS), None);
}

const NEAR: Operand = Far(FarPtr {
    sel: 0x5678,
    off: 0x1234,
});

const WIDE: Operand = Far(FarPtr {
    sel: 0x0605,
    off: 0x0403_0201,
});

static POINTERS: [Row; 6] = [
    whole!([0x9a, 0x34, 0x12, 0x78, 0x56, 0, 0] => 5, insn!(Op::CallFar, 16, NEAR, NONE)),
    whole!([0xff, 0x1f, 0, 0, 0, 0, 0] => 2, insn!(Op::CallFar, 16, AT_BX, NONE)),
    whole!([0xc4, 0x07, 0, 0, 0, 0, 0] => 2, insn!(Op::Les, 16, reg!(16, 0), AT_BX)),
    whole!([0x26, 0xa2, 1, 2, 0, 0, 0] => 4, insn!(Op::Mov, 8, mem!(Es, NO, NO, 0x0201), reg!(8, 0), seg: Es)),
    whole!([0x67, 0xa1, 1, 2, 3, 4, 0] => 6, insn!(Op::Mov, 16, reg!(16, 0), mem!(Ds, NO, NO, 0x0403_0201), addr32: true)),
    whole!([0x66, 0xea, 1, 2, 3, 4, 5, 6] => 8, insn!(Op::JmpFar, 32, WIDE, NONE)),
];

#[test]
fn pointers_and_offsets(rt: HostRuntime) {
    assert_eq!(rt; first_differing(&POINTERS), None);
}

static IMMEDIATES: [Row; 9] = [
    whole!([0x6a, 0xf0, 0, 0] => 2, insn!(Op::Push, 16, Imm(0xfff0), NONE)),
    whole!([0x66, 0x6a, 0xf0, 0] => 3, insn!(Op::Push, 32, Imm(0xffff_fff0), NONE)),
    whole!([0x6a, 0x70, 0, 0] => 2, insn!(Op::Push, 16, Imm(0x70), NONE)),
    whole!([0x75, 0xfe, 0, 0] => 2, insn!(Op::Jcc(5), 16, Imm(0xffff_fffe), NONE)),
    whole!([0x0f, 0x8f, 0xfe, 0xff] => 4, insn!(Op::Jcc(15), 16, Imm(0xfffe), NONE)),
    whole!([0x6b, 0xca, 0xff, 0] => 3, insn!(Op::Imul, 16, reg!(16, 1), reg!(16, 2), third: Imm(0xffff))),
    whole!([0xc8, 0x10, 0, 2] => 4, insn!(Op::Enter, 16, Imm(0x10), Imm(2))),
    whole!([0xe6, 0x20, 0, 0] => 2, insn!(Op::Out, 8, Imm(0x20), reg!(8, 0))),
    whole!([0x0f, 0xbe, 0x07, 0] => 3, insn!(Op::Movsx(8), 16, reg!(16, 0), AT_BX)),
];

#[test]
fn immediates_and_distances(rt: HostRuntime) {
    assert_eq!(rt; first_differing(&IMMEDIATES), None);
}

const LONG_MOV: Insn =
    insn!(Op::Mov, 32, mem!(Gs, SP, AX, 4, 0x0403_0201), Imm(0x0807_0605), addr32: true, seg: Gs);

// A MOV of 15 bytes, all of it but its last byte, and the same with one more prefix; and a padded XCHG.
static LONG: [Row; 4] = [
    whole!(big [0x65, 0x65, 0x65, 0x65, 0xc7, 0x84, 0x84, 1, 2, 3, 4, 5, 6, 7, 8] => 15, LONG_MOV),
    (
        &[
            0x65, 0x65, 0x65, 0x65, 0xc7, 0x84, 0x84, 1, 2, 3, 4, 5, 6, 7,
        ],
        true,
        More,
    ),
    (
        &[
            0x65, 0x65, 0x65, 0x65, 0x65, 0xc7, 0x84, 0x84, 1, 2, 3, 4, 5, 6, 7, 8,
        ],
        true,
        More,
    ),
    whole!([0x66, 0x66, 0x66, 0x66, 0x66, 0x66, 0x66, 0x66, 0x66, 0x66, 0x66, 0x66, 0x66, 0x66, 0x90] => 15,
        insn!(Op::Xchg, 32, reg!(32, 0), reg!(32, 0))),
];

#[test]
fn encodings_of_15_and_16_bytes(rt: HostRuntime) {
    assert_eq!(rt; first_differing(&LONG), None);
}
