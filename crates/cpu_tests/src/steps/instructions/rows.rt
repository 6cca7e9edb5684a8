// The worked rows, by families. The values come from the manual's rules by hand.
use super::cases::*;
use crate::insns::*;
use client_world::{Event, Regs, SegReg};
use insn_forms::{Insn, MemForm, Op, Operand, Rep};

// The families of cases. Each begins on a machine of its own.
pub(crate) fn families() -> [&'static [Case]; 9] {
    [
        &MOVES,
        &ARITHMETIC,
        &SHIFTS,
        &PRODUCTS,
        &BITS,
        &STACKS,
        &STRINGS,
        &FAULTS,
        &TRANSFERS,
    ]
}

// MOV, MOVZX, MOVSX, XCHG, LEA, XLAT, CBW, CWD.
static MOVES: [Case; 25] = [
    case!(insn!(Op::Mov, 8, AL, AH), [] b"C", [eax: 0x8765_4343] b"C"),
    case!(insn!(Op::Mov, 8, CH, Operand::Imm(0x7F)), [] b"", [ecx: 0x7F04] b""),
    case!(insn!(Op::Mov, 16, CX, DATA), [] b"", [ecx: 0xFF] b""),
    case!(insn!(Op::Mov, 32, place!(SegReg::Ds, 3, 0), ECX), [] b"", [] b"", data: 4),
    case!(insn!(Op::Mov, 8, DATA, AL), [] b"", [] b"", data: 0x8000_0021),
    case!(insn!(Op::Mov, 16, DATA, AX), [] b"", [] b"", data: 0x8000_4321),
    // 100h + 100h + FF00h is 100h where addresses have 16 bits
    case!(insn!(Op::Mov, 16, AX, mem!(SegReg::Ds, Some(3), Some(6), 0xFF00)), [] b"", [eax: 0x8765_00FF] b""),
    // 100h + 4 · 4 − 10h
    case!(insn!(Op::Mov, 8, DL, mem!(SegReg::Ds, Some(3), Some(1), 4, 0xFFFF_FFF0), addr32: true),
        [] b"", [edx: 0x1111_22FF] b""),
    case!(insn!(Op::Mov, 8, DL, place!(SegReg::Es, 7, 1)), [] b"", [edx: 0x1111_2202] b""),
    case!(insn!(Op::Movzx(8), 32, EDX, DATA), [] b"", [edx: 0xFF] b""),
    case!(insn!(Op::Movsx(8), 32, EDX, DATA), [] b"", [edx: 0xFFFF_FFFF] b""),
    case!(insn!(Op::Movsx(8), 16, DX, DATA), [] b"", [edx: 0x1111_FFFF] b""),
    case!(insn!(Op::Movzx(16), 32, EDX, DATA), [] b"", [edx: 0xFF] b""),
    case!(insn!(Op::Movsx(16), 32, EDX, DATA), [] b"", [edx: 0xFF] b""),
    case!(insn!(Op::Xchg, 32, DATA, EAX), [] b"", [eax: 0x8000_00FF] b"", data: 0x8765_4321),
    case!(insn!(Op::Xchg, 8, AL, AH), [] b"", [eax: 0x8765_2143] b""),
    case!(insn!(Op::Lea, 16, AX, place!(SegReg::Ds, 3, 0xFFFF)), [] b"", [eax: 0x8765_00FF] b""),
    case!(insn!(Op::Lea, 32, EAX, place!(SegReg::Ds, 3, 0xFFFF)), [] b"", [eax: 0xFF] b""),
    case!(insn!(Op::Lea, 32, EAX, place!(SegReg::Ds, 3, 0xFFFF), addr32: true), [] b"", [eax: 0x1_00FF] b""),
    case!(insn!(Op::Xlat, 8, NONE, NONE), [ebx: 0xDF] b"", [eax: 0x8765_43FF] b""),
    case!(insn!(Op::Cbw, 16, NONE, NONE), [eax: 0x1180] b"", [eax: 0xFF80] b""),
    case!(insn!(Op::Cbw, 32, NONE, NONE), [eax: 0x1111_8000] b"", [eax: 0xFFFF_8000] b""),
    case!(insn!(Op::Cwd, 16, NONE, NONE), [eax: 0x8000] b"", [edx: 0x1111_FFFF] b""),
    case!(insn!(Op::Cwd, 32, NONE, NONE), [eax: 0x7FFF_FFFF] b"", [edx: 0] b""),
    case!(insn!(Op::Mov, 8, BL, CL), [] b"", [ebx: 0x104] b""),
];

// ADD, OR, ADC, SBB, AND, SUB, XOR, CMP, TEST, INC, DEC, NOT, NEG.
static ARITHMETIC: [Case; 15] = [
    case!(insn!(Op::Add, 8, DATA, Operand::Imm(1)), [] b"OS", [] b"CAZP", data: 0x8000_0000),
    case!(insn!(Op::Add, 16, AX, Operand::Imm(0x7FFF)), [] b"C", [eax: 0x8765_C320] b"ASO"),
    case!(insn!(Op::Adc, 32, EAX, EDX), [] b"C", [eax: 0x9876_6544] b"SP"),
    case!(insn!(Op::Sub, 8, AL, DL), [] b"", [eax: 0x8765_43FF] b"CASP"),
    case!(insn!(Op::Sbb, 16, DATA, Operand::Imm(0xFFFF_FFFF)), [] b"CZ", [] b"CAP"),
    case!(insn!(Op::Cmp, 32, EAX, DATA), [] b"CZ", [] b"AP"),
    case!(insn!(Op::Inc, 8, DATA, NONE), [] b"C", [] b"CAZP", data: 0x8000_0000),
    case!(insn!(Op::Dec, 16, CX, NONE), [] b"Z", [ecx: 3] b"P"),
    case!(insn!(Op::Neg, 8, AL, NONE), [] b"", [eax: 0x8765_43DF] b"CAS"),
    case!(insn!(Op::Not, 32, DATA, NONE), [] b"CO", [] b"CO", data: 0x7FFF_FF00),
    case!(insn!(Op::And, 16, AX, Operand::Imm(0x0F0F)), [] b"CAO", [eax: 0x8765_0301] b"A"),
    case!(insn!(Op::Or, 8, DL, Operand::Imm(0x80)), [] b"", [edx: 0x1111_22A2] b"S"),
    case!(insn!(Op::Xor, 32, EAX, EAX), [] b"C", [eax: 0] b"ZP"),
    case!(insn!(Op::Test, 8, AL, Operand::Imm(0x21)), [] b"C", [] b"P"),
    case!(insn!(Op::Test, 32, DATA, Operand::Imm(0x7FFF_FF00)), [] b"C", [] b"ZP"),
];

// Shifts and rotates: a count of more than 31 is taken modulo 32.
static SHIFTS: [Case; 11] = [
    case!(insn!(Op::Shl, 8, DATA, Operand::Imm(1)), [] b"O", [] b"CS", data: 0x8000_00FE),
    case!(insn!(Op::Shr, 16, AX, CL), [] b"C", [eax: 0x8765_0432] b""),
    case!(insn!(Op::Sar, 32, EAX, Operand::Imm(1)), [] b"O", [eax: 0xC3B2_A190] b"CSP"),
    case!(insn!(Op::Shl, 32, EAX, Operand::Imm(32)), [] b"ZC", [] b"ZC"),
    case!(insn!(Op::Rol, 8, AL, Operand::Imm(4)), [] b"Z", [eax: 0x8765_4312] b"Z"),
    case!(insn!(Op::Ror, 16, DX, Operand::Imm(1)), [] b"C", [edx: 0x1111_1111] b""),
    case!(insn!(Op::Rcl, 8, AL, Operand::Imm(1)), [] b"C", [eax: 0x8765_4343] b""),
    case!(insn!(Op::Rcr, 16, DATA, Operand::Imm(1)), [] b"C", [] b"CO", data: 0x8000_807F),
    case!(insn!(Op::Shld, 16, AX, DX, third: Operand::Imm(4)), [] b"C", [eax: 0x8765_3212] b"P"),
    case!(insn!(Op::Shrd, 32, EAX, EDX, third: Operand::Imm(8)), [] b"C", [eax: 0x2287_6543] b""),
    case!(insn!(Op::Shld, 16, AX, DX, third: Operand::Imm(16)), [] b"C", [] b"C"),
];

// MUL, IMUL, DIV, IDIV, and the decimal rows.
static PRODUCTS: [Case; 17] = [
    case!(insn!(Op::Mul, 8, CL, NONE), [] b"CO", [eax: 0x8765_0084] b""),
    case!(insn!(Op::Mul, 32, DATA, NONE), [] b"Z", [eax: 0x5DDD_DDDF, edx: 0x43B2_A217] b"ZCO"),
    case!(insn!(Op::Imul, 16, DX, NONE), [] b"", [eax: 0x8765_4C62, edx: 0x1111_08F3] b"CO"),
    case!(insn!(Op::Imul, 16, CX, DATA), [] b"CO", [ecx: 0x3FC] b""),
    case!(insn!(Op::Imul, 32, EDX, DATA, third: Operand::Imm(0xFFFF_FFFE)), [] b"", [edx: 0xFFFF_FE02] b"CO"),
    case!(insn!(Op::Div, 8, DATA, NONE), [] b"CS", [eax: 0x8765_6443] b"CS"),
    case!(insn!(Op::Idiv, 8, CL, NONE), [eax: 0xFFF9, ecx: 2] b"", [eax: 0xFFFD] b""),
    refused!(insn!(Op::Div, 16, CX, NONE), [], DIVIDE_FAULT),
    refused!(insn!(Op::Div, 8, BL, NONE), [], DIVIDE_FAULT),
    refused!(insn!(Op::Idiv, 8, CL, NONE), [], DIVIDE_FAULT),
    case!(insn!(Op::Daa, 8, NONE, NONE), [eax: 0x12AE] b"O", [eax: 0x1214] b"CAPO"),
    case!(insn!(Op::Das, 8, NONE, NONE), [eax: 0x12EE] b"CA", [eax: 0x1288] b"CAPS"),
    case!(insn!(Op::Aaa, 8, NONE, NONE), [eax: 0x010B] b"Z", [eax: 0x0201] b"CAZ"),
    case!(insn!(Op::Aas, 8, NONE, NONE), [eax: 0x02FE] b"AO", [eax: 0x0108] b"CAO"),
    case!(insn!(Op::Aam, 8, Operand::Imm(10), NONE), [eax: 0x3F] b"C", [eax: 0x0603] b"CP"),
    case!(insn!(Op::Aad, 8, Operand::Imm(10), NONE), [eax: 0x0603] b"A", [eax: 0x3F] b"AP"),
    refused!(insn!(Op::Aam, 8, Operand::Imm(0), NONE), [], DIVIDE_FAULT),
];

// BT, BTS, BTR, BTC, BSF, BSR, SETcc, and the flags' rows. A bit's number in a register moves an operand in memory.
static BITS: [Case; 19] = [
    // bit −16 of the word at 102h
    case!(insn!(Op::Bt, 16, place!(SegReg::Ds, 3, 2), CX), [ecx: 0xFFF0] b"", [] b"C"),
    // bit 37 of the doubleword at FCh
    case!(insn!(Op::Btr, 32, place!(SegReg::Ds, 3, 0xFFFC), ECX), [ecx: 37] b"", [] b"C", data: 0x8000_00DF),
    case!(insn!(Op::Bts, 16, AX, Operand::Imm(17)), [] b"C", [eax: 0x8765_4323] b""),
    case!(insn!(Op::Btc, 32, EAX, ECX), [] b"C", [eax: 0x8765_4331] b""),
    case!(insn!(Op::Bt, 32, DATA, Operand::Imm(63)), [] b"Z", [] b"CZ"),
    case!(insn!(Op::Bsf, 32, ECX, DATA), [] b"Z", [ecx: 0] b""),
    case!(insn!(Op::Bsr, 16, DX, AX), [] b"Z", [edx: 0x1111_000E] b""),
    case!(insn!(Op::Bsf, 32, EAX, EBP), [] b"C", [] b"CZ"),
    case!(insn!(Op::Setcc(4), 8, AL, NONE), [] b"Z", [eax: 0x8765_4301] b"Z"),
    case!(insn!(Op::Setcc(5), 8, DATA, NONE), [] b"Z", [] b"Z", data: 0x8000_0000),
    case!(insn!(Op::Setcc(14), 8, AL, NONE), [] b"S", [eax: 0x8765_4301] b"S"),
    case!(insn!(Op::Lahf, 8, NONE, NONE), [] b"SZAPCO", [eax: 0x8765_D721] b"SZAPCO"),
    case!(insn!(Op::Sahf, 8, NONE, NONE), [] b"DOS", [] b"CZDO"),
    case!(insn!(Op::Clc, 8, NONE, NONE), [] b"CZ", [] b"Z"),
    case!(insn!(Op::Stc, 8, NONE, NONE), [] b"Z", [] b"CZ"),
    case!(insn!(Op::Cmc, 8, NONE, NONE), [] b"CZ", [] b"Z"),
    case!(insn!(Op::Cld, 8, NONE, NONE), [] b"DZ", [] b"Z"),
    case!(insn!(Op::Std, 8, NONE, NONE), [] b"Z", [] b"DZ"),
    case!(insn!(Op::Wait, 8, NONE, NONE), [] b"Z", [] b"Z"),
];

// PUSH, POP, PUSHA.
static STACKS: [Case; 8] = [
    case!(insn!(Op::Push, 16, AX, NONE), [] b"", [esp: 0x2FE] b"", stack: 0x0B0A_4321),
    case!(insn!(Op::Push, 32, DATA, NONE), [] b"", [esp: 0x2FC] b"", stack: 0x0B0A_8000),
    case!(insn!(Op::Push, 16, SP, NONE), [] b"", [esp: 0x2FE] b"", stack: 0x0B0A_0300),
    case!(insn!(Op::Push, 16, AX, NONE), [esp: 0xFFFF_0300] b"", [esp: 0xFFFF_02FE] b"", stack: 0x0B0A_4321),
    case!(insn!(Op::Pop, 16, CX, NONE), [] b"", [ecx: 0x0B0A, esp: 0x302] b""),
    // the address is that of the stack pointer after the item
    case!(insn!(Op::Pop, 16, place!(SegReg::Ss, 4, 0xFFFF_FFFC), NONE, addr32: true),
        [] b"", [esp: 0x302] b"", stack: 0x0B0A_0B0A),
    case!(insn!(Op::Pusha, 16, NONE, NONE), [] b"", [esp: 0x2F0] b"", stack: 0x0B0A_4321),
    refused!(insn!(Op::Push, 16, AX, NONE), [esp: 1], STACK_FAULT),
];

// Strings, and their repetitions.
static STRINGS: [Case; 16] = [
    case!(insn!(Op::Movs, 8, NONE, NONE), [] b"", [esi: 0x101, edi: 0x201] b"", extra: 0x0403_02FF),
    case!(insn!(Op::Movs, 16, NONE, NONE), [] b"D", [esi: 0xFE, edi: 0x1FE] b"D", extra: 0x0403_00FF),
    case!(insn!(Op::Movs, 8, NONE, NONE, seg: SegReg::Ss), [esi: 0x301] b"", [esi: 0x302, edi: 0x201] b"", extra: 0x0403_020B),
    case!(insn!(Op::Lods, 32, NONE, NONE), [] b"", [eax: 0x8000_00FF, esi: 0x104] b""),
    case!(insn!(Op::Lods, 8, NONE, NONE), [esi: 0xFFFF_0100] b"", [eax: 0x8765_43FF, esi: 0xFFFF_0101] b""),
    case!(insn!(Op::Stos, 8, NONE, NONE), [] b"", [edi: 0x201] b"", extra: 0x0403_0221),
    case!(insn!(Op::Stos, 32, NONE, NONE, addr32: true), [] b"D", [edi: 0x1FC] b"D", extra: 0x8765_4321),
    case!(insn!(Op::Cmps, 8, NONE, NONE), [] b"Z", [esi: 0x101, edi: 0x201] b"S"),
    case!(insn!(Op::Scas, 8, NONE, NONE), [] b"C", [edi: 0x201] b""),
    case!(insn!(Op::Movs, 8, NONE, NONE, rep: Rep::Rep), [ecx: 2] b"", [ecx: 1, esi: 0x101, edi: 0x201, eip: 0x4E] b"",
        extra: 0x0403_02FF),
    case!(insn!(Op::Movs, 8, NONE, NONE, rep: Rep::Rep), [ecx: 1] b"", [ecx: 0, esi: 0x101, edi: 0x201] b"",
        extra: 0x0403_02FF),
    case!(insn!(Op::Movs, 8, NONE, NONE, rep: Rep::Rep), [ecx: 0x1_0000] b"", [] b""),
    case!(insn!(Op::Stos, 8, NONE, NONE, rep: Rep::Repne), [ecx: 0x1_0002] b"", [ecx: 0x1_0001, edi: 0x201, eip: 0x4E] b"",
        extra: 0x0403_0221),
    case!(insn!(Op::Cmps, 8, NONE, NONE, rep: Rep::Rep), [] b"Z", [ecx: 3, esi: 0x101, edi: 0x201] b"S"),
    case!(insn!(Op::Scas, 8, NONE, NONE, rep: Rep::Repne), [] b"Z", [ecx: 3, edi: 0x201, eip: 0x4E] b""),
    case!(insn!(Op::Scas, 8, NONE, NONE, rep: Rep::Rep), [eax: 1] b"", [ecx: 3, edi: 0x201, eip: 0x4E] b"ZP"),
];

// Faults: the limit of a segment, and the read-only page at F0000h. An instruction that has one changes nothing.
static FAULTS: [Case; 12] = [
    refused!(insn!(Op::Add, 8, place!(SegReg::Ds, 5, 0), AL), [ds: 0xF000], READ_ONLY_PAGE),
    refused!(insn!(Op::Xchg, 8, place!(SegReg::Ds, 5, 0), AL), [ds: 0xF000], READ_ONLY_PAGE),
    refused!(insn!(Op::Movs, 8, NONE, NONE, rep: Rep::Rep), [es: 0xF000], READ_ONLY_PAGE),
    refused!(insn!(Op::Pop, 16, place!(SegReg::Ds, 5, 0), NONE), [ds: 0xF000], READ_ONLY_PAGE),
    // a count of 0, and a bit that is set already, are written back all the same
    refused!(insn!(Op::Shl, 8, place!(SegReg::Ds, 5, 0), Operand::Imm(0)), [ds: 0xF000], READ_ONLY_PAGE),
    refused!(insn!(Op::Bts, 16, place!(SegReg::Ds, 5, 0x8000), Operand::Imm(2)), [ds: 0xF000], READ_ONLY_PAGE),
    case!(insn!(Op::Test, 8, place!(SegReg::Ds, 5, 0x8000), AL), [ds: 0xF000, eax: 0xB] b"", [] b"ZP"),
    refused!(
        insn!(Op::Mov, 32, EAX, place!(SegReg::Ds, 5, 0xFFFD)),
        [],
        LIMIT_FAULT
    ),
    refused!(
        insn!(Op::Mov, 8, AL, place!(SegReg::Ds, 5, 0x1_0000), addr32: true),
        [],
        LIMIT_FAULT
    ),
    refused!(insn!(Op::Cmps, 16, NONE, NONE), [edi: 0xFFFF], LIMIT_FAULT),
    // the source is read before the destination
    refused!(insn!(Op::Cmps, 16, NONE, NONE, seg: SegReg::Ss), [esi: 0xFFFF, edi: 0xFFFF], STACK_FAULT),
    refused!(
        insn!(Op::Mov, 16, place!(SegReg::Ss, 5, 0xFFFF), AX),
        [],
        STACK_FAULT
    ),
];

// Rows of exec_flow. A relative jump counts from EIP, which is after the instruction.
static TRANSFERS: [Case; 8] = [
    case!(insn!(Op::Jmp, 16, Operand::Imm(0x10), NONE), [] b"", [eip: 0x60] b""),
    case!(insn!(Op::Call, 16, Operand::Imm(0xFFFE), NONE), [] b"", [eip: 0x4E, esp: 0x2FE] b"", stack: 0x0B0A_0050),
    case!(insn!(Op::Jcc(5), 16, Operand::Imm(0x10), NONE), [] b"Z", [] b"Z"),
    case!(insn!(Op::Ret, 16, NONE, NONE), [] b"", [eip: 0x0B0A, esp: 0x302] b""),
    case!(insn!(Op::Push, 16, Operand::Seg(SegReg::Es), NONE), [] b"", [esp: 0x2FE] b"", stack: 0x0B0A_2000),
    case!(insn!(Op::Mov, 16, Operand::Seg(SegReg::Es), AX), [] b"", [es: 0x4321] b""),
    refused!(
        insn!(Op::Int, 8, Operand::Imm(0x21), NONE),
        [],
        Some(Event::Soft {
            number: 0x21,
            len: 2
        })
    ),
    refused!(insn!(Op::Hlt, 16, NONE, NONE), [], LIMIT_FAULT),
];
