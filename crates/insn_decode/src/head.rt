// The prefixes and the opcode.
ghost use Rattle.std.specs.Prelude.{◌≡◌, ◌≤◌, ◌||◌, IsTrue, true};
ghost use Rattle.insn_forms.specs.{OpcodeMap.{opcode_row}, Prefixes.{is_prefix, segment_of}, Addressing.{has_modrm, modrm_size}};
ghost use Rattle.insn_forms.specs.Operands.{has_op, may_lock, is_m, is_row};
ghost use Rattle.insn_decode.specs.Reading.{IsReading, with_prefix, any_below, any_row, checked, two_at, opcode_at, head_at, no_prefixes};

use crate::stop::Stop;
use client_world::SegReg;
use insn_forms::{Form, Head, OpMap, Prefixes, Rep, Row, row_of};

/// The prefixes and the opcode at the start, and the bytes after them; or `More` where they end before, and `Invalid` where they begin no
/// instruction.
/// Source: 80386 Programmer's Reference Manual, ch. 17, "Instruction Format".
#[inline(always)]
#[tactic(auto, unfolding(crate::specs::Reading::head_at))]
pub fn head(bytes: &[u8]) -> Result<(Head, &[u8]), Stop>
    ensures { IsReading (λ x. (x.0, x.1.now)) result (head_at no_prefixes bytes.now) }
{
    let mut prefixes = Prefixes {
        seg: None,
        operand_size: false,
        address_size: false,
        lock: false,
        rep: Rep::Plain,
    };
    let mut rest = bytes;
    while let [first, after @ ..] = rest {
        if !is_a_prefix(*first) {
            return opcode(prefixes, *first, after);
        }
        prefixes = with_one_more(prefixes, *first);
        rest = after;
    }
    Err(Stop::More)
}

// Whether the byte is a prefix.
#[inline(always)]
#[tactic(auto, unfolding(insn_forms::specs::Prefixes::is_prefix))]
fn is_a_prefix(byte: u8) -> bool
    ensures { result ≡ is_prefix byte }
{
    matches!(
        byte,
        0x26 | 0x2e | 0x36 | 0x3e | 0x64..=0x67 | 0xf0 | 0xf2 | 0xf3
    )
}

// What the prefixes say with one more.
#[inline(always)]
#[tactic(auto, unfolding(crate::specs::Reading::with_prefix))]
fn with_one_more(prefixes: Prefixes, byte: u8) -> Prefixes
    requires { IsTrue (is_prefix byte) }
    ensures { result ≡ with_prefix prefixes byte }
{
    match byte {
        0x66 => Prefixes {
            operand_size: true,
            ..prefixes
        },
        0x67 => Prefixes {
            address_size: true,
            ..prefixes
        },
        0xf0 => Prefixes {
            lock: true,
            ..prefixes
        },
        0xf2 => Prefixes {
            rep: Rep::Repne,
            ..prefixes
        },
        0xf3 => Prefixes {
            rep: Rep::Rep,
            ..prefixes
        },
        _ => match segment_of_prefix(byte) {
            Some(seg) => Prefixes {
                seg: Some(seg),
                ..prefixes
            },
            None => prefixes,
        },
    }
}

// The segment register of a segment prefix.
#[inline(always)]
fn segment_of_prefix(byte: u8) -> Option<SegReg>
    ensures { result ≡ segment_of byte }
{
    match byte {
        0x26 => Some(SegReg::Es),
        0x2e => Some(SegReg::Cs),
        0x36 => Some(SegReg::Ss),
        0x3e => Some(SegReg::Ds),
        0x64 => Some(SegReg::Fs),
        0x65 => Some(SegReg::Gs),
        _ => None,
    }
}

// The opcode, whose first byte is read already.
#[inline(always)]
#[tactic(auto, unfolding(crate::specs::Reading::opcode_at))]
fn opcode(prefixes: Prefixes, first: u8, bytes: &[u8]) -> Result<(Head, &[u8]), Stop>
    ensures { IsReading (λ x. (x.0, x.1.now)) result (opcode_at prefixes first bytes.now) }
{
    if first == 0x0f {
        second_byte(prefixes, bytes)
    } else {
        checked_head(
            Head {
                prefixes,
                map: OpMap::One,
                opcode: first,
            },
            bytes,
        )
    }
}

// The opcode after 0F.
#[tactic(auto, unfolding(crate::specs::Reading::two_at))]
fn second_byte(prefixes: Prefixes, bytes: &[u8]) -> Result<(Head, &[u8]), Stop>
    ensures { IsReading (λ x. (x.0, x.1.now)) result (two_at prefixes bytes.now) }
{
    match bytes {
        [] => Err(Stop::More),
        [opcode, rest @ ..] => checked_head(
            Head {
                prefixes,
                map: OpMap::Two,
                opcode: *opcode,
            },
            rest,
        ),
    }
}

// The head, if there is a row that begins so.
#[inline(always)]
#[tactic(auto, unfolding(crate::specs::Reading::checked))]
fn checked_head(head: Head, bytes: &[u8]) -> Result<(Head, &[u8]), Stop>
    ensures { IsReading (λ x. (x.0, x.1.now)) result (checked head bytes.now) }
{
    if has_some_row(head) {
        Ok((head, bytes))
    } else {
        Err(Stop::Invalid)
    }
}

// Whether some row begins so.
#[inline(always)]
#[tactic(auto, unfolding(crate::specs::Reading::any_row))]
fn has_some_row(head: Head) -> bool
    ensures { result ≡ any_row head }
{
    if size_of_modrm(head.map, head.opcode) == 0 {
        row_stands(head.prefixes.lock, row_of(head.map, head.opcode, 0), true)
    } else {
        has_row_at_some_reg(head)
    }
}

// Whether there is a row for some reg field, with an operand in memory; 0 is tried first.
#[inline(always)]
fn has_row_at_some_reg(head: Head) -> bool
    ensures { result ≡ any_below 8 (λ reg. is_row head.prefixes.lock (opcode_row head.map head.opcode reg) true) }
{
    if row_stands(head.prefixes.lock, row_of(head.map, head.opcode, 0), true) {
        return true;
    }
    is_in_group(head)
}

// The same, one reg field after another.
#[inline(never)]
fn is_in_group(head: Head) -> bool
    ensures { result ≡ any_below 8 (λ reg. is_row head.prefixes.lock (opcode_row head.map head.opcode reg) true) }
{
    for reg in 0..8 {
        if row_stands(head.prefixes.lock, row_of(head.map, head.opcode, reg), true) {
            return true;
        }
    }
    false
}

/// The size of the ModRM byte of an opcode in bytes: 1, or 0 where it has none. Source: 80386 Programmer's Reference Manual, appendix A.
#[inline(always)]
#[tactic(auto, unfolding(insn_forms::specs::Addressing::modrm_size))]
pub fn size_of_modrm(map: OpMap, opcode: u8) -> u8
    ensures is { result ≡ modrm_size map opcode }
    ensures below { result ≤ 1 }
{
    let row = row_of(map, opcode, 0);
    if reads_modrm(row.first) || reads_modrm(row.second) {
        1
    } else {
        0
    }
}

// Whether the form reads a ModRM byte.
#[inline(always)]
fn reads_modrm(form: Form) -> bool
    ensures { result ≡ has_modrm form }
{
    matches!(
        form,
        Form::Eb
            | Form::Ew
            | Form::Ev
            | Form::Gb
            | Form::Gw
            | Form::Gv
            | Form::RvMw
            | Form::Sw
            | Form::M
            | Form::ModRm
    )
}

/// Whether there is such a row with LOCK or without, with an operand in memory or in a register.
/// Source: 80386 Programmer's Reference Manual, ch. 17, LOCK.
#[inline(always)]
#[tactic(auto, unfolding(insn_forms::specs::Operands::is_row))]
pub fn row_stands(lock: bool, row: Row, memory: bool) -> bool
    ensures { result ≡ is_row lock row memory }
{
    has_operation(row) && (!lock || is_lockable(row) && memory) && (memory || !needs_memory(row))
}

// Whether the row has an operation.
#[inline(always)]
fn has_operation(row: Row) -> bool
    ensures { result ≡ has_op row }
{
    row.op.is_some()
}

// Whether LOCK may be before it, with its destination in memory.
#[inline(never)]
fn is_lockable(row: Row) -> bool
    ensures { result ≡ may_lock row }
{
    match row.op {
        Some(op) => op.traits().lockable && matches!(row.first, Form::Eb | Form::Ev),
        None => false,
    }
}

// Whether one of the forms is memory alone.
#[inline(always)]
fn needs_memory(row: Row) -> bool
    ensures { result ≡ (is_m row.first || is_m row.second) }
{
    matches!(row.first, Form::M) || matches!(row.second, Form::M)
}
