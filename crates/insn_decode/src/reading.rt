// One instruction, read from left to right into its place.
ghost use Rattle.std.specs.Prelude.{◌≡◌};
ghost use Rattle.insn_forms.specs.Grammar.{row_with};
ghost use Rattle.insn_decode.specs.Reading.{IsReading, operand_at, rest_at, insn_at};

use crate::address::addressing;
use crate::head::head;
use crate::number::number;
use crate::operand::{finish, is_turned, put, size_of_own};
use crate::stop::Stop;
use insn_forms::{Addressing, Form, Head, Insn, Operand, Row};

/// Reads the instruction that some bytes start with, and returns the bytes after it; or `More` where they end before, and `Invalid` where
/// they begin no instruction.
/// Source: 80386 Programmer's Reference Manual, ch. 17, "Instruction Format".
#[inline(always)]
#[tactic(auto, unfolding(crate::specs::Reading::insn_at))]
pub fn insn<'a>(out: &mut Insn, big: bool, bytes: &'a [u8]) -> Result<&'a [u8], Stop>
    ensures { IsReading (λ x. (out.new, x.now)) result (insn_at big bytes.now) }
{
    let (head, after) = head(bytes)?;
    let wide = is_turned(head.prefixes.operand_size, big);
    let addr32 = is_turned(head.prefixes.address_size, big);
    let (address, row, after) = addressing(addr32, head, after)?;
    operands(out, wide, addr32, head, address, row, after)
}

// Reads what follows the displacement.
#[inline(always)]
#[tactic(auto, unfolding(crate::specs::Reading::rest_at))]
fn operands<'a>(
    out: &mut Insn,
    wide: bool,
    addr32: bool,
    head: Head,
    address: Addressing,
    row: Row,
    bytes: &'a [u8],
) -> Result<&'a [u8], Stop>
    requires { row ≡ row_with head address.modrm }
    ensures { IsReading (λ x. (out.new, x.now)) result (rest_at wide addr32 head address bytes.now) }
{
    let bytes = operand(
        &mut out.first,
        wide,
        addr32,
        head,
        address,
        row.first,
        bytes,
    )?;
    let bytes = operand(
        &mut out.second,
        wide,
        addr32,
        head,
        address,
        row.second,
        bytes,
    )?;
    let bytes = operand(
        &mut out.third,
        wide,
        addr32,
        head,
        address,
        row.third,
        bytes,
    )?;
    finish(out, head, wide, addr32, row);
    Ok(bytes)
}

// Reads the operand of a form, with the bytes of its own.
#[inline(always)]
#[tactic(auto, unfolding(crate::specs::Reading::operand_at, crate::specs::Reading::number_at, insn_forms::specs::Operands::operand))]
fn operand<'a>(
    out: &mut Operand,
    wide: bool,
    addr32: bool,
    head: Head,
    address: Addressing,
    form: Form,
    bytes: &'a [u8],
) -> Result<&'a [u8], Stop>
    ensures { IsReading (λ x. (out.new, x.now)) result (operand_at wide addr32 head address form bytes.now) }
{
    match form {
        Form::Empty => {
            *out = Operand::Empty;
            Ok(bytes)
        }
        _ => {
            let (value, rest) = number(size_of_own(wide, addr32, form), bytes)?;
            put(out, head, wide, addr32, address, form, value);
            Ok(rest)
        }
    }
}
