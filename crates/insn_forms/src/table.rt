// The opcode maps looked up.
ghost use Rattle.std.specs.Prelude.{◌≡◌, IsTrue};
ghost use Rattle.insn_forms.specs.{OpcodeMap.{opcode_row, pick}, Slots.{row_in, has_rows}};

use crate::maps::{GROUPS, ONE_BYTE_MAP, TWO_BYTE_MAP};
use crate::rows::{Form, OpMap, Row, Slot};

/// The row of an opcode: of the groups, the one at this reg field of ModRM, which is 0 to 7; a group has no row at other numbers.
/// Source: 80386 Programmer's Reference Manual, appendix A.
#[inline(always)]
pub fn row_of(map: OpMap, opcode: u8, reg: u8) -> Row
    ensures { result ≡ opcode_row map opcode reg }
{
    match map {
        OpMap::One => row_in_slot(ONE_BYTE_MAP[opcode as usize], reg),
        OpMap::Two => row_in_slot(TWO_BYTE_MAP[opcode as usize], reg),
    }
}

// The row of a table's entry at a reg field.
#[inline(always)]
fn row_in_slot(slot: Slot, reg: u8) -> Row
    requires { IsTrue (has_rows slot) }
    ensures { result ≡ row_in slot reg }
{
    match slot {
        Slot::Alone(row) => row,
        Slot::Group(number) => row_of_group(&GROUPS[number as usize], reg),
    }
}

// The row of a group at a reg field.
#[inline(always)]
fn row_of_group(rows: &[Row; 8], reg: u8) -> Row
    ensures { result ≡ pick 0 rows.now reg }
{
    if reg < 8 {
        rows[reg as usize]
    } else {
        Row {
            op: None,
            first: Form::Empty,
            second: Form::Empty,
            third: Form::Empty,
        }
    }
}
