// Numbers at each width, and the bytes of a register.
use crate::compare::same;
use cpu_values::{cut, part8, put8, put16, signed};

#[test]
fn numbers_at_each_width() -> Result<(), &'static str> {
    same("8 bits", cut::<8>(0x1_FF80).get() == 0x80)?;
    same("16 bits", cut::<16>(0x1_FF80).get() == 0xFF80)?;
    same("32 bits", cut::<32>(0x1_FFFF_FF80).get() == 0xFFFF_FF80)?;
    same("a sign of 8 bits", signed(cut::<8>(0x80)) == -128)?;
    same("a sign of 16 bits", signed(cut::<16>(0x7FFF)) == 32_767)?;
    same("a sign of 32 bits", signed(cut::<32>(0xFFFF_FFFF)) == -1)
}

#[test]
fn bytes_of_a_register() -> Result<(), &'static str> {
    same("AL", part8(0x1234_5678, false) == 0x78)?;
    same("AH", part8(0x1234_5678, true) == 0x56)?;
    same("AL set", put8(0x1234_5678, false, 0xAB) == 0x1234_56AB)?;
    same("AH set", put8(0x1234_5678, true, 0xAB) == 0x1234_AB78)?;
    same("AX set", put16(0x1234_5678, 0xABCD) == 0x1234_ABCD)
}
