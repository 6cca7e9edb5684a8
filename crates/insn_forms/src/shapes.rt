// The shapes of instructions: their registers, and of what kinds their first two operands are.
ghost use Rattle.std.specs.Prelude.{◌≡◌, ◌%◌, ◌<◌, IfSome};
ghost use Rattle.insn_forms.specs.{Shapes.{HasShape, memory_form, shape_width}, declared.insn.Operand.TheVariants.{Mem, Reg}};

use crate::insn::{Insn, Operand};

// The least shape of a register, where there is one of that width and number. The others are it plus multiples of 24.
fn register_shape(width: u8, number: u8) -> Option<u16>
    ensures few { IfSome result (λ shape. shape < 24) }
    ensures width { IfSome result (λ shape. shape_width shape ≡ width) }
    ensures number { IfSome result (λ shape. shape % 8 ≡ number) }
{
    if number >= 8 {
        return None;
    }
    match width {
        8 => Some(number.into()),
        16 => Some(8 + u16::from(number)),
        32 => Some(16 + u16::from(number)),
        _ => None,
    }
}

impl Insn {
    /// The shape of an instruction that is said to have none.
    pub const NO_SHAPE: u16 = 294;

    // The shape where the first operand is the register of that number.
    fn shape_on_register(&self, number: u8) -> Option<u16>
        requires { self.now.first ≡ Reg self.now.width number }
        ensures { IfSome result (λ shape. HasShape shape self.now) }
    {
        let first = register_shape(self.width, number)?;
        match self.second {
            Operand::Reg { width, number } if width == self.width && number < 8 => Some(
                24 * u16::from(number) + first,
            ),
            Operand::Imm(_) => Some(192 + first),
            Operand::Empty => Some(216 + first),
            Operand::Mem(_) => Some(240 + first),
            _ => None,
        }
    }

    // The shape where the first operand is in memory.
    fn shape_in_memory(&self) -> Option<u16>
        requires { self.now.first ≡ Mem (memory_form self.now.first) }
        ensures { IfSome result (λ shape. HasShape shape self.now) }
    {
        let least = register_shape(self.width, 0)? / 8;
        match self.second {
            Operand::Reg { width, number } if width == self.width => Some(
                264 + register_shape(width, number)?,
            ),
            Operand::Imm(_) => Some(288 + least),
            Operand::Empty => Some(291 + least),
            _ => None,
        }
    }

    /// The shape of the instruction: one number for its width, its registers and the kinds of its first two operands. Source: own.
    #[inline(never)]
    pub fn shape(&self) -> u16
        ensures { HasShape result self.now }
    {
        let shape = match self.first {
            Operand::Reg { width, number } if width == self.width => self.shape_on_register(number),
            Operand::Mem(_) => self.shape_in_memory(),
            _ => None,
        };
        match shape {
            Some(shape) => shape,
            None => Insn::NO_SHAPE,
        }
    }
}
