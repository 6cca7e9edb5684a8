// Rows by their shapes. The shape of an instruction leads to its registers by one jump, and says where its other operand is.
ghost use Rattle.std.specs.Prelude.{◌≡◌, ◌<◌, ◌≤◌, ◌%◌, ◌⊎◌, ℕ, IsTrue, Ok};
ghost use Rattle.cpu_values.specs.Word.{IsWidth};
ghost use Rattle.exec_core.specs.Shaped.{HasOperands};
ghost use Rattle.insn_forms.specs.{Kinds.{is_width}, Shapes.{HasShape, shape_width}, declared.insn.Operand.TheVariants.{Mem, Reg}};
ghost use Rattle.insn_plan.specs.{Act.{value_of}, Looks.{CarriesOutBy}, Operands.{source}, Plan.{CarriesOut}};

use crate::arithmetic::at_register;
use guest_space::Machine;
use insn_forms::{Insn, MemForm, Operand};
use insn_plan::{InsnRow, Look, Quick, Raised, register, run_row, shown_in_memory};

/// A row that has a body for a first operand of W bits in a register and one in memory, where the second gives a number.
pub(crate) trait ShapedRow<const W: u8>: InsnRow {
    /// The width, in bits, at which a second operand in memory is read.
    const SECOND_WIDTH: u8;

    ghost SECOND_WIDTH: { ℕ };

    /// Carries it out on the register of that number.
    fn on_register(self, m: &mut Machine, i: &Insn, n: u8, b: u32)
        requires width { IsWidth W }
        requires operands { HasOperands m.old.world i.now W SECOND_WIDTH (Reg W n) b }
        ensures { CarriesOut m.old m.new (Ok tt) (Self.plan self m.old.world i.now) };

    /// Carries it out on memory where no look misses; where one does, nothing is changed.
    fn in_memory<L: Look>(
        self,
        m: &mut Machine,
        i: &Insn,
        form: &MemForm,
        b: u32,
    ) -> Result<(), L::Missed>
        requires width { IsWidth W }
        requires operands { HasOperands m.old.world i.now W SECOND_WIDTH (Mem form.now) b }
        ensures { CarriesOutBy L.reported m.old m.new result (Self.plan self m.old.world i.now) };
}

// Does something for each of these shapes by itself, so that the compiler knows the shape and with it a register, and else something other.
macro_rules! at_shape {
    ($shape:ident, $known:ident, $($($literal:literal)* => $run:expr,)* _ => $other:expr) => {
        match $shape {
            $($($literal => {
                let $known = $literal;
                $run
            })*)*
            _ => $other,
        }
    };
}

pub(crate) use at_shape;

// What the second operand of a shape gives that isn't in memory; nothing is 0. `known` is the shape as a constant, and `width` its width.
#[inline(always)]
#[tactic(auto, unfolding(insn_plan::specs::Operands::source, insn_plan::specs::Act::value_of))]
fn second_number(m: &Machine, i: &Insn, shape: usize, known: u16, width: u8) -> u32
    requires shape { HasShape shape i.now }
    requires known { known ≡ shape }
    requires some { (known < 240) ⊎ (264 ≤ known) }
    requires few { known < 294 }
    requires width { shape_width known ≡ width }
    ensures { (size : ℕ) → value_of m.now.world (source m.now.world.regs i.now.addr32 size i.now.second) ≡ Ok result }
{
    match known {
        0..=191 => register(m.registers(), width, (known / 24) as u8),
        264..=287 => register(m.registers(), width, (known % 8) as u8),
        192..=215 | 288..=290 => match &i.second {
            Operand::Imm(v) => *v,
            _ => unreachable!(),
        },
        _ => 0,
    }
}

// The row on the register of a shape, where the second operand gives b.
#[inline(always)]
fn run_on_register_with<const W: u8, R: ShapedRow<W>>(
    row: R,
    m: &mut Machine,
    i: &Insn,
    shape: usize,
    n: u8,
    b: u32,
) -> Result<(), Raised>
    requires wide { IsWidth W }
    requires shape { HasShape shape i.now }
    requires some { shape < 264 }
    requires width { shape_width shape ≡ W }
    requires number { n ≡ shape % 8 }
    requires second { value_of m.old.world (source m.old.world.regs i.now.addr32 R.SECOND_WIDTH i.now.second) ≡ Ok b }
    ensures { CarriesOut m.old m.new result (R.plan row m.old.world i.now) }
{
    row.on_register(m, i, n, b);
    Ok(())
}

// The row on the register of a shape whose second operand is not in memory.
#[inline(always)]
fn run_on_register<const W: u8, R: ShapedRow<W>>(
    row: R,
    m: &mut Machine,
    i: &Insn,
    shape: usize,
    known: u16,
) -> Result<(), Raised>
    requires wide { IsWidth W }
    requires shape { HasShape shape i.now }
    requires known { known ≡ shape }
    requires some { known < 240 }
    requires width { shape_width known ≡ W }
    ensures { CarriesOut m.old m.new result (R.plan row m.old.world i.now) }
{
    let b = second_number(m, i, shape, known, W);
    run_on_register_with(row, m, i, shape, (known % 8) as u8, b)
}

// The row on the register of a shape whose second operand is in memory. It is read before the jump to the register.
#[inline(never)]
fn run_from_memory<const W: u8, R: ShapedRow<W>>(
    row: R,
    m: &mut Machine,
    i: &Insn,
    shape: usize,
) -> Result<(), Raised>
    requires good { IsTrue (is_width i.now.width) }
    requires wide { IsWidth W }
    requires shape { HasShape shape i.now }
    requires some { shape < 264 }
    requires width { shape_width shape ≡ W }
    ensures { CarriesOut m.old m.new result (R.plan row m.old.world i.now) }
{
    let Some(b) = shown_in_memory(m, i.addr32, R::SECOND_WIDTH, &i.second) else {
        return run_row(row, m, i);
    };
    let number = (shape % 8) as u8;
    at_register!(number, n => run_on_register_with(row, m, i, shape, n, b))
}

// The row on memory, where the second operand gives b.
#[inline(never)]
fn run_on_memory_with<const W: u8, R: ShapedRow<W>>(
    row: R,
    m: &mut Machine,
    i: &Insn,
    b: u32,
) -> Result<(), Raised>
    requires good { IsTrue (is_width i.now.width) }
    requires wide { IsWidth W }
    requires width { i.now.width ≡ W }
    requires second { value_of m.old.world (source m.old.world.regs i.now.addr32 R.SECOND_WIDTH i.now.second) ≡ Ok b }
    ensures { CarriesOut m.old m.new result (R.plan row m.old.world i.now) }
{
    if let Operand::Mem(form) = &i.first {
        if let Ok(()) = row.in_memory::<Quick>(m, i, form, b) {
            return Ok(());
        }
    }
    run_row(row, m, i)
}

// The row of a shape whose first operand is in memory.
#[inline(always)]
fn run_on_memory<const W: u8, R: ShapedRow<W>>(
    row: R,
    m: &mut Machine,
    i: &Insn,
    shape: usize,
    known: u16,
) -> Result<(), Raised>
    requires good { IsTrue (is_width i.now.width) }
    requires wide { IsWidth W }
    requires shape { HasShape shape i.now }
    requires known { known ≡ shape }
    requires some { 264 ≤ known }
    requires few { known < 294 }
    requires width { shape_width known ≡ W }
    ensures { CarriesOut m.old m.new result (R.plan row m.old.world i.now) }
{
    let b = second_number(m, i, shape, known, W);
    run_on_memory_with(row, m, i, b)
}

// The row of an instruction whose shape has an operand in memory; any shape without an arm here goes to `run_row`. It is out of line, so
// that a row on registers makes no call.
#[inline(never)]
fn run_with_memory<R: ShapedRow<8> + ShapedRow<16> + ShapedRow<32>>(
    row: R,
    m: &mut Machine,
    i: &Insn,
    shape: usize,
) -> Result<(), Raised>
    requires width { IsTrue (is_width i.now.width) }
    requires shape { HasShape shape i.now }
    ensures { CarriesOut m.old m.new result (R.plan row m.old.world i.now) }
{
    at_shape!(
        shape, known,
        240 241 242 243 244 245 246 247 => run_from_memory::<8, R>(row, m, i, shape),
        248 249 250 251 252 253 254 255 => run_from_memory::<16, R>(row, m, i, shape),
        256 257 258 259 260 261 262 263 => run_from_memory::<32, R>(row, m, i, shape),
        264 265 266 267 268 269 270 271 288 291 => run_on_memory::<8, R>(row, m, i, shape, known),
        272 273 274 275 276 277 278 279 289 292 => run_on_memory::<16, R>(row, m, i, shape, known),
        280 281 282 283 284 285 286 287 290 293 => run_on_memory::<32, R>(row, m, i, shape, known),
        _ => run_row(row, m, i)
    )
}

/// Carries out an instruction as `run_row` does. Its shape leads to its registers; it is as wide as a pointer, so that the jump by it needs
/// no conversion. Source: own.
#[inline(never)]
pub(crate) fn run_shaped<R: ShapedRow<8> + ShapedRow<16> + ShapedRow<32>>(
    row: R,
    m: &mut Machine,
    i: &Insn,
    shape: usize,
) -> Result<(), Raised>
    requires width { IsTrue (is_width i.now.width) }
    requires shape { HasShape shape i.now }
    ensures { CarriesOut m.old m.new result (R.plan row m.old.world i.now) }
{
    at_shape!(
        shape, known,
        0 1 2 3 4 5 6 7 24 25 26 27 28 29 30 31 48 49 50 51 52 53 54 55 72 73 74 75 76 77 78 79 96 97 98 99 100 101 102 103 120 121 122 123
            124 125 126 127 144 145 146 147 148 149 150 151 168 169 170 171 172 173 174 175 192 193 194 195 196 197 198 199 216 217 218 219
            220 221 222 223 => run_on_register::<8, R>(row, m, i, shape, known),
        8 9 10 11 12 13 14 15 32 33 34 35 36 37 38 39 56 57 58 59 60 61 62 63 80 81 82 83 84 85 86 87 104 105 106 107 108 109 110 111 128
            129 130 131 132 133 134 135 152 153 154 155 156 157 158 159 176 177 178 179 180 181 182 183 200 201 202 203 204 205 206 207 224
            225 226 227 228 229 230 231 => run_on_register::<16, R>(row, m, i, shape, known),
        16 17 18 19 20 21 22 23 40 41 42 43 44 45 46 47 64 65 66 67 68 69 70 71 88 89 90 91 92 93 94 95 112 113 114 115 116 117 118 119 136
            137 138 139 140 141 142 143 160 161 162 163 164 165 166 167 184 185 186 187 188 189 190 191 208 209 210 211 212 213 214 215 232
            233 234 235 236 237 238 239 => run_on_register::<32, R>(row, m, i, shape, known),
        _ => run_with_memory(row, m, i, shape)
    )
}

/// Carries out a shift as `run_row` does. Of the shapes on a register only those with an immediate have arms, so that the compiler writes
/// the shift out in each. Source: own.
#[inline(never)]
pub(crate) fn run_shift<R: ShapedRow<8> + ShapedRow<16> + ShapedRow<32>>(
    row: R,
    m: &mut Machine,
    i: &Insn,
    shape: usize,
) -> Result<(), Raised>
    requires width { IsTrue (is_width i.now.width) }
    requires shape { HasShape shape i.now }
    ensures { CarriesOut m.old m.new result (R.plan row m.old.world i.now) }
{
    at_shape!(
        shape, known,
        192 193 194 195 196 197 198 199 => run_on_register::<8, R>(row, m, i, shape, known),
        200 201 202 203 204 205 206 207 => run_on_register::<16, R>(row, m, i, shape, known),
        208 209 210 211 212 213 214 215 => run_on_register::<32, R>(row, m, i, shape, known),
        _ => run_with_memory(row, m, i, shape)
    )
}
