// Instructions: an operation, its width, and its operands; and the table of operations.
ghost use Rattle.std.specs.Prelude.{◌≡◌};
ghost use Rattle.insn_forms.specs.Kinds.{has_good_number, operation, takes_lock};

use client_world::{FarPtr, SegReg};

/// The operations, by the manual's names; a condition 0 to 15, or the width of a source, is a number in the variant.
/// Source: 80386 Programmer's Reference Manual, ch. 17.
#[derive(Clone, Copy, Debug, PartialEq, Eq)]
pub enum Op {
    // arithmetic and logic
    Add,
    Or,
    Adc,
    Sbb,
    And,
    Sub,
    Xor,
    Cmp,
    Test,
    Inc,
    Dec,
    Not,
    Neg,
    Mul,
    Imul,
    Div,
    Idiv,
    // decimal adjustment
    Daa,
    Das,
    Aaa,
    Aas,
    Aam,
    Aad,
    // shifts and rotates
    Rol,
    Ror,
    Rcl,
    Rcr,
    Shl,
    Shr,
    Sar,
    Shld,
    Shrd,
    // bits
    Bt,
    Bts,
    Btr,
    Btc,
    Bsf,
    Bsr,
    Setcc(u8),
    // moves; `Movzx` and `Movsx` with the width of their source, 8 or 16
    Mov,
    Movzx(u8),
    Movsx(u8),
    Xchg,
    Lea,
    Xlat,
    Cbw,
    Cwd,
    Lahf,
    Sahf,
    Push,
    Pop,
    Pusha,
    Popa,
    Pushf,
    Popf,
    // strings
    Movs,
    Cmps,
    Stos,
    Lods,
    Scas,
    // transfers
    Jcc(u8),
    Jcxz,
    Loop,
    Loope,
    Loopne,
    Jmp,
    JmpFar,
    Call,
    CallFar,
    Ret,
    Retf,
    Int,
    Int3,
    Into,
    Iret,
    Bound,
    Enter,
    Leave,
    // flags and the processor
    Clc,
    Stc,
    Cmc,
    Cld,
    Std,
    Cli,
    Sti,
    Hlt,
    Wait,
    // ports
    In,
    Out,
    Ins,
    Outs,
    // far pointers and segments
    Les,
    Lds,
    Lss,
    Lfs,
    Lgs,
    Lar,
    Lsl,
    Verr,
    Verw,
    Arpl,
    // the system's instructions and the coprocessor's escape, which only raise an exception here
    Sldt,
    Str,
    Lldt,
    Ltr,
    Sgdt,
    Sidt,
    Lgdt,
    Lidt,
    Smsw,
    Lmsw,
    Clts,
    MovControl,
    MovDebug,
    MovTest,
    Esc,
}

/// The crate that carries an operation out. Own.
#[derive(Clone, Copy, Debug, PartialEq, Eq)]
pub enum Owner {
    /// `exec_core`.
    Core,
    /// `exec_flow`.
    Flow,
    /// `exec_flow` where the first operand is a segment register, else `exec_core`.
    ByFirst,
    /// `exec_flow` where one of the first two operands is a segment register, else `exec_core`.
    ByOperands,
}

/// What code asks about an operation: the crate that carries it out, whether it may have the prefix LOCK, and whether the number in the
/// variant is one that there is. Own.
#[derive(Clone, Copy, Debug, PartialEq, Eq)]
pub struct Traits {
    pub owner: Owner,
    pub lockable: bool,
    pub numbered: bool,
}

const CORE: Traits = Traits {
    owner: Owner::Core,
    lockable: false,
    numbered: true,
};

const CORE_WITH_LOCK: Traits = Traits {
    owner: Owner::Core,
    lockable: true,
    numbered: true,
};

const FLOW: Traits = Traits {
    owner: Owner::Flow,
    lockable: false,
    numbered: true,
};

const BY_FIRST: Traits = Traits {
    owner: Owner::ByFirst,
    lockable: false,
    numbered: true,
};

const BY_OPERANDS: Traits = Traits {
    owner: Owner::ByOperands,
    lockable: false,
    numbered: true,
};

impl Op {
    /// The table of operations: a line for each family, in the order of `Op`.
    /// Source: 80386 Programmer's Reference Manual, ch. 17, "LOCK"; the crates are own.
    #[inline(always)]
    #[tactic(auto, unfolding(crate::specs::Kinds::operation))]
    pub fn traits(self) -> Traits
        ensures owner { result.owner ≡ (operation self).owner }
        ensures lock { result.lockable ≡ takes_lock self }
        ensures number { result.numbered ≡ has_good_number self }
    {
        match self {
            // arithmetic and logic
            Op::Add | Op::Or | Op::Adc | Op::Sbb | Op::And | Op::Sub | Op::Xor => CORE_WITH_LOCK,
            Op::Cmp | Op::Test => CORE,
            Op::Inc | Op::Dec | Op::Not | Op::Neg => CORE_WITH_LOCK,
            Op::Mul | Op::Imul | Op::Div | Op::Idiv => CORE,
            // decimal adjustment
            Op::Daa | Op::Das | Op::Aaa | Op::Aas | Op::Aam | Op::Aad => CORE,
            // shifts and rotates
            Op::Rol | Op::Ror | Op::Rcl | Op::Rcr | Op::Shl | Op::Shr | Op::Sar => CORE,
            Op::Shld | Op::Shrd => CORE,
            // bits
            Op::Bt | Op::Bts | Op::Btr | Op::Btc => CORE_WITH_LOCK,
            Op::Bsf | Op::Bsr => CORE,
            Op::Setcc(n) => Traits {
                numbered: n < 16,
                ..CORE
            },
            // moves
            Op::Mov => BY_OPERANDS,
            Op::Movzx(n) | Op::Movsx(n) => Traits {
                numbered: n == 8 || n == 16,
                ..CORE
            },
            Op::Xchg => CORE_WITH_LOCK,
            Op::Lea | Op::Xlat | Op::Cbw | Op::Cwd | Op::Lahf | Op::Sahf => CORE,
            Op::Push | Op::Pop => BY_FIRST,
            Op::Pusha | Op::Popa => CORE,
            Op::Pushf | Op::Popf => FLOW,
            // strings
            Op::Movs | Op::Cmps | Op::Stos | Op::Lods | Op::Scas => CORE,
            // transfers
            Op::Jcc(n) => Traits {
                numbered: n < 16,
                ..FLOW
            },
            Op::Jcxz | Op::Loop | Op::Loope | Op::Loopne => FLOW,
            Op::Jmp | Op::JmpFar | Op::Call | Op::CallFar | Op::Ret | Op::Retf => FLOW,
            Op::Int | Op::Int3 | Op::Into | Op::Iret | Op::Bound | Op::Enter | Op::Leave => FLOW,
            // flags and the processor
            Op::Clc | Op::Stc | Op::Cmc | Op::Cld | Op::Std => CORE,
            Op::Cli | Op::Sti | Op::Hlt => FLOW,
            Op::Wait => CORE,
            // ports
            Op::In | Op::Out | Op::Ins | Op::Outs => FLOW,
            // far pointers and segments
            Op::Les | Op::Lds | Op::Lss | Op::Lfs | Op::Lgs => FLOW,
            Op::Lar | Op::Lsl | Op::Verr | Op::Verw | Op::Arpl => FLOW,
            // the system's instructions and the coprocessor's escape
            Op::Sldt | Op::Str | Op::Lldt | Op::Ltr | Op::Sgdt | Op::Sidt | Op::Lgdt => FLOW,
            Op::Lidt | Op::Smsw | Op::Lmsw | Op::Clts => FLOW,
            Op::MovControl | Op::MovDebug | Op::MovTest | Op::Esc => FLOW,
        }
    }
}

/// The repeat prefix that counts: F3 (`Rep`), F2 (`Repne`), or none.
/// Source: 80386 Programmer's Reference Manual, ch. 17, "REP/REPE/REPZ/REPNE/REPNZ".
#[derive(Clone, Copy, Debug, PartialEq, Eq)]
pub enum Rep {
    Plain,
    Rep,
    Repne,
}

/// A place in memory: base + index · scale + `disp` in the segment `seg`. Base and index are numbers of registers of
/// address size. `scale` is 1, 2, 4 or 8, and 1 where there is no index. A displacement of one byte is
/// sign-extended to 32 bits. Source: 80386 Programmer's Reference Manual, ch. 17, "ModR/M and SIB Bytes".
#[derive(Clone, Copy, Debug, PartialEq, Eq)]
pub struct MemForm {
    pub base: Option<u8>,
    pub index: Option<u8>,
    pub scale: u8,
    pub disp: u32,
    pub seg: SegReg,
}

/// An operand. A register has its width in bits and its number 0 to 7; a memory operand is as wide as the operation
/// says. `Imm` is a number of the operand's size, or a distance, sign-extended to 32 bits where it is a byte.
/// Source: 80386 Programmer's Reference Manual, ch. 17.
#[derive(Clone, Copy, Debug, PartialEq, Eq)]
pub enum Operand {
    Empty,
    Reg { width: u8, number: u8 },
    Seg(SegReg),
    Mem(MemForm),
    Imm(u32),
    Far(FarPtr),
}

/// An instruction. `width` is 8, 16 or 32; `addr32` says that addresses have 32 bits; `seg` is the segment prefix, or
/// DS without one; `locked` says that it has the prefix LOCK. Own.
#[derive(Clone, Copy, Debug, PartialEq, Eq)]
pub struct Insn {
    pub op: Op,
    pub width: u8,
    pub addr32: bool,
    pub seg: SegReg,
    pub rep: Rep,
    pub locked: bool,
    pub first: Operand,
    pub second: Operand,
    pub third: Operand,
}
