// The instructions of this crate, and what each of them does.
ghost use Rattle.std.specs.Prelude.{IsTrue};
ghost use Rattle.exec_flow.specs.{Dispatch.{IsFlow, flow_row}, Transfers.{jcc}};
ghost use Rattle.insn_forms.specs.Kinds.{has_good_number, is_width};
ghost use Rattle.insn_plan.specs.Plan.{CarriesOut};

use crate::far_transfers::{call_far, iret, jump_far, retf};
use crate::flag_images::{cli, popf, pushf, sti};
use crate::frames::{bound, enter, leave};
use crate::interrupts::{int, int3, into};
use crate::ports::{input, output};
use crate::questions::{
    arpl, tell_access_rights, tell_byte_limit, verify_readable, verify_writable,
};
use crate::raising::{escape, invalid_opcode, load_table, privileged};
use crate::segments::{load_pointer, mov_segment, pop_segment, push_segment};
use crate::transfers::{Call, Jcc, Jcxz, Jmp, Loop, Ret};
use client_world::{Event, SegReg};
use guest_space::Machine;
use insn_forms::{Insn, Op};
use insn_plan::{InsnRow, Quick, Raised, run_row};

/// Runs an instruction of this crate; EIP already points after it. An event leaves the machine as it was; a software interrupt is an event
/// that names its number and the instruction's length.
/// Source: 80386 Programmer's Reference Manual, ch. 17; that an instruction which faults changes nothing is own.
pub fn run_flow(m: &mut Machine, insn: &Insn, len: u8) -> Result<(), Event>
    requires flow { IsFlow insn.now }
    requires width { IsTrue (is_width insn.now.width) }
    requires number { IsTrue (has_good_number insn.now.op) }
    ensures { CarriesOut m.old m.new result (flow_row insn.now.op m.old.world insn.now len) }
{
    match carry_out_flow(m, insn, len) {
        Ok(()) => Ok(()),
        Err(raised) => Err(raised.event()),
    }
}

/// Carries out Jcc, whose EIP is already after it. It is inlined into its caller. An event leaves the machine as it was.
/// Source: 80386 Programmer's Reference Manual, ch. 17.
#[inline(always)]
pub fn carry_out_jcc(m: &mut Machine, insn: &Insn, condition: u8) -> Result<(), Raised>
    requires { IsTrue (is_width insn.now.width) }
    ensures { CarriesOut m.old m.new result (jcc m.old.world insn.now condition) }
{
    let row = Jcc { condition };
    match row.carry_out::<Quick>(m, insn) {
        Ok(()) => Ok(()),
        Err(_) => run_row(row, m, insn),
    }
}

/// Carries out an instruction of this crate, of `len` bytes, whose EIP is already after it. An event, in one word, leaves the machine as it
/// was; a software interrupt is an event that names its number and the instruction's length.
/// Source: 80386 Programmer's Reference Manual, ch. 17; that an instruction which faults changes nothing is own.
#[inline(always)]
#[tactic(auto, unfolding(crate::specs::Dispatch::is_flow, crate::specs::Dispatch::flow_row))]
pub fn carry_out_flow(m: &mut Machine, insn: &Insn, len: u8) -> Result<(), Raised>
    requires flow { IsFlow insn.now }
    requires width { IsTrue (is_width insn.now.width) }
    requires number { IsTrue (has_good_number insn.now.op) }
    ensures { CarriesOut m.old m.new result (flow_row insn.now.op m.old.world insn.now len) }
{
    match insn.op {
        // A step runs Jcc before it comes here.
        Op::Jcc(condition) => run_row(Jcc { condition }, m, insn),
        Op::Jmp => run_row(Jmp, m, insn),
        Op::Call => run_row(Call, m, insn),
        Op::Ret => run_row(Ret, m, insn),
        Op::Push => push_segment(m, insn),
        Op::Pop => pop_segment(m, insn),
        Op::Mov => mov_segment(m, insn),
        Op::Les => load_pointer(m, insn, SegReg::Es),
        Op::Lds => load_pointer(m, insn, SegReg::Ds),
        Op::Loop => run_row(Loop { holds: true }, m, insn),
        Op::Loope => run_row(
            Loop {
                holds: m.registers().flags.zf,
            },
            m,
            insn,
        ),
        Op::Loopne => run_row(
            Loop {
                holds: !m.registers().flags.zf,
            },
            m,
            insn,
        ),
        Op::Jcxz => run_row(Jcxz, m, insn),
        Op::Pushf => pushf(m, insn),
        Op::Popf => popf(m, insn),
        Op::JmpFar => jump_far(m, insn),
        Op::CallFar => call_far(m, insn),
        Op::Retf => retf(m, insn),
        Op::Int => int(insn, len),
        Op::Int3 => int3(len),
        Op::Into => into(m, len),
        Op::Iret => iret(m, insn),
        Op::Bound => bound(m, insn),
        Op::Enter => enter(m, insn),
        Op::Leave => leave(m, insn),
        Op::Cli => cli(m),
        Op::Sti => sti(m),
        Op::In => input(m, insn),
        Op::Out => output(m),
        Op::Lss => load_pointer(m, insn, SegReg::Ss),
        Op::Lfs => load_pointer(m, insn, SegReg::Fs),
        Op::Lgs => load_pointer(m, insn, SegReg::Gs),
        Op::Lar => tell_access_rights(m, insn),
        Op::Lsl => tell_byte_limit(m, insn),
        Op::Verr => verify_readable(m, insn),
        Op::Verw => verify_writable(m, insn),
        Op::Arpl => arpl(m, insn),
        Op::Sldt | Op::Str | Op::Sgdt | Op::Sidt | Op::Smsw => invalid_opcode(),
        Op::Lldt | Op::Ltr => load_table(m),
        Op::Hlt | Op::Ins | Op::Outs | Op::Lgdt | Op::Lidt | Op::Lmsw => privileged(),
        Op::Clts | Op::MovControl | Op::MovDebug | Op::MovTest => privileged(),
        Op::Esc => escape(),
        _ => unreachable!(),
    }
}
