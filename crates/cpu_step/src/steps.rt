// The client's next instruction.
ghost use Rattle.std.specs.Prelude.{◌≡◌, ◌+◌, ◌<◌, OnOk};
ghost use Rattle.guest_space.specs.{Registers.{with_registers}, Windows.{IsWindow}};
ghost use Rattle.insn_forms.specs.{Kinds.{IsWellFormed}, Shapes.{HasShape}};
ghost use Rattle.insn_plan.specs.Plan.{CarriesOut, Follows};
ghost use Rattle.cpu_step.specs.{Windows.{IsHandedOn, IsInSegment, learned_answer}, Step.{view_with_next_eip, client_row, client_step}};
ghost use Rattle.cpu_step.specs.Step.{after_instruction, has_big_code, incomplete_fault};

use arrayvec::ArrayVec;
use client_world::faults::{GENERAL_PROTECTION, INVALID_OPCODE};
use client_world::{Event, Fault, SegReg};
use exec_core::carry_out_core;
use exec_flow::{carry_out_flow, carry_out_jcc};
use guest_space::{CodeWindow, Machine};
use insn_decode::{Decoded, Memo, decode};
use insn_forms::{Insn, Op, every_instruction_is_well_formed};
use insn_plan::Raised;

/// Whether operands and addresses have 32 bits where no prefix says otherwise: the code segment has D = 1.
/// Source: 80386 Programmer's Reference Manual, ch. 16, "How the 80386 Implements 16-Bit and 32-Bit Features".
#[inline(always)]
#[tactic(auto, unfolding(crate::specs::Step::has_big_code))]
pub fn has_big_code(m: &Machine) -> bool
    ensures { result ≡ has_big_code m.now.world }
{
    m.is_big(SegReg::Cs)
}

/// Moves EIP past an instruction of `len` bytes, modulo 2^32.
/// Source: 80386 Programmer's Reference Manual, ch. 2, "Instruction Pointer".
#[inline(always)]
pub fn move_past(m: &mut Machine, len: u8)
    ensures { m.new ≡ view_with_next_eip len m.old }
{
    m.set_eip(m.registers().eip.wrapping_add(u32::from(len)));
}

// Runs an instruction of a shape, whose EIP is already after it, by the crate that has it. Only an instruction of exec_flow other than Jcc
// can change CS; where it did, the window is given up.
#[inline(always)]
#[tactic(auto, unfolding(crate::specs::Step::client_row, exec_flow::specs::Dispatch::flow_row), //
using(crate::proofs::CoreOrFlow::flow_where_not_core, crate::proofs::SoundSteps::core_keeps_cs, crate::proofs::SoundSteps::jcc_keeps_cs))]
fn run(
    m: &mut Machine,
    window: &mut CodeWindow,
    insn: &Insn,
    len: u8,
    shape: u16,
) -> Result<(), Raised>
    requires well_formed { IsWellFormed insn.now }
    requires shape { HasShape shape insn.now }
    requires segment { IsInSegment m.old window.old }
    ensures carried { CarriesOut m.old m.new result (client_row m.old.world insn.now len) }
    ensures handed_on { IsHandedOn window.old window.new }
    ensures segment { OnOk result (IsInSegment m.new window.new) }
{
    m.soundness();
    if let Some(result) = carry_out_core(m, insn, len, shape) {
        return result;
    }
    if let Op::Jcc(condition) = insn.op {
        return carry_out_jcc(m, insn, condition);
    }
    let result = carry_out_flow(m, insn, len);
    if m.registers().cs != window.cs {
        *window = CodeWindow::NONE;
    }
    result
}

// Puts the instruction pointer back for an event. Out of line, it leaves the way without one to ask for the answer once.
#[cold]
#[inline(never)]
fn put_back(m: &mut Machine, start: u32, raised: Raised) -> Raised
    ensures machine { m.new ≡ with_registers (record m.old.world.regs { eip = start }) m.old }
    ensures event { result ≡ raised }
{
    m.set_eip(start);
    raised
}

// Executes an instruction of `len` bytes and a shape; an event leaves the machine as it was, EIP too.
#[inline(always)]
#[tactic(auto, unfolding(crate::specs::Step::after_instruction))]
fn execute(
    m: &mut Machine,
    window: &mut CodeWindow,
    insn: &Insn,
    len: u8,
    shape: u16,
) -> Result<(), Raised>
    requires well_formed { IsWellFormed insn.now }
    requires shape { HasShape shape insn.now }
    requires segment { IsInSegment m.old window.old }
    ensures executed { Follows m.old m.new result (after_instruction m.old insn.now len) }
    ensures handed_on { IsHandedOn window.old window.new }
    ensures segment { OnOk result (IsInSegment m.new window.new) }
{
    let start = m.registers().eip;
    move_past(m, len);
    match run(m, window, insn, len, shape) {
        Ok(()) => Ok(()),
        Err(raised) => Err(put_back(m, start, raised)),
    }
}

// The fault where the code bytes are only the first ones of an instruction.
fn incomplete_fault(m: &Machine, bytes: &ArrayVec<u8, 15>) -> Fault
    ensures { result ≡ incomplete_fault m.now.world bytes.now.items }
{
    let too_long = Fault {
        number: GENERAL_PROTECTION,
        code: 0,
    };
    if bytes.is_full() {
        return too_long;
    }
    match m.fetch(bytes.len() as u8) {
        Ok(_) => too_long,
        Err(fault) => fault,
    }
}

/// Makes the client's next instruction, or gives its event in one word, which leaves the machine as it was. The page of its code is noted
/// before its bytes are fetched.
/// Source: 80386 Programmer's Reference Manual, ch. 9, "Exception 6" and "Exception 13", and ch. 17.
#[inline(never)]
#[tactic(auto, unfolding(crate::specs::Step::client_step))]
pub fn step_raised(m: &mut Machine) -> Result<(), Raised>
    ensures { Follows m.old m.new result (client_step m.old) }
{
    m.warm(SegReg::Cs, m.registers().eip);
    let code = m.code();
    match decode(&code, has_big_code(m)) {
        Decoded::Whole(insn, len) => {
            every_instruction_is_well_formed();
            let mut window = CodeWindow::NONE;
            execute(m, &mut window, &insn, len, insn.shape())
        }
        Decoded::Invalid => Err(Raised::from(Fault {
            number: INVALID_OPCODE,
            code: 0,
        })),
        Decoded::More => Err(Raised::from(incomplete_fault(m, &code))),
    }
}

/// Makes the client's next instruction, or gives its event, which leaves the machine as it was. `step_raised`, with the event's parts.
/// Source: 80386 Programmer's Reference Manual, ch. 9, "Exception 6" and "Exception 13", and ch. 17.
pub fn step(m: &mut Machine) -> Result<(), Event>
    ensures { Follows m.old m.new result (client_step m.old) }
{
    match step_raised(m) {
        Ok(()) => Ok(()),
        Err(raised) => Err(raised.event()),
    }
}

/// The window of code that has CS:EIP, whose page is noted, where a quick look shows it; one without starts says nothing. Source: own.
#[inline(always)]
pub fn find_window(m: &mut Machine) -> CodeWindow
    ensures kept { m.new ≡ m.old }
    ensures window { 0 < result.starts → IsWindow m.new result }
{
    m.warm(SegReg::Cs, m.registers().eip);
    m.code_window()
}

// What comes of an instruction that the memo lacks. The event is the first variant, and in the `Result` of `execute` the second: where both
// had one order, the compiler would merge the two and test what comes of it twice.
enum Learned {
    Event(Raised),
    Done,
}

// The answer of a step, as what comes of an instruction that the memo lacks.
fn as_learned(answer: Result<(), Raised>) -> Learned
    ensures { learned_answer result ≡ answer }
{
    match answer {
        Ok(()) => Learned::Done,
        Err(raised) => Learned::Event(raised),
    }
}

// Makes the instruction at that start of a window, where the memo lacks it or it has more than 8 bytes.
#[inline(never)]
fn step_of_unknown(m: &mut Machine, memo: &mut Memo, window: &mut CodeWindow, from: u32) -> Learned
    requires window { IsWindow m.old window.old }
    requires start { from < window.old.starts }
    requires here { window.old.first + from ≡ m.old.world.regs.eip }
    ensures step { Follows m.old m.new (learned_answer result) (client_step m.old) }
    ensures handed_on { IsHandedOn window.old window.new }
    ensures segment { OnOk (learned_answer result) (IsInSegment m.new window.new) }
{
    let words = m.words_in(window, from);
    match memo.learn(window.place + from, words) {
        Some(entry) => as_learned(execute(m, window, &entry.insn, entry.len, entry.shape)),
        None => {
            *window = CodeWindow::NONE;
            as_learned(step_raised(m))
        }
    }
}

/// Makes the client's next instruction as `step_raised` does, with a memo of the instructions that were decoded before. The instruction is
/// known to lie in a window of code, at that start of it. An event leaves the machine as it was. Otherwise the window is unchanged and
/// still one of the machine's, or it has no starts; where CS has changed it has none.
/// Source: 80386 Programmer's Reference Manual, ch. 9, "Exception 6" and "Exception 13", and ch. 17; window and memo are own.
#[inline(always)]
pub fn step_in_window(
    m: &mut Machine,
    memo: &mut Memo,
    window: &mut CodeWindow,
    from: u32,
) -> Result<(), Raised>
    requires window { IsWindow m.old window.old }
    requires start { from < window.old.starts }
    requires here { window.old.first + from ≡ m.old.world.regs.eip }
    ensures step { Follows m.old m.new result (client_step m.old) }
    ensures handed_on { IsHandedOn window.old window.new }
    ensures window { OnOk result (0 < window.new.starts → IsWindow m.new window.new) }
{
    m.holds_world();
    let low = m.words_in(window, from).low;
    match memo.known(window.place + from, low) {
        Some(entry) => execute(m, window, &entry.insn, entry.len, entry.shape),
        None => match step_of_unknown(m, memo, window, from) {
            Learned::Event(raised) => Err(raised),
            Learned::Done => Ok(()),
        },
    }
}
