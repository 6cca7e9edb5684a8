// What the instructions of this crate access. Each function has the accesses of the row, or the rows, that its contract names.
ghost use Rattle.std.specs.Prelude.{◌≡◌, ◌<◌, ◌≤◌, ◌+◌, false, MatchOption, MatchResult, IsTrue, None, Some, Bool, ℕ, length};
ghost use Rattle.client_world.specs.{declared.descriptors.Desc.{Desc as ADesc}, Loading.{register_fault, transfer_fault}, Selector.{Row}};
ghost use Rattle.exec_flow.specs.{Dispatch.{IsFlow, flow_row}, EnterAccesses.{and_pushes, frame_input, frame_reads}};
ghost use Rattle.exec_flow.specs.{FarTransfers.{call_far, iret, jump_far, retf}, FlagImages.{popf, pushf}, Frames.{bound, enter, leave}};
ghost use Rattle.exec_flow.specs.{Interrupts.{into}, Pointers.{memory_bytes, pointer}, Ports.{input}, Questions.{arpl}};
ghost use Rattle.exec_flow.specs.{Questions.{load_from_descriptor, verify}, Segments.{load_pointer, mov_from_segment, mov_segment}};
ghost use Rattle.exec_flow.specs.{Segments.{mov_to_segment, pop_into, pop_segment, push_segment}, Transfers.{at_operand_size, call, jcc}};
ghost use Rattle.exec_flow.specs.Transfers.{jcxz, jmp, loop_while, ret, target};
ghost use Rattle.insn_forms.specs.Kinds.{has_good_number, is_width};
ghost use Rattle.insn_plan.specs.{Accesses.{Notes, and_read, with_next_eip, touches}, Act.{IsCount, value_of}};

use crate::frames::{is_less_signed, saved_frame};
use crate::pointers::{offset_range, pointer_offset, pointer_selector, pointer_size};
use crate::questions::{requested_privilege, row_of};
use crate::raising::exception;
use crate::transfers::{at_operand_size, immediate};
use arrayvec::ArrayVec;
use client_world::faults::{BOUNDS_CHECK, GENERAL_PROTECTION, INVALID_OPCODE};
use client_world::{Fault, Mode, SegReg, Touch, low_half};
use guest_space::{Machine, byte_count};
use insn_forms::{Insn, Op, Operand};
use insn_plan::{
    Accesses, MAX_ACCESSES, Raised, check_transfer, condition, cut_address, offset_of,
};

// Whether a transfer may go to an offset of a segment.
fn check_code(a: &Accesses<'_>, sel: u16, off: u32, ret: bool) -> Result<(), Fault>
    ensures { MatchResult result (λ _. transfer_fault a.now.world sel off ret ≡ None)
        (λ fault. transfer_fault a.now.world sel off ret ≡ Some fault) }
{
    check_transfer(a.machine(), sel, off, ret)
}

// Whether a near transfer may go to an instruction pointer.
fn check_near(a: &Accesses<'_>, i: &Insn, ip: u64) -> Result<(), Fault>
    ensures { MatchResult result
        (λ _. transfer_fault a.now.world a.now.world.regs.cs (at_operand_size i.now ip) false ≡ None)
        (λ fault. transfer_fault a.now.world a.now.world.regs.cs (at_operand_size i.now ip) false ≡ Some fault) }
{
    check_code(a, a.regs().cs, at_operand_size(i, ip), false)
}

// Whether a selector may be loaded into a segment register.
fn check_register(a: &Accesses<'_>, seg: SegReg, sel: u16) -> Result<(), Fault>
    ensures { MatchResult result (λ _. register_fault a.now.world seg sel ≡ None)
        (λ fault. register_fault a.now.world seg sel ≡ Some fault) }
{
    a.machine().check_load(seg, sel)
}

// Reads the target of a near transfer, before it is cut.
#[tactic(auto, unfolding(crate::specs::Transfers::target, insn_plan::specs::Act::value_of))]
fn target(a: &mut Accesses<'_>, i: &Insn) -> Result<u64, Raised>
    requires { length a.old.accesses ≡ 0 }
    ensures value { result ≡ value_of a.old.world (target a.old.world i.now i.now.first) }
    ensures noted { a.new ≡ record a.old { accesses = and_read a.old.accesses (target a.old.world i.now i.now.first) } }
    ensures room { length a.new.accesses ≤ 1 }
{
    match &i.first {
        Operand::Imm(distance) => Ok(u64::from(a.regs().eip) + u64::from(*distance)),
        operand => Ok(u64::from(a.operand(i.addr32, i.width, operand)?)),
    }
}

// Reads an operand in memory as a number of n bytes.
#[tactic(auto, unfolding(crate::specs::Pointers::memory_bytes, insn_plan::specs::Act::value_of))]
fn memory_bytes(a: &mut Accesses<'_>, i: &Insn, n: u8, operand: &Operand) -> Result<u64, Raised>
    requires count { IsCount n }
    requires room { length a.old.accesses < 2 }
    ensures value { result ≡ value_of a.old.world (memory_bytes a.old.world i.now n operand.now) }
    ensures noted { a.new ≡ record a.old { accesses = and_read a.old.accesses (memory_bytes a.old.world i.now n operand.now) } }
    ensures room { length a.new.accesses ≤ length a.old.accesses + 1 }
{
    match operand {
        Operand::Mem(f) => {
            let off = offset_of(&a.regs(), i.addr32, f);
            a.read(f.seg, off, n)
        }
        Operand::Reg { .. }
        | Operand::Seg(_)
        | Operand::Imm(_)
        | Operand::Empty
        | Operand::Far(_) => Ok(0),
    }
}

// Reads a far pointer as one number, the offset lowest.
#[tactic(auto, unfolding(crate::specs::Pointers::pointer, insn_plan::specs::Act::value_of))]
fn pointer(a: &mut Accesses<'_>, i: &Insn, operand: &Operand) -> Result<u64, Raised>
    requires { length a.old.accesses ≡ 0 }
    ensures value { result ≡ value_of a.old.world (pointer a.old.world i.now operand.now) }
    ensures noted { a.new ≡ record a.old { accesses = and_read a.old.accesses (pointer a.old.world i.now operand.now) } }
    ensures room { length a.new.accesses ≤ 1 }
{
    match operand {
        Operand::Mem(_) => memory_bytes(a, i, pointer_size(i), operand),
        Operand::Far(p) => Ok(u64::from(p.off) + offset_range(i) * u64::from(p.sel)),
        Operand::Reg { .. } | Operand::Seg(_) | Operand::Imm(_) | Operand::Empty => Ok(0),
    }
}

// Jcc.
#[tactic(auto, unfolding(crate::specs::Transfers::jcc, crate::specs::Transfers::near_transfer, insn_plan::specs::Accesses::accesses_after))]
fn jcc(a: &mut Accesses<'_>, i: &Insn, n: u8) -> Result<(), Raised>
    requires { length a.old.accesses ≡ 0 }
    ensures { Notes a.old a.new result (jcc a.old.world i.now n) }
{
    let ip = target(a, i)?;
    if condition(n, &a.regs().flags) {
        check_near(a, i, ip)?;
    }
    Ok(())
}

// JCXZ.
#[tactic(auto, unfolding(crate::specs::Transfers::jcxz, crate::specs::Transfers::near_transfer, //
insn_plan::specs::Accesses::accesses_after))]
fn jcxz(a: &mut Accesses<'_>, i: &Insn) -> Result<(), Raised>
    requires { length a.old.accesses ≡ 0 }
    ensures { Notes a.old a.new result (jcxz a.old.world i.now) }
{
    let ip = target(a, i)?;
    if cut_address(i.addr32, u64::from(a.regs().ecx)) == 0 {
        check_near(a, i, ip)?;
    }
    Ok(())
}

// LOOP, and LOOPE and LOOPNE with their condition.
#[tactic(auto, unfolding(crate::specs::Transfers::loop_while, crate::specs::Transfers::near_transfer, //
insn_plan::specs::Accesses::accesses_after))]
fn loop_while(a: &mut Accesses<'_>, i: &Insn, holds: bool) -> Result<(), Raised>
    requires { length a.old.accesses ≡ 0 }
    ensures { Notes a.old a.new result (loop_while holds a.old.world i.now) }
{
    let ip = target(a, i)?;
    let count = cut_address(i.addr32, u64::from(a.regs().ecx));
    if holds && cut_address(i.addr32, u64::from(count) + 0xFFFF_FFFF) != 0 {
        check_near(a, i, ip)?;
    }
    Ok(())
}

// JMP.
#[tactic(auto, unfolding(crate::specs::Transfers::jmp, crate::specs::Transfers::near_transfer, insn_plan::specs::Accesses::accesses_after))]
fn jmp(a: &mut Accesses<'_>, i: &Insn) -> Result<(), Raised>
    requires { length a.old.accesses ≡ 0 }
    ensures { Notes a.old a.new result (jmp a.old.world i.now) }
{
    let ip = target(a, i)?;
    check_near(a, i, ip)?;
    Ok(())
}

// CALL.
#[tactic(auto, unfolding(crate::specs::Transfers::call, crate::specs::Transfers::near_transfer, //
insn_plan::specs::Accesses::accesses_after), using(insn_plan::proofs::AccessLists::pushed_accesses))]
fn call(a: &mut Accesses<'_>, i: &Insn) -> Result<(), Raised>
    requires { length a.old.accesses ≡ 0 }
    ensures { Notes a.old a.new result (call a.old.world i.now) }
{
    let ip = target(a, i)?;
    check_near(a, i, ip)?;
    a.push(i.width, a.regs().esp);
    Ok(())
}

// RET.
#[tactic(auto, unfolding(crate::specs::Transfers::ret, crate::specs::Transfers::near_transfer, insn_plan::specs::Accesses::accesses_after))]
fn ret(a: &mut Accesses<'_>, i: &Insn) -> Result<(), Raised>
    requires { length a.old.accesses ≡ 0 }
    ensures { Notes a.old a.new result (ret a.old.world i.now) }
{
    let ip = a.stack_item(i.width, 0)?;
    check_near(a, i, u64::from(ip))?;
    Ok(())
}

// JMP far.
#[tactic(auto, unfolding(crate::specs::FarTransfers::jump_far, crate::specs::FarTransfers::far_transfer, //
insn_plan::specs::Accesses::accesses_after))]
fn jump_far(a: &mut Accesses<'_>, i: &Insn) -> Result<(), Raised>
    requires { length a.old.accesses ≡ 0 }
    ensures { Notes a.old a.new result (jump_far a.old.world i.now) }
{
    let p = pointer(a, i, &i.first)?;
    check_code(a, pointer_selector(i, p), pointer_offset(i, p), false)?;
    Ok(())
}

// CALL far.
#[tactic(auto, unfolding(crate::specs::FarTransfers::call_far, crate::specs::FarTransfers::far_transfer, //
insn_plan::specs::Accesses::accesses_after), using(insn_plan::proofs::AccessLists::pushed_accesses, //
insn_plan::proofs::AccessLists::pushed_esp))]
fn call_far(a: &mut Accesses<'_>, i: &Insn) -> Result<(), Raised>
    requires { length a.old.accesses ≡ 0 }
    ensures { Notes a.old a.new result (call_far a.old.world i.now) }
{
    let p = pointer(a, i, &i.first)?;
    check_code(a, pointer_selector(i, p), pointer_offset(i, p), false)?;
    let esp = a.push(i.width, a.regs().esp);
    a.push(i.width, esp);
    Ok(())
}

// RETF.
#[tactic(auto, unfolding(crate::specs::FarTransfers::retf, crate::specs::FarTransfers::far_frame_pop, //
crate::specs::FarTransfers::far_transfer, insn_plan::specs::Accesses::accesses_after))]
fn retf(a: &mut Accesses<'_>, i: &Insn) -> Result<(), Raised>
    requires { length a.old.accesses ≡ 0 }
    ensures { Notes a.old a.new result (retf a.old.world i.now) }
{
    let ip = a.stack_item(i.width, 0)?;
    let cs = a.stack_item(i.width, 1)?;
    check_code(a, low_half(cs), ip, true)?;
    Ok(())
}

// IRET.
#[tactic(auto, unfolding(crate::specs::FarTransfers::iret, crate::specs::FarTransfers::interrupt_frame_pop, //
crate::specs::FarTransfers::far_transfer, crate::specs::FlagImages::with_popped_flags, insn_plan::specs::Accesses::accesses_after))]
fn iret(a: &mut Accesses<'_>, i: &Insn) -> Result<(), Raised>
    requires { length a.old.accesses ≡ 0 }
    ensures { Notes a.old a.new result (iret a.old.world i.now) }
{
    let ip = a.stack_item(i.width, 0)?;
    let cs = a.stack_item(i.width, 1)?;
    a.stack_item(i.width, 2)?;
    check_code(a, low_half(cs), ip, true)?;
    Ok(())
}

// PUSHF.
#[tactic(auto, unfolding(crate::specs::FlagImages::pushf, insn_plan::specs::Accesses::accesses_after), //
using(insn_plan::proofs::AccessLists::pushed_accesses))]
fn pushf(a: &mut Accesses<'_>, i: &Insn) -> Result<(), Raised>
    requires { length a.old.accesses ≡ 0 }
    ensures { Notes a.old a.new result (pushf a.old.world i.now) }
{
    a.push(i.width, a.regs().esp);
    Ok(())
}

// POPF.
#[tactic(auto, unfolding(crate::specs::FlagImages::popf, crate::specs::FlagImages::with_popped_flags, //
insn_plan::specs::Accesses::accesses_after))]
fn popf(a: &mut Accesses<'_>, i: &Insn) -> Result<(), Raised>
    requires { length a.old.accesses ≡ 0 }
    ensures { Notes a.old a.new result (popf a.old.world i.now) }
{
    a.stack_item(i.width, 0)?;
    Ok(())
}

// INTO.
#[tactic(auto, unfolding(crate::specs::Interrupts::into, insn_plan::specs::Accesses::accesses_after))]
fn into(a: &mut Accesses<'_>, len: u8) -> Result<(), Raised>
    requires { length a.old.accesses ≡ 0 }
    ensures { Notes a.old a.new result (into a.old.world len) }
{
    if a.regs().flags.of {
        Err(Raised::soft(4, len))
    } else {
        Ok(())
    }
}

// IN.
#[tactic(auto, unfolding(crate::specs::Ports::input, insn_plan::specs::Accesses::accesses_after), //
using(insn_plan::proofs::AccessLists::put_accesses))]
fn input(a: &mut Accesses<'_>, i: &Insn) -> Result<(), Raised>
    requires { length a.old.accesses ≡ 0 }
    ensures { Notes a.old a.new result (input a.old.world i.now) }
{
    a.put(i.addr32, i.width, &i.first);
    Ok(())
}

// VERR and VERW.
#[tactic(auto, unfolding(crate::specs::Questions::verify, crate::specs::Raising::in_protected, crate::specs::Raising::invalid_opcode, //
insn_plan::specs::Accesses::accesses_after))]
fn verify(a: &mut Accesses<'_>, i: &Insn) -> Result<(), Raised>
    requires { length a.old.accesses ≡ 0 }
    ensures { (test : Row → Bool) → Notes a.old a.new result (verify test a.old.world i.now) }
{
    if a.machine().mode() == Mode::Real {
        return Err(exception(INVALID_OPCODE));
    }
    a.operand(i.addr32, 16, &i.first)?;
    Ok(())
}

// LAR and LSL.
#[tactic(auto, unfolding(crate::specs::Questions::load_from_descriptor, crate::specs::Raising::in_protected, //
crate::specs::Raising::invalid_opcode, insn_plan::specs::Accesses::accesses_after), using(insn_plan::proofs::AccessLists::put_accesses))]
fn load_from_descriptor(a: &mut Accesses<'_>, i: &Insn) -> Result<(), Raised>
    requires { length a.old.accesses ≡ 0 }
    ensures { (number : ADesc → ℕ) → Notes a.old a.new result (load_from_descriptor number a.old.world i.now) }
{
    if a.machine().mode() == Mode::Real {
        return Err(exception(INVALID_OPCODE));
    }
    let sel = a.operand(i.addr32, 16, &i.second)?;
    if row_of(a.machine(), sel).is_some() {
        a.put(i.addr32, i.width, &i.first);
    }
    Ok(())
}

// ARPL.
#[tactic(auto, unfolding(crate::specs::Questions::arpl, crate::specs::Raising::in_protected, crate::specs::Raising::invalid_opcode, //
insn_plan::specs::Accesses::accesses_after), using(insn_plan::proofs::AccessLists::put_accesses))]
fn arpl(a: &mut Accesses<'_>, i: &Insn) -> Result<(), Raised>
    requires { length a.old.accesses ≡ 0 }
    ensures { Notes a.old a.new result (arpl a.old.world i.now) }
{
    if a.machine().mode() == Mode::Real {
        return Err(exception(INVALID_OPCODE));
    }
    let destination = a.operand(i.addr32, 16, &i.first)?;
    let source = a.operand(i.addr32, 16, &i.second)?;
    if requested_privilege(destination) < requested_privilege(source) {
        a.put(i.addr32, 16, &i.first);
    }
    Ok(())
}

// MOV into a segment register.
#[tactic(auto, unfolding(crate::specs::Segments::mov_to_segment, crate::specs::Segments::with_loaded_segment, //
insn_plan::specs::Accesses::accesses_after))]
fn mov_to_segment(a: &mut Accesses<'_>, i: &Insn, seg: SegReg) -> Result<(), Raised>
    requires { length a.old.accesses ≡ 0 }
    ensures { Notes a.old a.new result (mov_to_segment a.old.world i.now seg) }
{
    let v = a.operand(i.addr32, 16, &i.second)?;
    check_register(a, seg, low_half(v))?;
    Ok(())
}

// MOV from a segment register.
#[tactic(auto, unfolding(crate::specs::Segments::mov_from_segment, insn_plan::specs::Accesses::accesses_after), //
using(insn_plan::proofs::AccessLists::put_accesses))]
fn mov_from_segment(a: &mut Accesses<'_>, i: &Insn) -> Result<(), Raised>
    requires { length a.old.accesses ≡ 0 }
    ensures { Notes a.old a.new result (mov_from_segment a.old.world i.now) }
{
    a.operand(i.addr32, 16, &i.second)?;
    a.put(i.addr32, 16, &i.first);
    Ok(())
}

// MOV with a segment register.
#[tactic(auto, unfolding(crate::specs::Segments::mov_segment, insn_plan::specs::Accesses::accesses_after))]
fn mov_segment(a: &mut Accesses<'_>, i: &Insn) -> Result<(), Raised>
    requires { length a.old.accesses ≡ 0 }
    ensures { Notes a.old a.new result (mov_segment a.old.world i.now) }
{
    match i.first {
        Operand::Seg(seg) => mov_to_segment(a, i, seg),
        Operand::Empty
        | Operand::Reg { .. }
        | Operand::Mem(_)
        | Operand::Imm(_)
        | Operand::Far(_) => mov_from_segment(a, i),
    }
}

// PUSH of a segment register.
#[tactic(auto, unfolding(crate::specs::Segments::push_segment, insn_plan::specs::Accesses::accesses_after), //
using(insn_plan::proofs::AccessLists::pushed_accesses))]
fn push_segment(a: &mut Accesses<'_>, i: &Insn) -> Result<(), Raised>
    requires { length a.old.accesses ≡ 0 }
    ensures { Notes a.old a.new result (push_segment a.old.world i.now) }
{
    a.operand(i.addr32, i.width, &i.first)?;
    a.push(i.width, a.regs().esp);
    Ok(())
}

// POP into a segment register.
#[tactic(auto, unfolding(crate::specs::Segments::pop_into, crate::specs::Segments::with_loaded_segment, //
insn_plan::specs::Accesses::accesses_after))]
fn pop_into(a: &mut Accesses<'_>, i: &Insn, seg: SegReg) -> Result<(), Raised>
    requires { length a.old.accesses ≡ 0 }
    ensures { Notes a.old a.new result (pop_into a.old.world i.now seg) }
{
    let v = a.stack_item(i.width, 0)?;
    check_register(a, seg, low_half(v))?;
    Ok(())
}

// POP of a segment register.
#[tactic(auto, unfolding(crate::specs::Segments::pop_segment, insn_plan::specs::Accesses::accesses_after))]
fn pop_segment(a: &mut Accesses<'_>, i: &Insn) -> Result<(), Raised>
    requires { length a.old.accesses ≡ 0 }
    ensures { Notes a.old a.new result (pop_segment a.old.world i.now) }
{
    match i.first {
        Operand::Seg(seg) => pop_into(a, i, seg),
        Operand::Empty
        | Operand::Reg { .. }
        | Operand::Mem(_)
        | Operand::Imm(_)
        | Operand::Far(_) => Ok(()),
    }
}

// LES, LDS, LSS, LFS, LGS.
#[tactic(auto, unfolding(crate::specs::Segments::load_pointer, crate::specs::Segments::with_loaded_segment, //
insn_plan::specs::Accesses::accesses_after), using(insn_plan::proofs::AccessLists::put_accesses))]
fn load_pointer(a: &mut Accesses<'_>, i: &Insn, seg: SegReg) -> Result<(), Raised>
    requires { length a.old.accesses ≡ 0 }
    ensures { Notes a.old a.new result (load_pointer seg a.old.world i.now) }
{
    let p = pointer(a, i, &i.second)?;
    check_register(a, seg, pointer_selector(i, p))?;
    a.put(i.addr32, i.width, &i.first);
    Ok(())
}

// LEAVE.
#[tactic(auto, unfolding(crate::specs::Frames::leave, insn_plan::specs::Accesses::accesses_after))]
fn leave(a: &mut Accesses<'_>, i: &Insn) -> Result<(), Raised>
    requires { length a.old.accesses ≡ 0 }
    ensures { Notes a.old a.new result (leave a.old.world i.now) }
{
    let frame = cut_address(a.has_big_stack(), u64::from(a.regs().ebp));
    a.read_width(SegReg::Ss, frame, byte_count(i.width))?;
    Ok(())
}

// BOUND.
#[tactic(auto, unfolding(crate::specs::Frames::bound, insn_plan::specs::Accesses::accesses_after))]
fn bound(a: &mut Accesses<'_>, i: &Insn) -> Result<(), Raised>
    requires width { IsTrue (is_width i.now.width) }
    requires start { length a.old.accesses ≡ 0 }
    ensures { Notes a.old a.new result (bound a.old.world i.now) }
{
    let index = u64::from(a.operand(i.addr32, i.width, &i.first)?);
    let pair = memory_bytes(a, i, 2 * byte_count(i.width), &i.second)?;
    let second = pair / (1u64 << i.width);
    if is_less_signed(i.width, index, pair) || is_less_signed(i.width, second, index) {
        Err(exception(BOUNDS_CHECK))
    } else {
        Ok(())
    }
}

// Reads the frame pointer that was saved for a level.
fn read_frame(a: &mut Accesses<'_>, i: &Insn, level: u8) -> Result<u32, Raised>
    requires { length a.old.accesses < 32 }
    ensures value { result ≡ value_of a.old.world (frame_input a.old.world i.now level) }
    ensures noted { a.new ≡ record a.old { accesses = and_read a.old.accesses (frame_input a.old.world i.now level) } }
    ensures room { length a.new.accesses ≡ length a.old.accesses + 1 }
{
    let off = saved_frame(a.regs().ebp, i, level);
    a.read_width(SegReg::Ss, off, byte_count(i.width))
}

// Reads the saved frame pointers of n levels, from level 1 on.
#[tactic(auto, using(crate::proofs::EnterLaws::reads_left, crate::proofs::EnterLaws::reads_done, crate::proofs::EnterLaws::reads_refused))]
fn read_frames(a: &mut Accesses<'_>, i: &Insn, n: u8) -> Result<(), Raised>
    requires few { n < 32 }
    requires start { length a.old.accesses ≡ 0 }
    ensures read { MatchResult result
        (λ _. (a.new.world ≡ a.old.world) × (frame_reads a.old.world i.now 1 n a.old.accesses ≡ Some a.new.accesses))
        (λ e. frame_reads a.old.world i.now 1 n a.old.accesses ≡ None) }
    ensures room { length a.new.accesses ≤ n }
{
    for k in 0..n {
        read_frame(a, i, k + 1)?;
    }
    Ok(())
}

// Pushes n numbers.
#[tactic(auto, using(crate::proofs::EnterLaws::pushes_left, crate::proofs::EnterLaws::pushes_done))]
fn push_times(a: &mut Accesses<'_>, i: &Insn, n: u8)
    requires { length a.old.accesses + n ≤ MAX_ACCESSES }
    ensures { a.new ≡ record a.old { accesses = and_pushes a.old.world i.now.width n a.old.world.regs.esp a.old.accesses } }
{
    let mut esp = a.regs().esp;
    for _ in 0..n {
        esp = a.push(i.width, esp);
    }
}

// ENTER.
#[tactic(auto, using(crate::proofs::EnterLaws::enter_plain, crate::proofs::EnterLaws::enter_read, crate::proofs::EnterLaws::enter_fault))]
fn enter(a: &mut Accesses<'_>, i: &Insn) -> Result<(), Raised>
    requires { length a.old.accesses ≡ 0 }
    ensures { Notes a.old a.new result (enter a.old.world i.now) }
{
    let level = (immediate(&i.second) % 32) as u8;
    if level != 0 {
        read_frames(a, i, level - 1)?;
    }
    push_times(a, i, level + 1);
    Ok(())
}

// Follows an instruction of this crate.
#[tactic(auto, unfolding(crate::specs::Dispatch::is_flow, crate::specs::Dispatch::flow_row, crate::specs::FlagImages::cli, //
crate::specs::FlagImages::sti, crate::specs::Ports::output, crate::specs::Interrupts::int, crate::specs::Interrupts::int3, //
crate::specs::Raising::invalid_opcode, crate::specs::Raising::privileged, crate::specs::Raising::escape, //
crate::specs::Raising::load_table, crate::specs::Raising::in_protected, insn_plan::specs::Accesses::accesses_after))]
fn follow(a: &mut Accesses<'_>, insn: &Insn, len: u8) -> Result<(), Raised>
    requires flow { IsFlow insn.now }
    requires width { IsTrue (is_width insn.now.width) }
    requires start { length a.old.accesses ≡ 0 }
    ensures { Notes a.old a.new result (flow_row insn.now.op a.old.world insn.now len) }
{
    match insn.op {
        Op::Jcc(n) => jcc(a, insn, n),
        Op::Jcxz => jcxz(a, insn),
        Op::Loop => loop_while(a, insn, true),
        Op::Loope => loop_while(a, insn, a.regs().flags.zf),
        Op::Loopne => loop_while(a, insn, !a.regs().flags.zf),
        Op::Jmp => jmp(a, insn),
        Op::Call => call(a, insn),
        Op::Ret => ret(a, insn),
        Op::JmpFar => jump_far(a, insn),
        Op::CallFar => call_far(a, insn),
        Op::Retf => retf(a, insn),
        Op::Iret => iret(a, insn),
        Op::Pushf => pushf(a, insn),
        Op::Popf => popf(a, insn),
        Op::Into => into(a, len),
        Op::In => input(a, insn),
        Op::Push => push_segment(a, insn),
        Op::Pop => pop_segment(a, insn),
        Op::Mov => mov_segment(a, insn),
        Op::Les => load_pointer(a, insn, SegReg::Es),
        Op::Lds => load_pointer(a, insn, SegReg::Ds),
        Op::Lss => load_pointer(a, insn, SegReg::Ss),
        Op::Lfs => load_pointer(a, insn, SegReg::Fs),
        Op::Lgs => load_pointer(a, insn, SegReg::Gs),
        Op::Bound => bound(a, insn),
        Op::Enter => enter(a, insn),
        Op::Leave => leave(a, insn),
        Op::Lar | Op::Lsl => load_from_descriptor(a, insn),
        Op::Verr | Op::Verw => verify(a, insn),
        Op::Arpl => arpl(a, insn),
        Op::Cli | Op::Sti | Op::Out => Ok(()),
        // A software interrupt, and what only raises an exception.
        _ => Err(exception(GENERAL_PROTECTION)),
    }
}

/// The bytes that an instruction of this crate, of `len` bytes, reads and writes, one touch for each access, reads first. The machine is at
/// the instruction. `None` where the instruction faults, also where only a write is refused, or is a software interrupt.
/// Source: 80386 Programmer's Reference Manual, ch. 17, "Operation"; that reads come first is own.
#[tactic(auto, unfolding(insn_plan::specs::Accesses::touches))]
pub fn touches_flow(m: &Machine, insn: &Insn, len: u8) -> Option<ArrayVec<Touch, MAX_ACCESSES>>
    requires flow { IsFlow insn.now }
    requires width { IsTrue (is_width insn.now.width) }
    requires number { IsTrue (has_good_number insn.now.op) }
    ensures { let w = with_next_eip len m.now.world in let found = touches w (flow_row insn.now.op w insn.now len) in
        MatchOption result (found ≡ None) (λ list. found ≡ Some list.items) }
{
    let mut a = Accesses::new(m, len);
    match follow(&mut a, insn, len) {
        Ok(()) => a.touches(),
        Err(_) => None,
    }
}
