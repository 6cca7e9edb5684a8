// Stack frames of procedures, and array bounds.
#![tactic(auto, unfolding(crate::specs::Frames::with_new_frame, crate::specs::Frames::enter, crate::specs::Frames::leave, //
client_world::specs::General::with_general, insn_plan::specs::Stack::regs_after_pops, crate::specs::Frames::bound, //
insn_plan::specs::Plan::after_plan, insn_plan::specs::Plan::after_commit, guest_space::specs::Pending::first_write_fault, //
guest_space::specs::Pending::after_writes))]

ghost use Rattle.std.specs.Prelude.{◌≡◌, ◌+◌, ◌-◌, ◌*◌, ◌<◌, ◌≤◌, ◌^◌, length, IsTrue, MatchResult, Err};
ghost use Rattle.cpu_values.specs.Word.{cut};
ghost use Rattle.exec_flow.specs.Frames.{saved_frame, push_saved_frames, with_new_frame, enter, leave, is_less_signed, bound};
ghost use Rattle.exec_flow.specs.Transfers.{at_operand_size};
ghost use Rattle.client_world.specs.declared.segments.SegReg.TheVariants.{Ss};
ghost use Rattle.guest_space.specs.Pending.{byte_count};
ghost use Rattle.insn_forms.specs.Kinds.{is_width};
ghost use Rattle.insn_plan.specs.{Act.{Act, From, Pending, unchanged, value_of}, Plan.{CarriesOut, Leaves, plan_result}};
ghost use Rattle.insn_plan.specs.declared.next.TheConstants.{MAX_WRITES};

use crate::pointers::memory_bytes;
use crate::raising::exception;
use crate::transfers::{at_operand_size, immediate};
use client_world::SegReg;
use client_world::faults::BOUNDS_CHECK;
use client_world::general::{EBP, ESP};
use guest_space::{Machine, byte_count};
use insn_forms::Insn;
use insn_plan::{
    Next, Raised, cut_address, esp_up, has_big_stack, number_at, put_register, read_width,
    register, set_register, source, stack_pointer, with_address,
};

/// Where the frame pointer of a level was saved: that many items below (E)BP.
pub(crate) fn saved_frame(ebp: u32, i: &Insn, level: u8) -> u32
    ensures { result ≡ at_operand_size i.now (ebp + 2 ^ 32 - level * byte_count i.now.width) }
{
    let below = u64::from(level) * u64::from(byte_count(i.width));
    at_operand_size(i, u64::from(ebp) + 0x1_0000_0000 - below)
}

// Reads the frame pointer that was saved for a level, or gives the fault of the access.
fn read_frame(m: &Machine, i: &Insn, level: u8) -> Result<u32, Raised>
    ensures { result
        ≡ value_of m.now.world (From Ss (saved_frame m.now.world i.now level) (byte_count i.now.width)) }
{
    let at = saved_frame(m.registers().ebp, i, level);
    number_at(m, SegReg::Ss, at, byte_count(i.width))
}

// Reads and pushes the saved frame pointers of n levels, from level 1 on, or gives the fault of a read.
fn push_frames(m: &Machine, i: &Insn, n: u8, next: &mut Next) -> Result<(), Raised>
    requires writes { length next.old.writes + n < MAX_WRITES }
    ensures pushed { MatchResult result
        (λ _. (rest : Pending → Act) →
        plan_result m.now.world (push_saved_frames m.now.world i.now 1 n next.old rest)
        ≡ plan_result m.now.world (rest next.new))
        (λ e. (rest : Pending → Act) →
        plan_result m.now.world (push_saved_frames m.now.world i.now 1 n next.old rest) ≡ Err e) }
    ensures room { length next.new.writes ≤ length next.old.writes + n }
{
    for k in 0..n {
        let v = read_frame(m, i, k + 1)?;
        next.push(m, i.width, v);
    }
    Ok(())
}

// Makes (E)BP the frame's place, and moves (E)SP down by the room for variables.
fn make_frame(m: &Machine, i: &Insn, frame: u32, next: &mut Next)
    ensures { next.new ≡ with_new_frame m.now.world i.now frame next.old }
{
    let mut r = next.regs();
    let room = u64::from(immediate(&i.first) % 0x1_0000);
    let top = u64::from(stack_pointer(m, &r)) + 0x1_0000_0000 - room;
    let big = has_big_stack(m);
    r.esp = with_address(big, r.esp, cut_address(big, top));
    set_register(&mut r, i.width, EBP, frame);
    next.set_regs(r);
}

// What ENTER leaves, before anything is written.
fn plan_enter(m: &Machine, i: &Insn, next: &mut Next) -> Result<(), Raised>
    requires { next.old ≡ unchanged m.now.world }
    ensures { Leaves next.new result (plan_result m.now.world (enter m.now.world i.now)) }
{
    next.push(m, i.width, register(m.registers(), i.width, EBP));
    let frame = stack_pointer(m, &next.regs());
    let level = (immediate(&i.second) % 32) as u8;
    if level != 0 {
        push_frames(m, i, level - 1, next)?;
        next.push(m, i.width, frame);
    }
    make_frame(m, i, frame, next);
    Ok(())
}

/// ENTER. Source: 80386 Programmer's Reference Manual, ch. 17; that it reads before it writes is own.
#[inline(never)]
#[tactic(auto, using(insn_plan::proofs::WrittenState::carried_by, insn_plan::proofs::WrittenState::carried_event))]
pub(crate) fn enter(m: &mut Machine, i: &Insn) -> Result<(), Raised>
    ensures { CarriesOut m.old m.new result (enter m.old.world i.now) }
{
    let mut next = Next::new(m);
    plan_enter(m, i, &mut next)?;
    next.settle(m)
}

/// LEAVE. Source: 80386 Programmer's Reference Manual, ch. 17.
#[inline(never)]
pub(crate) fn leave(m: &mut Machine, i: &Insn) -> Result<(), Raised>
    ensures { CarriesOut m.old m.new result (leave m.old.world i.now) }
{
    let big = has_big_stack(m);
    let frame = cut_address(big, u64::from(m.registers().ebp));
    let count = byte_count(i.width);
    let bp = read_width(m, SegReg::Ss, frame, i.width)?;
    let at_frame = with_address(big, m.registers().esp, frame);
    m.set_general(ESP, esp_up(big, u32::from(count), at_frame));
    put_register(m, i.width, EBP, bp);
    Ok(())
}

// The rank of a number of a width in two's complement: that of the least one is 0.
fn rank(width: u8, a: u64) -> u64
    requires { IsTrue (is_width width) }
    ensures { result ≡ cut width (a + 2 ^ (width - 1)) }
{
    match width {
        8 => (a % 0x100 + 0x80) % 0x100,
        16 => (a % 0x1_0000 + 0x8000) % 0x1_0000,
        _ => (a % 0x1_0000_0000 + 0x8000_0000) % 0x1_0000_0000,
    }
}

/// Whether a number of a width is less than another in two's complement.
pub(crate) fn is_less_signed(width: u8, a: u64, b: u64) -> bool
    requires { IsTrue (is_width width) }
    ensures { result ≡ is_less_signed width a b }
{
    rank(width, a) < rank(width, b)
}

/// BOUND. Source: 80386 Programmer's Reference Manual, ch. 17; that the pair is one access is own.
#[inline(never)]
pub(crate) fn bound(m: &mut Machine, i: &Insn) -> Result<(), Raised>
    requires { IsTrue (is_width i.now.width) }
    ensures { CarriesOut m.old m.new result (bound m.old.world i.now) }
{
    let index = u64::from(source(m, i.addr32, i.width, &i.first)?);
    let pair = memory_bytes(m, i, 2 * byte_count(i.width), &i.second)?;
    let second = pair / (1u64 << i.width);
    if is_less_signed(i.width, index, pair) || is_less_signed(i.width, second, index) {
        Err(exception(BOUNDS_CHECK))
    } else {
        Ok(())
    }
}
