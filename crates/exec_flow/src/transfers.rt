// Near transfers.
#![tactic(auto, unfolding(crate::specs::Transfers::target, insn_plan::specs::Act::value_of, crate::specs::Transfers::jcc, //
crate::specs::Transfers::near_transfer, crate::specs::Transfers::jcxz, crate::specs::Transfers::loop_while, //
client_world::specs::General::with_general, crate::specs::Transfers::jmp, crate::specs::Transfers::ret, //
insn_plan::specs::Stack::regs_after_pops, insn_plan::specs::Plan::after_plan, insn_plan::specs::Plan::after_commit, //
guest_space::specs::Pending::first_write_fault, guest_space::specs::Pending::after_writes))]

ghost use Rattle.std.specs.Prelude.{◌≡◌, IfErr, OnOk, false};
ghost use Rattle.client_world.specs.Loading.{transfer_fault};
ghost use Rattle.exec_flow.specs.Transfers.{at_operand_size, call, immediate, jcc, jcxz, jmp, loop_while, ret, target};
ghost use Rattle.guest_space.specs.Registers.{with_registers};
ghost use Rattle.insn_plan.specs.{Act.{value_of}, Looks.{CarriesOutBy, Clears, Shows}, Stack.{has_big_stack}};

use client_world::general::{ECX, ESP};
use guest_space::{Machine, byte_count};
use insn_forms::{Insn, Operand};
use insn_plan::{
    InsnRow, Look, condition, counter, cut_address, esp_up, look_at_size, look_at_top_of,
    push_number, with_address,
};

// The target of a near transfer, before it is cut.
#[inline(always)]
fn target<L: Look>(m: &mut Machine, i: &Insn) -> Result<u64, L::Missed>
    ensures value { Shows L.reported result (value_of m.old.world (target m.old.world i.now i.now.first)) }
    ensures kept { m.new ≡ m.old }
{
    match &i.first {
        Operand::Imm(distance) => Ok(u64::from(m.registers().eip) + u64::from(*distance)),
        operand => Ok(u64::from(L::source(m, i.addr32, i.width, operand)?)),
    }
}

/// An instruction pointer at the operand size.
#[inline(always)]
pub(crate) fn at_operand_size(i: &Insn, ip: u64) -> u32
    ensures { result ≡ at_operand_size i.now ip }
{
    if i.width == 16 {
        (ip % 0x1_0000) as u32
    } else {
        (ip % 0x1_0000_0000) as u32
    }
}

// The near transfer itself; where the look misses, nothing is changed.
#[inline(always)]
fn near_transfer<L: Look>(m: &mut Machine, i: &Insn, ip: u64) -> Result<(), L::Missed>
    ensures allowed { Clears L.reported result (transfer_fault m.old.world m.old.world.regs.cs (at_operand_size i.now ip) false) }
    ensures moved { OnOk result (m.new ≡ with_registers (record m.old.world.regs { eip = at_operand_size i.now ip }) m.old) }
    ensures kept { IfErr result (λ _. m.new ≡ m.old) }
{
    let eip = at_operand_size(i, ip);
    L::check_near(m, eip)?;
    m.set_eip(eip);
    Ok(())
}

/// Jcc. Source: 80386 Programmer's Reference Manual, ch. 17.
#[derive(Clone, Copy)]
pub(crate) struct Jcc {
    pub condition: u8,
}

impl InsnRow for Jcc {
    ghost plan = { λ row w i. jcc w i row.condition };

    #[inline(always)]
    fn carry_out<L: Look>(self, m: &mut Machine, i: &Insn) -> Result<(), L::Missed> {
        let ip = target::<L>(m, i)?;
        if condition(self.condition, &m.registers().flags) {
            near_transfer::<L>(m, i, ip)?;
        }
        Ok(())
    }
}

/// JCXZ. Source: 80386 Programmer's Reference Manual, ch. 17.
#[derive(Clone, Copy)]
pub(crate) struct Jcxz;

impl InsnRow for Jcxz {
    ghost plan = { λ row w i. jcxz w i };

    #[inline(always)]
    fn carry_out<L: Look>(self, m: &mut Machine, i: &Insn) -> Result<(), L::Missed> {
        let ip = target::<L>(m, i)?;
        if counter(m, i) == 0 {
            near_transfer::<L>(m, i, ip)?;
        }
        Ok(())
    }
}

// The row of LOOP at an address size.
#[inline(always)]
fn loop_at<L: Look>(holds: bool, m: &mut Machine, i: &Insn, addr32: bool) -> Result<(), L::Missed>
    requires { i.now.addr32 ≡ addr32 }
    ensures { CarriesOutBy L.reported m.old m.new result (loop_while holds m.old.world i.now) }
{
    let ip = target::<L>(m, i)?;
    let count = cut_address(addr32, u64::from(m.registers().ecx) + 0xFFFF_FFFF);
    if holds && count != 0 {
        near_transfer::<L>(m, i, ip)?;
    }
    m.set_general(ECX, with_address(addr32, m.registers().ecx, count));
    Ok(())
}

/// LOOP, and LOOPE and LOOPNE with whether their condition holds. Source: 80386 Programmer's Reference Manual, ch. 17.
#[derive(Clone, Copy)]
pub(crate) struct Loop {
    pub holds: bool,
}

impl InsnRow for Loop {
    ghost plan = { λ row w i. loop_while row.holds w i };

    #[inline(always)]
    fn carry_out<L: Look>(self, m: &mut Machine, i: &Insn) -> Result<(), L::Missed> {
        if i.addr32 {
            loop_at::<L>(self.holds, m, i, true)
        } else {
            loop_at::<L>(self.holds, m, i, false)
        }
    }
}

/// JMP. Source: 80386 Programmer's Reference Manual, ch. 17.
#[derive(Clone, Copy)]
pub(crate) struct Jmp;

impl InsnRow for Jmp {
    ghost plan = { λ row w i. jmp w i };

    #[inline(always)]
    fn carry_out<L: Look>(self, m: &mut Machine, i: &Insn) -> Result<(), L::Missed> {
        let ip = target::<L>(m, i)?;
        near_transfer::<L>(m, i, ip)?;
        Ok(())
    }
}

// The row of CALL at a width.
#[inline(always)]
#[tactic(auto, unfolding(crate::specs::Transfers::call, crate::specs::Transfers::near_transfer, insn_plan::specs::Plan::after_plan), //
using(insn_plan::proofs::WrittenState::settled_with, insn_plan::proofs::WrittenState::refused_with))]
fn call_at<L: Look>(m: &mut Machine, i: &Insn, width: u8) -> Result<(), L::Missed>
    requires { i.now.width ≡ width }
    ensures { CarriesOutBy L.reported m.old m.new result (call m.old.world i.now) }
{
    let ip = target::<L>(m, i)?;
    let eip = at_operand_size(i, ip);
    L::check_near(m, eip)?;
    push_number::<L>(m, width, m.registers().eip)?;
    m.set_eip(eip);
    Ok(())
}

/// CALL. Source: 80386 Programmer's Reference Manual, ch. 17.
#[derive(Clone, Copy)]
pub(crate) struct Call;

impl InsnRow for Call {
    ghost plan = { λ row w i. call w i };

    #[inline(always)]
    fn carry_out<L: Look>(self, m: &mut Machine, i: &Insn) -> Result<(), L::Missed> {
        match i.width {
            16 => call_at::<L>(m, i, 16),
            32 => call_at::<L>(m, i, 32),
            width => {
                L::rare()?;
                call_at::<L>(m, i, width)
            }
        }
    }
}

/// The number of an immediate.
#[inline(always)]
pub(crate) fn immediate(operand: &Operand) -> u32
    ensures { result ≡ immediate operand.now }
{
    match operand {
        Operand::Imm(v) => *v,
        _ => 0,
    }
}

// The row of RET at a width, where `big` says that the stack pointer is ESP.
#[inline(always)]
fn ret_at<L: Look>(m: &mut Machine, i: &Insn, width: u8, big: bool) -> Result<(), L::Missed>
    requires same { i.now.width ≡ width }
    requires stack { big ≡ has_big_stack m.old.world }
    ensures { CarriesOutBy L.reported m.old m.new result (ret m.old.world i.now) }
{
    let ip = look_at_top_of::<L>(m, big, width)?;
    near_transfer::<L>(m, i, u64::from(ip))?;
    let popped = esp_up(big, u32::from(byte_count(width)), m.registers().esp);
    m.set_general(ESP, esp_up(big, immediate(&i.first), popped));
    Ok(())
}

/// RET. Source: 80386 Programmer's Reference Manual, ch. 17.
#[derive(Clone, Copy)]
pub(crate) struct Ret;

impl InsnRow for Ret {
    ghost plan = { λ row w i. ret w i };

    #[inline(always)]
    fn carry_out<L: Look>(self, m: &mut Machine, i: &Insn) -> Result<(), L::Missed> {
        match (i.width, look_at_size::<L>(m)?) {
            (16, false) => ret_at::<L>(m, i, 16, false),
            (16, true) => ret_at::<L>(m, i, 16, true),
            (32, false) => ret_at::<L>(m, i, 32, false),
            (32, true) => ret_at::<L>(m, i, 32, true),
            (width, big) => {
                L::rare()?;
                ret_at::<L>(m, i, width, big)
            }
        }
    }
}
