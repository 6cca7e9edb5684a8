// Strings. One step is one element.
#![tactic(auto, unfolding(client_world::specs::General::with_general, crate::specs::Strings::movs, crate::specs::Strings::cmps, //
crate::specs::Strings::stos, crate::specs::Strings::lods, insn_plan::specs::Registers::with_register, crate::specs::Strings::scas, //
insn_plan::specs::Plan::after_plan, insn_plan::specs::Plan::after_commit, guest_space::specs::Pending::first_write_fault, //
guest_space::specs::Pending::after_writes, cpu_alu::specs::Sums::sub_of))]

ghost use Rattle.std.specs.Prelude.{◌≡◌, ◌-◌, IsTrue, false, nat_eq};
ghost use Rattle.exec_core.specs.Strings.{is_repeated, is_over, element_distance, moved_address, with_source_next, with_destination_next};
ghost use Rattle.exec_core.specs.Strings.{repeated, goes_on_while, movs, cmps, stos, lods, scas};
ghost use Rattle.insn_forms.specs.Kinds.{is_width};
ghost use Rattle.guest_space.specs.Registers.{with_registers};
ghost use Rattle.insn_plan.specs.{Counter.{counter}, Looks.{CarriesOutBy}, Registers.{cut_address}};

use crate::arithmetic::{difference_flags, flags_of};
use client_world::general::{EAX, ECX, EDI, ESI};
use client_world::{Flags, SegReg};
use guest_space::{Machine, byte_count};
use insn_forms::{Insn, Rep};
use insn_plan::{InsnRow, Look, cut_address, put_register, register, with_address};

// A row for elements of W bits, with addresses of 32 bits where A is true: both are then constants for the compiler.
macro_rules! at_size {
    ($row:ident, $look:ident, $m:ident, $i:ident, $len:expr) => {
        match ($i.width, $i.addr32) {
            (8, false) => $row::<8, false, $look>($m, $i, $len),
            (8, true) => $row::<8, true, $look>($m, $i, $len),
            (16, false) => $row::<16, false, $look>($m, $i, $len),
            (16, true) => $row::<16, true, $look>($m, $i, $len),
            (_, false) => $row::<32, false, $look>($m, $i, $len),
            (_, true) => $row::<32, true, $look>($m, $i, $len),
        }
    };
}

// Whether there is a repeat prefix.
#[inline(always)]
fn is_repeated(rep: Rep) -> bool
    ensures { result ≡ is_repeated rep }
{
    match rep {
        Rep::Plain => false,
        Rep::Rep | Rep::Repne => true,
    }
}

// Whether there is nothing to do: a counter of 0 under a repeat prefix.
#[inline(always)]
fn is_over(m: &Machine, i: &Insn, addr32: bool) -> bool
    requires { addr32 ≡ i.now.addr32 }
    ensures { result ≡ is_over m.now.world i.now }
{
    is_repeated(i.rep) && cut_address(addr32, u64::from(m.registers().ecx)) == 0
}

// How far a string register moves, modulo 2^32: by the bytes of the element, or back by them where DF is set.
#[inline(always)]
fn element_distance(m: &Machine, i: &Insn, width: u8) -> u32
    requires { width ≡ i.now.width }
    ensures { result ≡ element_distance m.now.world i.now }
{
    let size = u32::from(byte_count(width));
    if m.registers().flags.df {
        u32::MAX - size + 1
    } else {
        size
    }
}

// A string register after the element, or before it where DF is set.
#[inline(always)]
fn next_element(addr32: bool, at: u32, distance: u32) -> u32
    ensures { result ≡ moved_address addr32 at distance }
{
    let moved = u64::from(at) + u64::from(distance);
    with_address(addr32, at, cut_address(addr32, moved))
}

// The offset of the element at (E)SI.
#[inline(always)]
fn source_offset(m: &Machine, addr32: bool) -> u32
    ensures { result ≡ cut_address addr32 m.now.world.regs.esi }
{
    cut_address(addr32, u64::from(m.registers().esi))
}

// The offset of the element at ES:(E)DI.
#[inline(always)]
fn destination_offset(m: &Machine, addr32: bool) -> u32
    ensures { result ≡ cut_address addr32 m.now.world.regs.edi }
{
    cut_address(addr32, u64::from(m.registers().edi))
}

// Moves (E)SI to the next element.
#[inline(always)]
fn move_source(m: &mut Machine, i: &Insn, width: u8, addr32: bool)
    requires width { width ≡ i.now.width }
    requires size { addr32 ≡ i.now.addr32 }
    ensures { m.new ≡ with_registers (with_source_next m.old.world i.now m.old.world.regs) m.old }
{
    let esi = next_element(addr32, m.registers().esi, element_distance(m, i, width));
    m.set_general(ESI, esi);
}

// Moves (E)DI to the next element.
#[inline(always)]
fn move_destination(m: &mut Machine, i: &Insn, width: u8, addr32: bool)
    requires width { width ≡ i.now.width }
    requires size { addr32 ≡ i.now.addr32 }
    ensures { m.new ≡ with_registers (with_destination_next m.old.world i.now m.old.world.regs) m.old }
{
    let edi = next_element(addr32, m.registers().edi, element_distance(m, i, width));
    m.set_general(EDI, edi);
}

// The counter after an element of a repetition that isn't over.
#[inline(always)]
#[tactic(auto, using(crate::proofs::Elements::counted))]
fn counter_left(m: &Machine, i: &Insn, addr32: bool) -> u32
    requires size { addr32 ≡ i.now.addr32 }
    requires some { nat_eq (counter m.now.world i.now) 0 ≡ false }
    ensures left { result ≡ counter m.now.world i.now - 1 }
    ensures last { nat_eq result 0 ≡ nat_eq (counter m.now.world i.now) 1 }
{
    cut_address(addr32, u64::from(m.registers().ecx) + 0xFFFF_FFFF)
}

// Counts an element under a repeat prefix: the counter goes down, and while there are more the instruction pointer goes back.
#[inline(always)]
fn count_element(m: &mut Machine, i: &Insn, addr32: bool, len: u8, goes_on: bool)
    requires size { addr32 ≡ i.now.addr32 }
    requires some { is_over m.old.world i.now ≡ false }
    ensures { m.new ≡ with_registers (repeated m.old.world i.now len goes_on m.old.world.regs) m.old }
{
    if is_repeated(i.rep) {
        let left = counter_left(m, i, addr32);
        m.set_general(ECX, with_address(addr32, m.registers().ecx, left));
        if goes_on && left != 0 {
            let eip = u64::from(m.registers().eip) + 0x1_0000_0000 - u64::from(len);
            m.set_eip((eip % 0x1_0000_0000) as u32);
        }
    }
}

// Moves (E)SI and (E)DI past the element, and counts it. The count comes between the two, since otherwise the compiler changes both as one
// vector, in more instructions.
#[inline(always)]
#[tactic(auto, using(crate::proofs::Elements::counted_between))]
fn pass_element(m: &mut Machine, i: &Insn, width: u8, addr32: bool, len: u8, goes_on: bool)
    requires width { width ≡ i.now.width }
    requires size { addr32 ≡ i.now.addr32 }
    requires some { is_over m.old.world i.now ≡ false }
    ensures { let w = m.old.world in
        m.new ≡ with_registers (repeated w i.now len goes_on (with_source_next w i.now (with_destination_next w i.now w.regs))) m.old }
{
    move_source(m, i, width, addr32);
    count_element(m, i, addr32, len, goes_on);
    move_destination(m, i, width, addr32);
}

// Whether CMPS and SCAS go on: while ZF is set (F3), or clear (F2).
#[inline(always)]
fn goes_on_while(rep: Rep, f: Flags) -> bool
    ensures { result ≡ goes_on_while rep f }
{
    match rep {
        Rep::Plain => false,
        Rep::Rep => f.zf,
        Rep::Repne => !f.zf,
    }
}

// The row of MOVS at a width and an address size.
#[inline(always)]
fn movs_at<const W: u8, const A: bool, L: Look>(
    m: &mut Machine,
    i: &Insn,
    len: u8,
) -> Result<(), L::Missed>
    requires width { W ≡ i.now.width }
    requires size { A ≡ i.now.addr32 }
    ensures { CarriesOutBy L.reported m.old m.new result (movs m.old.world i.now len) }
{
    if is_over(m, i, A) {
        return Ok(());
    }
    let from = source_offset(m, A);
    let v = L::read(m, i.seg, from, W)?;
    let to = destination_offset(m, A);
    L::write(m, SegReg::Es, to, W, v)?;
    pass_element(m, i, W, A, len, true);
    Ok(())
}

/// MOVS: the element at ES:(E)DI becomes the one at (E)SI.
/// Source: 80386 Programmer's Reference Manual, ch. 17, "MOVS/MOVSB/MOVSW/MOVSD"; that a repetition is a step is own.
#[derive(Clone, Copy)]
pub(crate) struct Movs {
    pub len: u8,
}

impl InsnRow for Movs {
    ghost plan = { λ row w i. movs w i row.len };

    #[inline(always)]
    fn carry_out<L: Look>(self, m: &mut Machine, i: &Insn) -> Result<(), L::Missed> {
        at_size!(movs_at, L, m, i, self.len)
    }
}

// The row of CMPS at a width and an address size.
#[inline(always)]
fn cmps_at<const W: u8, const A: bool, L: Look>(
    m: &mut Machine,
    i: &Insn,
    len: u8,
) -> Result<(), L::Missed>
    requires good { IsTrue (is_width i.now.width) }
    requires width { W ≡ i.now.width }
    requires size { A ≡ i.now.addr32 }
    ensures { CarriesOutBy L.reported m.old m.new result (cmps m.old.world i.now len) }
{
    if is_over(m, i, A) {
        return Ok(());
    }
    let first = source_offset(m, A);
    let a = L::read(m, i.seg, first, W)?;
    let second = destination_offset(m, A);
    let b = L::read(m, SegReg::Es, second, W)?;
    let flags = difference_flags(W, a, b, flags_of(m));
    m.set_flags(flags);
    pass_element(m, i, W, A, len, goes_on_while(i.rep, flags));
    Ok(())
}

/// CMPS: the flags of the element at (E)SI less the one at ES:(E)DI.
/// Source: 80386 Programmer's Reference Manual, ch. 17, "CMPS/CMPSB/CMPSW/CMPSD"; that a repetition is a step is own.
#[derive(Clone, Copy)]
pub(crate) struct Cmps {
    pub len: u8,
}

impl InsnRow for Cmps {
    ghost plan = { λ row w i. cmps w i row.len };

    #[inline(always)]
    fn carry_out<L: Look>(self, m: &mut Machine, i: &Insn) -> Result<(), L::Missed> {
        at_size!(cmps_at, L, m, i, self.len)
    }
}

// The row of STOS at a width and an address size.
#[inline(always)]
fn stos_at<const W: u8, const A: bool, L: Look>(
    m: &mut Machine,
    i: &Insn,
    len: u8,
) -> Result<(), L::Missed>
    requires width { W ≡ i.now.width }
    requires size { A ≡ i.now.addr32 }
    ensures { CarriesOutBy L.reported m.old m.new result (stos m.old.world i.now len) }
{
    if is_over(m, i, A) {
        return Ok(());
    }
    let accumulator = register(m.registers(), W, EAX);
    let to = destination_offset(m, A);
    L::write(m, SegReg::Es, to, W, accumulator)?;
    move_destination(m, i, W, A);
    count_element(m, i, A, len, true);
    Ok(())
}

/// STOS: the element at ES:(E)DI becomes the accumulator.
/// Source: 80386 Programmer's Reference Manual, ch. 17, "STOS/STOSB/STOSW/STOSD"; that a repetition is a step is own.
#[derive(Clone, Copy)]
pub(crate) struct Stos {
    pub len: u8,
}

impl InsnRow for Stos {
    ghost plan = { λ row w i. stos w i row.len };

    #[inline(always)]
    fn carry_out<L: Look>(self, m: &mut Machine, i: &Insn) -> Result<(), L::Missed> {
        at_size!(stos_at, L, m, i, self.len)
    }
}

// The row of LODS at a width and an address size.
#[inline(always)]
fn lods_at<const W: u8, const A: bool, L: Look>(
    m: &mut Machine,
    i: &Insn,
    len: u8,
) -> Result<(), L::Missed>
    requires width { W ≡ i.now.width }
    requires size { A ≡ i.now.addr32 }
    ensures { CarriesOutBy L.reported m.old m.new result (lods m.old.world i.now len) }
{
    if is_over(m, i, A) {
        return Ok(());
    }
    let from = source_offset(m, A);
    let v = L::read(m, i.seg, from, W)?;
    put_register(m, W, EAX, v);
    move_source(m, i, W, A);
    count_element(m, i, A, len, true);
    Ok(())
}

/// LODS: the accumulator becomes the element at (E)SI.
/// Source: 80386 Programmer's Reference Manual, ch. 17, "LODS/LODSB/LODSW/LODSD"; that a repetition is a step is own.
#[derive(Clone, Copy)]
pub(crate) struct Lods {
    pub len: u8,
}

impl InsnRow for Lods {
    ghost plan = { λ row w i. lods w i row.len };

    #[inline(always)]
    fn carry_out<L: Look>(self, m: &mut Machine, i: &Insn) -> Result<(), L::Missed> {
        at_size!(lods_at, L, m, i, self.len)
    }
}

// The row of SCAS at a width and an address size.
#[inline(always)]
fn scas_at<const W: u8, const A: bool, L: Look>(
    m: &mut Machine,
    i: &Insn,
    len: u8,
) -> Result<(), L::Missed>
    requires good { IsTrue (is_width i.now.width) }
    requires width { W ≡ i.now.width }
    requires size { A ≡ i.now.addr32 }
    ensures { CarriesOutBy L.reported m.old m.new result (scas m.old.world i.now len) }
{
    if is_over(m, i, A) {
        return Ok(());
    }
    let from = destination_offset(m, A);
    let b = L::read(m, SegReg::Es, from, W)?;
    let a = register(m.registers(), W, EAX);
    move_destination(m, i, W, A);
    let flags = difference_flags(W, a, b, flags_of(m));
    m.set_flags(flags);
    count_element(m, i, A, len, goes_on_while(i.rep, flags));
    Ok(())
}

/// SCAS: the flags of the accumulator less the element at ES:(E)DI.
/// Source: 80386 Programmer's Reference Manual, ch. 17, "SCAS/SCASB/SCASW/SCASD"; that a repetition is a step is own.
#[derive(Clone, Copy)]
pub(crate) struct Scas {
    pub len: u8,
}

impl InsnRow for Scas {
    ghost plan = { λ row w i. scas w i row.len };

    #[inline(always)]
    fn carry_out<L: Look>(self, m: &mut Machine, i: &Insn) -> Result<(), L::Missed> {
        at_size!(scas_at, L, m, i, self.len)
    }
}
