// The stack.
ghost use Rattle.std.specs.Prelude.{◌≡◌, ◌+◌, ◌-◌, ◌<◌, ◌^◌, ◌⊎◌, IfErr, IfOk, IfSome, IsFalse, IsTrue, None, Ok, length, slice_index, ℕ};
ghost use Rattle.client_world.specs.World.{World};
ghost use Rattle.insn_plan.specs.{Act.{Pending, unchanged, value_of}, Looks.{FollowsBy, Shows}, Plan.{Follows, after_commit}};
ghost use Rattle.insn_plan.specs.{Registers.{cut_address}, Stack.{has_big_stack, stack_pointer, with_push, pending_of_pushes, esp_up}};
ghost use Rattle.insn_plan.specs.{Stack.{with_pushed_number, regs_after_pops, stack_item}, declared.next.TheConstants.{MAX_WRITES}};

use crate::looks::{Look, Quick, Tables};
use crate::next::Next;
use crate::raised::Raised;
use crate::read::{doubleword, number_at, read_width, word};
use crate::registers::{cut_address, with_address};
use client_world::general::ESP;
use client_world::{Regs, SegReg};
use guest_space::{Machine, Write, byte_count};

/// Whether the stack pointer is ESP: the segment in SS has B = 1.
/// Source: 80386 Programmer's Reference Manual, ch. 16, "Stack-Segment Default Size".
#[inline(always)]
#[tactic(auto, unfolding(crate::specs::Stack::has_big_stack))]
pub fn has_big_stack(m: &Machine) -> bool
    ensures { result ≡ has_big_stack m.now.world }
{
    m.is_big(SegReg::Ss)
}

/// Whether the stack pointer is ESP, by a look. Quick looks miss where the hidden part of SS isn't there, and report nothing.
/// Source: 80386 Programmer's Reference Manual, ch. 16, "Stack-Segment Default Size".
#[inline(always)]
#[tactic(auto, unfolding(crate::specs::Stack::has_big_stack))]
pub fn look_at_size<L: Look>(m: &Machine) -> Result<bool, L::Missed>
    ensures is { IfOk result (λ big. big ≡ has_big_stack m.now.world) }
    ensures silent { IfErr result (λ missed. L.reported missed ≡ None) }
{
    if let Some(big) = m.quick_size(SegReg::Ss) {
        return Ok(big);
    }
    L::rare()?;
    Ok(has_big_stack(m))
}

/// ESP with the stack pointer n bytes further up: ESP where `big`, else SP, which wraps at 64 KB and leaves the upper half.
/// Source: 80386 Programmer's Reference Manual, ch. 2, "Stack Implementation".
#[inline(always)]
pub fn esp_up(big: bool, n: u32, esp: u32) -> u32
    ensures { result ≡ esp_up big n esp }
{
    let up = u64::from(esp) + u64::from(n);
    if big {
        cut_address(true, up)
    } else {
        with_address(false, esp, cut_address(false, up))
    }
}

/// ESP after n items of a width, 8, 16 or 32 bits, are popped. Source: 80386 Programmer's Reference Manual, ch. 17, POP.
#[inline(always)]
#[tactic(auto, unfolding(crate::specs::Stack::regs_after_pops))]
pub fn popped_esp(m: &Machine, width: u8, n: u8) -> u32
    ensures { result ≡ (regs_after_pops m.now.world width n m.now.world.regs).esp }
{
    let count = u32::from(byte_count(width)) * u32::from(n);
    esp_up(has_big_stack(m), count, m.registers().esp)
}

// The stack pointer of an item that is pushed, n bytes further down.
#[inline(always)]
pub(crate) fn pointer_down(big: bool, n: u8, esp: u32) -> u32
    requires { n < 2 ^ 8 }
    ensures value { result ≡ cut_address big (cut_address big esp + 2 ^ 32 - n) }
    ensures fits { IsTrue big ⊎ (result < 2 ^ 16) }
{
    let top = u64::from(cut_address(big, u64::from(esp))) + 0x1_0000_0000;
    cut_address(big, top - u64::from(n))
}

/// The stack pointer of some registers: ESP, or SP where the segment in SS has B = 0.
/// Source: 80386 Programmer's Reference Manual, ch. 2, "Stack Implementation".
#[inline(always)]
pub fn stack_pointer(m: &Machine, r: &Regs) -> u32
    ensures { result ≡ stack_pointer m.now.world r.now }
{
    cut_address(has_big_stack(m), u64::from(r.esp))
}

/// Reads the item of a width, 8, 16 or 32 bits, at a place of the stack, counted in items from the top, or gives the fault of the access.
/// Source: 80386 Programmer's Reference Manual, ch. 17, POP.
#[inline(always)]
#[tactic(auto, unfolding(crate::specs::Stack::stack_item))]
pub fn stack_item(m: &Machine, width: u8, place: u8) -> Result<u32, Raised>
    ensures { result ≡ value_of m.now.world (stack_item m.now.world width place) }
{
    let count = byte_count(width);
    let big = has_big_stack(m);
    let sp = u64::from(cut_address(big, u64::from(m.registers().esp)));
    let off = cut_address(big, sp + u64::from(count) * u64::from(place));
    number_at(m, SegReg::Ss, off, count)
}

/// Reads the item of a width, 8, 16 or 32 bits, at the top of the stack, by a look; or gives what the look that misses returns. The machine
/// stays. `big` says that the stack pointer is ESP; where it is a constant, only one size is compiled.
/// Source: 80386 Programmer's Reference Manual, ch. 17, POP.
#[inline(always)]
#[tactic(auto, using(crate::proofs::TopItem::top_item))]
pub fn look_at_top_of<L: Look>(m: &mut Machine, big: bool, width: u8) -> Result<u32, L::Missed>
    requires { big ≡ has_big_stack m.old.world }
    ensures value { Shows L.reported result (value_of m.old.world (stack_item m.old.world width 0)) }
    ensures kept { m.new ≡ m.old }
{
    let sp = cut_address(big, u64::from(m.registers().esp));
    L::read(m, SegReg::Ss, sp, width)
}

/// Reads the item of a width, 8, 16 or 32 bits, at the top of the stack, by a look; or gives what the look that misses returns. The machine
/// stays.
/// Source: 80386 Programmer's Reference Manual, ch. 17, POP.
#[inline(always)]
pub fn look_at_top<L: Look>(m: &mut Machine, width: u8) -> Result<u32, L::Missed>
    ensures value { Shows L.reported result (value_of m.old.world (stack_item m.old.world width 0)) }
    ensures kept { m.new ≡ m.old }
{
    if look_at_size::<L>(m)? {
        look_at_top_of::<L>(m, true, width)
    } else {
        look_at_top_of::<L>(m, false, width)
    }
}

/// Reads the item of a width, 8, 16 or 32 bits, at the top of the stack, or gives the fault of the access. Where a quick look doesn't show
/// it, its page is noted.
/// Source: 80386 Programmer's Reference Manual, ch. 17, POP.
#[inline(always)]
#[tactic(auto, using(crate::proofs::TopItem::top_item))]
pub fn top_item(m: &mut Machine, width: u8) -> Result<u32, Raised>
    ensures value { result ≡ value_of m.old.world (stack_item m.old.world width 0) }
    ensures kept { m.new ≡ m.old }
{
    let sp = stack_pointer(m, m.registers());
    read_width(m, SegReg::Ss, sp, width)
}

// Pushes a number of a width, where it is known whether the stack pointer is ESP.
#[inline(always)]
#[tactic(auto, unfolding(crate::specs::Stack::with_pushed_number, crate::specs::Plan::after_commit, //
client_world::specs::General::with_general))]
fn push_on<L: Look>(m: &mut Machine, big: bool, width: u8, v: u32) -> Result<(), L::Missed>
    requires { big ≡ has_big_stack m.old.world }
    ensures { FollowsBy L.reported m.old m.new result
        (after_commit m.old (with_pushed_number m.old.world width v (unchanged m.old.world))) }
{
    let sp = pointer_down(big, byte_count(width), m.registers().esp);
    L::write(m, SegReg::Ss, sp, width, v)?;
    // ESP is read once more, so that where the stack pointer is SP, half of it is stored.
    let esp = with_address(big, m.registers().esp, sp);
    m.set_general(ESP, esp);
    Ok(())
}

/// Pushes a number of a width, with a way to look; where the look misses, nothing is changed.
/// Source: 80386 Programmer's Reference Manual, ch. 17, PUSH.
#[inline(always)]
#[tactic(auto, unfolding(crate::specs::Stack::with_pushed_number, crate::specs::Plan::after_commit, //
client_world::specs::General::with_general))]
pub fn push_number<L: Look>(m: &mut Machine, width: u8, v: u32) -> Result<(), L::Missed>
    ensures { FollowsBy L.reported m.old m.new result
        (after_commit m.old (with_pushed_number m.old.world width v (unchanged m.old.world))) }
{
    if look_at_size::<L>(m)? {
        push_on::<L>(m, true, width, v)
    } else {
        push_on::<L>(m, false, width, v)
    }
}

// The same by the tables.
#[cold]
#[inline(never)]
#[tactic(auto, using(crate::proofs::WrittenState::fault_reported))]
fn push_by_tables(m: &mut Machine, width: u8, v: u32) -> Result<(), Raised>
    ensures { Follows m.old m.new result (after_commit m.old (with_pushed_number m.old.world width v (unchanged m.old.world))) }
{
    push_number::<Tables>(m, width, v)?;
    Ok(())
}

/// Pushes a number of a width, 8, 16 or 32 bits, or gives the fault of the write, which changes nothing.
/// Source: 80386 Programmer's Reference Manual, ch. 17, PUSH.
#[inline(always)]
pub fn push_item(m: &mut Machine, width: u8, v: u32) -> Result<(), Raised>
    ensures { Follows m.old m.new result (after_commit m.old (with_pushed_number m.old.world width v (unchanged m.old.world))) }
{
    match push_number::<Quick>(m, width, v) {
        Ok(()) => Ok(()),
        Err(_) => push_by_tables(m, width, v),
    }
}

/// The write of a number of a width that is pushed at an ESP, and ESP after it. `big` says that the stack pointer is ESP.
/// Source: 80386 Programmer's Reference Manual, ch. 17, PUSH.
#[inline(always)]
#[tactic(auto, unfolding(crate::specs::Stack::with_pushed_number))]
pub fn item_pushed(big: bool, width: u8, esp: u32, v: u32) -> (Write, u32)
    ensures { (w : World) (p : Pending) → has_big_stack w ≡ big → p.regs.esp ≡ esp →
        with_pushed_number w width v p ≡ with_push result.0 result.1 p }
{
    let sp = pointer_down(big, byte_count(width), esp);
    let write = Write {
        seg: SegReg::Ss,
        width,
        off: sp,
        value: v,
    };
    (write, with_address(big, esp, sp))
}

/// Makes the writes of some pushes and then sets ESP; or gives the fault of the first that has one, and does nothing. Source: own.
#[inline(always)]
#[tactic(auto, unfolding(crate::specs::Plan::after_commit, client_world::specs::General::with_general))]
pub fn settle_pushes(m: &mut Machine, writes: &[Write], esp: u32) -> Result<(), Raised>
    ensures { Follows m.old m.new result (after_commit m.old (pending_of_pushes m.old.world writes.now esp)) }
{
    m.write_all(writes)?;
    m.set_general(ESP, esp);
    Ok(())
}

/// Makes the writes of some pushes and then sets ESP, where one look shows that none of the writes has a fault, and returns `true`; else it
/// returns `false` and does nothing. Source: own.
#[inline(always)]
#[tactic(auto, unfolding(crate::specs::Plan::after_commit, client_world::specs::General::with_general))]
pub fn settle_quickly(m: &mut Machine, writes: &[Write], esp: u32) -> bool
    ensures made { IsTrue result → after_commit m.old (pending_of_pushes m.old.world writes.now esp) ≡ Ok m.new }
    ensures kept { IsFalse result → m.new ≡ m.old }
{
    let made = m.write_quickly(writes);
    if made {
        m.set_general(ESP, esp);
    }
    made
}

/// The eight items of a width of 16 or 32 bits at the top of the stack, where one look shows all of them; `None` says nothing. Source: own.
#[inline(always)]
pub fn eight_items(m: &Machine, width: u8) -> Option<[u32; 8]>
    ensures { IfSome result (λ items. (k : ℕ) → k < 8 →
        value_of m.now.world (stack_item m.now.world width k) ≡ Ok (slice_index items k)) }
{
    let sp = cut_address(has_big_stack(m), u64::from(m.registers().esp));
    if width == 16 {
        let items = m.read_eight::<2>(SegReg::Ss, sp)?;
        Some([
            word(items[0]),
            word(items[1]),
            word(items[2]),
            word(items[3]),
            word(items[4]),
            word(items[5]),
            word(items[6]),
            word(items[7]),
        ])
    } else if width == 32 {
        let items = m.read_eight::<4>(SegReg::Ss, sp)?;
        Some([
            doubleword(items[0]),
            doubleword(items[1]),
            doubleword(items[2]),
            doubleword(items[3]),
            doubleword(items[4]),
            doubleword(items[5]),
            doubleword(items[6]),
            doubleword(items[7]),
        ])
    } else {
        None
    }
}

impl Next {
    /// Pushes a number of a width, 8, 16 or 32 bits: one more write, and another ESP; there is room for the write.
    /// Source: 80386 Programmer's Reference Manual, ch. 17, PUSH.
    #[tactic(auto, unfolding(crate::specs::Stack::with_pushed_number))]
    pub fn push(&mut self, m: &Machine, width: u8, v: u32)
        requires { length self.old.writes < MAX_WRITES }
        ensures pushed { self.new ≡ with_pushed_number m.now.world width v self.old }
        ensures room { length self.new.writes ≡ length self.old.writes + 1 }
    {
        let big = has_big_stack(m);
        let esp = self.esp();
        let sp = pointer_down(big, byte_count(width), esp);
        self.set_esp(with_address(big, esp, sp));
        self.write(SegReg::Ss, sp, width, v);
    }
}
