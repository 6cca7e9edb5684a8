// What an instruction accesses.
ghost use Rattle.std.specs.Prelude.{◌≡◌, ◌+◌, ◌<◌, ◌≤◌, ◌++◌, ◌∷◌, [], MatchOption, None, Some, true, length};
ghost use Rattle.client_world.specs.declared.segments.SegReg.TheVariants.{Ss};
ghost use Rattle.guest_space.specs.Pending.{byte_count, IsCountOfWidth};
ghost use Rattle.insn_plan.specs.Accesses.{and_read, and_put, and_push, esp_down, with_next_eip, touch_of_access, touches_after, HasBytes};
ghost use Rattle.insn_plan.specs.{Act.{From, IsCount, value_of}, Operands.{source}, Stack.{stack_item, has_big_stack}};

use crate::operands::given;
use crate::raised::Raised;
use crate::read::{number_at, read_number};
use crate::registers::{cut_address, offset_of, with_address};
use crate::stack::{has_big_stack, pointer_down};
use arrayvec::ArrayVec;
use client_world::{Regs, SegReg, Touch};
use guest_space::{Machine, byte_count};
use insn_forms::Operand;
use std::marker::Model;

/// The room for an instruction's accesses: the most are the 62 of ENTER at level 31.
pub const MAX_ACCESSES: usize = 64;

/// An access to bytes at an offset of a segment register.
#[derive(Clone, Copy, Debug, PartialEq, Eq)]
pub struct Access {
    pub seg: SegReg,
    pub off: u32,
    pub count: u8,
    pub write: bool,
}

impl Default for Access {
    fn default() -> Access {
        Access {
            seg: SegReg::Es,
            off: 0,
            count: 0,
            write: false,
        }
    }
}

/// The accesses of an instruction, in order. The machine is at the instruction; contracts see it with EIP past it.
#[derive(Drop)]
pub struct Accesses<'a> {
    machine: &'a Machine,
    len: u8,
    list: ArrayVec<Access, MAX_ACCESSES>,
}

impl<'a> Model for Accesses<'a> {
    ghost use Rattle.std.specs.Prelude.{All};
    ghost use Rattle.insn_plan.specs.Accesses.{Followed, HasBytes, with_next_eip};

    ghost Value = { Followed };

    ghost view = { λ a. record { world = with_next_eip a.len a.machine.now.world; accesses = a.list.items } };

    ghost invariant = { λ a. All HasBytes a.list.items };
}

impl<'a> Accesses<'a> {
    /// No accesses yet, for an instruction of `len` bytes. Source: own.
    pub fn new(machine: &'a Machine, len: u8) -> Accesses<'a>
        ensures { result ≡ record { world = with_next_eip len machine.now.world; accesses = [] } }
    {
        Accesses {
            machine,
            len,
            list: ArrayVec::new(),
        }
    }

    /// The machine. It differs from the world that contracts see in EIP alone.
    pub fn machine(&self) -> &Machine
        ensures { self.now.world ≡ record result.now.world { regs = record result.now.world.regs { eip = self.now.world.regs.eip } } }
    {
        self.machine
    }

    /// The registers, with EIP past the instruction.
    pub fn regs(&self) -> Regs
        ensures { result ≡ self.now.world.regs }
    {
        let r = self.machine.regs();
        Regs {
            eip: r.eip.wrapping_add(u32::from(self.len)),
            ..r
        }
    }

    /// Whether the stack pointer is ESP. Source: 80386 Programmer's Reference Manual, ch. 16, "Stack-Segment Default Size".
    #[tactic(auto, unfolding(crate::specs::Stack::has_big_stack))]
    pub fn has_big_stack(&self) -> bool
        ensures { result ≡ has_big_stack self.now.world }
    {
        has_big_stack(self.machine)
    }

    // Notes an access.
    fn note(&mut self, seg: SegReg, off: u32, count: u8, write: bool)
        requires some { 0 < count }
        requires room { length self.old.accesses < MAX_ACCESSES }
        ensures noted { self.new ≡ record self.old {
          accesses = self.old.accesses ++ record { seg = seg; off = off; count = count; write = write } ∷ [];
        } }
        ensures room { length self.new.accesses ≡ length self.old.accesses + 1 }
    {
        self.list.push(Access {
            seg,
            off,
            count,
            write,
        });
    }

    /// Notes a read, and gives the number of its 1, 2, 4, 6 or 8 bytes at an offset of a segment register, or the fault of the access.
    /// There is room for it.
    /// Source: own.
    #[tactic(auto, using(crate::proofs::Moved::value_moved))]
    pub fn read(&mut self, seg: SegReg, off: u32, count: u8) -> Result<u64, Raised>
        requires count { IsCount count }
        requires room { length self.old.accesses < MAX_ACCESSES }
        ensures value { result ≡ value_of self.old.world (From seg off count) }
        ensures noted { self.new ≡ record self.old { accesses = and_read self.old.accesses (From seg off count) } }
        ensures room { length self.new.accesses ≡ length self.old.accesses + 1 }
    {
        self.note(seg, off, count, false);
        read_number(self.machine, seg, off, count)
    }

    /// Reads an operand, in memory at a width of 8, 16 or 32 bits, and notes the read; or gives the fault of the access.
    /// Source: 80386 Programmer's Reference Manual, ch. 17, "Operation".
    #[tactic(auto, using(crate::proofs::Moved::value_moved, crate::proofs::Moved::source_moved), unfolding(crate::specs::Operands::source))]
    pub fn operand(&mut self, addr32: bool, width: u8, operand: &Operand) -> Result<u32, Raised>
        requires { length self.old.accesses < MAX_ACCESSES }
        ensures value { result ≡ value_of self.old.world (source self.old.world.regs addr32 width operand.now) }
        ensures noted { self.new ≡ record self.old {
          accesses = and_read self.old.accesses (source self.old.world.regs addr32 width operand.now);
        } }
        ensures room { length self.new.accesses ≤ length self.old.accesses + 1 }
    {
        match operand {
            Operand::Mem(f) => {
                let off = offset_of(&self.regs(), addr32, f);
                self.read_width(f.seg, off, byte_count(width))
            }
            _ => Ok(given(&self.regs(), operand)),
        }
    }

    /// Notes a read, and gives the number of its 1, 2 or 4 bytes at an offset of a segment register, or the fault of the access.
    /// Source: own.
    #[tactic(auto, using(crate::proofs::Moved::value_moved))]
    pub fn read_width(&mut self, seg: SegReg, off: u32, count: u8) -> Result<u32, Raised>
        requires count { IsCountOfWidth count }
        requires room { length self.old.accesses < MAX_ACCESSES }
        ensures value { result ≡ value_of self.old.world (From seg off count) }
        ensures noted { self.new ≡ record self.old { accesses = and_read self.old.accesses (From seg off count) } }
        ensures room { length self.new.accesses ≡ length self.old.accesses + 1 }
    {
        self.note(seg, off, count, false);
        number_at(self.machine, seg, off, count)
    }

    // The offset of the item of a width at a place of the stack, counted from the top.
    #[tactic(auto, unfolding(crate::specs::Stack::stack_item, crate::specs::Stack::has_big_stack))]
    fn item_offset(&self, width: u8, place: u8) -> u32
        ensures { From Ss result (byte_count width) ≡ stack_item self.now.world width place }
    {
        let big = has_big_stack(self.machine);
        let sp = u64::from(cut_address(big, u64::from(self.machine.registers().esp)));
        cut_address(big, sp + u64::from(byte_count(width)) * u64::from(place))
    }

    /// Notes a read, and gives the item of a width at a place of the stack, counted in items from the top, or the fault of the access.
    /// Source: 80386 Programmer's Reference Manual, ch. 17, POP.
    pub fn stack_item(&mut self, width: u8, place: u8) -> Result<u32, Raised>
        requires { length self.old.accesses < MAX_ACCESSES }
        ensures value { result ≡ value_of self.old.world (stack_item self.old.world width place) }
        ensures noted { self.new ≡ record self.old { accesses = and_read self.old.accesses (stack_item self.old.world width place) } }
        ensures room { length self.new.accesses ≡ length self.old.accesses + 1 }
    {
        let off = self.item_offset(width, place);
        self.read_width(SegReg::Ss, off, byte_count(width))
    }

    /// Notes a write of a number of a width, 8, 16 or 32 bits, at an offset of a segment register, whether it is allowed or not.
    /// Source: own.
    pub fn write(&mut self, seg: SegReg, off: u32, width: u8)
        requires { length self.old.accesses < MAX_ACCESSES }
        ensures noted { self.new ≡ record self.old {
          accesses = self.old.accesses ++ record { seg = seg; off = off; count = byte_count width; write = true } ∷ [];
        } }
        ensures room { length self.new.accesses ≡ length self.old.accesses + 1 }
    {
        self.note(seg, off, byte_count(width), true);
    }

    /// Notes the write of a number of a width where an operand names, if that is in memory; its address is that of the registers `r`.
    /// Source: 80386 Programmer's Reference Manual, ch. 17, "Operation".
    #[tactic(auto, unfolding(crate::specs::Accesses::and_put))]
    pub fn put_with(&mut self, r: &Regs, addr32: bool, width: u8, operand: &Operand)
        requires { length self.old.accesses < MAX_ACCESSES }
        ensures noted { self.new ≡ record self.old { accesses = and_put r.now addr32 width operand.now self.old.accesses } }
        ensures room { length self.new.accesses ≤ length self.old.accesses + 1 }
    {
        if let Operand::Mem(f) = operand {
            self.write(f.seg, offset_of(r, addr32, f), width);
        }
    }

    /// Notes the write of a number of a width where an operand names, if that is in memory.
    /// Source: 80386 Programmer's Reference Manual, ch. 17, "Operation".
    pub fn put(&mut self, addr32: bool, width: u8, operand: &Operand)
        requires { length self.old.accesses < MAX_ACCESSES }
        ensures noted { self.new ≡ record self.old { accesses = and_put self.old.world.regs addr32 width operand.now self.old.accesses } }
        ensures room { length self.new.accesses ≤ length self.old.accesses + 1 }
    {
        let r = self.regs();
        self.put_with(&r, addr32, width, operand);
    }

    /// Notes the push of a number of a width, 8, 16 or 32 bits, at an ESP, and returns ESP after it.
    /// Source: 80386 Programmer's Reference Manual, ch. 17, PUSH.
    #[tactic(auto, unfolding(crate::specs::Stack::has_big_stack))]
    pub fn push(&mut self, width: u8, esp: u32) -> u32
        requires { length self.old.accesses < MAX_ACCESSES }
        ensures esp { result ≡ esp_down self.old.world width esp }
        ensures noted { self.new ≡ record self.old { accesses = and_push self.old.world width esp self.old.accesses } }
        ensures room { length self.new.accesses ≡ length self.old.accesses + 1 }
    {
        let big = has_big_stack(self.machine);
        let sp = pointer_down(big, byte_count(width), esp);
        self.write(SegReg::Ss, sp, width);
        with_address(big, esp, sp)
    }

    // The touch of an access, or none where it has a fault.
    #[tactic(auto, unfolding(crate::specs::Accesses::touch_of_access), using(crate::proofs::Moved::access_fault_moved, //
    crate::proofs::Moved::selector_moved))]
    fn touch_of_access(&self, a: Access) -> Option<Touch>
        requires { HasBytes a }
        ensures { result ≡ touch_of_access self.now.world a }
    {
        let count = u32::from(a.count);
        if self.machine.probe(a.seg, a.off, count, a.write).is_err() {
            return None;
        }
        Some(Touch {
            lin: self.machine.first_byte(a.seg).wrapping_add(a.off),
            len: a.count,
            write: a.write,
        })
    }

    /// The touches of all of them, in their order; `None` where one has a fault. Source: own.
    pub fn touches(&self) -> Option<ArrayVec<Touch, MAX_ACCESSES>>
        ensures { MatchOption result (touches_after self.now.world [] self.now.accesses ≡ None)
            (λ list. touches_after self.now.world [] self.now.accesses ≡ Some list.items) }
    {
        let mut touches = ArrayVec::new();
        for a in self.list.as_slice() {
            match self.touch_of_access(*a) {
                Some(touch) => touches.push(touch),
                None => return None,
            }
        }
        Some(touches)
    }
}
