// What an instruction of several writes leaves.
ghost use Rattle.std.specs.Prelude.{◌≡◌, ◌+◌, ◌<◌, ◌≤◌, length};
ghost use Rattle.guest_space.specs.Pending.{first_write_fault};
ghost use Rattle.insn_plan.specs.{Act.{unchanged}, Operands.{and_write, put_operand}, Plan.{Follows, after_commit}};

use crate::raised::Raised;
use crate::registers::{offset_of, set_register};
use client_world::{Fault, Regs, SegReg};
use guest_space::{Machine, Write};
use insn_forms::Operand;
use std::marker::Model;

/// The most writes of an instruction: ENTER at level 31 makes 32.
pub const MAX_WRITES: usize = 33;

// What lies in the places that are not used yet.
const NO_WRITE: Write = Write {
    seg: SegReg::Es,
    width: 0,
    off: 0,
    value: 0,
};

/// What an instruction leaves: the registers, the virtual interrupt flag, and its writes, none of which is made before all of them are
/// known.
#[derive(Drop)]
pub struct Next {
    writes: [Write; MAX_WRITES],
    write_count: usize,
    regs: Regs,
    vif: bool,
}

impl Model for Next {
    ghost use Rattle.std.specs.Prelude.{◌≡◌, ◌≤◌, length, take};
    ghost use Rattle.insn_plan.specs.Act.{Pending};
    ghost use Rattle.insn_plan.specs.declared.next.TheConstants.{MAX_WRITES};

    ghost Value = { Pending };

    ghost view = { λ n. record {
      regs = n.regs;
      vif = n.vif;
      writes = take n.write_count n.writes;
    } };

    ghost invariant = { λ n. (n.write_count ≤ MAX_WRITES) × (length n.writes ≡ MAX_WRITES) };
}

impl Next {
    /// Nothing is changed: the machine's registers and virtual interrupt flag, and no writes. Source: own.
    #[inline(always)]
    pub fn new(m: &Machine) -> Next
        ensures { result ≡ unchanged m.now.world }
    {
        Next {
            writes: [NO_WRITE; MAX_WRITES],
            write_count: 0,
            regs: m.regs(),
            vif: m.vif(),
        }
    }

    /// The registers that it leaves.
    #[inline(always)]
    pub fn regs(&self) -> Regs
        ensures { result ≡ self.now.regs }
    {
        self.regs
    }

    /// Leaves other registers.
    #[inline(always)]
    pub fn set_regs(&mut self, r: Regs)
        ensures { self.new ≡ record self.old { regs = r } }
    {
        self.regs = r;
    }

    /// The ESP that it leaves.
    #[inline(always)]
    pub fn esp(&self) -> u32
        ensures { result ≡ self.now.regs.esp }
    {
        self.regs.esp
    }

    /// Leaves another ESP.
    #[inline(always)]
    pub fn set_esp(&mut self, esp: u32)
        ensures { self.new ≡ record self.old { regs = record self.old.regs { esp = esp } } }
    {
        self.regs.esp = esp;
    }

    /// Leaves one more write, of a number of a width of 8, 16 or 32 bits; there is room for it. Source: own.
    #[inline(always)]
    pub fn write(&mut self, seg: SegReg, off: u32, width: u8, value: u32)
        requires { length self.old.writes < MAX_WRITES }
        ensures write { self.new ≡ and_write seg off width value self.old }
        ensures room { length self.new.writes ≡ length self.old.writes + 1 }
    {
        self.writes[self.write_count] = Write {
            seg,
            width,
            off,
            value,
        };
        self.write_count += 1;
    }

    /// Puts a number where an operand names; its address is that of the registers `r`. There is room for a write.
    /// Source: 80386 Programmer's Reference Manual, ch. 17, "Operation".
    #[tactic(auto, unfolding(crate::specs::Operands::put_operand))]
    pub fn put(&mut self, r: &Regs, addr32: bool, width: u8, operand: &Operand, v: u32)
        requires { length self.old.writes < MAX_WRITES }
        ensures put { self.new ≡ put_operand r.now addr32 width operand.now v self.old }
        ensures room { length self.new.writes ≤ length self.old.writes + 1 }
    {
        match operand {
            Operand::Reg { width, number } => set_register(&mut self.regs, *width, *number, v),
            Operand::Mem(f) => self.write(f.seg, offset_of(r, addr32, f), width, v),
            Operand::Imm(_) | Operand::Seg(_) | Operand::Empty | Operand::Far(_) => {}
        }
    }

    /// The fault of the first of its writes that has one, in their order. Source: own.
    pub fn refusal(&self, m: &Machine) -> Option<Fault>
        ensures { result ≡ first_write_fault m.now.world self.now.writes }
    {
        m.first_fault(&self.writes[..self.write_count])
    }

    /// Makes all the writes, and then sets the registers and the virtual interrupt flag; or gives the fault of the first write that has
    /// one, and does nothing.
    /// Source: own.
    #[tactic(auto, unfolding(crate::specs::Plan::after_commit))]
    pub fn settle(&self, m: &mut Machine) -> Result<(), Raised>
        ensures { Follows m.old m.new result (after_commit m.old self.now) }
    {
        m.write_all(&self.writes[..self.write_count])?;
        m.set_regs(self.regs);
        m.set_vif(self.vif);
        Ok(())
    }
}
