// The default vectors of real mode.
ghost use Rattle.std.specs.Prelude.{◌≡◌, true, is_ok};
ghost use Rattle.client_world.specs.declared.registers.Mode.TheVariants.{Real};
ghost use Rattle.interrupts.specs.Worlds.{world_after_iret};
ghost use Rattle.host_run.specs.{View.{ComesTo, HasRoom}, Turn.{after_frame_pop, after_dos_call, after_multiplex_call, ends_client}};
ghost use Rattle.host_run.specs.Turn.{after_default_vector, after_real_vector};

use crate::host::Host;
use crate::serving::{can_pop, serve_dos, serve_multiplex};
use client_world::faults::{COPROCESSOR_NOT_AVAILABLE, DIVIDE_ERROR, INVALID_OPCODE};
use client_world::{DosDone, Exit, TraceLine};
use cpu_values::part8;
use fault_service::pop_iret;

/// The interrupt that ends a client of real mode. Source: MS-DOS Programmer's Reference, "Interrupt 20h".
pub const TERMINATE_INTERRUPT: u8 = 0x20;

/// The interrupt of the DOS calls, whose function is in AH. Source: MS-DOS Programmer's Reference, "Interrupt 21h".
pub const DOS_INTERRUPT: u8 = 0x21;

/// The multiplex interrupt, whose function is in AX. Source: MS-DOS Programmer's Reference, "Interrupt 2Fh".
pub const MULTIPLEX_INTERRUPT: u8 = 0x2F;

/// The interrupt of the services of protected mode, whose function is in AX. Source: DPMI 0.9, INT 31h.
pub const DPMI_INTERRUPT: u8 = 0x31;

impl Host {
    // The interrupt's frame is popped.
    fn pop_interrupt_frame(&mut self) -> Result<(), Exit>
        ensures host { ComesTo self.old self.new result (after_frame_pop self.old.world) }
        ensures done { is_ok (world_after_iret self.old.world.machine) ≡ true → is_ok result ≡ true }
    {
        pop_iret(&mut self.machine)
    }

    // INT 21h: a DOS call.
    fn serve_dos_call(&mut self) -> Result<(), Exit>
        requires real { self.old.world.machine.mode ≡ Real }
        requires frame { is_ok (world_after_iret self.old.world.machine) ≡ true }
        requires room { HasRoom self.old.world }
        ensures { ComesTo self.old self.new result (after_dos_call self.old.world) }
    {
        let function = part8(self.machine.regs().eax, true);
        self.note(TraceLine::Int21(function));
        match serve_dos(&mut self.machine, &mut self.keys, &mut self.console) {
            DosDone::Served => self.pop_interrupt_frame(),
            DosDone::Ended(exit) => Err(exit),
        }
    }

    // INT 2Fh.
    fn serve_multiplex_call(&mut self) -> Result<(), Exit>
        requires real { self.old.world.machine.mode ≡ Real }
        requires frame { is_ok (world_after_iret self.old.world.machine) ≡ true }
        requires room { HasRoom self.old.world }
        ensures { ComesTo self.old self.new result (after_multiplex_call self.old.world) }
    {
        let function = self.machine.regs().ax();
        self.note(TraceLine::Int2f(function));
        serve_multiplex(&mut self.machine);
        self.pop_interrupt_frame()
    }

    // The default vector of a number.
    #[tactic(auto, unfolding(crate::specs::Turn::after_default_vector))]
    fn serve_vector(&mut self, n: u8) -> Result<(), Exit>
        requires real { self.old.world.machine.mode ≡ Real }
        requires frame { is_ok (world_after_iret self.old.world.machine) ≡ true }
        requires room { HasRoom self.old.world }
        ensures { ComesTo self.old self.new result (after_default_vector self.old.world n) }
    {
        if ends_client(n) {
            return Err(Exit::Fault(n, 0));
        }
        if n == TERMINATE_INTERRUPT {
            self.note(TraceLine::Int20);
            return Err(Exit::Exited(0));
        }
        if n == DOS_INTERRUPT {
            return self.serve_dos_call();
        }
        if n == MULTIPLEX_INTERRUPT {
            return self.serve_multiplex_call();
        }
        self.pop_interrupt_frame()
    }

    // The default vector of a number, where the frame can be popped.
    #[inline(never)]
    #[tactic(auto, using(crate::proofs::Frames::reached_popped, crate::proofs::Frames::reached_bad))]
    pub(crate) fn reach_vector(&mut self, n: u8) -> Result<(), Exit>
        requires real { self.old.world.machine.mode ≡ Real }
        requires room { HasRoom self.old.world }
        ensures { ComesTo self.old self.new result (after_real_vector self.old.world n) }
    {
        if can_pop(&self.machine) {
            self.serve_vector(n)
        } else {
            Err(Exit::BadFrame)
        }
    }
}

// Whether the default vector of an exception ends the client.
fn ends_client(n: u8) -> bool
    ensures { result ≡ ends_client n }
{
    n == DIVIDE_ERROR || n == INVALID_OPCODE || n == COPROCESSOR_NOT_AVAILABLE
}
