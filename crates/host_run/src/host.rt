// The host and its turns.
ghost use Rattle.std.specs.Prelude.{◌≡◌, ◌≢◌, ◌≤◌, ◌<◌, ◌+◌, ◌*◌, IfOk, OnOk, IfErr, IfSome, Ok, Err, Some, None, length, vec_capacity};
ghost use Rattle.client_world.specs.{declared.limits.TheConstants.{CONSOLE_ROOM, MAX_STEPS}, Soundness.{IsSound, IsSoundHost}};
ghost use Rattle.interrupts.specs.{Worlds.{world_interrupt}, Delivery.{software_interrupt}};
ghost use Rattle.mz_loader.specs.Refusal.{refusal};
ghost use Rattle.host_run.specs.Footprint.{ChangesOnly, after_client_event, after_client_interrupt, trap_footprint, turn_footprint};
ghost use Rattle.host_run.specs.{Keys.{HasKeys}, MakesTurn.{MakesTurn}, Run.{run}, Start.{blank, IsBlank, host_at_start}};
ghost use Rattle.host_run.specs.{declared.traps.Trap.TheVariants.{NoTrap}, Traps.{current_trap}, View.{ComesTo, HasRoom, HostView}};
ghost use Rattle.host_run.specs.{View.{machine_view}, Turn.{after_interrupt, after_step, after_trap, turn}};

use crate::ending::{Ended, Ending};
use crate::traps::Trap;
use client_world::limits::{MAX_KEYS, MAX_PAGES, MAX_STEPS, MAX_TRACE};
use client_world::{Event, Exit, LoadFault, TraceLine};
use dos_calls::{Console, Keys};
use fault_service::{a_machine_changes_only_what_is_written, default_handler_exit, soft_int};
use guest_space::{CodeWindow, Machine};
use insn_decode::Memo;
use insn_plan::Raised;
use std::alloc::{AllocError, Global};
use std::marker::Model;

/// A client's machine, the keystrokes that are left, what it wrote, the trace, how many turns were made, and how the run ended. All of its
/// memory is taken at its start.
#[derive(Drop)]
pub struct Host {
    pub(crate) machine: Machine,
    pub(crate) memo: Memo,
    pub(crate) keys: Keys,
    pub(crate) console: Console,
    pub(crate) keep: u32,
    pub(crate) kept: Vec<TraceLine>,
    pub(crate) lines: u32,
    pub(crate) steps: u32,
    pub(crate) exit: Option<Exit>,
}

impl Model for Host {
    ghost Value = { HostView };

    ghost view = { λ h. record {
      world = record {
        machine = h.machine.world;
        keys = h.keys;
        console = h.console;
        keep = h.keep;
        kept = h.kept.items;
        lines = h.lines;
        steps = h.steps;
        exit = h.exit;
      };
      bytes = h.machine.bytes;
    } };

    ghost invariant = { λ h. (length h.kept.items ≤ h.keep) × (h.keep ≤ vec_capacity h.kept) × (h.lines ≤ 2 * h.steps)
        × (h.steps ≤ MAX_STEPS) };
}

impl Host {
    /// A host that has run nothing, on blank memory: with a budget of that many pages, from 1 to 16,384; those keystrokes, at most 65,536
    /// bytes; and a trace that keeps that many lines at most, up to 10,000. `AllocError` when out of memory: all of the host's memory is
    /// taken here. Source: own.
    pub fn new(alloc: Global, pages: u32, keys: &[u8], keep: u32) -> Result<Host, AllocError>
        requires some_pages { 0 < pages }
        requires pages { pages ≤ MAX_PAGES }
        requires keys { length keys.now ≤ MAX_KEYS }
        requires keep { keep ≤ MAX_TRACE }
        ensures { IfOk result (λ host. host.world ≡ blank pages keys.now keep) }
    {
        let machine = Machine::new(alloc, pages)?;
        let keys = Keys::new(alloc, keys)?;
        let console = Console::new(alloc)?;
        let memo = Memo::new(alloc)?;
        let kept = Vec::with_capacity(alloc, keep as usize)?;
        Ok(Host {
            machine,
            memo,
            keys,
            console,
            keep,
            kept,
            lines: 0,
            steps: 0,
            exit: None,
        })
    }

    /// Loads a client's file into a host that has run nothing. It is refused for the first reason in the order of `LoadFault`, and nothing
    /// changes then. Source: MS-DOS Programmer's Reference, "Loading .EXE files", by `mz_loader`.
    pub fn load(&mut self, file: &[u8]) -> Result<(), LoadFault>
        requires { IsBlank self.old.world }
        ensures taken { OnOk result (refusal file.now ≡ None) }
        ensures started { OnOk result (self.new.world
            ≡ host_at_start self.old.world.machine.budget self.old.world.keys self.old.world.keep file.now) }
        ensures sound { OnOk result (IsSound self.new.world.machine) }
        ensures refused { IfErr result (λ fault. refusal file.now ≡ Some fault) }
        ensures kept { IfErr result (λ _. self.new ≡ self.old) }
    {
        mz_loader::load(&mut self.machine, file)?;
        self.machine.soundness();
        Ok(())
    }

    /// The number of turns made.
    pub fn steps(&self) -> u32
        ensures { result ≡ self.now.world.steps }
    {
        self.steps
    }

    /// How the run ended, if it has.
    pub fn exit(&self) -> Option<Exit>
        ensures { result ≡ self.now.world.exit }
    {
        self.exit
    }

    /// The bytes that the client wrote.
    pub fn console(&self) -> &[u8]
        ensures bytes { result.now ≡ self.now.world.console }
        ensures most { length result.now ≤ CONSOLE_ROOM }
    {
        self.console.bytes()
    }

    /// The client's machine.
    pub fn machine(&self) -> &Machine
        ensures { result.now ≡ record { world = self.now.world.machine; bytes = self.now.bytes } }
    {
        &self.machine
    }

    /// The world of every host is sound, and its keystrokes are bytes.
    pub fn soundness(&self)
        ensures host { IsSoundHost self.now.world }
        ensures keys { HasKeys self.now.world }
    {
        self.machine.soundness();
        self.keys.soundness();
    }

    /// One turn: it serves a trap byte, or runs one client instruction with its software interrupt, or delivers its
    /// exception. Of the memory it changes the bytes of its footprint alone. Where it ends the run it returns the exit, and leaves the
    /// machine as it was. After an exit it returns that exit again and changes nothing. Source: own.
    #[tactic(auto, unfolding(crate::specs::Turn::turn))]
    pub fn turn(&mut self) -> Result<(), Exit>
        requires { self.old.world.exit ≡ None → self.old.world.steps < MAX_STEPS }
        ensures { MakesTurn self.old self.new result self.new.world (turn self.old.world) (turn_footprint self.old.world) }
    {
        if let Some(exit) = self.exit {
            return Err(exit);
        }
        let mut window = CodeWindow::NONE;
        let _ended = self.next_turn(&mut window);
        match self.exit {
            Some(exit) => Err(exit),
            None => Ok(()),
        }
    }

    /// Turns up to an exit, or as many as the bound, with the exit `Bound` then. After an exit it returns that exit
    /// again and changes nothing. Source: own.
    pub fn run(&mut self, bound: u32) -> Exit
        requires { self.old.world.exit ≡ None → self.old.world.steps + bound ≤ MAX_STEPS }
        ensures world { self.new.world ≡ run self.old.world bound }
        ensures kept { IfSome self.old.world.exit (λ _. self.new ≡ self.old) }
        ensures answer { self.new.world.exit ≡ Some result }
    {
        if let Some(exit) = self.exit() {
            return exit;
        }
        let mut window = CodeWindow::NONE;
        for count in 0..bound {
            if let Err(Ended) = self.next_turn(&mut window) {
                return self.end_run();
            }
        }
        self.end_run()
    }

    // A software interrupt, or the exception that it raises.
    pub(crate) fn raise_interrupt(&mut self, number: u8, len: u8) -> Result<(), Exit>
        requires room { HasRoom self.old.world }
        ensures host { ComesTo self.old self.new result
            (after_interrupt self.old.world (world_interrupt self.old.world.machine number len)) }
        ensures machine { OnOk result
            (after_client_interrupt (machine_view self.old) (software_interrupt (machine_view self.old) number len)
            ≡ Ok (machine_view self.new)) }
    {
        match soft_int(&mut self.machine, number, len) {
            Ok(()) => Ok(()),
            Err(f) => self.deliver(f),
        }
    }

    // What the event of a client's instruction comes to: its exception is delivered, or its software interrupt is raised. It is out of
    // line, so that the turn of an instruction without an event has one answer to look at.
    #[cold]
    #[inline(never)]
    pub(crate) fn handle_event(&mut self, raised: Raised) -> Result<(), Ending>
        requires room { HasRoom self.old.world }
        ensures host { ComesTo self.old self.new result (after_step self.old.world (Err raised)) }
        ensures machine { OnOk result (after_client_event (machine_view self.old) (Err raised) ≡ Ok (machine_view self.new)) }
    {
        match raised.event() {
            Event::Fault(f) => self.deliver(f)?,
            Event::Soft { number, len } => self.raise_interrupt(number, len)?,
        }
        Ok(())
    }

    // What a turn does at a trap.
    pub(crate) fn serve_trap(&mut self, t: Trap) -> Result<(), Exit>
        requires trap { t ≡ current_trap self.old.world.machine }
        requires some { t ≢ NoTrap }
        requires room { HasRoom self.old.world }
        ensures host { ComesTo self.old self.new result (after_trap self.old.world t) }
        ensures bytes { ChangesOnly (trap_footprint self.old.world.machine t) self.old.bytes self.new.bytes }
    {
        match t {
            Trap::RealVector(n) => self.reach_vector(n),
            Trap::Entry => self.serve_entry(),
            Trap::ToProtected => self.switch_to_protected(),
            Trap::RealState | Trap::ProtectedState => self.serve_state_call(),
            Trap::CallReturn => self.return_from_call(),
            Trap::Callback(slot) => self.enter_callback(slot),
            Trap::ProtectedVector(n) => self.serve_protected_vector(n),
            Trap::ExceptionHandler(_) => Err(default_handler_exit(&self.machine)),
            Trap::ToReal => self.switch_to_real(),
            Trap::ExceptionReturn => self.return_from_exception(),
            Trap::CallbackReturn => self.return_from_callback(),
            Trap::NoTrap => unreachable!(),
        }
    }
}
