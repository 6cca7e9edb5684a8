// Turns in a window of code, a part of one page outside read-only memory. While CS is unchanged and EIP stays in the window, a turn asks
// neither where its code is nor for a trap.
ghost use Rattle.std.specs.Prelude.{◌≡◌, ◌+◌, ◌<◌, IfSome, IsTrue, None, Ok, OnOk, Some};
ghost use Rattle.client_world.specs.declared.limits.TheConstants.{MAX_STEPS};
ghost use Rattle.host_run.specs.{declared.traps.Trap.TheVariants.{NoTrap}, Footprint.{ChangesOnly, client_footprint, client_turn}};
ghost use Rattle.host_run.specs.{Footprint.{turn_footprint, work_footprint}, MakesTurn.{AnswersBy, MakesTurn, turn_answer}};
ghost use Rattle.host_run.specs.{Traps.{current_trap}, Turn.{after_next_instruction, turn, work}, View.{ComesTo, HasRoom, machine_view}};
ghost use Rattle.host_run.specs.Windows.{HasWindow, IsFound, IsOutside, IsStart, IsTrapFree};

use crate::ending::{Ended, Ending};
use crate::host::Host;
use crate::serving::step_machine;
use crate::traps::{Trap, current_trap};
use client_world::memory_map::{DOS_SIZE, ROM_START};
use cpu_step::find_window;
use fault_service::a_machine_changes_only_what_is_written;
use guest_space::{CodeWindow, Machine};

// Whether an address lies outside read-only memory.
fn is_outside(at: u32) -> bool
    ensures { IsTrue result → IsOutside at }
{
    at < ROM_START || DOS_SIZE <= at
}

// The window of code at CS:EIP, as `find_window` gives it; without starts where its page is read-only memory, where the traps are.
#[inline(always)]
fn trap_free_window(m: &mut Machine) -> CodeWindow
    ensures kept { m.new ≡ m.old }
    ensures window { HasWindow m.new result }
{
    let window = find_window(m);
    if !is_outside(window.linear) {
        return CodeWindow::NONE;
    }
    window
}

impl Host {
    /// Which start of the window EIP is at; `None` says nothing.
    #[inline(always)]
    #[tactic(auto, using(crate::proofs::WindowStarts::start_found))]
    pub fn start_in(&self, window: &CodeWindow) -> Option<u32>
        requires { HasWindow (machine_view self.now) window.now }
        ensures { IfSome result (λ from.
            IsTrapFree (machine_view self.now) window.now × IsStart self.now.world.machine window.now from) }
    {
        let from = self.machine.registers().eip.wrapping_sub(window.first);
        if from < window.starts {
            Some(from)
        } else {
            None
        }
    }

    // Puts the window of code at CS:EIP in place of the given one, and says which of its starts EIP is at; `None` says nothing.
    #[cold]
    #[inline(never)]
    fn move_window(&mut self, window: &mut CodeWindow) -> Option<u32>
        ensures host { self.new ≡ self.old }
        ensures window { HasWindow (machine_view self.new) window.new }
        ensures found { IfSome result (λ from.
            IsTrapFree (machine_view self.new) window.new × IsStart self.new.world.machine window.new from) }
    {
        *window = trap_free_window(&mut self.machine);
        self.start_in(window)
    }

    /// Which start of a window EIP is at: of the given one, or else of the one at CS:EIP, which takes its place. `None` says nothing: no
    /// window shows the code, or a trap may be there.
    #[inline(always)]
    pub fn find_start(&mut self, window: &mut CodeWindow) -> Option<u32>
        requires { HasWindow (machine_view self.old) window.old }
        ensures host { self.new ≡ self.old }
        ensures window { HasWindow (machine_view self.new) window.new }
        ensures found { IfSome result (λ from.
            IsTrapFree (machine_view self.new) window.new × IsStart self.new.world.machine window.new from) }
    {
        match self.start_in(window) {
            Some(from) => Some(from),
            None => self.move_window(window),
        }
    }

    // The next instruction. Its event gives the window up.
    #[inline(always)]
    #[tactic(auto, unfolding(crate::specs::Turn::after_next_instruction, crate::specs::Footprint::client_turn))]
    fn step_client(&mut self, window: &mut CodeWindow, from: Option<u32>) -> Result<(), Ending>
        requires room { HasRoom self.old.world }
        requires found { IsFound (machine_view self.old) window.old from }
        ensures host { ComesTo self.old self.new result (after_next_instruction self.old.world) }
        ensures machine { OnOk result (client_turn (machine_view self.old) ≡ Ok (machine_view self.new)) }
        ensures window { HasWindow (machine_view self.new) window.new }
    {
        match step_machine(&mut self.machine, &mut self.memo, window, from) {
            Ok(()) => Ok(()),
            Err(raised) => {
                *window = CodeWindow::NONE;
                self.handle_event(raised)
            }
        }
    }

    // The next instruction, whose footprint alone changes.
    #[inline(always)]
    fn run_client(&mut self, window: &mut CodeWindow, from: Option<u32>) -> Result<(), Ending>
        requires room { HasRoom self.old.world }
        requires found { IsFound (machine_view self.old) window.old from }
        ensures host { ComesTo self.old self.new result (after_next_instruction self.old.world) }
        ensures bytes { ChangesOnly (client_footprint self.old.world.machine) self.old.bytes self.new.bytes }
        ensures window { HasWindow (machine_view self.new) window.new }
    {
        a_machine_changes_only_what_is_written(&self.machine);
        self.step_client(window, from)
    }

    /// No start of such a window is a trap.
    #[inline(always)]
    #[tactic(auto, using(crate::proofs::NoTraps::none_in_window))]
    pub fn no_trap_in(&self, window: &CodeWindow, from: u32)
        requires window { IsTrapFree (machine_view self.now) window.now }
        requires start { IsStart self.now.world.machine window.now from }
        ensures { current_trap self.now.world.machine ≡ NoTrap }
    {}

    // What a turn does at a trap, or at none. It is counted already, so that there is room for two lines of the trace.
    #[inline(always)]
    #[tactic(auto, unfolding(crate::specs::Turn::work, crate::specs::Footprint::work_footprint))]
    fn work(&mut self, t: Trap, window: &mut CodeWindow, from: Option<u32>) -> Result<(), Ending>
        requires trap { t ≡ current_trap self.old.world.machine }
        requires room { HasRoom self.old.world }
        requires found { IsFound (machine_view self.old) window.old from }
        ensures host { ComesTo self.old self.new result (work self.old.world) }
        ensures bytes { ChangesOnly (work_footprint self.old.world.machine) self.old.bytes self.new.bytes }
        ensures window { HasWindow (machine_view self.new) window.new }
    {
        match t {
            Trap::NoTrap => self.run_client(window, from),
            _ => {
                *window = CodeWindow::NONE;
                self.serve_trap(t)?;
                Ok(())
            }
        }
    }

    // Ends the run with that exit.
    #[cold]
    #[inline(never)]
    fn stop(&mut self, ending: Ending)
        ensures world { self.new.world ≡ record self.old.world { exit = Some ending } }
        ensures bytes { self.new.bytes ≡ self.old.bytes }
    {
        self.exit = Some(ending.exit());
    }

    // The turn of a client that has not ended, at that trap.
    #[inline(always)]
    #[tactic(auto, unfolding(crate::specs::Turn::turn))]
    fn turn_at(&mut self, t: Trap, window: &mut CodeWindow, from: Option<u32>) -> Result<(), Ended>
        requires no_exit { self.old.world.exit ≡ None }
        requires trap { t ≡ current_trap self.old.world.machine }
        requires room { self.old.world.steps < MAX_STEPS }
        requires found { IsFound (machine_view self.old) window.old from }
        ensures turn { MakesTurn self.old self.new (turn_answer self.new.world.exit) self.new.world (turn self.old.world)
            (turn_footprint self.old.world) }
        ensures answer { AnswersBy result self.new.world.exit }
        ensures steps { self.new.world.steps ≡ self.old.world.steps + 1 }
        ensures window { HasWindow (machine_view self.new) window.new }
    {
        self.steps += 1;
        match self.work(t, window, from) {
            Ok(()) => Ok(()),
            Err(ending) => {
                self.stop(ending);
                Err(Ended)
            }
        }
    }

    /// The turn of a client that has not ended, at that start of a window.
    #[inline(always)]
    pub fn turn_in_window(&mut self, window: &mut CodeWindow, from: u32) -> Result<(), Ended>
        requires no_exit { self.old.world.exit ≡ None }
        requires room { self.old.world.steps < MAX_STEPS }
        requires window { IsTrapFree (machine_view self.old) window.old }
        requires start { IsStart self.old.world.machine window.old from }
        ensures turn { MakesTurn self.old self.new (turn_answer self.new.world.exit) self.new.world (turn self.old.world)
            (turn_footprint self.old.world) }
        ensures answer { AnswersBy result self.new.world.exit }
        ensures steps { self.new.world.steps ≡ self.old.world.steps + 1 }
        ensures window { HasWindow (machine_view self.new) window.new }
    {
        self.no_trap_in(window, from);
        self.turn_at(Trap::NoTrap, window, Some(from))
    }

    /// The turn of a client that has not ended, in no window of code. Source: own.
    #[cold]
    #[inline(never)]
    pub fn turn_outside(&mut self, window: &mut CodeWindow) -> Result<(), Ended>
        requires no_exit { self.old.world.exit ≡ None }
        requires room { self.old.world.steps < MAX_STEPS }
        ensures turn { MakesTurn self.old self.new (turn_answer self.new.world.exit) self.new.world (turn self.old.world)
            (turn_footprint self.old.world) }
        ensures answer { AnswersBy result self.new.world.exit }
        ensures window { HasWindow (machine_view self.new) window.new }
    {
        *window = CodeWindow::NONE;
        let t = current_trap(&self.machine);
        self.turn_at(t, window, None)
    }

    /// The turn of a client that has not ended, with a window of code that turns hand on. Source: own.
    #[inline(always)]
    pub fn next_turn(&mut self, window: &mut CodeWindow) -> Result<(), Ended>
        requires no_exit { self.old.world.exit ≡ None }
        requires room { self.old.world.steps < MAX_STEPS }
        requires window { HasWindow (machine_view self.old) window.old }
        ensures turn { MakesTurn self.old self.new (turn_answer self.new.world.exit) self.new.world (turn self.old.world)
            (turn_footprint self.old.world) }
        ensures answer { AnswersBy result self.new.world.exit }
        ensures window { HasWindow (machine_view self.new) window.new }
    {
        match self.find_start(window) {
            Some(from) => self.turn_in_window(window, from),
            None => self.turn_outside(window),
        }
    }
}
