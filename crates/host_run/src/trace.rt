// The trace.
ghost use Rattle.std.specs.Prelude.{◌≡◌, ◌≤◌, ◌<◌, ◌*◌, length, slice_get};
ghost use Rattle.client_world.specs.declared.trace.TraceLine.TheVariants.{Enter};
ghost use Rattle.host_run.specs.Turn.{leave_line, with_trace_line};

use crate::host::Host;
use client_world::{TraceLine, What};
use guest_space::Machine;
use mode_stack::depth;

// The line of what starts at that depth: of a call with the registers of its procedure, of an exception or a callback with those before it.
pub(crate) fn enter_line(depth: u8, what: What, m: &Machine) -> TraceLine
    ensures { result ≡ Enter depth what m.now.world.regs m.now.world.vif }
{
    TraceLine::Enter {
        depth,
        what,
        regs: m.regs(),
        vif: m.vif(),
    }
}

// The line of an exception or a callback that has returned.
pub(crate) fn leave_line(m: &Machine, what: What) -> TraceLine
    ensures { result ≡ leave_line m.now.world what }
{
    TraceLine::Leave {
        depth: depth(m),
        what,
        regs: m.regs(),
        vif: m.vif(),
    }
}

impl Host {
    /// The line of the trace of that number, counted from 0; `None` where none of that number is kept.
    pub fn line(&self, i: u32) -> Option<TraceLine>
        ensures { result ≡ slice_get self.now.world.kept i }
    {
        self.kept.get(i as usize).copied()
    }

    /// The number of lines of the trace that are kept.
    pub fn kept(&self) -> u32
        ensures { result ≡ length self.now.world.kept }
    {
        // The number fits, since it is at most this.
        let _keep = self.keep;
        self.kept.len() as u32
    }

    /// The number of lines of the trace, with those that aren't kept.
    pub fn lines(&self) -> u32
        ensures lines { result ≡ self.now.world.lines }
        ensures most { result ≤ 2 * self.now.world.steps }
    {
        self.lines
    }

    // One more line: it is kept where there is room, and counted.
    pub(crate) fn note(&mut self, line: TraceLine)
        requires room { self.old.world.lines < 2 * self.old.world.steps }
        ensures { self.new ≡ record self.old { world = with_trace_line line self.old.world } }
    {
        if self.kept.len() < self.keep as usize {
            let _ = self.kept.push(line);
        }
        self.lines += 1;
    }
}
