// The text, put in its order.
ghost use Rattle.std.specs.Prelude.{◌≡◌, Some, IsSome};
ghost use Rattle.dpmi_io.specs.Puts.{Puts};
ghost use Rattle.dpmi_report.specs.Text.{memory_part, run_part, state_part, text, text_at};

use crate::blocks::put_blocks;
use crate::parts::{put_console, put_descriptors, put_dos, put_end, put_processor, put_trace};
use client_world::Exit;
use dpmi_io::{Sink, SinkFail};
use guest_space::Machine;
use host_run::Host;

// Writes what a run that ended so wrote and noted: the console, the trace, how it ended, and after how many turns. It takes no memory.
// Where it fails a first part of the text was written, and the output's count of faults rose.
fn write_run<O: Sink>(host: &Host, exit: Exit, out: &mut O) -> Result<(), SinkFail>
    requires { host.now.world.exit ≡ Some exit }
    ensures { Puts result O.taken O.faults out.old out.new (run_part host.now.world exit) }
{
    put_console(host, out)?;
    put_trace(host, out)?;
    put_end(host, exit, out)
}

// Writes the state of the processor and the descriptors. It takes no memory.
// Where it fails a first part of the text was written, and the output's count of faults rose.
fn write_state<O: Sink>(machine: &Machine, out: &mut O) -> Result<(), SinkFail>
    ensures { Puts result O.taken O.faults out.old out.new (state_part machine.now.world) }
{
    put_processor(machine, out)?;
    put_descriptors(machine, out)
}

// Writes the memory blocks and the digest of the DOS megabyte. It takes no memory.
// Where it fails a first part of the text was written, and the output's count of faults rose.
fn write_memory<O: Sink>(machine: &Machine, out: &mut O) -> Result<(), SinkFail>
    ensures { Puts result O.taken O.faults out.old out.new (memory_part machine.now.world) }
{
    put_blocks(machine, out)?;
    put_dos(machine, out)
}

// Writes the state that a run left.
fn write_state_of<O: Sink>(host: &Host, out: &mut O) -> Result<(), SinkFail>
    ensures { Puts result O.taken O.faults out.old out.new (state_part host.now.world.machine) }
{
    write_state(host.machine(), out)
}

// Writes the memory that a run left.
fn write_memory_of<O: Sink>(host: &Host, out: &mut O) -> Result<(), SinkFail>
    ensures { Puts result O.taken O.faults out.old out.new (memory_part host.now.world.machine) }
{
    write_memory(host.machine(), out)
}

// Writes the text of a run that ended so.
fn write_all_at<O: Sink>(host: &Host, exit: Exit, out: &mut O) -> Result<(), SinkFail>
    requires { host.now.world.exit ≡ Some exit }
    ensures { Puts result O.taken O.faults out.old out.new (text_at host.now.world exit) }
{
    write_run(host, exit, out)?;
    write_state_of(host, out)?;
    write_memory_of(host, out)
}

/// Writes the text of a run that has ended: the console, the trace and the report. It takes no memory.
/// Where it fails a first part of the text was written, and the output's count of faults rose. Source: own.
pub fn write_all_of<O: Sink>(host: &Host, out: &mut O) -> Result<(), SinkFail>
    requires { IsSome host.now.world.exit }
    ensures { Puts result O.taken O.faults out.old out.new (text host.now.world) }
{
    match host.exit() {
        Some(exit) => write_all_at(host, exit, out),
        None => unreachable!(),
    }
}
