// The parts of the text. None takes memory; where one fails, a first part of its text was put, and the count of faults rose.
ghost use Rattle.std.specs.Prelude.{◌≡◌, ◌<◌, length, count_by, is_some};
ghost use Rattle.client_world.specs.declared.host_frames.TheConstants.{DESCRIPTORS};
ghost use Rattle.dpmi_io.specs.{LineEnd.{line_end}, Puts.{Puts}};
ghost use Rattle.dpmi_report.specs.{Lines.{exit_part, desc_row, dos_line}, Rows.{up_to}, Text.{console_head, console_part, trace_head}};
ghost use Rattle.dpmi_report.specs.{Text.{trace_part, end_part, processor_part, descs_head, descs_part}, Trace.{trace_row}};

use crate::digest::dos_digest;
use crate::lines::{
    console_line, descriptor_line, descriptors_line, dos_line, end_lines, exit_lines,
    processor_lines, trace_line,
};
use crate::trace::event_line;
use client_world::Exit;
use client_world::host_frames::DESCRIPTORS;
use client_world::selectors::selector_of;
use dpmi_io::{Line, Sink, SinkFail, put_all};
use guest_space::Machine;
use host_run::Host;
use mode_stack::depth;

// The line before the console's bytes.
fn console_line_of(host: &Host) -> Line
    ensures { result.items ≡ console_head (length host.now.world.console) }
{
    console_line(host.console().len() as u32)
}

// Puts the line before the console's bytes.
fn put_console_head<O: Sink>(host: &Host, out: &mut O) -> Result<(), SinkFail>
    ensures { Puts result O.taken O.faults out.old out.new (console_head (length host.now.world.console)) }
{
    let line = console_line_of(host);
    put_all(out, line.as_slice())
}

// Puts the end of a line.
fn put_line_end<O: Sink>(out: &mut O) -> Result<(), SinkFail>
    ensures { Puts result O.taken O.faults out.old out.new line_end }
{
    put_all(out, b"\n".as_slice())
}

// Puts the console's bytes.
fn put_console_bytes<O: Sink>(host: &Host, out: &mut O) -> Result<(), SinkFail>
    ensures { Puts result O.taken O.faults out.old out.new host.now.world.console }
{
    let console = host.console();
    put_all(out, console)
}

/// Puts the console's part: the number of its bytes, those bytes, and the end of a line. Where it fails a first part was put, and the
/// output's count of faults rose. Source: own.
pub fn put_console<O: Sink>(host: &Host, out: &mut O) -> Result<(), SinkFail>
    ensures { Puts result O.taken O.faults out.old out.new (console_part host.now.world) }
{
    put_console_head(host, out)?;
    put_console_bytes(host, out)?;
    put_line_end(out)
}

// The line before the trace.
fn trace_line_of(host: &Host) -> Line
    ensures { result.items ≡ trace_head (length host.now.world.kept) host.now.world.lines }
{
    trace_line(host.kept(), host.lines())
}

// Puts the line before the trace.
fn put_trace_head<O: Sink>(host: &Host, out: &mut O) -> Result<(), SinkFail>
    ensures { Puts result O.taken O.faults out.old out.new (trace_head (length host.now.world.kept) host.now.world.lines) }
{
    let line = trace_line_of(host);
    put_all(out, line.as_slice())
}

// Puts the line of the trace of that number.
fn put_event<O: Sink>(host: &Host, i: u32, out: &mut O) -> Result<(), SinkFail>
    ensures { Puts result O.taken O.faults out.old out.new (trace_row host.now.world.kept i) }
{
    match host.line(i) {
        Some(event) => {
            let line = event_line(&event);
            put_all(out, line.as_slice())
        }
        None => put_all(out, b"".as_slice()),
    }
}

// Puts the first lines of the trace.
fn put_first_events<O: Sink>(host: &Host, kept: u32, out: &mut O) -> Result<(), SinkFail>
    ensures { Puts result O.taken O.faults out.old out.new (up_to (trace_row host.now.world.kept) kept) }
{
    for i in 0..kept {
        put_event(host, i, out)?;
    }
    Ok(())
}

// Puts the lines of the trace that are kept.
fn put_events<O: Sink>(host: &Host, out: &mut O) -> Result<(), SinkFail>
    ensures { Puts result O.taken O.faults out.old out.new (up_to (trace_row host.now.world.kept) (length host.now.world.kept)) }
{
    put_first_events(host, host.kept(), out)
}

/// Puts the trace's part. Where it fails a first part of it was put, and the output's count of faults rose. Source: own.
pub fn put_trace<O: Sink>(host: &Host, out: &mut O) -> Result<(), SinkFail>
    ensures { Puts result O.taken O.faults out.old out.new (trace_part host.now.world) }
{
    put_trace_head(host, out)?;
    put_events(host, out)
}

// The lines of the exit and of the turns.
fn exit_lines_of(host: &Host, exit: Exit) -> Line
    ensures { result.items ≡ exit_part exit host.now.world.steps }
{
    exit_lines(exit, host.steps())
}

/// Puts how a run ended, and after how many turns: two lines. Where it fails a first part of them was put, and the
/// output's count of faults rose. Source: own.
pub fn put_exit<O: Sink>(host: &Host, exit: Exit, out: &mut O) -> Result<(), SinkFail>
    ensures { Puts result O.taken O.faults out.old out.new (exit_part exit host.now.world.steps) }
{
    let lines = exit_lines_of(host, exit);
    put_all(out, lines.as_slice())
}

// The lines of the report's head, of the exit and of the turns.
fn end_lines_of(host: &Host, exit: Exit) -> Line
    ensures { result.items ≡ end_part exit host.now.world.steps }
{
    end_lines(exit, host.steps())
}

/// Puts how the run ended, and after how many turns. Where it fails a first part of that was put, and the output's count of faults rose.
/// Source: own.
pub fn put_end<O: Sink>(host: &Host, exit: Exit, out: &mut O) -> Result<(), SinkFail>
    ensures { Puts result O.taken O.faults out.old out.new (end_part exit host.now.world.steps) }
{
    let lines = end_lines_of(host, exit);
    put_all(out, lines.as_slice())
}

// The lines of the mode, the depth and the registers.
fn processor_lines_of(machine: &Machine) -> Line
    ensures { result.items ≡ processor_part machine.now.world }
{
    let regs = machine.regs();
    processor_lines(machine.mode(), depth(machine), &regs, machine.vif())
}

/// Puts the mode, the depth and the registers. Where it fails a first part of them was put, and the output's count of faults rose. Source:
/// own.
pub fn put_processor<O: Sink>(machine: &Machine, out: &mut O) -> Result<(), SinkFail>
    ensures { Puts result O.taken O.faults out.old out.new (processor_part machine.now.world) }
{
    let lines = processor_lines_of(machine);
    put_all(out, lines.as_slice())
}

// The number of descriptors.
fn count_descriptors(machine: &Machine) -> u32
    ensures { result ≡ count_by is_some machine.now.world.descriptors }
{
    machine.soundness();
    let mut count = 0;
    for index in 0..DESCRIPTORS as u16 {
        if machine.desc(index).is_some() {
            count += 1;
        }
    }
    count
}

// The line before the descriptors.
fn descriptors_line_of(machine: &Machine) -> Line
    ensures { result.items ≡ descs_head (count_by is_some machine.now.world.descriptors) }
{
    descriptors_line(count_descriptors(machine))
}

// Puts the line before the descriptors.
fn put_descriptors_head<O: Sink>(machine: &Machine, out: &mut O) -> Result<(), SinkFail>
    ensures { Puts result O.taken O.faults out.old out.new (descs_head (count_by is_some machine.now.world.descriptors)) }
{
    let line = descriptors_line_of(machine);
    put_all(out, line.as_slice())
}

// Puts the line of a row, where it holds a descriptor.
fn put_row<O: Sink>(machine: &Machine, index: u16, out: &mut O) -> Result<(), SinkFail>
    requires { index < DESCRIPTORS }
    ensures { Puts result O.taken O.faults out.old out.new (desc_row machine.now.world.descriptors index) }
{
    match machine.desc(index) {
        Some((desc, origin)) => {
            let line = descriptor_line(selector_of(index), &desc, origin);
            put_all(out, line.as_slice())
        }
        None => put_all(out, b"".as_slice()),
    }
}

// Puts the lines of the descriptors.
fn put_rows<O: Sink>(machine: &Machine, out: &mut O) -> Result<(), SinkFail>
    ensures { Puts result O.taken O.faults out.old out.new (up_to (desc_row machine.now.world.descriptors) DESCRIPTORS) }
{
    for index in 0..DESCRIPTORS as u16 {
        put_row(machine, index, out)?;
    }
    Ok(())
}

/// Puts the descriptors' part. Where it fails a first part of it was put, and the output's count of faults rose. Source: own.
pub fn put_descriptors<O: Sink>(machine: &Machine, out: &mut O) -> Result<(), SinkFail>
    ensures { Puts result O.taken O.faults out.old out.new (descs_part machine.now.world) }
{
    put_descriptors_head(machine, out)?;
    put_rows(machine, out)
}

// The line of the DOS megabyte.
fn dos_line_of(machine: &Machine) -> Line
    ensures { result.items ≡ dos_line machine.now.world.dos }
{
    dos_line(&dos_digest(machine))
}

/// Puts the line of the DOS megabyte. Where it fails a first part of it was put, and the output's count of faults rose. Source: own.
pub fn put_dos<O: Sink>(machine: &Machine, out: &mut O) -> Result<(), SinkFail>
    ensures { Puts result O.taken O.faults out.old out.new (dos_line machine.now.world.dos) }
{
    let line = dos_line_of(machine);
    put_all(out, line.as_slice())
}
