// The text of the run of a made client.
ghost use Rattle.std.specs.Prelude.{◌≡◌, ◌≤◌, ◌++◌, IfSome, Some, cond, count_by, slice_get};
ghost use Rattle.dpmi_io.specs.Puts.{Puts};
ghost use Rattle.dpmi_report.specs.{Lines.{exit_part, dos_line}, Summary.{soak_head, is_service, is_refusal, services_line, console_line}};
ghost use Rattle.dpmi_report.specs.Summary.{summary_at};

use crate::lines::{console_digest_line, services_line, soak_line};
use crate::parts::{put_dos, put_exit};
use client_world::{Carry, Exit, TraceLine};
use dpmi_io::{Line, Sink, SinkFail, put_all};
use host_run::Host;
use sha2::{Digest, Sha256};

// Whether the line of the trace is that of a service.
fn is_service(event: &TraceLine) -> bool
    ensures { result ≡ is_service event.now }
{
    matches!(event, TraceLine::Int31 { .. })
}

// Whether it is that of a service that refused.
fn is_refusal(event: &TraceLine) -> bool
    ensures { result ≡ is_refusal event.now }
{
    match event {
        TraceLine::Int31 { carry, .. } => matches!(carry, Carry::Set),
        _ => false,
    }
}

// 1 where the line of that number is that of a service, else 0.
fn service_at(host: &Host, i: u32) -> u32
    ensures value { IfSome (slice_get host.now.world.kept i) (λ event. result ≡ cond (is_service event) 1 0) }
    ensures most { result ≤ 1 }
{
    match host.line(i) {
        Some(event) => u32::from(is_service(&event)),
        None => 0,
    }
}

// 1 where it is that of a service that refused, else 0.
fn refusal_at(host: &Host, i: u32) -> u32
    ensures value { IfSome (slice_get host.now.world.kept i) (λ event. result ≡ cond (is_refusal event) 1 0) }
    ensures most { result ≤ 1 }
{
    match host.line(i) {
        Some(event) => u32::from(is_refusal(&event)),
        None => 0,
    }
}

// The number of services whose lines are kept.
fn count_services(host: &Host) -> u32
    ensures { result ≡ count_by is_service host.now.world.kept }
{
    let mut count = 0;
    for i in 0..host.kept() {
        count += service_at(host, i);
    }
    count
}

// The number of those that refused.
fn count_refusals(host: &Host) -> u32
    ensures { result ≡ count_by is_refusal host.now.world.kept }
{
    let mut count = 0;
    for i in 0..host.kept() {
        count += refusal_at(host, i);
    }
    count
}

// The line of the services.
fn services_line_of(host: &Host) -> Line
    ensures { result.items ≡ services_line host.now.world.kept }
{
    services_line(count_services(host), count_refusals(host))
}

// The line of the console.
fn console_line_of(host: &Host) -> Line
    ensures { result.items ≡ console_line host.now.world.console }
{
    let console = host.console();
    let digest = Sha256::digest(console);
    console_digest_line(console.len() as u32, &digest)
}

// Puts the line of the number.
fn put_soak<O: Sink>(number: u64, out: &mut O) -> Result<(), SinkFail>
    ensures { Puts result O.taken O.faults out.old out.new (soak_head number) }
{
    let line = soak_line(number);
    put_all(out, line.as_slice())
}

// Puts the line of the services.
fn put_services<O: Sink>(host: &Host, out: &mut O) -> Result<(), SinkFail>
    ensures { Puts result O.taken O.faults out.old out.new (services_line host.now.world.kept) }
{
    let line = services_line_of(host);
    put_all(out, line.as_slice())
}

// Puts the line of the console.
fn put_console_digest<O: Sink>(host: &Host, out: &mut O) -> Result<(), SinkFail>
    ensures { Puts result O.taken O.faults out.old out.new (console_line host.now.world.console) }
{
    let line = console_line_of(host);
    put_all(out, line.as_slice())
}

// Puts the first three parts.
fn put_counts<O: Sink>(number: u64, host: &Host, exit: Exit, out: &mut O) -> Result<(), SinkFail>
    ensures { Puts result O.taken O.faults out.old out.new
        ((soak_head number ++ exit_part exit host.now.world.steps) ++ services_line host.now.world.kept) }
{
    put_soak(number, out)?;
    put_exit(host, exit, out)?;
    put_services(host, out)
}

// Puts the line of the DOS megabyte.
fn put_dos_of<O: Sink>(host: &Host, out: &mut O) -> Result<(), SinkFail>
    ensures { Puts result O.taken O.faults out.old out.new (dos_line host.now.world.machine.dos) }
{
    put_dos(host.machine(), out)
}

// Puts the last two.
fn put_digests<O: Sink>(host: &Host, out: &mut O) -> Result<(), SinkFail>
    ensures { Puts result O.taken O.faults out.old out.new (console_line host.now.world.console ++ dos_line host.now.world.machine.dos) }
{
    put_console_digest(host, out)?;
    put_dos_of(host, out)
}

/// Writes the summary of the run of the client that was made from a number, and that ended so. It takes no memory.
/// Where it fails a first part of the text was written, and the output's count of faults rose. Source: own.
pub fn write_summary<O: Sink>(
    number: u64,
    host: &Host,
    exit: Exit,
    out: &mut O,
) -> Result<(), SinkFail>
    requires { host.now.world.exit ≡ Some exit }
    ensures { Puts result O.taken O.faults out.old out.new (summary_at number host.now.world exit) }
{
    put_counts(number, host, exit, out)?;
    put_digests(host, out)
}
