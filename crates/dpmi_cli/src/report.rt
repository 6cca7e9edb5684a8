// The line of a refusal.
ghost use Rattle.std.specs.Prelude.{◌≡◌, ◌≤◌, length};
ghost use Rattle.dpmi_io.specs.Puts.{Puts};
ghost use Rattle.dpmi_cli.specs.Text.{client_text, fault_text, line_of_refusal, reason_text};

use crate::prepare::Reason;
use client_world::LoadFault;
use dpmi_io::{Line, Sink, SinkFail, add, put_all};
use pair_run::Letter;

// How a reason is written.
fn reason_name(reason: Reason) -> &'static [u8]
    ensures name { result.now ≡ reason_text reason }
    ensures short { length result.now ≤ 12 }
{
    match reason {
        Reason::Words => b"words",
        Reason::FileTooLong | Reason::FileTooLongOf(_) => b"FileTooLong",
        Reason::KeysTooLong => b"KeysTooLong",
        Reason::Load(fault) | Reason::LoadOf(_, fault) => fault_name(fault),
    }
}

// How a fault of the load is written.
fn fault_name(fault: LoadFault) -> &'static [u8]
    ensures name { result.now ≡ fault_text fault }
    ensures short { length result.now ≤ 12 }
{
    match fault {
        LoadFault::ShortHeader => b"ShortHeader",
        LoadFault::Signature => b"Signature",
        LoadFault::LastPage => b"LastPage",
        LoadFault::RelocTable => b"RelocTable",
        LoadFault::NoRoom => b"NoRoom",
        LoadFault::RelocTarget => b"RelocTarget",
        LoadFault::EntryOutside => b"EntryOutside",
    }
}

// Which client of a pair is refused.
fn client_name(reason: Reason) -> &'static [u8]
    ensures name { result.now ≡ client_text reason }
    ensures short { length result.now ≤ 2 }
{
    match reason {
        Reason::FileTooLongOf(Letter::A) | Reason::LoadOf(Letter::A, _) => b"a ",
        Reason::FileTooLongOf(Letter::B) | Reason::LoadOf(Letter::B, _) => b"b ",
        _ => b"",
    }
}

// The line of a refusal.
fn refusal_line(reason: Reason) -> Line
    ensures { result.items ≡ line_of_refusal reason }
{
    let mut line = Line::new();
    add(&mut line, b"refused ");
    add(&mut line, client_name(reason));
    add(&mut line, reason_name(reason));
    add(&mut line, b"\n");
    line
}

/// Writes the line of a refusal. It takes no memory. Where it fails a prefix of the line was written, and the output's count of faults
/// rose. Source: own.
pub fn write_refusal<O: Sink>(reason: Reason, out: &mut O) -> Result<(), SinkFail>
    ensures { Puts result O.taken O.faults out.old out.new (line_of_refusal reason) }
{
    let line = refusal_line(reason);
    put_all(out, line.as_slice())
}
