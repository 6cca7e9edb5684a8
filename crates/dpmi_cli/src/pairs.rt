// Two hosts that take turns, and what they write.
ghost use Rattle.std.specs.Prelude.{◌≡◌, OnOk, IsSome};
ghost use Rattle.client_world.specs.WatchWorld.{no_watches};
ghost use Rattle.watch_run.specs.Turn.{watched_run};
ghost use Rattle.dpmi_io.specs.Puts.{Puts};
ghost use Rattle.dpmi_cli.specs.{Answer.Verdict.{StartsPair}, Load.{IsNew}, Pairs.{client_line, client_part, pair_text}};

use crate::watched_host::WatchedHost;
use dpmi_io::{Line, Sink, SinkFail, add, put_all};
use dpmi_report::write_all_of;
use host_run::Host;
use pair_run::{Letter, pair};

// The line before the text of a client.
fn client_line_of(client: Letter) -> Line
    ensures { result.items ≡ client_line client }
{
    let mut line = Line::new();
    add(&mut line, b"client ");
    match client {
        Letter::A => add(&mut line, b"a"),
        Letter::B => add(&mut line, b"b"),
    }
    add(&mut line, b"\n");
    line
}

// Puts the line before the text of a client.
fn put_client_line<O: Sink>(client: Letter, out: &mut O) -> Result<(), SinkFail>
    ensures { Puts result O.taken O.faults out.old out.new (client_line client) }
{
    let line = client_line_of(client);
    put_all(out, line.as_slice())
}

// Writes the text of a client whose run has ended.
fn write_client<O: Sink>(client: Letter, host: &Host, out: &mut O) -> Result<(), SinkFail>
    requires { IsSome host.now.world.exit }
    ensures { Puts result O.taken O.faults out.old out.new (client_part client host.now.world) }
{
    put_client_line(client, out)?;
    write_all_of(host, out)
}

/// Runs two clients that are loaded in turns, and writes what they wrote slice by slice and then the text of each. Where it fails a prefix
/// of it was written, and the output's count of faults rose. Source: own.
pub fn write_turns<O: Sink>(
    a: &mut WatchedHost,
    b: &mut WatchedHost,
    slice: u32,
    bound: u32,
    out: &mut O,
) -> Result<(), SinkFail>
    requires new { IsNew (StartsPair slice bound a.old.host.world b.old.host.world) }
    requires watches { (a.old.watches ≡ no_watches) × (b.old.watches ≡ no_watches) }
    ensures end_a { OnOk result (a.new.host.world ≡ watched_run a.old.host.world bound) }
    ensures end_b { OnOk result (b.new.host.world ≡ watched_run b.old.host.world bound) }
    ensures puts { Puts result O.taken O.faults out.old out.new (pair_text slice bound a.old.host.world b.old.host.world) }
{
    pair(a, b, slice, bound, out)?;
    write_client(Letter::A, &a.host, out)?;
    write_client(Letter::B, &b.host, out)
}
