// Two clients that take turns in slices.
ghost use Rattle.std.specs.Prelude.{◌≡◌, ◌≤◌, ◌<◌, ◌+◌, ℕ, length, drop, is_some, None, IfOk, OnOk, OnErr, IsSome};
ghost use Rattle.client_world.specs.declared.limits.TheConstants.{MAX_SLICE, MAX_STEPS};
ghost use Rattle.dpmi_io.specs.Puts.{Puts};
ghost use Rattle.pair_run.specs.{Run.{IsFirst, run_of, turns_of}, Slices.{lines_text, own_run, pair_head, pair_lines, slice_head}};
ghost use Rattle.pair_run.specs.Slices.{slices_text, line_if_any};

use crate::Turns;
use crate::lines::{Letter, pair_head, slice_head};
use dpmi_io::{Sink, SinkFail, put_all};

// Puts the first line.
fn put_head<O: Sink>(slice: u32, out: &mut O) -> Result<(), SinkFail>
    ensures { Puts result O.taken O.faults out.old out.new (pair_head slice) }
{
    let line = pair_head(slice);
    put_all(out, line.as_slice())
}

// Puts the line before the bytes of a slice.
fn put_slice_head<O: Sink>(
    number: u32,
    client: Letter,
    count: u64,
    out: &mut O,
) -> Result<(), SinkFail>
    ensures { Puts result O.taken O.faults out.old out.new (slice_head number client count) }
{
    let line = slice_head(number, client, count);
    put_all(out, line.as_slice())
}

// Puts the bytes that a client wrote in a slice, after a line of their own; nothing where there are none.
fn put_slice<O: Sink>(
    number: u32,
    client: Letter,
    bytes: &[u8],
    out: &mut O,
) -> Result<(), SinkFail>
    ensures { Puts result O.taken O.faults out.old out.new (lines_text (line_if_any number client bytes.now)) }
{
    if bytes.is_empty() {
        return Ok(());
    }
    put_slice_head(number, client, bytes.len() as u64, out)?;
    put_all(out, bytes)?;
    put_all(out, b"\n")
}

// The bytes from a place on.
fn rest_from(console: &[u8], at: usize) -> &[u8]
    requires { at ≤ length console.now }
    ensures { result.now ≡ drop at console.now }
{
    &console[at..]
}

// A client makes a slice of turns, and what it wrote in them is put. Returns whether it has ended.
fn make_slice<T: Turns, O: Sink>(
    client: &mut T,
    letter: Letter,
    number: u32,
    turns: u32,
    out: &mut O,
) -> Result<bool, SinkFail>
    requires { T.exit_of (T.world client.old) ≡ None → T.steps_of (T.world client.old) + turns ≤ MAX_STEPS }
    ensures world { T.world client.new ≡ turns_of T.turn turns (T.world client.old) }
    ensures ended { IfOk result (λ ended. ended ≡ is_some (T.exit_of (T.world client.new))) }
    ensures puts { Puts result O.taken O.faults out.old out.new (lines_text
        (line_if_any number letter (drop (length (T.console_of (T.world client.old))) (T.console_of (T.world client.new))))) }
{
    let before = client.console().len();
    let ended = client.go(turns).is_some();
    put_slice(number, letter, rest_from(client.console(), before), out)?;
    Ok(ended)
}

// Ends the run of a client that has made all of its turns.
fn end_run<T: Turns>(client: &mut T)
    requires { T.exit_of (T.world client.old) ≡ None → T.steps_of (T.world client.old) ≤ MAX_STEPS }
    ensures { T.world client.new ≡ run_of T.turn T.closed T.exit_of 0 (T.world client.old) }
{
    if client.go(0).is_none() {
        client.close();
    }
}

// Two clients make their turns, slice by slice, the first one's before the second one's, and what each wrote in a slice is put.
fn run_slices<T: Turns, O: Sink>(
    a: &mut T,
    b: &mut T,
    slice: u32,
    bound: u32,
    out: &mut O,
) -> Result<(), SinkFail>
    requires some_turns { 0 < slice }
    requires bound { bound ≤ MAX_STEPS }
    requires first_a { IsFirst T.console_of T.exit_of T.steps_of (T.world a.old) }
    requires first_b { IsFirst T.console_of T.exit_of T.steps_of (T.world b.old) }
    ensures ran_a { OnOk result (T.world a.new ≡ turns_of T.turn bound (T.world a.old)) }
    ensures ran_b { OnOk result (T.world b.new ≡ turns_of T.turn bound (T.world b.old)) }
    ensures some_a { OnErr result ((n : ℕ) × (n ≤ bound) × (T.world a.new ≡ turns_of T.turn n (T.world a.old))) }
    ensures some_b { OnErr result ((n : ℕ) × (n ≤ bound) × (T.world b.new ≡ turns_of T.turn n (T.world b.old))) }
    ensures puts { Puts result O.taken O.faults out.old out.new (lines_text (pair_lines slice
        (own_run T.turn T.console_of T.steps_of bound (T.world a.old)) (own_run T.turn T.console_of T.steps_of bound (T.world b.old)))) }
{
    let mut number = 0;
    let mut done = 0;
    let mut ended = false;
    while done < bound && !ended {
        let turns = slice.min(bound - done);
        let a_ended = make_slice(a, Letter::A, number, turns, out)?;
        let b_ended = make_slice(b, Letter::B, number, turns, out)?;
        ended = a_ended && b_ended;
        done += turns;
        number += 1;
    }
    Ok(())
}

/// Two clients take turns, a slice of each in its turn, until each has ended or made as many turns as its bound. What each one writes in a
/// slice is put after the slice, so that the output shows the order. Each client is left at the end of its own run, with its exit.
/// It takes no memory. Where the output fails a prefix of those lines was written, its count of faults rose, and each client has made some
/// turns of its run. Source: own.
pub fn pair<T: Turns, O: Sink>(
    a: &mut T,
    b: &mut T,
    slice: u32,
    bound: u32,
    out: &mut O,
) -> Result<(), SinkFail>
    requires some_turns { 0 < slice }
    requires slice { slice ≤ MAX_SLICE }
    requires some_bound { 0 < bound }
    requires bound { bound ≤ MAX_STEPS }
    requires first_a { IsFirst T.console_of T.exit_of T.steps_of (T.world a.old) }
    requires first_b { IsFirst T.console_of T.exit_of T.steps_of (T.world b.old) }
    ensures end_a { OnOk result (T.world a.new ≡ run_of T.turn T.closed T.exit_of bound (T.world a.old)) }
    ensures end_b { OnOk result (T.world b.new ≡ run_of T.turn T.closed T.exit_of bound (T.world b.old)) }
    ensures exits { OnOk result (IsSome (T.exit_of (T.world a.new)) × IsSome (T.exit_of (T.world b.new))) }
    ensures some_a { OnErr result ((n : ℕ) × (n ≤ bound) × (T.world a.new ≡ turns_of T.turn n (T.world a.old))) }
    ensures some_b { OnErr result ((n : ℕ) × (n ≤ bound) × (T.world b.new ≡ turns_of T.turn n (T.world b.old))) }
    ensures puts { Puts result O.taken O.faults out.old out.new (slices_text slice
        (own_run T.turn T.console_of T.steps_of bound (T.world a.old)) (own_run T.turn T.console_of T.steps_of bound (T.world b.old))) }
{
    put_head(slice, out)?;
    run_slices(a, b, slice, bound, out)?;
    end_run(a);
    end_run(b);
    Ok(())
}
