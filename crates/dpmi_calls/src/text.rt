// The text of a run, in the caller's memory.
ghost use Rattle.std.specs.Prelude.{◌≡◌, ◌≤◌, ◌<◌, ◌⊎◌, take, length};
ghost use Rattle.client_world.specs.declared.limits.TheConstants.{MAX_STEPS};
ghost use Rattle.dpmi_cli.specs.{Answer.{Refuses, Starts, answer_to}, Load.{CanTick, IsReady}};
ghost use Rattle.dpmi_io.specs.Content.{Bytes, Gains, GainsPart};
ghost use Rattle.dpmi_calls.specs.{Clients.{answer_of, given}, declared.outcome.TheConstants.{NO_MEMORY, NO_ROOM, REFUSED}};

use crate::outcome::{NO_MEMORY, NO_ROOM, REFUSED};
use crate::start::{Client, load_client, timer_given};
use dpmi_cli::{Reason, run_to_end, write_refusal};
use dpmi_io::MemSink;
use dpmi_report::{exit_status, write_all_of};
use host_run::Host;
use std::alloc::Global;

// Runs a client that is loaded, and writes its text. Returns its status, or `NO_ROOM` where the text wasn't taken whole.
fn run_client(host: &mut Host, timer: Option<u32>, bound: u32, out: &mut MemSink) -> u8
    requires ready { IsReady host.old.world }
    requires bound { bound ≤ MAX_STEPS }
    requires timer { CanTick timer }
    ensures text { result ≤ REFUSED →
        Gains (Bytes out.old.taken) (Bytes out.new.taken) (answer_to (Starts host.old.world timer bound)).text }
    ensures status { result ≤ REFUSED → result ≡ (answer_to (Starts host.old.world timer bound)).status }
    ensures part { result ≡ NO_ROOM →
        GainsPart (Bytes out.old.taken) (Bytes out.new.taken) (answer_to (Starts host.old.world timer bound)).text }
    ensures known { (result ≤ REFUSED) ⊎ (result ≡ NO_ROOM) }
{
    let exit = run_to_end(host, timer, bound);
    match write_all_of(host, out) {
        Ok(()) => exit_status(exit),
        Err(_) => NO_ROOM,
    }
}

// Writes the line of a client's refusal. Returns its status, or `NO_ROOM` where the line wasn't taken whole.
fn refuse_client(reason: Reason, out: &mut MemSink) -> u8
    ensures text { result ≤ REFUSED → Gains (Bytes out.old.taken) (Bytes out.new.taken) (answer_to (Refuses reason)).text }
    ensures status { result ≤ REFUSED → result ≡ (answer_to (Refuses reason)).status }
    ensures part { result ≡ NO_ROOM → GainsPart (Bytes out.old.taken) (Bytes out.new.taken) (answer_to (Refuses reason)).text }
    ensures known { (result ≤ REFUSED) ⊎ (result ≡ NO_ROOM) }
{
    match write_refusal(reason, out) {
        Ok(()) => REFUSED,
        Err(_) => NO_ROOM,
    }
}

// Runs a client, or refuses it, and writes its text. Returns the status, or `NO_ROOM` where the text wasn't taken whole.
fn answer_client(
    alloc: Global,
    client: &Client<'_>,
    bound: u32,
    trace: u32,
    out: &mut MemSink,
) -> u8
    ensures text { result ≤ REFUSED → Gains (Bytes out.old.taken) (Bytes out.new.taken) (answer_of (given client.now) bound trace).text }
    ensures status { result ≤ REFUSED → result ≡ (answer_of (given client.now) bound trace).status }
    ensures part { result ≡ NO_ROOM →
        GainsPart (Bytes out.old.taken) (Bytes out.new.taken) (answer_of (given client.now) bound trace).text }
    ensures known { (result ≤ REFUSED) ⊎ (result ≡ NO_ROOM) ⊎ (result ≡ NO_MEMORY) }
{
    match load_client(alloc, client, bound, trace) {
        Ok(Ok(mut host)) => run_client(&mut host, timer_given(client.timer), bound, out),
        Ok(Err(reason)) => refuse_client(reason, out),
        Err(_) => NO_MEMORY,
    }
}

/// Writes what the command `dpmi run` writes of a client, whose run has at most `bound` turns, up to 1,000,000,000, and whose trace keeps
/// `trace` lines, up to 10,000: they are the first `written` bytes of `text`. A bound of 0, which the command refuses, gives the report
/// before the first turn. Returns the command's status: 0 where the client ended
/// itself, 1 where its run ended otherwise, 2 where it is refused, and then the text is the line of the refusal. Or 4 where the text
/// is longer than `text`, 5 when out of memory; `written` is 0 then. Source: own.
#[tactic(auto, using(crate::proofs::Texts::same_bytes, crate::proofs::Texts::longer, crate::proofs::Texts::front_is))]
pub fn write_text(
    alloc: Global,
    client: &Client<'_>,
    bound: u32,
    trace: u32,
    text: &mut [u8],
    written: &mut usize,
) -> u8
    ensures text { result ≤ REFUSED → take written.new text.new ≡ (answer_of (given client.now) bound trace).text }
    ensures status { result ≤ REFUSED → result ≡ (answer_of (given client.now) bound trace).status }
    ensures few { written.new ≤ length text.new }
    ensures nothing { (result ≤ REFUSED) ⊎ (written.new ≡ 0) }
    ensures room { result ≡ NO_ROOM → length text.new < length (answer_of (given client.now) bound trace).text }
    ensures known { (result ≤ REFUSED) ⊎ (result ≡ NO_ROOM) ⊎ (result ≡ NO_MEMORY) }
{
    *written = 0;
    let most = text.len();
    // The sink has room for one byte more: where it takes that one, the text is longer.
    let Ok(mut out) = MemSink::new(alloc, most + 1, most + 1) else {
        return NO_MEMORY;
    };
    let status = answer_client(alloc, client, bound, trace, &mut out);
    if status == NO_MEMORY {
        return NO_MEMORY;
    }
    let bytes = out.bytes();
    let count = bytes.len();
    if count > most {
        return NO_ROOM;
    }
    if status > REFUSED {
        return NO_MEMORY;
    }
    text[..count].copy_from_slice(bytes);
    *written = count;
    status
}
