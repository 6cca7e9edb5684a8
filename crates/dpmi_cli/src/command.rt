// The command.
ghost use Rattle.std.specs.Prelude.{◌≡◌, ◌≢◌, ◌≤◌, ◌<◌, ◌⊎◌, map, string_bytes, Some, IfSome};
ghost use Rattle.client_world.specs.WatchWorld.{no_watches};
ghost use Rattle.dpmi_words.specs.Meaning.{meaning};
ghost use Rattle.dpmi_io.specs.{Causes.{Rose}, Content.{Gains, Number}};
ghost use Rattle.dpmi_cli.specs.{Answer.{answer, run_status}, Answer.Verdict.{Refuses, Starts, StartsMade, StartsPair}};
ghost use Rattle.dpmi_cli.specs.{Causes.{NamedFailed, IsAbsent, HasVerdict, Answers}, Load.{IsNew, verdict_in}};

use crate::laws::every_run_keeps_the_laws;
use crate::pairs::write_turns;
use crate::prepare::{Prepared, Reason, Stop, prepare};
use crate::report::write_refusal;
use crate::runs::run_to_end;
use crate::status::{ENDED_OTHERWISE, FILE_FAILED, NO_MEMORY, OUTPUT_FAILED, REFUSED};
use crate::watched_host::WatchedHost;
use client_world::limits::DEFAULT_BOUND;
use dpmi_io::{Shelf, Sink, SureShelf, SureSink};
use dpmi_report::{exit_status, write_all_of, write_summary};
use host_run::Host;
use pair_run::{
    a_slice_adds_its_gain, an_ended_client_is_silent, each_client_writes_its_own_lines,
    own_lines_hold_the_console,
};
use std::alloc::Global;
use watch_run::watched_run;

// Refuses for a reason; a line that the output doesn't take changes no status.
fn refuse<O: Sink>(reason: Reason, out: &mut O) -> u8
    ensures answers { Answers (Refuses reason) (O.taken out.old) (O.taken out.new) (O.faults out.old) (O.faults out.new) result }
    ensures status { result ≡ REFUSED }
{
    let _ = write_refusal(reason, out);
    REFUSED
}

// Runs a client that is loaded up to a bound, and writes its text.
fn run_client<O: Sink>(host: &mut Host, timer: Option<u32>, bound: u32, out: &mut O) -> u8
    requires { IsNew (Starts host.old.world timer bound) }
    ensures answers { Answers (Starts host.old.world timer bound) (O.taken out.old) (O.taken out.new) (O.faults out.old)
        (O.faults out.new) result }
    ensures status { result ≤ OUTPUT_FAILED }
    ensures no_file_failed { result ≢ FILE_FAILED }
    ensures put { result < REFUSED → O.faults out.new ≡ O.faults out.old }
{
    every_run_keeps_the_laws();
    let exit = run_to_end(host, timer, bound);
    match write_all_of(host, out) {
        Ok(()) => exit_status(exit),
        Err(_) => OUTPUT_FAILED,
    }
}

// Runs a made client that is loaded, and writes the summary.
fn run_made_client<O: Sink>(host: &mut Host, number: u64, out: &mut O) -> u8
    requires { IsNew (StartsMade number host.old.world) }
    ensures answers { Answers (StartsMade number host.old.world) (O.taken out.old) (O.taken out.new) (O.faults out.old)
        (O.faults out.new) result }
    ensures status { result ≤ OUTPUT_FAILED }
    ensures no_file_failed { result ≢ FILE_FAILED }
    ensures put { result < REFUSED → O.faults out.new ≡ O.faults out.old }
{
    every_run_keeps_the_laws();
    let exit = watched_run(host, DEFAULT_BOUND);
    match write_summary(number, host, exit, out) {
        Ok(()) => exit_status(exit),
        Err(_) => OUTPUT_FAILED,
    }
}

// The status of a run that has ended.
fn status_of_run(host: &Host) -> u8
    ensures { result ≡ run_status host.now.world }
{
    match host.exit() {
        Some(exit) => exit_status(exit),
        None => ENDED_OTHERWISE,
    }
}

// Runs two hosts whose clients have no watchpoint in turns, and writes the text of the pair.
fn run_in_turns<O: Sink>(
    a: &mut WatchedHost,
    b: &mut WatchedHost,
    slice: u32,
    bound: u32,
    out: &mut O,
) -> u8
    requires new { IsNew (StartsPair slice bound a.old.host.world b.old.host.world) }
    requires watches { (a.old.watches ≡ no_watches) × (b.old.watches ≡ no_watches) }
    ensures answers { Answers (StartsPair slice bound a.old.host.world b.old.host.world)
        (O.taken out.old) (O.taken out.new) (O.faults out.old) (O.faults out.new) result }
    ensures status { result ≤ OUTPUT_FAILED }
    ensures no_file_failed { result ≢ FILE_FAILED }
    ensures put { result < REFUSED → O.faults out.new ≡ O.faults out.old }
{
    every_run_keeps_the_laws();
    each_client_writes_its_own_lines::<WatchedHost>();
    own_lines_hold_the_console::<WatchedHost>();
    a_slice_adds_its_gain::<WatchedHost>();
    an_ended_client_is_silent::<WatchedHost>();
    match write_turns(a, b, slice, bound, out) {
        Ok(()) => status_of_run(&a.host).max(status_of_run(&b.host)),
        Err(_) => OUTPUT_FAILED,
    }
}

// Runs two clients that are loaded in turns, and writes the text of the pair.
fn run_pair<O: Sink>(a: Host, b: Host, slice: u32, bound: u32, out: &mut O) -> u8
    requires { IsNew (StartsPair slice bound a.world b.world) }
    ensures answers { Answers (StartsPair slice bound a.world b.world)
        (O.taken out.old) (O.taken out.new) (O.faults out.old) (O.faults out.new) result }
    ensures status { result ≤ OUTPUT_FAILED }
    ensures no_file_failed { result ≢ FILE_FAILED }
    ensures put { result < REFUSED → O.faults out.new ≡ O.faults out.old }
{
    let mut a = WatchedHost::new(a);
    let mut b = WatchedHost::new(b);
    run_in_turns(&mut a, &mut b, slice, bound, out)
}

// Answers what the words and the files came to.
fn answer_prepared<O: Sink>(prepared: Prepared, out: &mut O) -> u8
    requires { IsNew (verdict_in prepared) }
    ensures answers { Answers (verdict_in prepared) (O.taken out.old) (O.taken out.new) (O.faults out.old) (O.faults out.new) result }
    ensures status { result ≤ OUTPUT_FAILED }
    ensures no_file_failed { result ≢ FILE_FAILED }
    ensures put { result < REFUSED → O.faults out.new ≡ O.faults out.old }
{
    match prepared {
        Prepared::Refused(reason) => refuse(reason, out),
        Prepared::Run(mut host, timer, bound) => run_client(&mut host, timer, bound, out),
        Prepared::Soak(mut host, number) => run_made_client(&mut host, number, out),
        Prepared::Pair(a, b, slice, bound) => run_pair(a, b, slice, bound, out),
    }
}

/// All that the program does, with the words after its name, the files and the output. Returns the status: 0 and 1
/// for a run by its exit, for a pair by both exits, 2 for a refusal, 3 where a file that the words name failed or isn't there, 4 where the
/// output failed, 5 where memory ran out. With 3 and 5 nothing is written. All memory is taken before the load.
/// The words are `run FILE`, `soak N` or `pair A B`, each with the options that `dpmi_words` lists.
/// Source: own.
pub fn dpmi<F: Shelf, O: Sink>(alloc: Global, words: &[String], shelf: &mut F, out: &mut O) -> u8
    ensures answers { result ≢ FILE_FAILED → result ≢ NO_MEMORY →
        HasVerdict (map string_bytes words.now) (F.files shelf.old)
        (λ v. Answers v (O.taken out.old) (O.taken out.new) (O.faults out.old) (O.faults out.new) result) }
    ensures file_failure_has_cause { result ≡ FILE_FAILED →
        NamedFailed (map string_bytes words.now) (F.faults shelf.old) (F.faults shelf.new) (F.blamed shelf.new)
        ⊎ IsAbsent (map string_bytes words.now) (F.files shelf.old) }
    ensures output_failure_has_cause { result ≡ OUTPUT_FAILED → Rose (O.faults out.old) (O.faults out.new) }
    ensures nothing_written { (result ≡ FILE_FAILED) ⊎ (result ≡ NO_MEMORY) →
        O.taken out.new ≡ O.taken out.old }
    ensures a_failure_is_answered { result ≢ FILE_FAILED → F.faults shelf.new ≡ F.faults shelf.old }
    ensures a_run_is_put_without_failure { result < REFUSED → O.faults out.new ≡ O.faults out.old }
    ensures known { result ≤ NO_MEMORY }

    // Where no file that the words name fails, nor the output, and the files are known.
    ensures answers_when_it_can { (NamedFailed (map string_bytes words.now) (F.faults shelf.old) (F.faults shelf.new)
        (F.blamed shelf.new) → ⊥) →
        (Rose (O.faults out.old) (O.faults out.new) → ⊥) →
        IfSome (F.files shelf.old) (λ files. IfSome (answer (map string_bytes words.now) files)
        (λ a. (result ≡ NO_MEMORY)
        ⊎ ((result ≡ a.status) × Gains (O.taken out.old) (O.taken out.new) a.text))) }
    ensures ends_without_failure { (NamedFailed (map string_bytes words.now) (F.faults shelf.old) (F.faults shelf.new)
        (F.blamed shelf.new) → ⊥) →
        (IsAbsent (map string_bytes words.now) (F.files shelf.old) → ⊥) →
        (Rose (O.faults out.old) (O.faults out.new) → ⊥) →
        (result ≤ REFUSED) ⊎ (result ≡ NO_MEMORY) }
    ensures wrong_words_are_refused { meaning (map string_bytes words.now) ≡ None →
        (result ≡ NO_MEMORY)
        ⊎ Answers (Refuses Reason.Words)
        (O.taken out.old) (O.taken out.new) (O.faults out.old) (O.faults out.new) result }
{
    match prepare(alloc, words, shelf) {
        Ok(prepared) => answer_prepared(prepared, out),
        Err(Stop::Shelf) => FILE_FAILED,
        Err(Stop::Memory) => NO_MEMORY,
    }
}

/// `dpmi` over one file that is there under every name, and an output that takes every byte: no call of these fails. The status is that of
/// the answer, 0, 1 or 2, or 5 where memory runs out. Source: own.
pub fn dpmi_without_failure(
    alloc: Global,
    words: &[String],
    shelf: &mut SureShelf,
    out: &mut SureSink,
) -> u8
    ensures status { (result ≤ REFUSED) ⊎ (result ≡ NO_MEMORY) }
    ensures answers { IfSome (answer (map string_bytes words.now) (λ _. Some shelf.old.bytes)) (λ a. (result ≡ NO_MEMORY)
        ⊎ ((result ≡ a.status) × Gains (Number out.old) (Number out.new) a.text)) }
{
    dpmi(alloc, words, shelf, out)
}
