// What comes before the run: the words, the files, the memory and the load.
ghost use Rattle.std.specs.Prelude.{◌≡◌, ◌≤◌, ◌<◌, ◌⊎◌, [], map, string_bytes, None, Some, length, take, option_map, IfOk, IfErr, OnOk};
ghost use Rattle.std.specs.Prelude.{OnErr, IsErrOf};
ghost use Rattle.client_world.specs.declared.limits.TheConstants.{DEFAULT_TRACE, MAX_FILE, MAX_KEYS, MAX_PAGES, MAX_TRACE};
ghost use Rattle.dpmi_words.specs.Meaning.{keys_in, pair_in, run_in};
ghost use Rattle.host_run.specs.Start.{blank, host_at_start};
ghost use Rattle.mz_loader.specs.Refusal.{refusal};
ghost use Rattle.dpmi_cli.specs.{Answer.{first_load, bytes_within, load_verdict, made_verdict, second_load}, Causes.{NamedFailed}};
ghost use Rattle.dpmi_cli.specs.{Causes.{IsAbsent, HasVerdict}, Load.{HasFront, HasFile, HasPressed, FailsAt, KeysFail, RunFails}};
ghost use Rattle.dpmi_cli.specs.Load.{HasKeysVerdict, HasRunVerdict, HasPairVerdict, HasSecondVerdict, HasRanges, HasPairRanges, PairFails};
ghost use Rattle.dpmi_cli.specs.{Load.{verdict_in, IsReady, IsNew, StaysUnlessFailed}, declared.prepare.Stop.TheVariants.{Memory}};

use client_maker::make;
use client_world::LoadFault;
use client_world::limits::{DEFAULT_PAGES, DEFAULT_TRACE, MAX_FILE, MAX_KEYS, MAX_TRACE};
use dpmi_io::{Shelf, ShelfFail, read_whole};
use dpmi_words::{KeySource, Pair, Run, Words, read_words};
use guest_space::are_bytes;
use host_run::Host;
use pair_run::Letter;
use std::alloc::{AllocError, Global};

/// Why the words, a file or the keystrokes are refused. Source: own.
#[derive(Clone, Copy, Debug, PartialEq, Eq)]
pub enum Reason {
    Words,
    FileTooLong,
    KeysTooLong,
    Load(LoadFault),
    /// The file of this client of a pair is too long.
    FileTooLongOf(Letter),
    /// The load of this client of a pair is refused.
    LoadOf(Letter, LoadFault),
}

/// What the words and the files come to: a refusal; a host with the client loaded, its timer, if there is one, and the bound of its run; a
/// host with a made client loaded and its number; or two clients that are loaded, the turns of a slice and the bound of each run.
#[derive(Drop)]
pub enum Prepared {
    Refused(Reason),
    Run(Host, Option<u32>, u32),
    Soak(Host, u64),
    Pair(Host, Host, u32, u32),
}

/// Why there is no answer: out of memory, or a file failed or wasn't there.
#[derive(Clone, Copy, Debug, PartialEq, Eq)]
pub enum Stop {
    Memory,
    Shelf,
}

impl From<AllocError> for Stop {
    ghost from_gives = { λ _ stop. stop ≡ Memory };

    fn from(_: AllocError) -> Self {
        Stop::Memory
    }
}

// Reads the first bytes of a file, as many as the buffer holds.
fn read_front<F: Shelf>(shelf: &mut F, name: String, buf: &mut [u8]) -> Result<usize, ShelfFail>
    ensures bound { IfOk result (λ n. n ≤ length buf.new) }
    ensures bytes { IfOk result (λ n.
        HasFront (length buf.old) (F.files shelf.old) (string_bytes name) (take n buf.new)) }
    ensures files { F.files shelf.new ≡ F.files shelf.old }
    ensures quiet { OnOk result (F.faults shelf.new ≡ F.faults shelf.old) }
    ensures failed { OnErr result
        (FailsAt (F.files shelf.old) (string_bytes name) (F.faults shelf.old) (F.faults shelf.new) (F.blamed shelf.new)) }
{
    shelf.open(name)?;
    read_whole(shelf, buf)
}

// Reads a file of at most so many bytes. Returns None where it is longer, after one byte more.
fn read_file<F: Shelf>(
    alloc: Global,
    name: &str,
    most: u32,
    shelf: &mut F,
) -> Result<Option<Vec<u8>>, Stop>
    requires { most ≤ MAX_FILE }
    ensures bytes { IfOk result (λ read.
        HasFile most (F.files shelf.old) name.now (option_map (λ v. v.items) read)) }
    ensures files { F.files shelf.new ≡ F.files shelf.old }
    ensures quiet { StaysUnlessFailed result (F.faults shelf.old) (F.faults shelf.new) }
    ensures failed { IsErrOf result Stop.Shelf →
        FailsAt (F.files shelf.old) name.now (F.faults shelf.old) (F.faults shelf.new) (F.blamed shelf.new) }
{
    let name = String::from_str(alloc, name)?;
    let mut bytes = vec![in alloc; 0; most as usize + 1]?;
    let n = match read_front(shelf, name, &mut bytes) {
        Ok(n) => n,
        Err(_) => return Err(Stop::Shelf),
    };
    if n > most as usize {
        return Ok(None);
    }
    bytes.truncate(n);
    Ok(Some(bytes))
}

// The keystrokes of the words, where they aren't too many.
fn take_pressed(alloc: Global, bytes: &[u8]) -> Result<Option<Vec<u8>>, AllocError>
    ensures { IfOk result (λ read. option_map (λ v. v.items) read ≡ bytes_within MAX_KEYS bytes.now) }
{
    if bytes.len() > MAX_KEYS as usize {
        return Ok(None);
    }
    let mut taken = Vec::new(alloc);
    taken.extend_from_slice(bytes)?;
    Ok(Some(taken))
}

// The keystrokes of a run. Returns None where they are too many.
fn read_keys<F: Shelf>(
    alloc: Global,
    keys: &KeySource<'_>,
    shelf: &mut F,
) -> Result<Option<Vec<u8>>, Stop>
    ensures keys { IfOk result (λ read.
        HasPressed (F.files shelf.old) (keys_in keys.now) (option_map (λ v. v.items) read)) }
    ensures quiet { StaysUnlessFailed result (F.faults shelf.old) (F.faults shelf.new) }
    ensures failed { IsErrOf result Stop.Shelf →
        KeysFail (F.files shelf.old) (keys_in keys.now) (F.faults shelf.old) (F.faults shelf.new) (F.blamed shelf.new) }
{
    match keys {
        KeySource::Pressed(bytes) => Ok(take_pressed(alloc, bytes.as_slice())?),
        KeySource::Stored(name) => read_file(alloc, name, MAX_KEYS, shelf),
    }
}

/// A new host, with the client of a file loaded, or why it isn't loaded. Fails when out of memory. Source: own.
pub fn start_host(
    alloc: Global,
    pages: u32,
    keys: &[u8],
    trace: u32,
    file: &[u8],
) -> Result<Result<Host, LoadFault>, AllocError>
    requires some_pages { 0 < pages }
    requires pages { pages ≤ MAX_PAGES }
    requires keys { length keys.now ≤ MAX_KEYS }
    requires trace { trace ≤ MAX_TRACE }
    ensures refused { IfOk result (λ r. IfErr r (λ fault. refusal file.now ≡ Some fault)) }
    ensures taken { IfOk result (λ r. OnOk r (refusal file.now ≡ None)) }
    ensures started { IfOk result (λ r. IfOk r (λ host. host.world ≡ host_at_start pages keys.now trace file.now)) }
    ensures ready { IfOk result (λ r. IfOk r (λ host. IsReady host.world)) }
{
    are_bytes(keys);
    let mut host = Host::new(alloc, pages, keys, trace)?;
    match host.load(file) {
        Ok(()) => Ok(Ok(host)),
        Err(fault) => Ok(Err(fault)),
    }
}

// Loads the client of a run.
fn load_run(alloc: Global, run: &Run<'_>, file: &[u8], keys: &[u8]) -> Result<Prepared, AllocError>
    requires ranges { HasRanges (run_in run.now) }
    requires keys { length keys.now ≤ MAX_KEYS }
    ensures verdict { IfOk result (λ p. load_verdict (run_in run.now) file.now keys.now ≡ verdict_in p) }
    ensures new { IfOk result (λ p. IsNew (verdict_in p)) }
{
    match start_host(alloc, run.pages, keys, run.trace, file)? {
        Ok(host) => Ok(Prepared::Run(host, run.timer, run.bound)),
        Err(fault) => Ok(Prepared::Refused(Reason::Load(fault))),
    }
}

// Reads the keystrokes of a run, and loads its client.
fn prepare_keys<F: Shelf>(
    alloc: Global,
    run: &Run<'_>,
    file: &[u8],
    shelf: &mut F,
) -> Result<Prepared, Stop>
    requires { HasRanges (run_in run.now) }
    ensures verdict { IfOk result (λ p. HasKeysVerdict (F.files shelf.old) (run_in run.now) file.now (verdict_in p)) }
    ensures new { IfOk result (λ p. IsNew (verdict_in p)) }
    ensures quiet { StaysUnlessFailed result (F.faults shelf.old) (F.faults shelf.new) }
    ensures failed { IsErrOf result Stop.Shelf →
        KeysFail (F.files shelf.old) (keys_in run.now.keys) (F.faults shelf.old) (F.faults shelf.new) (F.blamed shelf.new) }
{
    match read_keys(alloc, &run.keys, shelf)? {
        Some(keys) => Ok(load_run(alloc, run, file, keys.as_slice())?),
        None => Ok(Prepared::Refused(Reason::KeysTooLong)),
    }
}

// Reads the files of a run, and loads its client.
fn prepare_run<F: Shelf>(alloc: Global, run: &Run<'_>, shelf: &mut F) -> Result<Prepared, Stop>
    requires { HasRanges (run_in run.now) }
    ensures verdict { IfOk result (λ p. HasRunVerdict (F.files shelf.old) (run_in run.now) (verdict_in p)) }
    ensures new { IfOk result (λ p. IsNew (verdict_in p)) }
    ensures quiet { StaysUnlessFailed result (F.faults shelf.old) (F.faults shelf.new) }
    ensures failed { IsErrOf result Stop.Shelf →
        RunFails (F.files shelf.old) (run_in run.now) (F.faults shelf.old) (F.faults shelf.new) (F.blamed shelf.new) }
{
    match read_file(alloc, run.file, MAX_FILE, shelf)? {
        Some(file) => prepare_keys(alloc, run, file.as_slice(), shelf),
        None => Ok(Prepared::Refused(Reason::FileTooLong)),
    }
}

// Loads the second client of a pair; the first one is loaded.
fn load_second(a: Host, mut b: Host, pair: &Pair<'_>, second: &[u8]) -> Prepared
    requires ranges { HasPairRanges (pair_in pair.now) }
    requires ready { IsReady a.world }
    requires blank { b.world ≡ blank pair.now.pages_b [] DEFAULT_TRACE }
    ensures verdict { second_load (pair_in pair.now) a.world second.now (refusal second.now) ≡ verdict_in result }
    ensures new { IsNew (verdict_in result) }
{
    are_bytes(&[]);
    match b.load(second) {
        Ok(()) => Prepared::Pair(a, b, pair.slice, pair.bound),
        Err(fault) => Prepared::Refused(Reason::LoadOf(Letter::B, fault)),
    }
}

// Takes the memory of both hosts, and then loads the two clients of a pair.
fn load_pair(
    alloc: Global,
    pair: &Pair<'_>,
    first: &[u8],
    second: &[u8],
) -> Result<Prepared, AllocError>
    requires { HasPairRanges (pair_in pair.now) }
    ensures verdict { IfOk result (λ p. first_load (pair_in pair.now) first.now second.now (refusal first.now) ≡ verdict_in p) }
    ensures new { IfOk result (λ p. IsNew (verdict_in p)) }
{
    are_bytes(&[]);
    let mut a = Host::new(alloc, pair.pages_a, &[], DEFAULT_TRACE)?;
    let b = Host::new(alloc, pair.pages_b, &[], DEFAULT_TRACE)?;
    match a.load(first) {
        Ok(()) => Ok(load_second(a, b, pair, second)),
        Err(fault) => Ok(Prepared::Refused(Reason::LoadOf(Letter::A, fault))),
    }
}

// Reads the second file of a pair, and loads both clients.
fn prepare_second<F: Shelf>(
    alloc: Global,
    pair: &Pair<'_>,
    first: &[u8],
    shelf: &mut F,
) -> Result<Prepared, Stop>
    requires { HasPairRanges (pair_in pair.now) }
    ensures verdict { IfOk result (λ p. HasSecondVerdict (F.files shelf.old) (pair_in pair.now) first.now (verdict_in p)) }
    ensures new { IfOk result (λ p. IsNew (verdict_in p)) }
    ensures quiet { StaysUnlessFailed result (F.faults shelf.old) (F.faults shelf.new) }
    ensures failed { IsErrOf result Stop.Shelf →
        FailsAt (F.files shelf.old) pair.now.second.now (F.faults shelf.old) (F.faults shelf.new) (F.blamed shelf.new) }
{
    match read_file(alloc, pair.second, MAX_FILE, shelf)? {
        Some(second) => Ok(load_pair(alloc, pair, first, second.as_slice())?),
        None => Ok(Prepared::Refused(Reason::FileTooLongOf(Letter::B))),
    }
}

// Reads the files of a pair, and loads its clients.
fn prepare_pair<F: Shelf>(alloc: Global, pair: &Pair<'_>, shelf: &mut F) -> Result<Prepared, Stop>
    requires { HasPairRanges (pair_in pair.now) }
    ensures verdict { IfOk result (λ p. HasPairVerdict (F.files shelf.old) (pair_in pair.now) (verdict_in p)) }
    ensures new { IfOk result (λ p. IsNew (verdict_in p)) }
    ensures quiet { StaysUnlessFailed result (F.faults shelf.old) (F.faults shelf.new) }
    ensures failed { IsErrOf result Stop.Shelf →
        PairFails (F.files shelf.old) (pair_in pair.now) (F.faults shelf.old) (F.faults shelf.new) (F.blamed shelf.new) }
{
    match read_file(alloc, pair.first, MAX_FILE, shelf)? {
        Some(first) => prepare_second(alloc, pair, first.as_slice(), shelf),
        None => Ok(Prepared::Refused(Reason::FileTooLongOf(Letter::A))),
    }
}

// Makes the client of a number, and loads it.
fn prepare_soak(alloc: Global, number: u64) -> Result<Prepared, AllocError>
    ensures verdict { IfOk result (λ p. verdict_in p ≡ made_verdict number) }
    ensures new { IfOk result (λ p. IsNew (verdict_in p)) }
{
    let file = make(alloc, number)?;
    match start_host(alloc, DEFAULT_PAGES, &[], MAX_TRACE, file.as_slice())? {
        Ok(host) => Ok(Prepared::Soak(host, number)),
        Err(fault) => Ok(Prepared::Refused(Reason::Load(fault))),
    }
}

/// Reads the words and the files that they name, takes the memory, and loads the client, or the two clients of a pair. `Memory`: an
/// allocation was refused. `Shelf`: a file failed or isn't there. Source: own.
pub fn prepare<F: Shelf>(alloc: Global, words: &[String], shelf: &mut F) -> Result<Prepared, Stop>
    ensures verdict { IfOk result (λ p.
        HasVerdict (map string_bytes words.now) (F.files shelf.old) (λ v. v ≡ verdict_in p)) }
    ensures new { IfOk result (λ p. IsNew (verdict_in p)) }
    ensures quiet { StaysUnlessFailed result (F.faults shelf.old) (F.faults shelf.new) }
    ensures failed { IsErrOf result Stop.Shelf →
        NamedFailed (map string_bytes words.now) (F.faults shelf.old) (F.faults shelf.new) (F.blamed shelf.new)
        ⊎ IsAbsent (map string_bytes words.now) (F.files shelf.old) }
{
    match read_words(alloc, words)? {
        Some(Words::Run(run)) => prepare_run(alloc, &run, shelf),
        Some(Words::Soak(number)) => Ok(prepare_soak(alloc, number)?),
        Some(Words::Pair(pair)) => prepare_pair(alloc, &pair, shelf),
        None => Ok(Prepared::Refused(Reason::Words)),
    }
}
