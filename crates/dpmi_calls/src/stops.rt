// The turns of a run at which what is looked for is found.
ghost use Rattle.std.specs.Prelude.{◌≡◌, ◌≤◌, ◌<◌, ◌+◌, ◌-◌, ◌++◌, ◌⊎◌, ℕ, length, take, map, None, IsSome, IfOk, IfErr, OnOk};
ghost use Rattle.client_world.specs.declared.limits.TheConstants.{MAX_STEPS};
ghost use Rattle.dpmi_calls.specs.{Clients.{given}, Memory.{seen}, Runs.{IsRun}, Turns.{host_of}, Stops.{IsFew, IsRefusedSearch, IsSearch}};
ghost use Rattle.dpmi_calls.specs.Stops.{GoesOn, last_by, last_of, reason_at, stop_at, stop_or_none, stops_by, stops_of, wanted_in};
ghost use Rattle.dpmi_calls.specs.declared.outcome.TheConstants.{DONE, NO_MEMORY, REFUSED};

use crate::memory::copy_seen;
use crate::outcome::{DONE, NO_MEMORY, REFUSED};
use crate::run::ClientRun;
use crate::start::Client;
use crate::wanted::{MOST_WANTED, Reason, Wanted};
use std::alloc::{AllocError, Global};

/// A turn after which a run stops: its number, the first turn's being 1; why: 1 for a change of a byte, 2 for a place, 3 for the way out;
/// and the number of the byte or of the place. Source: own.
#[repr(C)]
#[derive(Clone, Copy)]
pub struct Stop {
    pub turn: u32,
    pub reason: u32,
    pub which: u32,
}

impl Stop {
    /// No turn.
    pub const NONE: Stop = Stop {
        turn: 0,
        reason: 0,
        which: 0,
    };
}

// A stop after a turn, in numbers.
fn stop_at(turn: u32, reason: Reason) -> Stop
    ensures { result ≡ stop_at turn reason }
{
    let (reason, which) = match reason {
        Reason::Change(k) => (1, k),
        Reason::Place(k) => (2, k),
        Reason::Outside => (3, 0),
    };
    Stop {
        turn,
        reason,
        which,
    }
}

// What the client sees at these addresses.
fn seen_now(alloc: Global, run: &ClientRun<'_>, bytes: &[u32]) -> Result<Vec<u16>, AllocError>
    ensures { IfOk result (λ v. v.items ≡ map (seen run.now.host.world.machine) bytes.now) }
{
    let mut now = vec![in alloc; 0; bytes.len()]?;
    copy_seen(run.host.machine(), bytes, &mut now);
    Ok(now)
}

// Makes a turn, and returns why to stop after it. `before` has what the client saw before it, and gets what it sees then.
#[inline(always)]
#[tactic(auto, unfolding(crate::specs::Stops::reason_at))]
fn look(run: &mut ClientRun<'_>, wanted: &Wanted<'_>, before: &mut [u16]) -> Option<Reason>
    requires run { IsRun run.old }
    requires no_exit { run.old.host.world.exit ≡ None }
    requires room { run.old.turns < MAX_STEPS }
    requires few { IsFew (wanted_in wanted.now) }
    requires seen { before.old ≡ map (seen run.old.host.world.machine) wanted.now.bytes.now }
    ensures run { IsRun run.new }
    ensures client { run.new.client ≡ run.old.client }
    ensures turns { run.new.turns ≡ run.old.turns + 1 }
    ensures reason { result ≡ reason_at (wanted_in wanted.now) (host_of (given run.old.client)) run.old.turns }
    ensures seen { before.new ≡ map (seen run.new.host.world.machine) wanted.now.bytes.now }
{
    let _goes_on = run.next();
    wanted.reason(run.host.machine(), before)
}

// Makes a turn, and notes its stop after those that were made. Returns how many there are then.
fn note_stop(
    run: &mut ClientRun<'_>,
    wanted: &Wanted<'_>,
    before: &mut [u16],
    stops: &mut [Stop],
    made: usize,
) -> usize
    requires run { IsRun run.old }
    requires no_exit { run.old.host.world.exit ≡ None }
    requires room { run.old.turns < MAX_STEPS }
    requires few { IsFew (wanted_in wanted.now) }
    requires seen { before.old ≡ map (seen run.old.host.world.machine) wanted.now.bytes.now }
    requires place { made < length stops.old }
    ensures run { IsRun run.new }
    ensures client { run.new.client ≡ run.old.client }
    ensures turns { run.new.turns ≡ run.old.turns + 1 }
    ensures seen { before.new ≡ map (seen run.new.host.world.machine) wanted.now.bytes.now }
    ensures length { length stops.new ≡ length stops.old }
    ensures few { result ≤ length stops.new }
    ensures stops { take result stops.new ≡ take made stops.old
        ++ stops_by (run.old.turns + 1) (reason_at (wanted_in wanted.now) (host_of (given run.old.client)) run.old.turns) }
{
    match look(run, wanted, before) {
        Some(reason) => {
            stops[made] = stop_at(run.turns, reason);
            made + 1
        }
        None => made,
    }
}

// Makes turns up to that one, to the client's end, or to as many stops as there is room for. Returns how many there were.
fn find_first(
    run: &mut ClientRun<'_>,
    wanted: &Wanted<'_>,
    before: &mut [u16],
    to: u32,
    stops: &mut [Stop],
) -> usize
    requires run { IsRun run.old }
    requires later { run.old.turns ≤ to }
    requires room { to ≤ MAX_STEPS }
    requires few { IsFew (wanted_in wanted.now) }
    requires seen { before.old ≡ map (seen run.old.host.world.machine) wanted.now.bytes.now }
    ensures run { IsRun run.new }
    ensures client { run.new.client ≡ run.old.client }
    ensures turns { (run.old.turns ≤ run.new.turns) × (run.new.turns ≤ to) }
    ensures few { result ≤ length stops.new }
    ensures stops { take result stops.new
        ≡ stops_of (wanted_in wanted.now) (host_of (given run.old.client)) run.old.turns (run.new.turns - run.old.turns) }
    ensures whole { (run.new.turns ≡ to) ⊎ (result ≡ length stops.new) ⊎ IsSome run.new.host.world.exit }
    ensures goes_on { (n : ℕ) → run.old.turns ≤ n → n < run.new.turns →
        GoesOn (wanted_in wanted.now) (host_of (given run.old.client)) run.old.turns (length stops.new) n }
{
    let room = stops.len();
    let mut made = 0;
    for done in run.turns..to {
        if made == room || run.host.exit().is_some() {
            return made;
        }
        made = note_stop(run, wanted, before, stops, made);
    }
    made
}

// Makes a turn. Returns its stop, or the last one before it.
fn next_last(
    run: &mut ClientRun<'_>,
    wanted: &Wanted<'_>,
    before: &mut [u16],
    last: Option<Stop>,
) -> Option<Stop>
    requires run { IsRun run.old }
    requires no_exit { run.old.host.world.exit ≡ None }
    requires room { run.old.turns < MAX_STEPS }
    requires few { IsFew (wanted_in wanted.now) }
    requires seen { before.old ≡ map (seen run.old.host.world.machine) wanted.now.bytes.now }
    ensures run { IsRun run.new }
    ensures client { run.new.client ≡ run.old.client }
    ensures turns { run.new.turns ≡ run.old.turns + 1 }
    ensures seen { before.new ≡ map (seen run.new.host.world.machine) wanted.now.bytes.now }
    ensures last { result
        ≡ last_by last (run.old.turns + 1) (reason_at (wanted_in wanted.now) (host_of (given run.old.client)) run.old.turns) }
{
    match look(run, wanted, before) {
        Some(reason) => Some(stop_at(run.turns, reason)),
        None => last,
    }
}

// Makes turns up to that one or to the client's end. Returns the last stop.
fn find_last(
    run: &mut ClientRun<'_>,
    wanted: &Wanted<'_>,
    before: &mut [u16],
    to: u32,
) -> Option<Stop>
    requires run { IsRun run.old }
    requires later { run.old.turns ≤ to }
    requires room { to ≤ MAX_STEPS }
    requires few { IsFew (wanted_in wanted.now) }
    requires seen { before.old ≡ map (seen run.old.host.world.machine) wanted.now.bytes.now }
    ensures run { IsRun run.new }
    ensures client { run.new.client ≡ run.old.client }
    ensures turns { (run.old.turns ≤ run.new.turns) × (run.new.turns ≤ to) }
    ensures last { result
        ≡ last_of (wanted_in wanted.now) (host_of (given run.old.client)) run.old.turns (run.new.turns - run.old.turns) }
    ensures whole { (run.new.turns ≡ to) ⊎ IsSome run.new.host.world.exit }
    ensures goes_on { (n : ℕ) → run.old.turns ≤ n → n < run.new.turns → (host_of (given run.old.client) n).exit ≡ None }
{
    let mut last = None;
    for done in run.turns..to {
        if run.host.exit().is_some() {
            return last;
        }
        last = next_last(run, wanted, before, last);
    }
    last
}

// The run of a client after the turns before one, and what the client sees there; or the status of a call that makes no search.
fn start_search<'a>(
    alloc: Global,
    client: Client<'a>,
    from: u32,
    to: u32,
    wanted: &Wanted<'_>,
) -> Result<(ClientRun<'a>, Vec<u16>), u8>
    ensures search { OnOk result (IsSearch (given client.entry) from to (wanted_in wanted.now)) }
    ensures most { OnOk result (to ≤ MAX_STEPS) }
    ensures run { IfOk result (λ s. IsRun s.0) }
    ensures client { IfOk result (λ s. s.0.client ≡ client.entry) }
    ensures turns { IfOk result (λ s. s.0.turns ≡ from - 1) }
    ensures seen { IfOk result (λ s. s.1.items ≡ map (seen s.0.host.world.machine) wanted.now.bytes.now) }
    ensures known { IfErr result (λ status. (status ≡ NO_MEMORY) ⊎ (status ≡ REFUSED)) }
    ensures refused { IfErr result (λ status. status ≡ REFUSED → IsRefusedSearch (given client.entry) from to (wanted_in wanted.now)) }
{
    if from == 0 || from > to {
        return Err(REFUSED);
    }
    if wanted.places.len() > MOST_WANTED || wanted.bytes.len() > MOST_WANTED {
        return Err(REFUSED);
    }
    let mut run = match ClientRun::start(alloc, client, to) {
        Ok(Ok(run)) => run,
        Ok(Err(_)) => return Err(REFUSED),
        Err(_) => return Err(NO_MEMORY),
    };
    run.advance_to(from - 1);
    match seen_now(alloc, &run, wanted.bytes) {
        Ok(before) => Ok((run, before)),
        Err(_) => Err(NO_MEMORY),
    }
}

/// Gives the stops of a client's turns from `from` to `to`, the first turn being 1, in order, as many as there are `stops`; `made` counts
/// them. `reached` is the last turn that was made: `to`, or an earlier one after which there was room for no more stops or the client had
/// ended; `from` - 1 where that was so before.
/// Returns 0; or 2 where the client is refused, `from` is 0 or above `to`, `to` is above 1,000,000,000, or more than 65,536 places or bytes
/// are looked for; or 5 when out of memory; then `made` and `reached` are 0. Source: own.
pub fn first_stops(
    alloc: Global,
    client: Client<'_>,
    from: u32,
    to: u32,
    wanted: &Wanted<'_>,
    stops: &mut [Stop],
    made: &mut usize,
    reached: &mut u32,
) -> u8
    ensures stops { result ≡ DONE →
        take made.new stops.new ≡ stops_of (wanted_in wanted.now) (host_of (given client.entry)) (from - 1) (reached.new + 1 - from) }
    ensures whole { result ≡ DONE →
        (reached.new ≡ to) ⊎ (made.new ≡ length stops.new) ⊎ IsSome (host_of (given client.entry) reached.new).exit }
    ensures goes_on { result ≡ DONE → (n : ℕ) → from ≤ n + 1 → n < reached.new →
        GoesOn (wanted_in wanted.now) (host_of (given client.entry)) (from - 1) (length stops.new) n }
    ensures few { made.new ≤ length stops.new }
    ensures nothing { (result ≡ DONE) ⊎ ((made.new ≡ 0) × (reached.new ≡ 0)) }
    ensures reached { result ≡ DONE → (from ≤ reached.new + 1) × (reached.new ≤ to) }
    ensures known { (result ≡ DONE) ⊎ (result ≡ REFUSED) ⊎ (result ≡ NO_MEMORY) }
    ensures taken { result ≡ DONE → IsSearch (given client.entry) from to (wanted_in wanted.now) }
    ensures refused { result ≡ REFUSED → IsRefusedSearch (given client.entry) from to (wanted_in wanted.now) }
{
    *made = 0;
    *reached = 0;
    match start_search(alloc, client, from, to, wanted) {
        Ok((mut run, mut before)) => {
            *made = find_first(&mut run, wanted, &mut before, to, stops);
            *reached = run.turns;
            DONE
        }
        Err(status) => status,
    }
}

/// Gives the last stop of a client's turns from `from` to `to`, the first turn being 1; its `turn` is 0 where there is none. `reached` is
/// the last turn that was made: `to`, or an earlier one after which the client had ended, `from` - 1 where it had before. Returns as
/// `first_stops` does; with 2 and 5 there is no stop, and `reached` is 0. Source: own.
pub fn last_stop(
    alloc: Global,
    client: Client<'_>,
    from: u32,
    to: u32,
    wanted: &Wanted<'_>,
    stop: &mut Stop,
    reached: &mut u32,
) -> u8
    ensures last { result ≡ DONE →
        stop.new ≡ stop_or_none (last_of (wanted_in wanted.now) (host_of (given client.entry)) (from - 1) (reached.new + 1 - from)) }
    ensures whole { result ≡ DONE → (reached.new ≡ to) ⊎ IsSome (host_of (given client.entry) reached.new).exit }
    ensures goes_on { result ≡ DONE → (n : ℕ) → from ≤ n + 1 → n < reached.new → (host_of (given client.entry) n).exit ≡ None }
    ensures nothing { (result ≡ DONE) ⊎ ((stop.new ≡ stop_or_none None) × (reached.new ≡ 0)) }
    ensures reached { result ≡ DONE → (from ≤ reached.new + 1) × (reached.new ≤ to) }
    ensures known { (result ≡ DONE) ⊎ (result ≡ REFUSED) ⊎ (result ≡ NO_MEMORY) }
    ensures taken { result ≡ DONE → IsSearch (given client.entry) from to (wanted_in wanted.now) }
    ensures refused { result ≡ REFUSED → IsRefusedSearch (given client.entry) from to (wanted_in wanted.now) }
{
    *stop = Stop::NONE;
    *reached = 0;
    match start_search(alloc, client, from, to, wanted) {
        Ok((mut run, mut before)) => {
            *stop = find_last(&mut run, wanted, &mut before, to).unwrap_or(Stop::NONE);
            *reached = run.turns;
            DONE
        }
        Err(status) => status,
    }
}
