// A client's states after some of its turns.
ghost use Rattle.std.specs.Prelude.{◌≡◌, ◌*◌, ◌⊎◌, length, nat_eq, true, false};
ghost use Rattle.dpmi_calls.specs.{Clients.{given}, Runs.{IsRun}, Turns.{host_of}, States.{AreInOrder, AreSeen, AreStates, Descends}};
ghost use Rattle.dpmi_calls.specs.{States.{IsRefusedStates, IsStatesCall, PassesMost}, declared.outcome.TheConstants.{DONE, NO_MEMORY}};
ghost use Rattle.dpmi_calls.specs.declared.outcome.TheConstants.{REFUSED};

use crate::memory::copy_seen;
use crate::outcome::{DONE, NO_MEMORY, REFUSED};
use crate::run::ClientRun;
use crate::start::Client;
use crate::state::{State, state_of};
use client_world::limits::MAX_STEPS;
use std::alloc::Global;

// Whether numbers of turns don't go down, and none is above the greatest.
fn are_in_order(turns: &[u32]) -> bool
    ensures taken { result ≡ true → AreInOrder turns.now }
    ensures refused { result ≡ false → Descends turns.now ⊎ PassesMost turns.now }
{
    let all = turns.len();
    for i in 0..all {
        if turns[i] > MAX_STEPS {
            return false;
        }
        if i > 0 && turns[i] < turns[i - 1] {
            return false;
        }
    }
    true
}

// Notes the states after these turns, and the bytes at these places in each of them.
fn note_states(
    run: &mut ClientRun<'_>,
    turns: &[u32],
    places: &[u32],
    rows: &mut [State],
    memory: &mut [u16],
)
    requires run { IsRun run.old }
    requires start { run.old.turns ≡ 0 }
    requires order { AreInOrder turns.now }
    requires rows { length rows.old ≡ length turns.now }
    requires memory { length memory.old ≡ length turns.now * length places.now }
    ensures rows { AreStates (host_of (given run.old.client)) turns.now rows.new }
    ensures memory { AreSeen (host_of (given run.old.client)) turns.now places.now memory.new }
{
    let count = places.len();
    let all = turns.len();
    for i in 0..all {
        run.advance_to(turns[i]);
        rows[i] = state_of(&run.host);
        copy_seen(
            run.host.machine(),
            places,
            &mut memory[i * count..(i + 1) * count],
        );
    }
}

// Whether a length is the product of two others.
fn is_product(length: usize, rows: usize, columns: usize) -> bool
    ensures { result ≡ nat_eq length (rows * columns) }
{
    match rows.checked_mul(columns) {
        Some(product) => product == length,
        None => false,
    }
}

/// Gives the states of a client after some numbers of turns, which don't go down and are at most 1,000,000,000, each in a row; and for
/// each state what the client sees at each of the linear addresses in `places`: of row `i` and place `k` at `i * places.len() + k` of
/// `memory`. After the client's end nothing changes any more. Returns 0; or 2 where the client is refused, the turns aren't as they should
/// be, there are more or fewer rows than turns, or the memory is of another size; or 5 when out of memory. Then rows and memory are as
/// before. Source: own.
pub fn states_after(
    alloc: Global,
    client: Client<'_>,
    turns: &[u32],
    places: &[u32],
    rows: &mut [State],
    memory: &mut [u16],
) -> u8
    ensures rows { result ≡ DONE → AreStates (host_of (given client.entry)) turns.now rows.new }
    ensures memory { result ≡ DONE → AreSeen (host_of (given client.entry)) turns.now places.now memory.new }
    ensures known { (result ≡ DONE) ⊎ (result ≡ REFUSED) ⊎ (result ≡ NO_MEMORY) }
    ensures taken { result ≡ DONE →
        IsStatesCall (given client.entry) turns.now (length places.now) (length rows.old) (length memory.old) }
    ensures refused { result ≡ REFUSED →
        IsRefusedStates (given client.entry) turns.now (length places.now) (length rows.old) (length memory.old) }
    ensures nothing { (result ≡ DONE) ⊎ ((rows.new ≡ rows.old) × (memory.new ≡ memory.old)) }
{
    if rows.len() != turns.len() {
        return REFUSED;
    }
    if !is_product(memory.len(), turns.len(), places.len()) {
        return REFUSED;
    }
    if !are_in_order(turns) {
        return REFUSED;
    }
    match ClientRun::start(alloc, client, 0) {
        Ok(Ok(mut run)) => {
            note_states(&mut run, turns, places, rows, memory);
            DONE
        }
        Ok(Err(_)) => REFUSED,
        Err(_) => NO_MEMORY,
    }
}
