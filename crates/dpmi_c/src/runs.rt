// The text and the states of a run.
ghost use Rattle.std.specs.Prelude.{◌≡◌, ◌≤◌, ◌<◌, ◌⊎◌, length, take};
ghost use Rattle.dpmi_calls.specs.{Clients.{answer_of, client_of}, Turns.{host_of}, States.{AreSeen, AreStates, IsRefusedStates}};
ghost use Rattle.dpmi_calls.specs.{States.{IsStatesCall}, declared.outcome.TheConstants.{DONE, NO_MEMORY, NO_ROOM, REFUSED}};

use crate::given::client;
use dpmi_calls::{State, states_after, write_text};
use std::alloc::Global;

/// Writes the text of `dpmi run` to the first `written` bytes of `text`, and returns the command's status; 4 where it is longer than
/// `text`, 5 when out of memory. Source: own.
#[unsafe(no_mangle)]
pub extern "C" fn dpmi_run(
    alloc: Global,
    file: &[u8],
    keys: &[u8],
    pages: u32,
    timer: u32,
    bound: u32,
    trace: u32,
    text: &mut [u8],
    written: &mut usize,
) -> u8
    ensures text { result ≤ REFUSED →
        take written.new text.new ≡ (answer_of (client_of file.now keys.now pages timer) bound trace).text }
    ensures status { result ≤ REFUSED → result ≡ (answer_of (client_of file.now keys.now pages timer) bound trace).status }
    ensures few { written.new ≤ length text.new }
    ensures nothing { (result ≤ REFUSED) ⊎ (written.new ≡ 0) }
    ensures room { result ≡ NO_ROOM → length text.new < length (answer_of (client_of file.now keys.now pages timer) bound trace).text }
    ensures known { (result ≤ REFUSED) ⊎ (result ≡ NO_ROOM) ⊎ (result ≡ NO_MEMORY) }
{
    let client = client(file, keys, pages, timer);
    write_text(alloc, &client, bound, trace, text, written)
}

/// Gives the states after some numbers of turns, and what the client sees at some linear addresses in each. Returns 0; 2 where the call is
/// refused, 5 when out of memory; then rows and memory are as before. Source: own.
#[unsafe(no_mangle)]
pub extern "C" fn dpmi_states(
    alloc: Global,
    file: &[u8],
    keys: &[u8],
    pages: u32,
    timer: u32,
    turns: &[u32],
    places: &[u32],
    rows: &mut [State],
    memory: &mut [u16],
) -> u8
    ensures rows { result ≡ DONE → AreStates (host_of (client_of file.now keys.now pages timer)) turns.now rows.new }
    ensures memory { result ≡ DONE → AreSeen (host_of (client_of file.now keys.now pages timer)) turns.now places.now memory.new }
    ensures known { (result ≡ DONE) ⊎ (result ≡ REFUSED) ⊎ (result ≡ NO_MEMORY) }
    ensures taken { result ≡ DONE →
        IsStatesCall (client_of file.now keys.now pages timer) turns.now (length places.now) (length rows.old) (length memory.old) }
    ensures refused { result ≡ REFUSED →
        IsRefusedStates (client_of file.now keys.now pages timer) turns.now (length places.now) (length rows.old) (length memory.old) }
    ensures nothing { (result ≡ DONE) ⊎ ((rows.new ≡ rows.old) × (memory.new ≡ memory.old)) }
{
    let client = client(file, keys, pages, timer);
    states_after(alloc, client, turns, places, rows, memory)
}
