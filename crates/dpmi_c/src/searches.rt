// The stops of a run.
ghost use Rattle.std.specs.Prelude.{◌≡◌, ◌≤◌, ◌<◌, ◌+◌, ◌-◌, ◌⊎◌, ℕ, length, take, None, IsSome};
ghost use Rattle.dpmi_calls.specs.{Clients.{client_of}, Turns.{host_of}, Stops.{GoesOn, IsRefusedSearch, IsSearch, last_of, stop_or_none}};
ghost use Rattle.dpmi_calls.specs.{Stops.{stops_of, wanted_of}, declared.outcome.TheConstants.{DONE, NO_MEMORY, REFUSED}};

use crate::given::{client, wanted};
use dpmi_calls::{Stop, first_stops, last_stop};
use std::alloc::Global;

/// Gives the first stops of the turns from `from` to `to`, as many as there is room for; `made` counts them, and `reached` is the last turn
/// that was made. Returns 0; 2 where the call is refused, 5 when out of memory; then both are 0. Source: own.
#[unsafe(no_mangle)]
pub extern "C" fn dpmi_stops(
    alloc: Global,
    file: &[u8],
    keys: &[u8],
    pages: u32,
    timer: u32,
    from: u32,
    to: u32,
    places: &[u32],
    bytes: &[u32],
    stay_at: u32,
    stay_size: u32,
    stops: &mut [Stop],
    made: &mut usize,
    reached: &mut u32,
) -> u8
    ensures stops { result ≡ DONE → take made.new stops.new
        ≡ stops_of (wanted_of places.now bytes.now stay_at stay_size) (host_of (client_of file.now keys.now pages timer)) (from - 1)
        (reached.new + 1 - from) }
    ensures whole { result ≡ DONE → (reached.new ≡ to) ⊎ (made.new ≡ length stops.new)
        ⊎ IsSome (host_of (client_of file.now keys.now pages timer) reached.new).exit }
    ensures goes_on { result ≡ DONE → (n : ℕ) → from ≤ n + 1 → n < reached.new →
        GoesOn (wanted_of places.now bytes.now stay_at stay_size) (host_of (client_of file.now keys.now pages timer)) (from - 1)
        (length stops.new) n }
    ensures few { made.new ≤ length stops.new }
    ensures nothing { (result ≡ DONE) ⊎ ((made.new ≡ 0) × (reached.new ≡ 0)) }
    ensures reached { result ≡ DONE → (from ≤ reached.new + 1) × (reached.new ≤ to) }
    ensures known { (result ≡ DONE) ⊎ (result ≡ REFUSED) ⊎ (result ≡ NO_MEMORY) }
    ensures taken { result ≡ DONE →
        IsSearch (client_of file.now keys.now pages timer) from to (wanted_of places.now bytes.now stay_at stay_size) }
    ensures refused { result ≡ REFUSED →
        IsRefusedSearch (client_of file.now keys.now pages timer) from to (wanted_of places.now bytes.now stay_at stay_size) }
{
    let client = client(file, keys, pages, timer);
    let wanted = wanted(places, bytes, stay_at, stay_size);
    first_stops(alloc, client, from, to, &wanted, stops, made, reached)
}

/// Gives the last stop of the turns from `from` to `to`, or one of turn 0; `reached` is the last turn that was made. Returns 0; 2 where the
/// call is refused, 5 when out of memory; then both are 0. Source: own.
#[unsafe(no_mangle)]
pub extern "C" fn dpmi_last_stop(
    alloc: Global,
    file: &[u8],
    keys: &[u8],
    pages: u32,
    timer: u32,
    from: u32,
    to: u32,
    places: &[u32],
    bytes: &[u32],
    stay_at: u32,
    stay_size: u32,
    stop: &mut Stop,
    reached: &mut u32,
) -> u8
    ensures last { result ≡ DONE → stop.new
        ≡ stop_or_none (last_of (wanted_of places.now bytes.now stay_at stay_size)
        (host_of (client_of file.now keys.now pages timer)) (from - 1) (reached.new + 1 - from)) }
    ensures whole { result ≡ DONE → (reached.new ≡ to) ⊎ IsSome (host_of (client_of file.now keys.now pages timer) reached.new).exit }
    ensures goes_on { result ≡ DONE → (n : ℕ) → from ≤ n + 1 → n < reached.new →
        (host_of (client_of file.now keys.now pages timer) n).exit ≡ None }
    ensures nothing { (result ≡ DONE) ⊎ ((stop.new ≡ stop_or_none None) × (reached.new ≡ 0)) }
    ensures reached { result ≡ DONE → (from ≤ reached.new + 1) × (reached.new ≤ to) }
    ensures known { (result ≡ DONE) ⊎ (result ≡ REFUSED) ⊎ (result ≡ NO_MEMORY) }
    ensures taken { result ≡ DONE →
        IsSearch (client_of file.now keys.now pages timer) from to (wanted_of places.now bytes.now stay_at stay_size) }
    ensures refused { result ≡ REFUSED →
        IsRefusedSearch (client_of file.now keys.now pages timer) from to (wanted_of places.now bytes.now stay_at stay_size) }
{
    let client = client(file, keys, pages, timer);
    let wanted = wanted(places, bytes, stay_at, stay_size);
    last_stop(alloc, client, from, to, &wanted, stop, reached)
}
