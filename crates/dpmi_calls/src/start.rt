// The client of a call, and the host in which it starts.
ghost use Rattle.std.specs.Prelude.{◌≡◌, ◌≤◌, None, Some, IfOk, IfErr, OnOk};
ghost use Rattle.client_world.specs.declared.limits.TheConstants.{MAX_STEPS};
ghost use Rattle.dpmi_cli.specs.Load.{CanTick, IsReady};
ghost use Rattle.dpmi_calls.specs.Clients.{client_at_start, given, numbers_fit, refusal_of, timer_given};

use client_world::limits::{GREATEST_TIMER, MAX_FILE, MAX_KEYS, MAX_PAGES, MAX_STEPS, MAX_TRACE};
use dpmi_cli::{Reason, start_host};
use host_run::Host;
use std::alloc::{AllocError, Global};

/// What a run depends on: the client's file; the keystrokes, at most 65,536 bytes; the pages of 4,096 bytes for its memory blocks, from 1
/// to 16,384; and after how many rounds its timer's interrupt becomes due, up to 1,000,000,000, or 0 for no timer. Source: own.
#[derive(Clone, Copy)]
pub struct Client<'a> {
    pub file: &'a [u8],
    pub keys: &'a [u8],
    pub pages: u32,
    pub timer: u32,
}

// Whether the numbers are in the ranges of the command's options, or the bound is 0.
fn numbers_fit(client: &Client<'_>, bound: u32, trace: u32) -> bool
    ensures { result ≡ numbers_fit (given client.now) bound trace }
{
    0 < client.pages
        && client.pages <= MAX_PAGES
        && client.timer <= GREATEST_TIMER
        && bound <= MAX_STEPS
        && trace <= MAX_TRACE
}

// A timer of 0 rounds is none.
pub fn timer_given(every: u32) -> Option<u32>
    ensures { result ≡ timer_given every }
{
    if every == 0 { None } else { Some(every) }
}

/// A host with the client loaded, for a run of at most `bound` turns whose trace keeps `trace` lines; or the reason of a refusal. Fails
/// when out of memory. Source: own.
pub fn load_client(
    alloc: Global,
    client: &Client<'_>,
    bound: u32,
    trace: u32,
) -> Result<Result<Host, Reason>, AllocError>
    ensures refused { IfOk result (λ r. IfErr r (λ reason. refusal_of (given client.now) bound trace ≡ Some reason)) }
    ensures taken { IfOk result (λ r. OnOk r (refusal_of (given client.now) bound trace ≡ None)) }
    ensures started { IfOk result (λ r. IfOk r (λ host. host.world ≡ client_at_start (given client.now) trace)) }
    ensures ready { IfOk result (λ r. IfOk r (λ host. IsReady host.world)) }
    ensures bound { IfOk result (λ r. OnOk r (bound ≤ MAX_STEPS)) }
    ensures timer { IfOk result (λ r. OnOk r (CanTick (timer_given client.now.timer))) }
{
    if !numbers_fit(client, bound, trace) {
        return Ok(Err(Reason::Words));
    }
    if client.file.len() > MAX_FILE as usize {
        return Ok(Err(Reason::FileTooLong));
    }
    if client.keys.len() > MAX_KEYS as usize {
        return Ok(Err(Reason::KeysTooLong));
    }
    match start_host(alloc, client.pages, client.keys, trace, client.file)? {
        Ok(host) => Ok(Ok(host)),
        Err(fault) => Ok(Err(Reason::Load(fault))),
    }
}
