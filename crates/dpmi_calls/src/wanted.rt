// What is looked for in a run.
ghost use Rattle.std.specs.{Prelude.{◌≡◌, ◌≤◌, length, map, nat_eq}, List.{position}};
ghost use Rattle.client_world.specs.World.{World};
ghost use Rattle.dpmi_calls.specs.{Memory.{seen}, Stops.{is_changed, is_outside, reason_of, wanted_in}};
ghost use Rattle.dpmi_calls.specs.declared.wanted.TheConstants.{MOST_WANTED};
ghost use Rattle.watch_run.specs.Hits.{instruction_address};

use crate::memory::{copy_seen, seen};
use client_world::SegReg;
use guest_space::Machine;
use host_run::is_at_trap;

/// The most places, and the most bytes, that are looked for. Source: own.
pub const MOST_WANTED: usize = 0x1_0000;

/// What is looked for: the client at one of the linear addresses in `places`; a change of the byte at one of those in `bytes`; or the
/// client at an instruction outside the `stay_size` bytes from `stay_at` on, if these are some. Source: own.
#[derive(Clone, Copy)]
pub struct Wanted<'a> {
    pub places: &'a [u32],
    pub bytes: &'a [u32],
    pub stay_at: u32,
    pub stay_size: u32,
}

/// Why to stop: a change of the byte of that number, the place of that number, or the way out. Source: own.
#[derive(Clone, Copy, Debug, PartialEq, Eq)]
pub enum Reason {
    Change(u32),
    Place(u32),
    Outside,
}

// The linear address of CS:EIP.
#[inline(always)]
fn instruction_address(m: &Machine) -> u32
    ensures { result ≡ instruction_address m.now.world }
{
    m.first_byte(SegReg::Cs).wrapping_add(m.registers().eip)
}

// The number of the first address at which the client sees another byte than before.
fn first_change(m: &Machine, bytes: &[u32], before: &[u16]) -> Option<u32>
    requires few { length bytes.now ≤ MOST_WANTED }
    requires same { length before.now ≡ length bytes.now }
    ensures { (w : World) → before.now ≡ map (seen w) bytes.now → result ≡ position (is_changed w m.now.world) bytes.now }
{
    let count = bytes.len();
    for i in 0..count {
        if seen(m, bytes[i]) != before[i] {
            return Some(i as u32);
        }
    }
    None
}

// The number of the first of these addresses that is this one.
#[inline(always)]
fn first_place(places: &[u32], at: u32) -> Option<u32>
    requires few { length places.now ≤ MOST_WANTED }
    ensures { result ≡ position (λ lin. nat_eq lin at) places.now }
{
    let count = places.len();
    for i in 0..count {
        if places[i] == at {
            return Some(i as u32);
        }
    }
    None
}

impl Wanted<'_> {
    // Whether the client is at an instruction outside the bytes in which it stays.
    #[inline(always)]
    fn is_outside(&self, m: &Machine, at: u32) -> bool
        requires { at ≡ instruction_address m.now.world }
        ensures { result ≡ is_outside (wanted_in self.now) m.now.world }
    {
        self.stay_size > 0 && at.wrapping_sub(self.stay_at) >= self.stay_size && !is_at_trap(m)
    }

    /// Why to stop after a turn; `before` has what the client saw at each of `bytes` before it, and gets what it sees now. Source: own.
    #[inline(always)]
    pub(crate) fn reason(&self, m: &Machine, before: &mut [u16]) -> Option<Reason>
        requires places { length self.now.places.now ≤ MOST_WANTED }
        requires bytes { length self.now.bytes.now ≤ MOST_WANTED }
        requires same { length before.old ≡ length self.now.bytes.now }
        ensures reason { (w : World) → before.old ≡ map (seen w) self.now.bytes.now →
            result ≡ reason_of (wanted_in self.now) w m.now.world }
        ensures seen { (w : World) → before.old ≡ map (seen w) self.now.bytes.now →
            before.new ≡ map (seen m.now.world) self.now.bytes.now }
    {
        if let Some(k) = first_change(m, self.bytes, before) {
            copy_seen(m, self.bytes, before);
            return Some(Reason::Change(k));
        }
        let at = instruction_address(m);
        if let Some(k) = first_place(self.places, at) {
            return Some(Reason::Place(k));
        }
        if self.is_outside(m, at) {
            return Some(Reason::Outside);
        }
        None
    }
}
