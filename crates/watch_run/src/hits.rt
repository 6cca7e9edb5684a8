// Which watchpoints the next instruction hits.
ghost use Rattle.std.specs.Prelude.{◌≡◌, ◌<◌, ◌||◌, MatchOption, None, Some, length, slice_index_or, slice_set};
ghost use Rattle.client_world.specs.declared.limits.TheConstants.{WATCHES};
ghost use Rattle.cpu_step.specs.Step.{client_row};
ghost use Rattle.insn_forms.specs.Kinds.{IsWellFormed};
ghost use Rattle.insn_plan.specs.Accesses.{with_next_eip, touches};
ghost use Rattle.watch_run.specs.Hits.{hits, instruction_address, is_first_hit, is_hit, watch_after_touches, next_touches, with_hits};
ghost use Rattle.watch_run.specs.Hits.{overlaps, slot_hit, watches_for, watches_one};

use crate::watch::Watches;
use arrayvec::ArrayVec;
use client_world::limits::WATCHES;
use client_world::{SegReg, Touch, Watch, WatchKind};
use cpu_step::has_big_code;
use exec_core::{is_core, touches_core};
use exec_flow::touches_flow;
use guest_space::Machine;
use insn_decode::{Decoded, decode};
use insn_forms::{Insn, every_instruction_is_well_formed};
use insn_plan::MAX_ACCESSES;

// The touches of an instruction, by the crate that has it.
#[tactic(auto, unfolding(cpu_step::specs::Step::client_row), using(cpu_step::proofs::CoreOrFlow::flow_where_not_core))]
fn row_touches(m: &Machine, insn: &Insn, len: u8) -> Option<ArrayVec<Touch, MAX_ACCESSES>>
    requires { IsWellFormed insn.now }
    ensures { let w = with_next_eip len m.now.world in
        let found = touches w (client_row w insn.now len) in
        MatchOption result (found ≡ None) (λ list. found ≡ Some list.items) }
{
    if is_core(insn) {
        touches_core(m, insn, len)
    } else {
        touches_flow(m, insn, len)
    }
}

// Those of the instruction at CS:EIP; `None` where there is none, or where it is an event.
#[tactic(auto, unfolding(crate::specs::Hits::next_touches))]
fn next_touches(m: &Machine) -> Option<ArrayVec<Touch, MAX_ACCESSES>>
    ensures { MatchOption result (next_touches m.now.world ≡ None) (λ list. next_touches m.now.world ≡ Some list.items) }
{
    match decode(&m.code(), has_big_code(m)) {
        Decoded::Whole(insn, len) => {
            every_instruction_is_well_formed();
            row_touches(m, &insn, len)
        }
        Decoded::More | Decoded::Invalid => None,
    }
}

// Whether a watchpoint's bytes and those of a touch have one in common.
fn overlaps(x: &Watch, t: &Touch) -> bool
    ensures { result ≡ overlaps x.now t.now }
{
    let watch_end = u64::from(x.at) + u64::from(x.size);
    let touch_end = u64::from(t.lin) + u64::from(t.len);
    u64::from(x.at) < touch_end && u64::from(t.lin) < watch_end
}

// Whether a watchpoint watches for a touch.
fn watches_for(x: &Watch, t: &Touch) -> bool
    ensures { result ≡ watches_for x.now t.now }
{
    match x.kind {
        WatchKind::Execute => false,
        WatchKind::Write => t.write && overlaps(x, t),
        WatchKind::ReadOrWrite => overlaps(x, t),
    }
}

// Whether it watches for one of them.
#[tactic(auto, using(crate::proofs::HitLaws::one_here, crate::proofs::HitLaws::one_later, crate::proofs::HitLaws::one_never))]
fn watches_one(x: &Watch, touches: &[Touch]) -> bool
    ensures { result ≡ watches_one x.now touches.now }
{
    for t in touches {
        if watches_for(x, t) {
            return true;
        }
    }
    false
}

// Whether an instruction at an address, with those touches, hits a watchpoint.
fn is_hit(at: u32, touches: &[Touch], x: &Watch) -> bool
    ensures { result ≡ is_hit at touches.now x.now }
{
    match x.kind {
        WatchKind::Execute => { x.at <= at && u64::from(at) < u64::from(x.at) + u64::from(x.size) }
        WatchKind::Write | WatchKind::ReadOrWrite => watches_one(x, touches),
    }
}

// The same of a handle, whether it is held or not.
fn slot_hit(at: u32, touches: &[Touch], slot: Option<Watch>) -> bool
    ensures { result ≡ slot_hit at (Some touches.now) slot }
{
    match slot {
        None => false,
        Some(x) => is_hit(at, touches, &x),
    }
}

impl Watches {
    // Sets the status of the watchpoint at a place, where an instruction at an address, with those touches, hits it.
    #[inline(always)]
    #[tactic(auto, using(crate::proofs::HitLaws::kept_hit))]
    fn note_hit(&mut self, at: u32, touches: &[Touch], place: usize)
        requires { place < WATCHES }
        ensures hit { let slot = slice_index_or self.old.watches place None in self.new ≡ record {
          watches = slice_set self.old.watches place (watch_after_touches at (Some touches.now) slot);
          due = self.old.due || is_first_hit at (Some touches.now) slot;
        } }
        ensures count { length self.new.watches ≡ WATCHES }
    {
        let slot = self.slots()[place];
        match slot {
            Some(x) if is_hit(at, touches, &x) => {
                self.put_hit(place, Some(Watch { hit: true, ..x }), !x.hit);
            }
            _ => {}
        }
    }

    /// Sets the status of each watchpoint that the instruction at CS:EIP hits. A hit is due where the status of one was clear.
    #[inline(never)]
    #[tactic(auto, unfolding(crate::specs::Hits::with_hits), using(crate::proofs::HitLaws::marked_none, //
    crate::proofs::HitLaws::none_due, crate::proofs::HitLaws::step_marked, crate::proofs::HitLaws::step_due, //
    crate::proofs::HitLaws::end_marked, crate::proofs::HitLaws::end_due))]
    pub(crate) fn note_hits(&mut self, m: &Machine)
        ensures { self.new ≡ with_hits (instruction_address m.now.world) (next_touches m.now.world) self.old }
    {
        let Some(touches) = next_touches(m) else {
            return;
        };
        let at = m.first_byte(SegReg::Cs).wrapping_add(m.registers().eip);
        let count = self.slots().len();
        for k in 0..count {
            self.note_hit(at, touches.as_slice(), k);
        }
    }

    /// The handles that the instruction at CS:EIP hits: bit h − 1 is set exactly for each such handle h, from 1 to 16. None is where the
    /// instruction is an event. Source: DPMI 0.9, INT 31h function 0B00h; what an instruction accesses is own.
    #[tactic(auto, using(crate::proofs::HitLaws::bits_none, crate::proofs::HitLaws::bits_start, crate::proofs::HitLaws::bits_next, //
    crate::proofs::HitLaws::bits_room, crate::proofs::HitLaws::bits_all))]
    pub fn hits(&self, m: &Machine) -> u16
        ensures { result ≡ hits m.now.world self.now.watches }
    {
        let slots = self.slots();
        let Some(touches) = next_touches(m) else {
            return 0;
        };
        let at = m.first_byte(SegReg::Cs).wrapping_add(m.registers().eip);
        let mut bits = 0;
        for k in 0..WATCHES {
            let slot = slots[usize::from(WATCHES - k) - 1];
            bits = 2 * bits + u16::from(slot_hit(at, touches.as_slice(), slot));
        }
        bits
    }
}
