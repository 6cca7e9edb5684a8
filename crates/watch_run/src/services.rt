// INT 31h functions 0B00h to 0B03h.
ghost use Rattle.std.specs.Prelude.{◌≡◌, ◌<◌, ◌≤◌, IfOk, IsTrue, MatchOption, MatchResult, None, Some};
ghost use Rattle.client_world.specs.{declared.limits.TheConstants.{WATCHES}, Registers.{low_half}};
ghost use Rattle.service_rows.specs.declared.refusal.Refusal.TheVariants.{InvalidHandle};
ghost use Rattle.watch_run.specs.Services.{watch_in_bx, clear_watch, described_watch, is_watch_size, is_watch_function, watch_kind};
ghost use Rattle.watch_run.specs.Services.{watch_refused, reset_watch, watch_served, set_watch, watch_service, watch_state};
ghost use Rattle.watch_run.specs.Watches.{lowest_free};

use crate::watch::Watches;
use client_world::limits::WATCHES;
use client_world::{
    Carry, Regs, Watch, WatchKind, high_byte, low_byte, low_half, two_words, with_low_half,
};
use guest_space::Machine;
use service_rows::Refusal;

// Whether a watchpoint may have that many bytes.
fn is_watch_size(n: u8) -> bool
    ensures { result ≡ is_watch_size n }
{
    n == 1 || n == 2 || n == 4
}

// What a number of a kind watches for.
fn watch_kind(n: u8) -> WatchKind
    ensures { result ≡ watch_kind n }
{
    match n {
        0 => WatchKind::Execute,
        1 => WatchKind::Write,
        _ => WatchKind::ReadOrWrite,
    }
}

// The watchpoint that BX:CX, DL and DH describe.
fn described_watch(r: &Regs) -> Watch
    ensures { result ≡ described_watch r.now }
{
    Watch {
        at: two_words(low_half(r.ebx), low_half(r.ecx)),
        size: low_byte(r.edx),
        kind: watch_kind(high_byte(r.edx)),
        hit: false,
    }
}

impl Watches {
    // The lowest handle that is free.
    #[tactic(auto, unfolding(crate::specs::Watches::lowest_free), using(service_rows::proofs::RunLaws::index_found, //
    service_rows::proofs::RunLaws::index_passed, service_rows::proofs::RunLaws::index_missed))]
    fn lowest_free(&self) -> Option<u16>
        ensures { MatchOption result (lowest_free self.now.watches ≡ None)
            (λ handle. (lowest_free self.now.watches ≡ Some handle) × (0 < handle) × (handle ≤ WATCHES)) }
    {
        for handle in 1..WATCHES + 1 {
            if self.watch(handle).is_none() {
                return Some(handle);
            }
        }
        None
    }

    // Function 0B00h: the registers after it, or why it is refused.
    #[tactic(auto, unfolding(crate::specs::Services::set_watch))]
    fn set_watch(&mut self, r: Regs) -> Result<Regs, Refusal>
        ensures answer { MatchResult result (λ regs. set_watch r self.old ≡ watch_served regs self.new)
            (λ refusal. (set_watch r self.old ≡ watch_refused refusal r self.old) × (self.new ≡ self.old)) }
        ensures alone { IfOk result (λ regs. regs ≡ record r { eax = regs.eax; ebx = regs.ebx }) }
    {
        let watch = described_watch(&r);
        if !is_watch_size(watch.size) || high_byte(r.edx) > 2 {
            return Err(Refusal::InvalidValue);
        }
        if u64::from(watch.at) + u64::from(watch.size) > 0x1_0000_0000 {
            return Err(Refusal::InvalidAddress);
        }
        let Some(handle) = self.lowest_free() else {
            return Err(Refusal::HandleUnavailable);
        };
        self.put(handle, Some(watch));
        Ok(Regs {
            ebx: with_low_half(r.ebx, handle),
            ..r
        })
    }

    // The watchpoint BX, or why it is refused.
    fn watch_in_bx(&self, r: &Regs) -> Result<Watch, Refusal>
        ensures { MatchResult result
            (λ watch. (watch_in_bx r.now self.now ≡ Some watch) × (0 < low_half r.now.ebx) × (low_half r.now.ebx ≤ WATCHES))
            (λ refusal. (watch_in_bx r.now self.now ≡ None) × (refusal ≡ InvalidHandle)) }
    {
        match self.watch(low_half(r.ebx)) {
            Some(watch) => Ok(watch),
            None => Err(Refusal::InvalidHandle),
        }
    }

    // Function 0B01h.
    #[tactic(auto, unfolding(crate::specs::Services::clear_watch))]
    fn clear_watch(&mut self, r: Regs) -> Result<Regs, Refusal>
        ensures answer { MatchResult result (λ regs. clear_watch r self.old ≡ watch_served regs self.new)
            (λ refusal. (clear_watch r self.old ≡ watch_refused refusal r self.old) × (self.new ≡ self.old)) }
        ensures alone { IfOk result (λ regs. regs ≡ record r { eax = regs.eax; ebx = regs.ebx }) }
    {
        self.watch_in_bx(&r)?;
        self.put(low_half(r.ebx), None);
        Ok(r)
    }

    // Function 0B02h.
    #[tactic(auto, unfolding(crate::specs::Services::watch_state))]
    fn watch_state(&mut self, r: Regs) -> Result<Regs, Refusal>
        ensures answer { MatchResult result (λ regs. watch_state r self.old ≡ watch_served regs self.new)
            (λ refusal. (watch_state r self.old ≡ watch_refused refusal r self.old) × (self.new ≡ self.old)) }
        ensures alone { IfOk result (λ regs. regs ≡ record r { eax = regs.eax; ebx = regs.ebx }) }
    {
        let watch = self.watch_in_bx(&r)?;
        Ok(Regs {
            eax: with_low_half(r.eax, u16::from(watch.hit)),
            ..r
        })
    }

    // Function 0B03h.
    #[tactic(auto, unfolding(crate::specs::Services::reset_watch))]
    fn reset_watch(&mut self, r: Regs) -> Result<Regs, Refusal>
        ensures answer { MatchResult result (λ regs. reset_watch r self.old ≡ watch_served regs self.new)
            (λ refusal. (reset_watch r self.old ≡ watch_refused refusal r self.old) × (self.new ≡ self.old)) }
        ensures alone { IfOk result (λ regs. regs ≡ record r { eax = regs.eax; ebx = regs.ebx }) }
    {
        let watch = self.watch_in_bx(&r)?;
        self.put(
            low_half(r.ebx),
            Some(Watch {
                hit: false,
                ..watch
            }),
        );
        Ok(r)
    }

    /// Serves the function in AX, and returns the registers after it and the carry. 0B00h is refused for a value in DL or DH that means
    /// nothing, else for bytes past FFFFFFFFh, else where no handle is free; the others where BX isn't held. AX is the number of the
    /// refusal then, and nothing else changes. Source: DPMI 0.9, INT 31h functions 0B00h to 0B03h; the numbers of the refusals are own.
    #[tactic(auto, unfolding(crate::specs::Services::watch_service))]
    pub fn serve(&mut self, m: &Machine) -> (Regs, Carry)
        requires { IsTrue (is_watch_function (low_half m.now.world.regs.eax)) }
        ensures answer { record { regs = result.0; carry = result.1; watching = self.new } ≡ watch_service m.now.world.regs self.old }
        ensures alone { result.0 ≡ record m.now.world.regs { eax = result.0.eax; ebx = result.0.ebx } }
    {
        let r = m.regs();
        let result = match low_half(r.eax) {
            0x0B00 => self.set_watch(r),
            0x0B01 => self.clear_watch(r),
            0x0B02 => self.watch_state(r),
            _ => self.reset_watch(r),
        };
        match result {
            Ok(regs) => (regs, Carry::Clear),
            Err(refusal) => {
                let eax = with_low_half(r.eax, refusal.number());
                (Regs { eax, ..r }, Carry::Set)
            }
        }
    }
}
