// Services on pages of memory blocks and of the DOS megabyte's view: locking, paging and discarding.
ghost use Rattle.std.specs.Prelude.{◌≡◌, ◌<◌, ◌+◌, ◌^◌};
ghost use Rattle.service_rows.specs.Reasons.{Does};
ghost use Rattle.block_services.specs.Rows.{mark_pageable, discard_pages, first_page, relock_pages, lock_pages, mark_paging_candidates};
ghost use Rattle.block_services.specs.Rows.{of_some_page, page_count, page_size, unlock_pages};

use crate::blocks::{bx_cx, si_di};
use crate::regions::{
    Change, Question, change_pages, pages_rounded_up, set_pages, some_page, touched_pages,
    whole_pages,
};
use client_world::host_frames::PAGE_SIZE;
use client_world::{high_half, low_half, with_low_half};
use guest_space::Machine;
use service_rows::Refusal;

// The first of the pages that SI:DI bytes from linear address BX:CX touch, and their number.
fn asked_run(m: &Machine) -> (u32, u32)
    ensures first { result.0 ≡ first_page m.now.world }
    ensures pages { result.1 ≡ page_count m.now.world }
    ensures run { result.0 + result.1 < 2 ^ 32 }
{
    let start = bx_cx(m);
    (start / PAGE_SIZE, touched_pages(start, si_di(m)))
}

// Whether the answer is yes for one of these pages.
fn of_some_page(m: &Machine, question: Question) -> bool
    ensures { result ≡ of_some_page question m.now.world }
{
    let (first, n) = asked_run(m);
    some_page(m, question, first, n)
}

/// Function 0600h: the lock counts of touched pages of blocks rise by 1.
#[tactic(auto, unfolding(crate::specs::Rows::lock_pages))]
pub(crate) fn lock_pages(m: &mut Machine) -> Result<(), Refusal>
    ensures { Does (lock_pages m.old.world) result m.old m.new }
{
    if of_some_page(m, Question::IsOutside) {
        return Err(Refusal::InvalidAddress);
    }
    if of_some_page(m, Question::IsLockedMost) {
        return Err(Refusal::InvalidValue);
    }
    let (first, n) = asked_run(m);
    change_pages(m, Change::Lock, first, n);
    Ok(())
}

/// Function 0601h: the lock counts of touched pages of blocks fall by 1.
#[tactic(auto, unfolding(crate::specs::Rows::unlock_pages))]
pub(crate) fn unlock_pages(m: &mut Machine) -> Result<(), Refusal>
    ensures { Does (unlock_pages m.old.world) result m.old m.new }
{
    if of_some_page(m, Question::IsOutside) {
        return Err(Refusal::InvalidAddress);
    }
    if of_some_page(m, Question::IsUnlocked) {
        return Err(Refusal::InvalidValue);
    }
    let (first, n) = asked_run(m);
    change_pages(m, Change::Unlock, first, n);
    Ok(())
}

/// Function 0602h: touched pages of the DOS megabyte's view become pageable.
#[tactic(auto, unfolding(crate::specs::Rows::mark_pageable))]
pub(crate) fn mark_pageable(m: &mut Machine) -> Result<(), Refusal>
    ensures { Does (mark_pageable m.old.world) result m.old m.new }
{
    if of_some_page(m, Question::IsAboveView) {
        return Err(Refusal::InvalidAddress);
    }
    if of_some_page(m, Question::IsPageable) {
        return Err(Refusal::InvalidValue);
    }
    let (first, n) = asked_run(m);
    set_pages(m, true, first, n);
    Ok(())
}

/// Function 0603h: touched pages of the DOS megabyte's view are pageable no longer.
#[tactic(auto, unfolding(crate::specs::Rows::relock_pages))]
pub(crate) fn relock_pages(m: &mut Machine) -> Result<(), Refusal>
    ensures { Does (relock_pages m.old.world) result m.old m.new }
{
    if of_some_page(m, Question::IsAboveView) {
        return Err(Refusal::InvalidAddress);
    }
    if of_some_page(m, Question::IsRelocked) {
        return Err(Refusal::InvalidValue);
    }
    let (first, n) = asked_run(m);
    set_pages(m, false, first, n);
    Ok(())
}

/// Function 0604h: BX:CX is the number of bytes of a page.
#[tactic(auto, unfolding(crate::specs::Rows::page_size))]
pub(crate) fn page_size(m: &mut Machine) -> Result<(), Refusal>
    ensures { Does (page_size m.old.world) result m.old m.new }
{
    let mut r = m.regs();
    r.ebx = with_low_half(r.ebx, high_half(PAGE_SIZE));
    r.ecx = with_low_half(r.ecx, low_half(PAGE_SIZE));
    m.set_regs(r);
    Ok(())
}

/// Function 0702h: accepts pages of blocks as candidates for paging, which changes nothing.
#[tactic(auto, unfolding(crate::specs::Rows::mark_paging_candidates))]
pub(crate) fn mark_paging_candidates(m: &mut Machine) -> Result<(), Refusal>
    ensures { Does (mark_paging_candidates m.old.world) result m.old m.new }
{
    if of_some_page(m, Question::IsNoBlock) {
        return Err(Refusal::InvalidAddress);
    }
    Ok(())
}

/// Function 0703h: the bytes of unlocked pages wholly inside become 0.
#[tactic(auto, unfolding(crate::specs::Rows::discard_pages))]
pub(crate) fn discard_pages(m: &mut Machine) -> Result<(), Refusal>
    ensures { Does (discard_pages m.old.world) result m.old m.new }
{
    if of_some_page(m, Question::IsNoBlock) {
        return Err(Refusal::InvalidAddress);
    }
    let start = bx_cx(m);
    let size = si_di(m);
    change_pages(
        m,
        Change::Discard,
        pages_rounded_up(start),
        whole_pages(start, size),
    );
    Ok(())
}
