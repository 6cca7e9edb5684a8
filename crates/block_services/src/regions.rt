// The pages that a run of bytes touches, the questions asked of them, and the changes made to them.
ghost use Rattle.std.specs.{Prelude.{◌≡◌, ◌<◌, ◌≤◌, ◌+◌, ◌*◌, ◌^◌, ℕ}, Bool.{OnTrue}};
ghost use Rattle.client_world.specs.{declared.host_frames.TheConstants.{PAGE_SIZE}, declared.memory_map.TheConstants.{BLOCK_REGION_END}};
ghost use Rattle.client_world.specs.declared.memory_map.TheConstants.{DOS_VIEW_PAGES};
ghost use Rattle.guest_space.specs.VectorLists.{is_pageable};
ghost use Rattle.block_services.specs.Pages.{changed, changed_page, page_answer, pages_rounded_up, is_blocks, is_in_view, lock_of_page};
ghost use Rattle.block_services.specs.Pages.{page_place, some_page, touched_pages, whole_pages, with_pages};

use client_world::host_frames::PAGE_SIZE;
use client_world::limits::GREATEST_LOCK_COUNT;
use client_world::memory_map::{BLOCK_REGION, BLOCK_REGION_END, DOS_VIEW_PAGES};
use guest_space::Machine;

/// A question about a page.
#[derive(Clone, Copy, PartialEq, Eq)]
pub(crate) enum Question {
    /// It is neither in the view of the DOS megabyte nor in a memory block.
    IsOutside,
    /// It is in no memory block.
    IsNoBlock,
    /// Its lock count is the greatest.
    IsLockedMost,
    /// It is above the view, and its lock count is 0.
    IsUnlocked,
    /// It is above the view.
    IsAboveView,
    /// It is pageable.
    IsPageable,
    /// It isn't pageable.
    IsRelocked,
}

/// A change of a page of a memory block.
#[derive(Clone, Copy, PartialEq, Eq)]
pub(crate) enum Change {
    /// Its lock count rises by 1.
    Lock,
    /// Its lock count falls by 1.
    Unlock,
    /// Its bytes become 0 where it isn't locked.
    Discard,
}

/// The number of pages that a run of bytes touches, given its first byte and its size.
pub(crate) fn touched_pages(start: u32, size: u32) -> u32
    ensures pages { result ≡ touched_pages start size }
    ensures few { result < 2 ^ 22 }
{
    if size == 0 {
        return 0;
    }
    let last = (u64::from(start) + u64::from(size - 1)) / u64::from(PAGE_SIZE);
    last as u32 - start / PAGE_SIZE + 1
}

/// A number of bytes in pages, rounded up; of an address, the first page that begins there or above.
pub(crate) fn pages_rounded_up(bytes: u32) -> u32
    ensures pages { result ≡ pages_rounded_up bytes }
    ensures few { result < 2 ^ 22 }
{
    bytes.div_ceil(PAGE_SIZE)
}

/// The number of pages wholly inside a run of bytes.
pub(crate) fn whole_pages(start: u32, size: u32) -> u32
    ensures pages { result ≡ whole_pages start size }
    ensures few { result < 2 ^ 22 }
{
    let end = (u64::from(start) + u64::from(size)) / u64::from(PAGE_SIZE);
    (end as u32).saturating_sub(pages_rounded_up(start))
}

// Whether a page is a block's: in the block region the client may touch no others.
fn is_blocks(m: &Machine, page: u32) -> bool
    ensures is { result ≡ is_blocks (page_place m.now.world.blocks page) }
    ensures below { OnTrue result (PAGE_SIZE * page < BLOCK_REGION_END) }
{
    if page < BLOCK_REGION / PAGE_SIZE {
        return false;
    }
    if page >= BLOCK_REGION_END / PAGE_SIZE {
        return false;
    }
    m.may_touch(PAGE_SIZE * page, false)
}

// Whether a page belongs to the view of the DOS megabyte.
fn is_in_view(page: u32) -> bool
    ensures { result ≡ is_in_view page }
{
    page < DOS_VIEW_PAGES
}

// The lock count of a page.
fn lock_of_page(m: &Machine, page: u32) -> u16
    ensures { result ≡ lock_of_page m.now.world.blocks page }
{
    if page >= BLOCK_REGION_END / PAGE_SIZE {
        return 0;
    }
    m.lock_count(PAGE_SIZE * page)
}

// Whether a page is pageable; none above the view is.
fn is_pageable(m: &Machine, page: u32) -> bool
    ensures { result ≡ is_pageable m.now.world.pageable page }
{
    m.soundness();
    if page >= DOS_VIEW_PAGES {
        return false;
    }
    m.pageable(page as u16)
}

// The answer to a question about a page.
fn page_answer(m: &Machine, question: Question, page: u32) -> bool
    ensures { result ≡ page_answer question m.now.world page }
{
    match question {
        Question::IsOutside => !is_in_view(page) && !is_blocks(m, page),
        Question::IsNoBlock => !is_blocks(m, page),
        Question::IsLockedMost => u32::from(lock_of_page(m, page)) == GREATEST_LOCK_COUNT,
        Question::IsUnlocked => !is_in_view(page) && lock_of_page(m, page) == 0,
        Question::IsAboveView => !is_in_view(page),
        Question::IsPageable => is_pageable(m, page),
        Question::IsRelocked => !is_pageable(m, page),
    }
}

/// Whether the answer is yes for one of n pages.
pub(crate) fn some_page(m: &Machine, question: Question, first: u32, n: u32) -> bool
    requires { first + n < 2 ^ 32 }
    ensures { result ≡ some_page question m.now.world first n }
{
    for page in first..first + n {
        if page_answer(m, question, page) {
            return true;
        }
    }
    false
}

// Changes a page, if it is a block's.
fn change_page(m: &mut Machine, change: Change, page: u32)
    ensures { m.new.world ≡ record m.old.world {
      blocks = changed_page change m.old.world.blocks (page_place m.old.world.blocks page);
    } }
{
    if is_blocks(m, page) {
        let at = PAGE_SIZE * page;
        let count = m.lock_count(at);
        match change {
            Change::Lock => m.set_lock_count(at, count.saturating_add(1)),
            Change::Unlock => m.set_lock_count(at, count.saturating_sub(1)),
            Change::Discard => {
                if count == 0 {
                    m.zero_page(at);
                }
            }
        }
    }
}

/// Changes those of n pages that are blocks'.
pub(crate) fn change_pages(m: &mut Machine, change: Change, first: u32, n: u32)
    requires { first + n < 2 ^ 32 }
    ensures { m.new.world ≡ record m.old.world { blocks = changed change m.old.world.blocks first n } }
{
    for page in first..first + n {
        change_page(m, change, page);
    }
}

/// Makes n pages of the DOS megabyte's view pageable, or no longer pageable.
pub(crate) fn set_pages(m: &mut Machine, on: bool, first: u32, n: u32)
    requires run { first + n < 2 ^ 32 }
    requires view { (page : ℕ) → first ≤ page → page < first + n → page < DOS_VIEW_PAGES }
    ensures { m.new.world ≡ record m.old.world { pageable = with_pages on m.old.world.pageable first n } }
{
    for page in first..first + n {
        m.set_pageable(page as u16, on);
    }
}
