// The frames of the page budget: a byte for each says which are taken, and the free ones form a list inside themselves.
ghost use Rattle.std.specs.Prelude.{◌≡◌, ◌↔◌, ◌<◌, IsNone, IfSome, IfNone, length};
ghost use Rattle.page_tables.specs.Budget.{HasBudget, IsBudgetFrame, IsFree, IsTaken, AllFree, AllTaken, IsNamedNowhere, taken_place};
ghost use Rattle.page_tables.specs.FreeList.{HasFreeList, KeepsBesideList, first_free, with_head, without_head};

use client_world::host_frames::{BUDGET_FRAMES, FREE_HEAD_START, PAGE_SIZE, TAKEN_FRAMES, VECTORS};
use guest_ram::Ram;

/// The address of the head of the list of free frames, a doubleword: it follows the vectors, the callbacks and the pageable pages in their
/// frame. Source: own.
pub const FREE_LIST_HEAD: u32 = PAGE_SIZE * VECTORS + FREE_HEAD_START;

// The address of the taken byte of a frame.
fn taken_place(ram: &Ram, frame: u32) -> u32
    requires frames { HasBudget ram.now }
    requires frame { IsBudgetFrame ram.now frame }
    ensures place { result ≡ taken_place frame }
    ensures inside { result < length ram.now }
{
    let _size = ram.len();
    PAGE_SIZE * TAKEN_FRAMES + (frame - BUDGET_FRAMES)
}

/// Takes the frame at the head of the list of free frames, or `None` where each frame of the budget is taken; then nothing changes. The
/// frame's bytes stay. Source: own.
pub fn take_frame(ram: &mut Ram) -> Option<u32>
    requires frames { HasBudget ram.old }
    requires list { HasFreeList ram.old }
    ensures none { IsNone result ↔ AllTaken ram.old }
    ensures unchanged { IfNone result (ram.new ≡ ram.old) }
    ensures head { IfSome result (λ frame. first_free ram.old ≡ frame) }
    ensures budget { IfSome result (IsBudgetFrame ram.old) }
    ensures free { IfSome result (IsFree ram.old) }
    ensures bytes { IfSome result (λ frame. ram.new ≡ without_head ram.old frame) }
    ensures taken { IfSome result (IsTaken ram.new) }
    ensures list { HasFreeList ram.new }
    ensures size { length ram.new ≡ length ram.old }
{
    let _size = ram.len();
    let frame = ram.get32(FREE_LIST_HEAD);
    if frame == 0 {
        return None;
    }
    let place = taken_place(ram, frame);
    let next = ram.get32(PAGE_SIZE * frame);
    ram.set32(FREE_LIST_HEAD, next);
    ram.set8(place, 1);
    Some(frame)
}

/// Gives a frame of the budget back: it becomes the head of the list of free frames. Source: own.
pub fn give_frame(ram: &mut Ram, frame: u32)
    requires frames { HasBudget ram.old }
    requires list { HasFreeList ram.old }
    requires budget { IsBudgetFrame ram.old frame }
    requires taken { IsTaken ram.old frame }
    requires unmapped { IsNamedNowhere ram.old frame }
    ensures bytes { ram.new ≡ with_head ram.old frame }
    ensures free { IsFree ram.new frame }
    ensures list { HasFreeList ram.new }
    ensures size { length ram.new ≡ length ram.old }
{
    let _size = ram.len();
    let place = taken_place(ram, frame);
    let head = ram.get32(FREE_LIST_HEAD);
    ram.set32(PAGE_SIZE * frame, head);
    ram.set32(FREE_LIST_HEAD, frame);
    ram.set8(place, 0);
}

/// Lists all frames of the budget, none of which is taken, for a new memory. Source: own.
pub fn link_frames(ram: &mut Ram)
    requires frames { HasBudget ram.old }
    requires free { AllFree ram.old }
    ensures list { HasFreeList ram.new }
    ensures others { KeepsBesideList ram.old ram.new }
    ensures size { length ram.new ≡ length ram.old }
{
    let frames = ram.len() / PAGE_SIZE;
    let mut first = 0;
    for linked in 0..frames - BUDGET_FRAMES {
        let frame = frames - 1 - linked;
        ram.set32(PAGE_SIZE * frame, first);
        first = frame;
    }
    ram.set32(FREE_LIST_HEAD, first);
}
