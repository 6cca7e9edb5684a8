// Page tables of a memory with two budget frames.
ghost use Rattle.std.specs.Prelude.{◌≡◌, ◌+◌, ◌*◌, ℕ, IfOk, length, slice_index};
ghost use Rattle.client_world.specs.declared.host_frames.TheConstants.{BUDGET_FRAMES, PAGE_SIZE};
ghost use Rattle.page_tables.specs.{FreeList.{HasFreeList}, Mapping.{HasTables, IsCovered, IsUnmapped}};
ghost use Rattle.unit_tests.specs.declared.pages.TheConstants.{PAGE};

use crate::compare::same;
use client_world::PageFault;
use client_world::host_frames::{BUDGET_FRAMES, PAGE_DIRECTORY, PAGE_SIZE, TAKEN_FRAMES};
use guest_ram::Ram;
use page_tables::{FREE_LIST_HEAD, give_frame, link_frames, map, take_frame, unmap, walk};
use std::alloc::{AllocError, Global};
use std::test::Fail;

const PAGE: u32 = 0x12_3456;

const ABSENT: Result<u32, PageFault> = Err(PageFault { present: false });

const REFUSED: Result<u32, PageFault> = Err(PageFault { present: true });

// A memory in which a page table, in frame 101h, covers the first four megabytes.
fn memory(alloc: Global) -> Result<Ram, AllocError>
    ensures tables { IfOk result HasTables }
    ensures covered { IfOk result (λ ram. IsCovered ram PAGE) }
    ensures unmapped { IfOk result (λ ram. IsUnmapped ram PAGE) }
    ensures size { IfOk result (λ ram. length ram ≡ PAGE_SIZE * (BUDGET_FRAMES + 2)) }
{
    let mut ram = Ram::new(alloc, BUDGET_FRAMES + 2)?;
    ram.set32(0x10_0000, 0x10_1067);
    Ok(ram)
}

// The page is in frame 1DBh, and may be read.
fn compare_mapped(ram: &Ram) -> Result<(), &'static str>
    requires tables { HasTables ram.now }
    requires size { length ram.now ≡ PAGE_SIZE * (BUDGET_FRAMES + 2) }
{
    let end = walk(ram, PAGE_DIRECTORY, 0x12_3FFF, false);
    same("the entry", ram.get32(0x10_148C) == 0x1D_B065)?;
    same("a read of its last byte", end == Ok(0x1D_BFFF))?;
    let end = walk(ram, PAGE_DIRECTORY, PAGE, true);
    same("a write", end == REFUSED)?;
    let end = walk(ram, PAGE_DIRECTORY, 0x12_4000, false);
    same("the next page", end == ABSENT)?;
    let end = walk(ram, PAGE_DIRECTORY, 0x40_0000, false);
    same("the next table", end == ABSENT)
}

// The page is in frame 1DCh, and may be written.
fn compare_writable(ram: &Ram) -> Result<(), &'static str>
    requires tables { HasTables ram.now }
    requires size { length ram.now ≡ PAGE_SIZE * (BUDGET_FRAMES + 2) }
{
    same("the writable entry", ram.get32(0x10_148C) == 0x1D_C067)?;
    let end = walk(ram, PAGE_DIRECTORY, PAGE, true);
    same("a write that may be", end == Ok(0x1D_C456))
}

fn compare_page(ram: &mut Ram) -> Result<(), &'static str>
    requires tables { HasTables ram.old }
    requires covered { IsCovered ram.old PAGE }
    requires unmapped { IsUnmapped ram.old PAGE }
    requires size { length ram.old ≡ PAGE_SIZE * (BUDGET_FRAMES + 2) }
{
    let end = walk(ram, PAGE_DIRECTORY, PAGE, false);
    same("before it is mapped", end == ABSENT)?;
    map(ram, PAGE, BUDGET_FRAMES, false);
    compare_mapped(ram)?;
    same("its frame", unmap(ram, PAGE) == BUDGET_FRAMES)?;
    let end = walk(ram, PAGE_DIRECTORY, PAGE, false);
    same("after it is unmapped", end == ABSENT)?;
    map(ram, PAGE, BUDGET_FRAMES + 1, true);
    compare_writable(ram)
}

#[test]
fn a_page_is_mapped_and_no_longer(rt: HostRuntime) -> Result<(), Fail> {
    let mut ram = memory(rt.alloc())?;
    compare_page(&mut ram)?;
    Ok(())
}

// The head of the list of free frames, and the taken byte of the first frame of the budget.
fn compare_first(ram: &Ram, head: u32, taken: u8) -> Result<(), &'static str>
    requires { length ram.now ≡ PAGE_SIZE * (BUDGET_FRAMES + 2) }
{
    same("the head", ram.get32(FREE_LIST_HEAD) == head)?;
    same("its frame", ram.get8(PAGE_SIZE * TAKEN_FRAMES) == taken)
}

fn compare_links(ram: &Ram) -> Result<(), &'static str>
    requires { length ram.now ≡ PAGE_SIZE * (BUDGET_FRAMES + 2) }
{
    let next = ram.get32(PAGE_SIZE * BUDGET_FRAMES);
    same("the second frame", next == BUDGET_FRAMES + 1)?;
    let end = ram.get32(PAGE_SIZE * (BUDGET_FRAMES + 1));
    same("the end of the list", end == 0)?;
    compare_first(ram, BUDGET_FRAMES, 0)
}

// Both frames are taken, and then there is none.
fn compare_taken(ram: &mut Ram) -> Result<(), &'static str>
    requires size { length ram.old ≡ PAGE_SIZE * (BUDGET_FRAMES + 2) }
    requires list { HasFreeList ram.old }
{
    let first = take_frame(ram);
    same("the first frame again", first == Some(BUDGET_FRAMES))?;
    let second = take_frame(ram);
    same("the second frame", second == Some(BUDGET_FRAMES + 1))?;
    same("an empty list", ram.get32(FREE_LIST_HEAD) == 0)?;
    same("a third frame", take_frame(ram).is_none())
}

// The first frame is taken and given back, and then both are taken.
fn compare_frames(ram: &mut Ram) -> Result<(), &'static str>
    requires size { length ram.old ≡ PAGE_SIZE * (BUDGET_FRAMES + 2) }
    requires zero { (at : ℕ) → slice_index ram.old at ≡ 0 }
{
    link_frames(ram);
    compare_links(ram)?;
    let first = take_frame(ram);
    same("the first frame", first == Some(BUDGET_FRAMES))?;
    compare_first(ram, BUDGET_FRAMES + 1, 1)?;
    if let Some(frame) = first {
        give_frame(ram, frame);
    }
    compare_first(ram, BUDGET_FRAMES, 0)?;
    compare_taken(ram)
}

#[test]
fn frames_are_taken_from_the_list_of_free_ones(rt: HostRuntime) -> Result<(), Fail> {
    let mut ram = Ram::new(rt.alloc(), BUDGET_FRAMES + 2)?;
    compare_frames(&mut ram)?;
    Ok(())
}
