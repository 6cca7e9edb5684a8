// The walk of the page tables.
ghost use Rattle.std.specs.Prelude.{◌≡◌, ◌<◌, ◌+◌, length};
ghost use Rattle.page_tables.specs.Walk.{IsFrame, TablesInside, walk_end, directory_entry, table_place, walked};

use crate::entry::{PRESENT, TABLE_SPAN, is_allowed};
use client_world::host_frames::{PAGE_ENTRY_SIZE, PAGE_SIZE, TABLE_ENTRIES};
use client_world::{PageFault, is_set};
use guest_ram::Ram;

// Where an access ends that meets these two entries.
#[inline(always)]
#[tactic(auto, unfolding(crate::specs::Walk::walk_end))]
fn end(directory: u32, table: u32, lin: u32, write: bool) -> Result<u32, PageFault>
    ensures { result ≡ walk_end directory table lin write }
{
    if !is_set(directory, PRESENT) || !is_set(table, PRESENT) {
        Err(PageFault { present: false })
    } else if is_allowed(directory, write) && is_allowed(table, write) {
        Ok(PAGE_SIZE * (table / PAGE_SIZE) + lin % PAGE_SIZE)
    } else {
        Err(PageFault { present: true })
    }
}

// The directory entry of a linear address.
#[inline(always)]
pub(crate) fn directory_of(ram: &Ram, root: u32, lin: u32) -> u32
    requires root { IsFrame ram.now root }
    ensures { result ≡ directory_entry ram.now root lin }
{
    let _size = ram.len();
    ram.get32(PAGE_SIZE * root + PAGE_ENTRY_SIZE * (lin / TABLE_SPAN))
}

// The address of the table entry of a linear address.
#[inline(always)]
pub(crate) fn table_place(ram: &Ram, root: u32, lin: u32) -> u32
    requires root { IsFrame ram.now root }
    requires tables { TablesInside ram.now root }
    ensures place { result ≡ table_place ram.now root lin }
    ensures inside { result + 3 < length ram.now }
{
    let _size = ram.len();
    let table = directory_of(ram, root, lin) / PAGE_SIZE;
    PAGE_SIZE * table + PAGE_ENTRY_SIZE * (lin / PAGE_SIZE % TABLE_ENTRIES)
}

/// Where in the memory a user's access to a linear address ends, by the page directory in frame `root`; or a `PageFault` where an entry
/// isn't present or doesn't let a user do that. It says whether both entries were present. No entry's accessed or dirty bit changes.
/// Source: 80386 Programmer's Reference Manual, ch. 5, "Page Translation", and ch. 6, "Page-Level Protection".
#[inline(always)]
#[tactic(auto, unfolding(crate::specs::Walk::walked))]
pub fn walk(ram: &Ram, root: u32, lin: u32, write: bool) -> Result<u32, PageFault>
    requires root { IsFrame ram.now root }
    requires tables { TablesInside ram.now root }
    ensures { result ≡ walked ram.now root lin write }
{
    let directory = directory_of(ram, root, lin);
    let table = ram.get32(table_place(ram, root, lin));
    end(directory, table, lin, write)
}
