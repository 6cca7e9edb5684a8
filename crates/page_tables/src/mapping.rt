// One page mapped, or no longer.
ghost use Rattle.std.specs.Prelude.{◌≡◌, length};
ghost use Rattle.client_world.specs.declared.host_frames.TheConstants.{PAGE_DIRECTORY};
ghost use Rattle.guest_ram.specs.Bytes.{put, dword_bytes};
ghost use Rattle.page_tables.specs.{Entry.{page_entry}, Walk.{IsFrame, frame_of, table_entry, table_place}, Mapping.{HasTables, IsCovered}};
ghost use Rattle.page_tables.specs.Mapping.{IsUnmapped, IsMapped, EndsInFrame, EndsNowhere, KeepsOtherPages};

use crate::entry::page_entry;
use crate::translation::table_place;
use client_world::host_frames::{PAGE_DIRECTORY, PAGE_SIZE};
use guest_ram::Ram;

/// Maps the page of a linear address to a frame, for the user to read, or to read and write.
/// Source: 80386 Programmer's Reference Manual, ch. 5, "Page Translation".
pub fn map(ram: &mut Ram, lin: u32, frame: u32, writable: bool)
    requires tables { HasTables ram.old }
    requires covered { IsCovered ram.old lin }
    requires unmapped { IsUnmapped ram.old lin }
    requires frame { IsFrame ram.old frame }
    ensures bytes { ram.new
        ≡ put ram.old (table_place ram.old PAGE_DIRECTORY lin) (dword_bytes (page_entry frame writable)) }
    ensures size { length ram.new ≡ length ram.old }
    ensures tables { HasTables ram.new }
    ensures mapped { IsMapped ram.new lin }
    ensures page { EndsInFrame ram.old ram.new lin frame writable }
    ensures others { KeepsOtherPages ram.old ram.new lin }
{
    let _size = ram.len();
    let place = table_place(ram, PAGE_DIRECTORY, lin);
    ram.set32(place, page_entry(frame, writable));
}

/// Unmaps the page of a linear address, and returns its frame.
/// Source: 80386 Programmer's Reference Manual, ch. 5, "Page Translation".
pub fn unmap(ram: &mut Ram, lin: u32) -> u32
    requires tables { HasTables ram.old }
    requires mapped { IsMapped ram.old lin }
    ensures frame { result ≡ frame_of (table_entry ram.old PAGE_DIRECTORY lin) }
    ensures bytes { ram.new ≡ put ram.old (table_place ram.old PAGE_DIRECTORY lin) (dword_bytes 0) }
    ensures size { length ram.new ≡ length ram.old }
    ensures tables { HasTables ram.new }
    ensures covered { IsCovered ram.new lin }
    ensures unmapped { IsUnmapped ram.new lin }
    ensures page { EndsNowhere ram.new lin }
    ensures others { KeepsOtherPages ram.old ram.new lin }
{
    let place = table_place(ram, PAGE_DIRECTORY, lin);
    let frame = ram.get32(place) / PAGE_SIZE;
    ram.set32(place, 0);
    frame
}
