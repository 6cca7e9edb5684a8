// Page entries: a frame, and bits in the twelve below it.
ghost use Rattle.std.specs.Prelude.{◌≡◌, ◌<◌, ◌+◌, ◌*◌, ◌^◌};
ghost use Rattle.client_world.specs.declared.host_frames.TheConstants.{PAGE_SIZE};
ghost use Rattle.page_tables.specs.Entry.{allows, page_entry};

use client_world::host_frames::{PAGE_SIZE, TABLE_ENTRIES};
use client_world::is_set;

/// The bytes of linear addresses that a page table covers.
/// Source: 80386 Programmer's Reference Manual, ch. 5, "Page Translation".
pub const TABLE_SPAN: u32 = PAGE_SIZE * TABLE_ENTRIES;

/// The bit of an entry that names a frame. Source: 80386 Programmer's Reference Manual, ch. 5, "Page-Table Entries".
pub const PRESENT: u32 = 0x01;

/// The bit of an entry through which a user may write. Source: 80386 Programmer's Reference Manual, ch. 5, "Page-Table Entries".
pub const WRITABLE: u32 = 0x02;

/// The bit of an entry through which a user may read. Source: 80386 Programmer's Reference Manual, ch. 5, "Page-Table Entries".
pub const USER: u32 = 0x04;

/// The bit of an entry that was read through. Source: 80386 Programmer's Reference Manual, ch. 5, "Page-Table Entries".
pub const ACCESSED: u32 = 0x20;

/// The bit of an entry that was written through. Source: 80386 Programmer's Reference Manual, ch. 5, "Page-Table Entries".
pub const DIRTY: u32 = 0x40;

/// The bits of the entry of a page that a user may read and write: 67h. Source: own.
pub const USER_WRITABLE: u32 = PRESENT + WRITABLE + USER + ACCESSED + DIRTY;

/// The bits of the entry of a page that a user may read: 65h. Source: own.
pub const USER_READ_ONLY: u32 = PRESENT + USER + ACCESSED + DIRTY;

/// The bits of the entry of a page that the supervisor alone may touch: 63h. Source: own.
pub const SUPERVISOR_WRITABLE: u32 = PRESENT + WRITABLE + ACCESSED + DIRTY;

// Whether an entry lets a user read, or write.
pub(crate) fn is_allowed(entry: u32, write: bool) -> bool
    ensures { result ≡ allows entry write }
{
    is_set(entry, USER) && (!write || is_set(entry, WRITABLE))
}

// The entry of a page that lies in a frame.
pub(crate) fn page_entry(frame: u32, writable: bool) -> u32
    requires { PAGE_SIZE * frame + PAGE_SIZE < 2 ^ 32 }
    ensures { result ≡ page_entry frame writable }
{
    let bits = if writable {
        USER_WRITABLE
    } else {
        USER_READ_ONLY
    };
    PAGE_SIZE * frame + bits
}
