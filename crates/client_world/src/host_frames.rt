//! The frames of physical memory, and what lies in those of the host. Source: own.

use crate::limits::{
    CALLBACKS, EXCEPTION_VECTORS, GREATEST_DEPTH, INTERRUPT_VECTORS, MAX_BLOCKS, MAX_PAGES,
};
use crate::memory_map::{ARENA_END, ARENA_START, BLOCK_REGION_PAGES, DOS_SIZE, DOS_VIEW_PAGES};

/// The bytes of a frame and of a page. Source: 80386 Programmer's Reference Manual, ch. 5, "Page Translation".
pub const PAGE_SIZE: u32 = 4096;

/// The bytes of a page entry. Source: 80386 Programmer's Reference Manual, ch. 5, "Page Tables".
pub const PAGE_ENTRY_SIZE: u32 = 4;

/// The entries of a page directory and of a page table, each of which fills a frame.
/// Source: 80386 Programmer's Reference Manual, ch. 5, "Page Tables".
pub const TABLE_ENTRIES: u32 = PAGE_SIZE / PAGE_ENTRY_SIZE;

/// The frames of the DOS megabyte, from frame 0 on.
pub const DOS_FRAMES: u32 = DOS_SIZE / PAGE_SIZE;

/// The frame of the page directory, the first of the host's.
pub const PAGE_DIRECTORY: u32 = DOS_FRAMES;

/// The frame of the page table of 00000000h to 003FFFFFh.
pub const LOW_TABLE: u32 = PAGE_DIRECTORY + 1;

/// The frame of the page table of the window in which the host's frames lie.
pub const WINDOW_TABLE: u32 = LOW_TABLE + 1;

/// The frames of the page directory and of these two page tables, whose entries never change.
pub const FIXED_TABLE_FRAMES: u32 = 3;

/// The first frame of the page tables of the block region.
pub const BLOCK_TABLES: u32 = PAGE_DIRECTORY + FIXED_TABLE_FRAMES;

/// The frames of the page tables of the block region: one for each 4 MB.
pub const BLOCK_TABLE_FRAMES: u32 = BLOCK_REGION_PAGES / TABLE_ENTRIES;

/// The first frame of the descriptor rows.
pub const DESCRIPTOR_ROWS: u32 = BLOCK_TABLES + BLOCK_TABLE_FRAMES;

/// The descriptors of the client's table.
pub const DESCRIPTORS: u32 = 8192;

/// The bytes of a descriptor row.
pub const DESCRIPTOR_ROW_SIZE: u32 = 16;

/// The frames of the descriptor rows.
pub const DESCRIPTOR_ROW_FRAMES: u32 = DESCRIPTORS * DESCRIPTOR_ROW_SIZE / PAGE_SIZE;

/// The frame of the protected-mode vectors, the exception vectors, the callbacks and the pageable pages.
pub const VECTORS: u32 = DESCRIPTOR_ROWS + DESCRIPTOR_ROW_FRAMES;

/// The bytes of a protected-mode vector and of an exception vector: a far pointer, and a word 0.
pub const VECTOR_SIZE: u32 = 8;

/// The bytes of a callback: the far pointers to its procedure and to its structure, whether it is held, and zeros.
pub const CALLBACK_SIZE: u32 = 16;

/// The frames of these four lists.
pub const VECTOR_FRAMES: u32 = 1;

/// Where the exception vectors begin in that frame, which begins with the protected-mode vectors.
pub const EXCEPTIONS_START: u32 = VECTOR_SIZE * INTERRUPT_VECTORS;

/// Where the callbacks begin in it.
pub const CALLBACKS_START: u32 = EXCEPTIONS_START + VECTOR_SIZE * EXCEPTION_VECTORS;

/// Where the pageable pages begin in it, a byte for each page of the DOS megabyte's view.
pub const PAGEABLE_START: u32 = CALLBACKS_START + CALLBACK_SIZE * CALLBACKS;

/// Where the head of the list of free frames is in it, a doubleword.
pub const FREE_HEAD_START: u32 = PAGEABLE_START + DOS_VIEW_PAGES;

/// The first frame of the records of calls.
pub const RECORDS: u32 = VECTORS + VECTOR_FRAMES;

/// The bytes of a record of a call.
pub const RECORD_SIZE: u32 = 128;

/// The frames of the records of calls: a record for each depth.
pub const RECORD_FRAMES: u32 = (GREATEST_DEPTH * RECORD_SIZE + PAGE_SIZE - 1) / PAGE_SIZE;

/// The first frame of the block rows.
pub const BLOCK_ROWS: u32 = RECORDS + RECORD_FRAMES;

/// The bytes of a block row.
pub const BLOCK_ROW_SIZE: u32 = 16;

/// The frames of the block rows: a row for each handle.
pub const BLOCK_ROW_FRAMES: u32 = (MAX_BLOCKS * BLOCK_ROW_SIZE + PAGE_SIZE - 1) / PAGE_SIZE;

/// The first frame of the lock counts.
pub const LOCK_COUNTS: u32 = BLOCK_ROWS + BLOCK_ROW_FRAMES;

/// The bytes of a lock count.
pub const LOCK_COUNT_SIZE: u32 = 2;

/// The frames of the lock counts: a word for each page of the block region.
pub const LOCK_COUNT_FRAMES: u32 = BLOCK_REGION_PAGES * LOCK_COUNT_SIZE / PAGE_SIZE;

/// The first frame of the list of DOS memory.
pub const DOS_LIST: u32 = LOCK_COUNTS + LOCK_COUNT_FRAMES;

/// The bytes of an entry of that list.
pub const DOS_ENTRY_SIZE: u32 = 8;

/// The frames of the list of DOS memory: room for an entry for each paragraph of the arena.
pub const DOS_LIST_FRAMES: u32 = ((ARENA_END - ARENA_START) * DOS_ENTRY_SIZE + PAGE_SIZE - 1)
    / PAGE_SIZE;

/// The first frame of the taken bytes.
pub const TAKEN_FRAMES: u32 = DOS_LIST + DOS_LIST_FRAMES;

/// The frames of the taken bytes: a byte for each budget frame.
pub const TAKEN_BYTE_FRAMES: u32 = (MAX_PAGES + PAGE_SIZE - 1) / PAGE_SIZE;

/// The first budget frame, after the host's.
pub const BUDGET_FRAMES: u32 = TAKEN_FRAMES + TAKEN_BYTE_FRAMES;

/// The first index from which runs of free descriptors are sought.
pub const FIRST_FREE_DESCRIPTOR: u16 = 64;
