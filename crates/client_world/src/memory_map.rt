//! The memory map of the client: linear addresses in bytes, segments in paragraphs. Source: own.

use crate::host_frames::{BUDGET_FRAMES, PAGE_DIRECTORY, PAGE_SIZE};
use crate::limits::{GREATEST_DEPTH, MAX_PAGES};

/// The bytes of a paragraph, in which segments are counted.
pub const PARAGRAPH_SIZE: u32 = 16;

/// The bytes of a real-mode segment, whose limit is FFFFh.
pub const SEGMENT_SIZE: u32 = 0x1_0000;

/// The bytes of the DOS megabyte, which is at 00000h to FFFFFh.
pub const DOS_SIZE: u32 = 0x10_0000;

/// The bytes of the real-mode vector table, which is at 00000h: 256 far pointers.
pub const VECTOR_TABLE_SIZE: u32 = 0x400;

/// The first paragraph of the arena of DOS memory.
pub const ARENA_START: u32 = 0x60;

/// The paragraph after the arena of DOS memory.
pub const ARENA_END: u32 = 0xA000;

/// The segment of the client's program segment prefix.
pub const PSP_SEGMENT: u16 = 0x64;

/// The segment at which the client's image is loaded.
pub const IMAGE_SEGMENT: u16 = 0x74;

/// The linear address at which the client's image is loaded.
pub const IMAGE_START: u32 = 0x740;

/// The first of the host's real-mode stacks, one for each depth. The protected-mode stacks follow them.
pub const REAL_STACKS: u32 = PROTECTED_STACKS - GREATEST_DEPTH * REAL_STACK_SIZE;

/// The segment of the host's real-mode stacks.
pub const REAL_STACK_SEGMENT: u16 = (REAL_STACKS / PARAGRAPH_SIZE) as u16;

/// The bytes of a real-mode stack of the host.
pub const REAL_STACK_SIZE: u32 = 0x400;

/// The first of the host's protected-mode stacks, one for each depth. They end where read-only memory begins.
pub const PROTECTED_STACKS: u32 = ROM_START - GREATEST_DEPTH * PROTECTED_STACK_SIZE;

/// The bytes of a protected-mode stack of the host.
pub const PROTECTED_STACK_SIZE: u32 = 0x800;

/// Where read-only memory begins, up to the end of the megabyte.
pub const ROM_START: u32 = 0xF_0000;

/// The segment of read-only memory, in which each real vector starts.
pub const ROM_SEGMENT: u16 = (ROM_START / PARAGRAPH_SIZE) as u16;

/// The byte of read-only memory: the opcode of HLT.
pub const ROM_BYTE: u8 = 0xF4;

/// The end of what shows the DOS megabyte: 100000h to 10FFFFh shows its first 64 KB again.
pub const DOS_VIEW_END: u32 = DOS_SIZE + SEGMENT_SIZE;

/// The pages of that view.
pub const DOS_VIEW_PAGES: u32 = DOS_VIEW_END / PAGE_SIZE;

/// Where memory blocks lie.
pub const BLOCK_REGION: u32 = 0x40_0000;

/// The end of where memory blocks lie.
pub const BLOCK_REGION_END: u32 = BLOCK_REGION + BLOCK_REGION_PAGES * PAGE_SIZE;

/// The pages of where memory blocks lie: four times what blocks may take together.
pub const BLOCK_REGION_PAGES: u32 = 4 * MAX_PAGES;

/// Where the host's own frames lie, which no client may touch.
pub const HOST_WINDOW: u32 = 0xC000_0000;

/// The end of the host's own frames.
pub const HOST_WINDOW_END: u32 = HOST_WINDOW + (BUDGET_FRAMES - PAGE_DIRECTORY) * PAGE_SIZE;
