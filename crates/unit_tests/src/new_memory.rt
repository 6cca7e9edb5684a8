// The bytes of a new memory.
use crate::compare::{in_row, same};
use client_world::host_frames::{
    CALLBACKS_START, EXCEPTIONS_START, FREE_HEAD_START, PAGEABLE_START,
};
use guest_ram::Ram;
use host_memory::blank_memory;
use std::test::Fail;

// The doubleword at an address, where it and a byte after it are there.
fn word(ram: &Ram, at: u32) -> Option<u32> {
    if ram.len() > 4 && at < ram.len() - 4 {
        Some(ram.get32(at))
    } else {
        None
    }
}

// Doublewords of a new memory, by their addresses.
const DOUBLEWORDS: [(u32, u32); 34] = [
    // Real vectors 21h and FFh, and what follows them.
    (0x84, 0xF000_0021),
    (0x3FC, 0xF000_00FF),
    (0x400, 0),
    // The header of DOS memory.
    (0x600, 0x9F00_005A),
    (0x604, 0x9F),
    // Read-only memory.
    (0xE_FFFC, 0),
    (0xF_0000, 0xF4F4_F4F4),
    (0xF_FFFC, 0xF4F4_F4F4),
    // Directory entries 0, 1, 64, 65 and 768.
    (0x10_0000, 0x10_1067),
    (0x10_0004, 0x10_3067),
    (0x10_0100, 0x14_2067),
    (0x10_0104, 0),
    (0x10_0C00, 0x10_2063),
    // Pages EFh, F0h, 100h, 10Fh and 110h of the first 4 MB.
    (0x10_13BC, 0xE_F067),
    (0x10_13C0, 0xF_0065),
    (0x10_1400, 0x67),
    (0x10_143C, 0xF067),
    (0x10_1440, 0),
    // Pages 0, 218 and 219 of the window.
    (0x10_2000, 0x10_0063),
    (0x10_2368, 0x1D_A063),
    (0x10_236C, 0),
    // The first and the last page of the block region.
    (0x10_3000, 0),
    (0x14_2FFC, 0),
    // The protected vector 31h, the exception vector 0, and what follows exception vector 31.
    (0x16_3188, 0x231),
    (0x16_318C, 0x87),
    (0x16_3800, 0x300),
    (0x16_3804, 0x87),
    (0x16_3900, 0),
    // The head of the list of free frames, what follows it, and the only frame of the budget.
    (0x16_3B10, 0x1DB),
    (0x16_3B14, 0),
    (0x1D_B000, 0),
    // The list of DOS memory.
    (0x18_7000, 0x9F9F_0060),
    (0x18_7004, 1),
    (0x18_7008, 0),
];

// Where the lists of the vectors' frame begin, the head of the free frames among them, by the memory map.
const STARTS: [(u32, u32); 4] = [
    (EXCEPTIONS_START, 0x800),
    (CALLBACKS_START, 0x900),
    (PAGEABLE_START, 0xA00),
    (FREE_HEAD_START, 0xB10),
];

#[test]
fn the_lists_of_the_vectors_frame_begin_there() -> Result<(), Fail> {
    for (number, (start, want)) in STARTS.iter().enumerate() {
        in_row(number, same("start", start == want))?;
    }
    Ok(())
}

#[test]
fn a_new_memory_has_these_bytes(rt: HostRuntime) -> Result<(), Fail> {
    let ram = blank_memory(rt.alloc(), 1)?;
    same("length", ram.len() == 1_949_696)?;
    for (number, (at, want)) in DOUBLEWORDS.iter().enumerate() {
        in_row(number, same("doubleword", word(&ram, *at) == Some(*want)))?;
    }
    Ok(())
}
