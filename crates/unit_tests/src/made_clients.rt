// Made files. What they must be was computed by a script over the table of pieces, and not by this program.
use crate::compare::{in_row, same};
use client_maker::make;
use std::test::Fail;

// A seed, the bytes of its file, its first piece, and the sum of all bytes. There is a first piece of each kind.
const FILES: [(u64, usize, &[u8], u32); 9] = [
    (0, 18_604, b"\xB2\x5E\xB4\x02\xCD\x21", 1_954_673),
    (
        4,
        18_476,
        b"\xB8\x02\x00\xBB\x34\x4C\xCD\x31\x89\xC3",
        1_940_226,
    ),
    (
        7,
        18_426,
        b"\xB8\x00\x06\xBB\x40\x00\xB9\x00\x00\x31\xF6\xBF\xBC\x28\xCD\x31",
        1_923_919,
    ),
    (10, 18_645, b"\xB8\x01\x00\xCD\x31", 1_954_379),
    (
        13,
        18_357,
        b"\xB8\x00\x00\xB9\x03\x00\xCD\x31\x89\xC3",
        1_924_189,
    ),
    (
        16,
        18_828,
        b"\xB8\x08\x00\xB9\x53\xBE\xBA\xFF\x0F\xCD\x31",
        1_974_922,
    ),
    (
        19,
        18_285,
        b"\xB8\x01\x05\xBB\x00\x00\xB9\xDB\x9A\xCD\x31",
        1_918_521,
    ),
    (22, 18_385, b"\xB8\x02\x05\xCD\x31", 1_911_478),
    (u64::MAX, 18_495, b"\xB8\x02\x05\xCD\x31", 1_939_283),
];

fn compare(file: &[u8], len: usize, piece: &[u8], sum: u32) -> Result<(), &'static str> {
    same("length", file.len() == len)?;
    let first = file.get(46..).unwrap_or_default();
    same("first piece", first.starts_with(piece))?;
    let mut all: u32 = 0;
    for byte in file {
        all = all.wrapping_add(u32::from(*byte));
    }
    same("sum", all == sum)
}

#[test]
fn each_seed_has_its_file(rt: HostRuntime) -> Result<(), Fail> {
    for (number, (seed, len, piece, sum)) in FILES.iter().enumerate() {
        let file = make(rt.alloc(), *seed)?;
        in_row(number, compare(file.as_slice(), *len, piece, *sum))?;
    }
    Ok(())
}

// The header and the code before the first piece of seed 7, whose file has 36 pages and one of 506 bytes.
const HEAD: [u8; 46] = [
    0x4D, 0x5A, 0xFA, 0x01, 0x24, 0x00, 0x00, 0x00, 0x02, 0x00, 0x10, 0x00, 0xFF, 0xFF, 0x7E, 0x04,
    0x00, 0x01, 0x00, 0x00, 0x00, 0x00, 0x00, 0x00, 0x1C, 0x00, 0x00, 0x00, 0x00, 0x00, 0x00, 0x00,
    0xB8, 0x87, 0x16, 0xCD, 0x2F, 0x06, 0x57, 0x89, 0xE5, 0x31, 0xC0, 0xFF, 0x5E, 0x00,
];

#[test]
fn the_client_enters_and_ends(rt: HostRuntime) -> Result<(), Fail> {
    let file = make(rt.alloc(), 7)?;
    let end = file.get(18_421..).unwrap_or_default();
    same("length", file.len() == 18_426)?;
    same("start", file.starts_with(HEAD.as_slice()))?;
    same("end", end == [0xB8, 0x00, 0x4C, 0xCD, 0x21].as_slice())?;
    Ok(())
}
