// Descriptors and rows with bytes that are known by hand.
ghost use Rattle.desc_table.specs.Rows.{HasRows};

use crate::compare::{Differing, in_row, same};
use client_world::host_frames::VECTORS;
use client_world::{Desc, Kind, Origin};
use desc_table::{free_run, look, pack, set, unpack};
use guest_ram::Ram;
use std::test::Fail;

const BASE_740: Desc = Desc {
    base: 0x740,
    limit: 0xFFFF,
    gran: false,
    size: false,
    avl: false,
    present: true,
    kind: Kind::Code,
};

const FLAT: Desc = Desc {
    base: 0,
    limit: 0xF_FFFF,
    gran: true,
    size: true,
    avl: false,
    present: true,
    kind: Kind::Data {
        writable: true,
        down: false,
    },
};

const HOST_CODE: Desc = Desc {
    base: 0xF_0000,
    limit: 0xFFFF,
    gran: false,
    size: false,
    avl: false,
    present: true,
    kind: Kind::Code,
};

// Descriptors and their bytes.
const PACKED: [(Desc, [u8; 8]); 3] = [
    (BASE_740, [0xFF, 0xFF, 0x40, 0x07, 0x00, 0xFB, 0x00, 0x00]),
    (FLAT, [0xFF, 0xFF, 0x00, 0x00, 0x00, 0xF3, 0xCF, 0x00]),
    (HOST_CODE, [0xFF, 0xFF, 0x00, 0x00, 0x0F, 0xFB, 0x00, 0x00]),
];

// Bytes, and the descriptor that they are.
const UNPACKED: [([u8; 8], Option<Desc>); 6] = [
    // Level 0; a system segment; code that can't be read; code that conforms.
    ([0xFF, 0xFF, 0x40, 0x07, 0x00, 0x9B, 0x00, 0x00], None),
    ([0xFF, 0xFF, 0x40, 0x07, 0x00, 0xEB, 0x00, 0x00], None),
    ([0xFF, 0xFF, 0x40, 0x07, 0x00, 0xF9, 0x00, 0x00], None),
    ([0xFF, 0xFF, 0x40, 0x07, 0x00, 0xFF, 0x00, 0x00], None),
    // Bit 5 of byte 6 is set.
    ([0xFF, 0xFF, 0x40, 0x07, 0x00, 0xFB, 0x20, 0x00], None),
    // The Accessed bit is clear.
    (
        [0xFF, 0xFF, 0x40, 0x07, 0x00, 0xFA, 0x00, 0x00],
        Some(BASE_740),
    ),
];

fn compare_packed(d: &Desc, bytes: &[u8; 8]) -> Result<(), &'static str> {
    if d.limit > 0xF_FFFF {
        return Err("a limit of more than 20 bits");
    }
    same("bytes", pack(d) == *bytes)?;
    same("descriptor", unpack(bytes) == Some(*d))
}

#[test]
fn descriptors_have_these_bytes() -> Result<(), Differing> {
    for (number, (d, bytes)) in PACKED.iter().enumerate() {
        in_row(number, compare_packed(d, bytes))?;
    }
    Ok(())
}

#[test]
fn bytes_that_are_no_descriptor() -> Result<(), Differing> {
    for (number, (bytes, d)) in UNPACKED.iter().enumerate() {
        in_row(number, same("descriptor", unpack(bytes) == *d))?;
    }
    Ok(())
}

fn compare_new(ram: &Ram) -> Result<(), &'static str>
    requires { HasRows ram.now }
{
    same("row 64 of a new table", look(ram, 64).is_none())?;
    same("a run of none", free_run(ram, 0).is_none())?;
    same("a run of 1", free_run(ram, 1) == Some(64))?;
    same("a run of all rows", free_run(ram, 8128) == Some(64))?;
    same("a run of one more", free_run(ram, 8129).is_none())
}

// Row 64 is at 143400h: its descriptor, then the code of its origin and its segment.
fn compare_set(ram: &Ram) -> Result<(), &'static str>
    requires { HasRows ram.now }
{
    let row = Some((BASE_740, Origin::Segment(0x1234)));
    same("row 64", look(ram, 64) == row)?;
    same("row 65", look(ram, 65).is_none())?;
    same("a run of 2 before row 67", free_run(ram, 2) == Some(65))?;
    same("a run of 3 after it", free_run(ram, 3) == Some(68))?;
    same("the limit", ram.get8(0x143400) == 0xFF)?;
    same("the access byte", ram.get8(0x143405) == 0xFB)?;
    same("the origin", ram.get16(0x143408) == 5)?;
    same("its segment", ram.get16(0x14340A) == 0x1234)?;
    same("what follows", ram.get16(0x14340C) == 0)
}

fn compare_freed(ram: &Ram) -> Result<(), &'static str>
    requires { HasRows ram.now }
{
    same("row 64 that is freed", look(ram, 64).is_none())?;
    same("row 67", look(ram, 67) == Some((FLAT, Origin::Own)))?;
    same("a byte of row 64", ram.get16(0x14340A) == 0)
}

#[test]
fn rows_are_set_and_found(rt: HostRuntime) -> Result<(), Fail> {
    let mut ram = Ram::new(rt.alloc(), VECTORS)?;
    compare_new(&ram)?;
    set(&mut ram, 64, Some((BASE_740, Origin::Segment(0x1234))));
    set(&mut ram, 67, Some((FLAT, Origin::Own)));
    compare_set(&ram)?;
    set(&mut ram, 64, None);
    compare_freed(&ram)?;
    Ok(())
}
