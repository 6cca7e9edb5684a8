// The rows of the client's descriptor table in the host's frames.
ghost use Rattle.std.specs.Prelude.{◌≡◌, ◌≢◌, ◌≤◌, ◌<◌, ◌+◌, ◌↔◌, ◌⊎◌, ℕ, List, Some, length, slice_get, slice_set, IfSome, IsNone};
ghost use Rattle.client_world.specs.declared.host_frames.TheConstants.{DESCRIPTORS, DESCRIPTOR_ROW_SIZE, FIRST_FREE_DESCRIPTOR};
ghost use Rattle.client_world.specs.{Descriptor.{FitsDescriptor}, Selector.{Row, FitsRow}};
ghost use Rattle.guest_ram.specs.Bytes.{put};
ghost use Rattle.desc_table.specs.{Unpacked.{unpacked}, Rows.{origin_code, origin_segment, origin_of, row_at, row_bytes, rows_from}};
ghost use Rattle.desc_table.specs.Rows.{rows_start, row_address, HasRows, IsFreeRun, IsFirstFreeRun};

use crate::packing::{pack, unpack};
use client_world::host_frames::{
    DESCRIPTOR_ROW_SIZE, DESCRIPTOR_ROWS, DESCRIPTORS, FIRST_FREE_DESCRIPTOR, PAGE_SIZE,
};
use client_world::{Desc, Origin};
use guest_ram::Ram;

// The address of a row.
fn address(index: u16) -> u32
    ensures { result ≡ row_address index }
{
    DESCRIPTOR_ROWS * PAGE_SIZE + DESCRIPTOR_ROW_SIZE * u32::from(index)
}

// The origin of a code and a segment.
fn origin(code: u8, segment: u16) -> Option<Origin>
    ensures { result ≡ origin_of code segment }
{
    match code {
        1 => Some(Origin::Own),
        2 => Some(Origin::Low),
        3 => Some(Origin::Entry),
        4 => Some(Origin::Psp),
        5 => Some(Origin::Segment(segment)),
        6 => Some(Origin::Dos(segment)),
        7 => Some(Origin::Host),
        _ => None,
    }
}

// The descriptor that the eight bytes from an address on are.
#[tactic(auto, unfolding(crate::specs::Unpacked::unpacked, crate::specs::Unpacked::described))]
fn descriptor(ram: &Ram, at: u32) -> Option<Desc>
    requires { at + 8 ≤ length ram.now }
    ensures fields { result ≡ unpacked ram.now at }
    ensures fits { IfSome result FitsDescriptor }
{
    // Addresses are numbers of 32 bits.
    let _size = ram.len();
    unpack(&[
        ram.get8(at),
        ram.get8(at + 1),
        ram.get8(at + 2),
        ram.get8(at + 3),
        ram.get8(at + 4),
        ram.get8(at + 5),
        ram.get8(at + 6),
        ram.get8(at + 7),
    ])
}

/// The descriptor at an index below 8192 and its origin, or `None` where the row is free. Source: own.
#[tactic(auto, unfolding(crate::specs::Rows::row_at))]
pub fn look(ram: &Ram, index: u16) -> Option<(Desc, Origin)>
    requires rows { HasRows ram.now }
    requires index { index < DESCRIPTORS }
    ensures row { result ≡ row_at ram.now (row_address index) }
    ensures fits { FitsRow result }
{
    let at = address(index);
    let d = descriptor(ram, at)?;
    let origin = origin(ram.get8(at + 8), ram.get16(at + 10))?;
    Some((d, origin))
}

// The code of an origin.
fn code(origin: Origin) -> u8
    ensures { result ≡ origin_code origin }
{
    match origin {
        Origin::Own => 1,
        Origin::Low => 2,
        Origin::Entry => 3,
        Origin::Psp => 4,
        Origin::Segment(_) => 5,
        Origin::Dos(_) => 6,
        Origin::Host => 7,
    }
}

// The segment that an origin names, 0 where it names none.
fn segment(origin: Origin) -> u16
    ensures { result ≡ origin_segment origin }
{
    match origin {
        Origin::Segment(segment) | Origin::Dos(segment) => segment,
        _ => 0,
    }
}

// The sixteen bytes of a row.
#[tactic(auto, unfolding(crate::specs::Rows::row_bytes, client_world::specs::Descriptor::packed))]
fn bytes(row: Option<(Desc, Origin)>) -> [u8; 16]
    requires { FitsRow row }
    ensures { result ≡ row_bytes row }
{
    match row {
        None => [0; 16],
        Some((d, origin)) => {
            let mut bytes = [0; 16];
            bytes[..8].copy_from_slice(&pack(&d));
            bytes[8] = code(origin);
            bytes[10..12].copy_from_slice(&segment(origin).to_le_bytes());
            bytes
        }
    }
}

/// Puts a descriptor and its origin at an index below 8192, or frees the row. Source: own.
pub fn set(ram: &mut Ram, index: u16, row: Option<(Desc, Origin)>)
    requires rows { HasRows ram.old }
    requires index { index < DESCRIPTORS }
    requires fits { FitsRow row }
    ensures bytes { ram.new ≡ put ram.old (row_address index) (row_bytes row) }
    ensures row { row_at ram.new (row_address index) ≡ row }
    ensures others { (other : ℕ) → other ≢ index →
        row_at ram.new (row_address other) ≡ row_at ram.old (row_address other) }
    ensures table { rows_from ram.new rows_start ≡
        slice_set (rows_from ram.old rows_start) index row }
    ensures size { length ram.new ≡ length ram.old }
{
    ram.write(address(index), &bytes(row));
}

/// The first index from 64 on at which n rows one after another are free, that is, `look` gives `None` there.
/// `None` where n is 0 or there is no such run. Source: own.
pub fn free_run(ram: &Ram, n: u16) -> Option<u16>
    requires rows { HasRows ram.now }
    ensures none { IsNone result ↔
        ((n ≡ 0) ⊎ ((first : ℕ) → FIRST_FREE_DESCRIPTOR ≤ first → ¬ IsFreeRun ram.now first n)) }
    ensures first { IfSome result (λ first. IsFirstFreeRun ram.now first n) }
{
    if n == 0 {
        return None;
    }

    let mut start = FIRST_FREE_DESCRIPTOR;
    for index in FIRST_FREE_DESCRIPTOR..DESCRIPTORS as u16 {
        if look(ram, index).is_some() {
            start = index + 1;
        } else if index + 1 - start == n {
            return Some(start);
        }
    }
    None
}

/// The bytes of a row are sixteen, and they are read as that row.
pub fn the_bytes_of_a_row_are_that_row()
    ensures size { (row : Row) → length (row_bytes row) ≡ DESCRIPTOR_ROW_SIZE }
    ensures read { (row : Row) → FitsRow row → row_at (row_bytes row) 0 ≡ row }
{}

/// In the list of the rows each is at its index.
pub fn the_rows_stand_at_their_indices()
    ensures size { (bytes : List ℕ) → length (rows_from bytes rows_start) ≡ DESCRIPTORS }
    ensures rows { (bytes : List ℕ) (index : ℕ) → index < DESCRIPTORS →
        slice_get (rows_from bytes rows_start) index ≡ Some (row_at bytes (row_address index)) }
{}
