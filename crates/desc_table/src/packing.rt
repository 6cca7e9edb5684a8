// Descriptors and their eight bytes.
ghost use Rattle.std.specs.Prelude.{◌≡◌, ◌≤◌, ◌<◌, ◌^◌, ℕ, List, Some, cond, ◌↔◌, IfSome, IsSome, IsTrue};
ghost use Rattle.client_world.specs.{declared.descriptors.Desc.{Desc}, Registers.{has_bit}, Descriptor.{access_byte, flags_byte}};
ghost use Rattle.client_world.specs.Descriptor.{kind_bits, packed, FitsDescriptor, Packs};
ghost use Rattle.desc_table.specs.Unpacked.{is_access_byte, kind_of, is_packed, described, unpacked, with_accessed};

use crate::access_bits::{
    ACCESSED, CONFORMING, EXECUTABLE, EXPAND_DOWN, PRESENT, READABLE, SEGMENT_AT_LEVEL_3, WRITABLE,
};
use byteorder::{ByteOrder, LittleEndian};
use client_world::{Desc, Kind, is_set, weight};

// The bits of the byte after it.
const AVAILABLE: u32 = 0x10;

const RESERVED: u32 = 0x20;

const SIZE: u32 = 0x40;

const GRANULARITY: u32 = 0x80;

// The bits of the access byte that say what the segment holds.
fn type_bits(kind: Kind) -> u32
    ensures value { result ≡ kind_bits kind }
    ensures most { result ≤ 10 }
{
    match kind {
        Kind::Data { writable, down } => weight(writable, WRITABLE) + weight(down, EXPAND_DOWN),
        Kind::Code => EXECUTABLE + READABLE,
    }
}

/// The access byte, byte 5 of the eight, with DPL 3 and the Accessed bit set.
/// Source: 80386 Programmer's Reference Manual, ch. 5, "Descriptors".
pub fn access_byte(d: &Desc) -> u8
    ensures { result ≡ access_byte d.now }
{
    let byte = weight(d.present, PRESENT) + SEGMENT_AT_LEVEL_3 + type_bits(d.kind) + ACCESSED;
    byte as u8
}

/// The byte after it: G, D/B, AVL and the high four bits of a limit that has 20.
/// Source: 80386 Programmer's Reference Manual, ch. 5, "Descriptors".
pub fn flags_byte(d: &Desc) -> u8
    requires { d.now.limit < 2 ^ 20 }
    ensures { result ≡ flags_byte d.now }
{
    let byte = d.limit / 0x10000
        + weight(d.avl, AVAILABLE)
        + weight(d.size, SIZE)
        + weight(d.gran, GRANULARITY);
    byte as u8
}

/// The eight bytes of a descriptor whose limit has 20 bits, with the Accessed bit set.
/// Source: 80386 Programmer's Reference Manual, ch. 5, "Descriptors".
#[tactic(auto, unfolding(client_world::specs::Descriptor::packed))]
pub fn pack(d: &Desc) -> [u8; 8]
    requires { d.now.limit < 2 ^ 20 }
    ensures { Packs d.now result }
{
    [
        (d.limit % 0x100) as u8,
        (d.limit / 0x100 % 0x100) as u8,
        (d.base % 0x100) as u8,
        (d.base / 0x100 % 0x100) as u8,
        (d.base / 0x10000 % 0x100) as u8,
        access_byte(d),
        flags_byte(d),
        (d.base / 0x1000000) as u8,
    ]
}

/// Whether it is the access byte of data or of readable code that doesn't conform, with DPL 3.
/// Source: 80386 Programmer's Reference Manual, ch. 6, "Type Checking"; which of them are taken is own.
pub fn is_access_byte(byte: u8) -> bool
    ensures { result ≡ is_access_byte byte }
{
    let byte = u32::from(byte);
    byte / 0x10 % 8 == 7
        && (!is_set(byte, EXECUTABLE) || (!is_set(byte, CONFORMING) && is_set(byte, READABLE)))
}

/// What a segment with that access byte holds: data, or readable code that doesn't conform.
/// Source: 80386 Programmer's Reference Manual, ch. 6, "Type Checking", table 6-1.
pub fn kind_of(byte: u8) -> Kind
    ensures { result ≡ kind_of byte }
{
    let byte = u32::from(byte);
    if is_set(byte, EXECUTABLE) {
        Kind::Code
    } else {
        Kind::Data {
            writable: is_set(byte, WRITABLE),
            down: is_set(byte, EXPAND_DOWN),
        }
    }
}

// The fields that eight bytes hold.
#[tactic(auto, using(crate::proofs::RowLaws::third_word), unfolding(crate::specs::Unpacked::described))]
fn describe(b: &[u8; 8]) -> Desc
    ensures { result ≡ described b.now 0 }
{
    let flags = u32::from(b[6]);
    Desc {
        base: u32::from(LittleEndian::read_u16(&b[2..]))
            + 0x10000 * u32::from(b[4])
            + 0x1000000 * u32::from(b[7]),
        limit: u32::from(LittleEndian::read_u16(b)) + 0x10000 * (flags % 0x10),
        gran: is_set(flags, GRANULARITY),
        size: is_set(flags, SIZE),
        avl: is_set(flags, AVAILABLE),
        present: is_set(u32::from(b[5]), PRESENT),
        kind: kind_of(b[5]),
    }
}

/// The descriptor that eight bytes are, where a clear Accessed bit is taken as set.
/// `None` where byte 5 isn't the access byte of a segment of DPL 3 that is data or readable code that doesn't
/// conform, or where bit 5 of byte 6 is set. Source: 80386 Programmer's Reference Manual, ch. 5, "Descriptors".
#[tactic(auto, unfolding(crate::specs::Unpacked::unpacked))]
pub fn unpack(b: &[u8; 8]) -> Option<Desc>
    ensures fields { result ≡ unpacked b.now 0 }
    ensures taken { IsSome result ↔ IsTrue (is_packed b.now 0) }
    ensures packs { IfSome result (λ d. Packs d (with_accessed b.now)) }
    ensures fits { IfSome result FitsDescriptor }
{
    if is_access_byte(b[5]) && !is_set(u32::from(b[6]), RESERVED) {
        Some(describe(b))
    } else {
        None
    }
}

/// A descriptor that was packed is unpacked again, so eight bytes are those of one descriptor at most. Source: own.
pub fn a_packed_descriptor_is_unpacked()
    ensures again { (d : Desc) → d.limit < 2 ^ 20 → unpacked (packed d) 0 ≡ Some d }
    ensures one { (d e : Desc) (b : List ℕ) → d.limit < 2 ^ 20 → e.limit < 2 ^ 20 →
        Packs d b → Packs e b → d ≡ e }
{}
