// The bytes of a record.
ghost use Rattle.std.specs.Prelude.{◌≡◌, ◌≤◌, ◌+◌, length};
ghost use Rattle.guest_ram.specs.Bytes.{put};
ghost use Rattle.host_memory.specs.Records.{call_kind, call_number, call_of, record_at, record_bytes, record_head, record_size, regs_at};
ghost use Rattle.host_memory.specs.{Records.{regs_bytes}, Vectors.{pointer_at}};

use client_world::host_frames::RECORD_SIZE;
use client_world::{Call, FarPtr, Flags, Record, Regs};
use guest_ram::{doubleword, word};
use guest_space::{dword_bytes, word_bytes};

// The bytes of a record.
const ROW_SIZE: usize = RECORD_SIZE as usize;

/// Puts bytes in place of those of a slice from an offset on. Source: own.
pub fn put_at(into: &mut [u8], at: usize, bytes: &[u8])
    requires { at + length bytes.now ≤ length into.old }
    ensures { into.new ≡ put into.old at bytes.now }
{
    into[at..at + bytes.len()].copy_from_slice(bytes);
}

// The number of a call's kind, and the number that the call has, 0 where it has none.
fn call_kind(call: Call) -> u8
    ensures { result ≡ call_kind call }
{
    match call {
        Call::Int(_) => 1,
        Call::Far => 2,
        Call::Iret => 3,
        Call::Reflect(_) => 4,
    }
}

fn call_number(call: Call) -> u8
    ensures { result ≡ call_number call }
{
    match call {
        Call::Int(n) | Call::Reflect(n) => n,
        Call::Far | Call::Iret => 0,
    }
}

// The bytes of a record before its registers.
fn head(kind: u8, number: u8, vif: bool, code: u32, at: FarPtr) -> [u8; 16]
    ensures { result ≡ record_head kind number vif code at }
{
    let mut bytes = [0; 16];
    bytes[0] = kind;
    bytes[1] = number;
    bytes[2] = if vif { 1 } else { 0 };
    put_at(&mut bytes, 4, &dword_bytes(code));
    put_at(&mut bytes, 8, &dword_bytes(at.off));
    put_at(&mut bytes, 12, &word_bytes(at.sel));
    bytes
}

// The bytes of the registers.
#[tactic(auto, unfolding(host_memory::specs::Records::regs_bytes))]
fn regs_bytes(r: &Regs) -> [u8; 50]
    ensures { result ≡ regs_bytes r.now }
{
    let mut bytes = [0; 50];
    put_at(&mut bytes, 0, &dword_bytes(r.eax));
    put_at(&mut bytes, 4, &dword_bytes(r.ecx));
    put_at(&mut bytes, 8, &dword_bytes(r.edx));
    put_at(&mut bytes, 12, &dword_bytes(r.ebx));
    put_at(&mut bytes, 16, &dword_bytes(r.esp));
    put_at(&mut bytes, 20, &dword_bytes(r.ebp));
    put_at(&mut bytes, 24, &dword_bytes(r.esi));
    put_at(&mut bytes, 28, &dword_bytes(r.edi));
    put_at(&mut bytes, 32, &dword_bytes(r.eip));
    put_at(&mut bytes, 36, &word_bytes(r.flags.image(false)));
    put_at(&mut bytes, 38, &word_bytes(r.es));
    put_at(&mut bytes, 40, &word_bytes(r.cs));
    put_at(&mut bytes, 42, &word_bytes(r.ss));
    put_at(&mut bytes, 44, &word_bytes(r.ds));
    put_at(&mut bytes, 46, &word_bytes(r.fs));
    put_at(&mut bytes, 48, &word_bytes(r.gs));
    bytes
}

/// The bytes of a record.
#[tactic(auto, unfolding(host_memory::specs::Records::record_bytes))]
pub(crate) fn pack(r: &Record) -> [u8; ROW_SIZE]
    ensures { result ≡ record_bytes r.now }
{
    let mut bytes = [0; ROW_SIZE];
    match r {
        Record::Sim {
            call,
            saved,
            vif,
            at,
        } => {
            put_at(
                &mut bytes,
                0,
                &head(call_kind(*call), call_number(*call), *vif, 0, *at),
            );
            put_at(&mut bytes, 16, &regs_bytes(saved));
        }
        Record::Back { slot, at } => put_at(&mut bytes, 0, &head(5, *slot, false, 0, *at)),
        Record::Exc { number, code } => {
            put_at(&mut bytes, 0, &head(6, *number, false, *code, FarPtr::NULL));
        }
    }
    bytes
}

// The far pointer at an offset of a row.
fn pointer_at(bytes: &[u8; ROW_SIZE], at: usize) -> FarPtr
    requires { at + 6 ≤ record_size }
    ensures { result ≡ pointer_at bytes.now at }
{
    FarPtr {
        sel: word(bytes, at + 4),
        off: doubleword(bytes, at),
    }
}

// The registers in a row.
#[tactic(auto, unfolding(host_memory::specs::Records::regs_at))]
fn regs_at(bytes: &[u8; ROW_SIZE]) -> Regs
    ensures { result ≡ regs_at bytes.now 16 }
{
    Regs {
        eax: doubleword(bytes, 16),
        ecx: doubleword(bytes, 20),
        edx: doubleword(bytes, 24),
        ebx: doubleword(bytes, 28),
        esp: doubleword(bytes, 32),
        ebp: doubleword(bytes, 36),
        esi: doubleword(bytes, 40),
        edi: doubleword(bytes, 44),
        eip: doubleword(bytes, 48),
        flags: Flags::from_image(word(bytes, 52)),
        es: word(bytes, 54),
        cs: word(bytes, 56),
        ss: word(bytes, 58),
        ds: word(bytes, 60),
        fs: word(bytes, 62),
        gs: word(bytes, 64),
    }
}

// The call of a kind.
fn call_of(kind: u8, number: u8) -> Call
    ensures { result ≡ call_of kind number }
{
    match kind {
        1 => Call::Int(number),
        2 => Call::Far,
        3 => Call::Iret,
        _ => Call::Reflect(number),
    }
}

/// The record of a row.
#[tactic(auto, unfolding(host_memory::specs::Records::record_at))]
pub(crate) fn unpack(bytes: &[u8; ROW_SIZE]) -> Record
    ensures { result ≡ record_at bytes.now 0 }
{
    let number = bytes[1];
    match bytes[0] {
        5 => Record::Back {
            slot: number,
            at: pointer_at(bytes, 8),
        },
        6 => Record::Exc {
            number,
            code: doubleword(bytes, 4),
        },
        kind => Record::Sim {
            call: call_of(kind, number),
            saved: regs_at(bytes),
            vif: bytes[2] != 0,
            at: pointer_at(bytes, 8),
        },
    }
}
