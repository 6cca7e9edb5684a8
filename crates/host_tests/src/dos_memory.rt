// Blocks that are given, resized and freed in a new machine, whose DOS memory is all free.
use crate::machines::{Differing, compare_all, entered, same};
use Dos::{Allocate, Free, Resize};
use client_world::{Carry, Desc, DosEntry, DosRefusal, DosState, Kind, Mode, Origin, Regs, Width};
use dos_blocks::{can_resize, dos_alloc, dos_free, dos_resize, serve};
use guest_space::{Machine, descriptors_for};
use service_rows::first_free;
use std::test::Fail;

// A call of DOS, by its words.
#[derive(Clone, Copy)]
enum Dos {
    Allocate(u16),
    Resize(u16, u16),
    Free(u16),
}

// A call, what it answers, how many entries there are after it, and the header of the last one, which begins with 5Ah. The answer of a call
// that succeeds is the segment of its block.
type DosCall = (Dos, Result<u16, DosRefusal>, u16, u32);

const GIVEN_AND_FREED: [DosCall; 10] = [
    (Allocate(2), Ok(0x61), 2, 0x630),
    (Allocate(0x9F9C), Ok(0x64), 2, 0x630),
    (Resize(0x64, 0x1000), Ok(0x64), 3, 0x1_0640),
    (
        Allocate(0xFFFF),
        Err(DosRefusal::NoMemory { largest: 0x8F9B }),
        3,
        0x1_0640,
    ),
    (Allocate(0x1001), Ok(0x1065), 4, 0x2_0660),
    // The block before it is used, so it can't grow beyond what is free after it.
    (
        Resize(0x64, 0x1001),
        Err(DosRefusal::NoMemory { largest: 0x1000 }),
        4,
        0x2_0660,
    ),
    (Free(0x1064), Err(DosRefusal::WrongBlock), 4, 0x2_0660),
    (Free(0x61), Ok(0x61), 4, 0x2_0660),
    (Free(0x1065), Ok(0x1065), 3, 0x1_0640),
    (Free(0x64), Ok(0x64), 1, 0x600),
];

// The client's program, between two free paragraphs and the rest.
const PROGRAM: [DosCall; 3] = [
    (Allocate(2), Ok(0x61), 2, 0x630),
    (Allocate(0x1000), Ok(0x64), 3, 0x1_0640),
    (Free(0x61), Ok(0x61), 3, 0x1_0640),
];

// A program up to segment 1063h.
const LARGE_PROGRAM: [DosCall; 1] = [(Allocate(0x1003), Ok(0x61), 2, 0x1_0640)];

// EAX, EBX, ECX, EDX of a call, the carry that it returns, the registers after it, and the limits of the descriptors at 64 and 65.
type Call = ([u32; 4], Carry, [u32; 4], [Option<u32>; 2]);

// Two free paragraphs are at segment 0061h. The first block after the program is at segment 1065h, and the free entry there has 8F9Bh
// paragraphs. The block at 0061h gets the descriptor at 66, so the one at 1065h can't have three.
const CALLS: [Call; 14] = [
    (
        [0xAAAA_0100, 0xBBBB_FFFF, 7, 8],
        Carry::Set,
        [0xAAAA_0008, 0xBBBB_8F9B, 7, 8],
        [None, None],
    ),
    (
        [0xAAAA_0100, 0x1001, 7, 0xDDDD_0000],
        Carry::Clear,
        [0xAAAA_1065, 0x1001, 7, 0xDDDD_0207],
        [Some(0x1000F), Some(0xF)],
    ),
    (
        [0x0100, 0, 7, 8],
        Carry::Set,
        [8, 0x7F99, 7, 8],
        [Some(0x1000F), Some(0xF)],
    ),
    (
        [0x0100, 2, 7, 8],
        Carry::Clear,
        [0x0061, 2, 7, 0x0217],
        [Some(0x1000F), Some(0xF)],
    ),
    (
        [0x0102, 0x2001, 7, 0x0207],
        Carry::Set,
        [8, 0x8F9B, 7, 0x0207],
        [Some(0x1000F), Some(0xF)],
    ),
    (
        [0x0102, 0, 7, 0x0207],
        Carry::Set,
        [8, 0x8F9B, 7, 0x0207],
        [Some(0x1000F), Some(0xF)],
    ),
    (
        [0x0102, 0x1000, 7, 0x020F],
        Carry::Set,
        [9, 0x1000, 7, 0x020F],
        [Some(0x1000F), Some(0xF)],
    ),
    (
        [0x0102, 0x1000, 7, 0x0204],
        Carry::Clear,
        [0x0102, 0x1000, 7, 0x0204],
        [Some(0xFFFF), None],
    ),
    (
        [0x0102, 0x1002, 7, 0x0207],
        Carry::Clear,
        [0x0102, 0x1002, 7, 0x0207],
        [Some(0x1001F), Some(0x1F)],
    ),
    (
        [0x0101, 6, 7, 0x020F],
        Carry::Set,
        [9, 6, 7, 0x020F],
        [Some(0x1001F), Some(0x1F)],
    ),
    (
        [0x0101, 6, 7, 0x0203],
        Carry::Set,
        [9, 6, 7, 0x0203],
        [Some(0x1001F), Some(0x1F)],
    ),
    (
        [0x0101, 6, 7, 0x0206],
        Carry::Clear,
        [0x0101, 6, 7, 0x0206],
        [None, None],
    ),
    (
        [0x0101, 6, 7, 0x0206],
        Carry::Set,
        [9, 6, 7, 0x0206],
        [None, None],
    ),
    (
        [0x0103, 6, 7, 0x0206],
        Carry::Set,
        [0x0103, 6, 7, 0x0206],
        [None, None],
    ),
];

fn registers(call: [u32; 4]) -> Regs {
    let mut r = Regs::ZERO;
    r.eax = call[0];
    r.ebx = call[1];
    r.ecx = call[2];
    r.edx = call[3];
    r
}

// The limit of the descriptor at an index.
fn limit(m: &Machine, index: u16) -> Option<u32> {
    match m.desc(index) {
        Some((d, _)) => Some(d.limit),
        None => None,
    }
}

// The block of 1001h paragraphs at 1065h.
const TWO_DESCRIPTORS: [Call; 1] = [(
    [0x0100, 0x1001, 0, 0],
    Carry::Clear,
    [0x1065, 0x1001, 0, 0x0207],
    [Some(0x1000F), Some(0xF)],
)];

fn answer_of(m: &mut Machine, call: Dos) -> Result<u16, DosRefusal> {
    match call {
        Allocate(paras) => dos_alloc(m, paras, false),
        Resize(seg, paras) => match dos_resize(m, seg, paras, false) {
            Ok(()) => Ok(seg),
            Err(refusal) => Err(refusal),
        },
        Free(seg) => match dos_free(m, seg, false) {
            Ok(()) => Ok(seg),
            Err(refusal) => Err(refusal),
        },
    }
}

// The same of blocks with descriptors, after the questions that INT 31h functions 0100h to 0102h ask first.
fn allocate_for_dpmi(m: &mut Machine, paras: u16) -> Result<u16, DosRefusal> {
    if m.width().is_none() || paras == 0 || first_free(m, descriptors_for(paras)).is_none() {
        return Err(DosRefusal::WrongBlock);
    }
    dos_alloc(m, paras, true)
}

fn free_for_dpmi(m: &mut Machine, seg: u16) -> Result<u16, DosRefusal> {
    if m.width().is_none() {
        return Err(DosRefusal::WrongBlock);
    }
    match dos_free(m, seg, true) {
        Ok(()) => Ok(seg),
        Err(refusal) => Err(refusal),
    }
}

fn resize_for_dpmi(m: &mut Machine, seg: u16, paras: u16) -> Result<u16, DosRefusal> {
    if m.width().is_none() || !can_resize(m, seg, paras) {
        return Err(DosRefusal::WrongBlock);
    }
    match dos_resize(m, seg, paras, true) {
        Ok(()) => Ok(seg),
        Err(refusal) => Err(refusal),
    }
}

fn answer_for_dpmi(m: &mut Machine, call: Dos) -> Result<u16, DosRefusal> {
    match call {
        Allocate(paras) => allocate_for_dpmi(m, paras),
        Free(seg) => free_for_dpmi(m, seg),
        Resize(seg, paras) => resize_for_dpmi(m, seg, paras),
    }
}

// A call, whether it is one on blocks with descriptors, what it answers, how many entries there are after it, the header of the last one,
// and the limits of the descriptors at 64 and 65.
type DpmiCall = (
    Dos,
    bool,
    Result<u16, DosRefusal>,
    u16,
    u32,
    [Option<u32>; 2],
);

const WITH_DESCRIPTORS: [DpmiCall; 11] = [
    (
        Allocate(0x1001),
        true,
        Ok(0x61),
        2,
        0x1_0620,
        [Some(0x1000F), Some(0xF)],
    ),
    (
        Allocate(2),
        false,
        Ok(0x1063),
        3,
        0x1_0650,
        [Some(0x1000F), Some(0xF)],
    ),
    (
        Allocate(0xFFFF),
        true,
        Err(DosRefusal::NoMemory { largest: 0x8F9A }),
        3,
        0x1_0650,
        [Some(0x1000F), Some(0xF)],
    ),
    // A block of one kind is none of the other.
    (
        Free(0x61),
        false,
        Err(DosRefusal::WrongBlock),
        3,
        0x1_0650,
        [Some(0x1000F), Some(0xF)],
    ),
    (
        Resize(0x61, 1),
        false,
        Err(DosRefusal::WrongBlock),
        3,
        0x1_0650,
        [Some(0x1000F), Some(0xF)],
    ),
    (
        Free(0x1063),
        true,
        Err(DosRefusal::WrongBlock),
        3,
        0x1_0650,
        [Some(0x1000F), Some(0xF)],
    ),
    (
        Resize(0x61, 0x1002),
        true,
        Err(DosRefusal::NoMemory { largest: 0x1001 }),
        3,
        0x1_0650,
        [Some(0x1000F), Some(0xF)],
    ),
    (
        Resize(0x61, 0x1000),
        true,
        Ok(0x61),
        4,
        0x1_0650,
        [Some(0xFFFF), None],
    ),
    (
        Resize(0x61, 0x1001),
        true,
        Ok(0x61),
        3,
        0x1_0650,
        [Some(0x1000F), Some(0xF)],
    ),
    (Free(0x61), true, Ok(0x61), 3, 0x1_0650, [None, None]),
    (Free(0x1063), false, Ok(0x1063), 1, 0x600, [None, None]),
];

fn compare_dpmi_call(m: &mut Machine, call: &DpmiCall) -> Result<(), Differing> {
    let (call, for_dpmi, answer, entries, last, limits) = *call;
    let given = if for_dpmi {
        answer_for_dpmi(m, call)
    } else {
        answer_of(m, call)
    };
    same(Differing::Answer, given == answer)?;
    let is_last = last < 0x10_0000 && m.dos8(last) == 0x5A;
    same(Differing::Memory, m.arena_len() == entries && is_last)?;
    same(Differing::Descriptor(64), limit(m, 64) == limits[0])?;
    same(Differing::Descriptor(65), limit(m, 65) == limits[1])
}

fn compare_dos_call(m: &mut Machine, call: &DosCall) -> Result<(), Differing> {
    let (call, answer, entries, last) = *call;
    same(Differing::Answer, answer_of(m, call) == answer)?;
    let is_last = last < 0x10_0000 && m.dos8(last) == 0x5A;
    same(Differing::Memory, m.arena_len() == entries && is_last)
}

fn compare_call(m: &mut Machine, call: &Call) -> Result<(), Differing> {
    let (before, carry, after, limits) = *call;
    m.set_regs(registers(before));
    let ax = (before[0] % 0x1_0000) as u16;
    let is_served = m.mode() == Mode::Protected && serve(m, ax) == carry;
    same(Differing::Answer, is_served)?;
    same(Differing::Registers, m.regs() == registers(after))?;
    same(Differing::Descriptor(64), limit(m, 64) == limits[0])?;
    same(Differing::Descriptor(65), limit(m, 65) == limits[1])
}

#[test]
fn blocks_are_given_resized_and_freed(rt: HostRuntime) -> Result<(), Fail> {
    let mut m = entered(rt.alloc(), Width::Sixteen)?;
    assert_eq!(rt;
        compare_all(&mut m, &GIVEN_AND_FREED, compare_dos_call),
        Ok(())
    );
    let whole = DosEntry {
        at: 0x60,
        paras: 0x9F9F,
        state: DosState::Free,
    };
    assert!(rt; m.arena_len() == 1 && m.arena(0) == whole);
    Ok(())
}

#[test]
fn a_block_with_descriptors_is_none_of_a_dos_call(rt: HostRuntime) -> Result<(), Fail> {
    let mut m = entered(rt.alloc(), Width::Sixteen)?;
    assert_eq!(rt;
        compare_all(&mut m, &WITH_DESCRIPTORS, compare_dpmi_call),
        Ok(())
    );
    Ok(())
}

#[test]
fn blocks_have_a_descriptor_for_each_64_kb(rt: HostRuntime) -> Result<(), Fail> {
    let mut m = entered(rt.alloc(), Width::Sixteen)?;
    assert_eq!(rt; compare_all(&mut m, &PROGRAM, compare_dos_call), Ok(()));
    assert_eq!(rt; compare_all(&mut m, &CALLS, compare_call), Ok(()));
    assert!(rt; m.arena_len() == 3);
    Ok(())
}

#[test]
fn descriptors_are_64_kb_apart(rt: HostRuntime) -> Result<(), Fail> {
    let mut m = entered(rt.alloc(), Width::Sixteen)?;
    assert_eq!(rt;
        compare_all(&mut m, &LARGE_PROGRAM, compare_dos_call),
        Ok(())
    );
    assert_eq!(rt; compare_all(&mut m, &TWO_DESCRIPTORS, compare_call), Ok(()));
    let origin = Origin::Dos(0x1065);
    assert!(rt;
        m.desc(64)
            == Some((
                Desc::plain(Kind::WRITABLE_DATA, 0x10650, 0x1000F, false),
                origin
            ))
    );
    assert!(rt;
        m.desc(65)
            == Some((
                Desc::plain(Kind::WRITABLE_DATA, 0x20650, 0xF, false),
                origin
            ))
    );
    assert!(rt; m.desc(66).is_none());
    Ok(())
}
