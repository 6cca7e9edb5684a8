// Worked rows: code bytes, and what a step makes of registers, stack and virtual interrupt flag, or its event.
use accesses::{TOUCHED, compare_touches};
use bytes::{BYTES, Bytes};
use cases::{Done, Raises};
use client_world::{
    Desc, FarPtr, Kind, Mode, Origin, Regs, Width, a_plain_descriptor_keeps_a_world_sound,
};
use cpu_step::step;
use guest_space::Machine;
use protected::{PROTECTED_DONE, PROTECTED_RAISES};
use real::{REAL_CALLS, REAL_JUMPS, REAL_RAISES};
use std::alloc::{AllocError, Global};
use std::test::Fail;

mod accesses;
mod bytes;
mod cases;
mod instructions;
mod protected;
mod real;

// What differs from a row. Comparisons answer it, and a test asserts once: an assertion takes much longer to prove.
#[derive(Clone, Copy, Debug, PartialEq)]
pub(crate) enum Differing {
    Memory,
    Event,
    Registers,
    Interrupts,
}

fn same(part: Differing, is_same: bool) -> Result<(), Differing> {
    if is_same { Ok(()) } else { Err(part) }
}

// Compares rows in turn, on one machine: the number of the first one that differs, and what does.
fn compare_all<T, F: Fn(&mut Machine, &T) -> Result<(), Differing>>(
    m: &mut Machine,
    rows: &[T],
    compare: F,
) -> Result<(), (usize, Differing)>
    requires { F.IsAlwaysCallable compare }
{
    for (number, row) in rows.iter().enumerate() {
        if let Err(part) = compare(m, row) {
            return Err((number, part));
        }
    }
    Ok(())
}

// Puts bytes into the DOS megabyte from a linear address on; those past its end are dropped.
fn put(m: &mut Machine, from: u32, bytes: &[u8]) {
    let mut at = from;
    for byte in bytes {
        if at >= 0x10_0000 {
            return;
        }
        m.set_dos8(at, *byte);
        at += 1;
    }
}

// Whether these bytes are there.
fn has_bytes(m: &Machine, from: u32, bytes: &[u8]) -> bool {
    let mut at = from;
    for byte in bytes {
        if at >= 0x10_0000 || m.dos8(at) != *byte {
            return false;
        }
        at += 1;
    }
    true
}

// Where code and stack lie in both modes.
const CODE: u32 = 0x1000;

const STACK: u32 = 0x3_0000;

// A stack that holds nothing but the items from offset 300h on, and the code.
fn prepare(m: &mut Machine, code: &[u8], items: &[u8; 8], before: Regs) {
    put(m, STACK + 0x2C0, &[0; 0x60]);
    put(m, STACK + 0x300, items);
    put(m, CODE + before.eip % 0x2_0000, code);
    m.set_regs(before);
}

fn compare_done(m: &mut Machine, case: &Done) -> Result<(), Differing> {
    prepare(m, case.code, &case.items, case.before);
    m.set_vif(case.vif_before);
    same(Differing::Event, step(m).is_ok())?;
    same(Differing::Registers, m.regs() == case.after)?;
    same(Differing::Interrupts, m.vif() == case.vif_after)?;
    let top = STACK + case.after.esp % 0x1_0000;
    same(Differing::Memory, has_bytes(m, top, case.stack))
}

fn compare_event(m: &mut Machine, case: &Raises) -> Result<(), Differing> {
    prepare(m, case.code, &case.items, case.before);
    same(Differing::Event, step(m) == Err(case.event))?;
    same(Differing::Registers, m.regs() == case.before)
}

fn compare_bytes(m: &mut Machine, case: &Bytes) -> Result<(), Differing> {
    put(m, CODE + case.before.eip % 0x2_0000, case.code);
    put(m, case.at, case.bytes_before);
    m.set_regs(case.before);
    same(Differing::Event, step(m) == case.answer)?;
    same(Differing::Registers, m.regs() == case.after)?;
    same(Differing::Memory, has_bytes(m, case.at, case.bytes_after))
}

#[test]
fn jumps_in_real_mode(rt: HostRuntime) -> Result<(), Fail> {
    let mut m = Machine::new(rt.alloc(), 1)?;
    assert_eq!(rt; compare_all(&mut m, &REAL_JUMPS, compare_done), Ok(()));
    Ok(())
}

#[test]
fn calls_and_loads_in_real_mode(rt: HostRuntime) -> Result<(), Fail> {
    let mut m = Machine::new(rt.alloc(), 1)?;
    assert_eq!(rt; compare_all(&mut m, &REAL_CALLS, compare_done), Ok(()));
    Ok(())
}

#[test]
fn events_in_real_mode(rt: HostRuntime) -> Result<(), Fail> {
    let mut m = Machine::new(rt.alloc(), 1)?;
    assert_eq!(rt; compare_all(&mut m, &REAL_RAISES, compare_event), Ok(()));
    Ok(())
}

#[test]
fn steps_that_write_many_bytes(rt: HostRuntime) -> Result<(), Fail> {
    let mut m = Machine::new(rt.alloc(), 1)?;
    assert_eq!(rt; compare_all(&mut m, &BYTES, compare_bytes), Ok(()));
    Ok(())
}

#[test]
fn what_instructions_touch(rt: HostRuntime) -> Result<(), Fail> {
    let mut m = Machine::new(rt.alloc(), 1)?;
    m.set_regs(cases::REAL);
    assert_eq!(rt; compare_all(&mut m, &TOUCHED, compare_touches), Ok(()));
    Ok(())
}

// Segments of 64 KB: the stack, and the code.
const STACK_SEGMENT: Desc = Desc {
    base: STACK,
    limit: 0xFFFF,
    gran: false,
    size: false,
    avl: false,
    present: true,
    kind: Kind::Data {
        writable: true,
        down: false,
    },
};

const CODE_SEGMENT: Desc = Desc {
    base: CODE,
    kind: Kind::Code,
    ..STACK_SEGMENT
};

// A machine in protected mode in which 022Fh names the stack and 0237h the code.
#[tactic(auto, unfolding(host_memory::specs::Blank::blank_world))]
fn protected_machine(alloc: Global) -> Result<Machine, AllocError> {
    let mut m = Machine::new(alloc, 1)?;
    m.set_width(Width::Sixteen);
    m.set_mode(Mode::Protected);
    a_plain_descriptor_keeps_a_world_sound();
    m.soundness();
    m.set_desc(69, Some((STACK_SEGMENT, Origin::Own)));
    m.soundness();
    m.set_desc(70, Some((CODE_SEGMENT, Origin::Own)));
    Ok(m)
}

#[test]
fn steps_in_protected_mode(rt: HostRuntime) -> Result<(), Fail> {
    let mut m = protected_machine(rt.alloc())?;
    assert_eq!(rt; compare_all(&mut m, &PROTECTED_DONE, compare_done), Ok(()));
    Ok(())
}

#[test]
fn events_in_protected_mode(rt: HostRuntime) -> Result<(), Fail> {
    let mut m = protected_machine(rt.alloc())?;
    assert_eq!(rt;
        compare_all(&mut m, &PROTECTED_RAISES, compare_event),
        Ok(())
    );
    Ok(())
}

// A byte of the stack's segment, and one of the code's, which may be read alone.
const STACK_BYTE: FarPtr = FarPtr {
    sel: 0x22F,
    off: 0xFFFF,
};

const CODE_BYTE: FarPtr = FarPtr {
    sel: 0x237,
    off: 0x10,
};

// Puts a byte at a far pointer, and reads it again; `None` where it may not be written, or not be read.
fn put_and_get(m: &mut Machine, p: FarPtr, v: u8) -> Option<u8> {
    if !m.far_ok(p, 1, true) {
        return None;
    }
    m.far_set8(p, v);
    if m.far_ok(p, 1, false) {
        Some(m.far_get8(p))
    } else {
        None
    }
}

fn get(m: &Machine, p: FarPtr) -> Option<u8> {
    if m.far_ok(p, 1, false) {
        Some(m.far_get8(p))
    } else {
        None
    }
}

#[test]
fn bytes_at_far_pointers(rt: HostRuntime) -> Result<(), Fail> {
    let mut m = protected_machine(rt.alloc())?;
    m.set_dos8(CODE + 0x10, 0x5A);
    let put = put_and_get(&mut m, STACK_BYTE, 0xA5);
    let refused = put_and_get(&mut m, CODE_BYTE, 0xA5);
    let found = (put, refused, get(&m, CODE_BYTE), m.dos8(STACK + 0xFFFF));
    assert_eq!(rt; found, (Some(0xA5), None, Some(0x5A), 0xA5));
    Ok(())
}
