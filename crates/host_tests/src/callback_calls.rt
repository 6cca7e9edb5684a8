// Worked allocations, calls, exits and returns. The values come from the rules by hand.
use crate::machines::{Differing, compare_all, entered, has_words, same};
use callbacks::{enter, leave, serve};
use client_world::limits::GREATEST_DEPTH;
use client_world::memory_map::{PROTECTED_STACK_SIZE, PROTECTED_STACKS};
use client_world::{Carry, Exit, FarPtr, Flags, Mode, Record, Regs, Width};
use guest_space::Machine;
use mode_stack::{depth, push};
use std::test::Fail;

// AX, DS, ES, ECX and EDX of a call after which sixteen callbacks are held, and ECX and EDX after it, or EAX where it is refused. EAX is 0
// before it, and stays for a number that the family doesn't have.
type Called = (u16, [u16; 2], [u32; 2], Result<[u32; 2], u32>);

const CALLS: [Called; 12] = [
    (0x0303, [0x87, 0x8F], [0, 0], Err(0x8015)),
    (0x0304, [0, 0], [0xF001, 0x0113], Err(0x8024)),
    (0x0304, [0, 0], [0xF000, 0x010F], Err(0x8024)),
    (0x0304, [0, 0], [0xF000, 0x0120], Err(0x8024)),
    (
        0x0304,
        [0, 0],
        [0x1_F000, 0x2_0113],
        Ok([0x1_F000, 0x2_0113]),
    ),
    (0x0304, [0, 0], [0xF000, 0x0113], Err(0x8024)),
    (0x0303, [0x8F, 0x8F], [0, 0], Err(0x8022)),
    (0x0303, [0x86, 0x8F], [0, 0], Err(0x8022)),
    (0x0303, [0x87, 0x107], [0, 0], Err(0x8022)),
    (
        0x0303,
        [0x87, 0x8F],
        [0x1111_2222, 0x3333_4444],
        Ok([0x1111_F000, 0x3333_0113]),
    ),
    (0x0303, [0x87, 0x8F], [0, 0], Err(0x8015)),
    (0x0302, [0x87, 0x8F], [0, 0], Err(0x0000)),
];

// Whether a service, called with these registers, returns this.
fn serves(m: &mut Machine, r: Regs, ax: u16, carry: Carry) -> bool {
    m.set_regs(r);
    m.mode() == Mode::Protected && serve(m, ax) == carry
}

// Sixteen callbacks, one for each slot.
fn compare_allocated(m: &mut Machine) -> Result<(), (u32, Differing)> {
    let asking = Regs {
        esi: 0x5555_0200,
        edi: 0x6666_0100,
        ds: 0x87,
        es: 0x8F,
        ..Regs::ZERO
    };
    for slot in 0..16 {
        let is_served = serves(m, asking, 0x0303, Carry::Clear);
        let r = m.regs();
        if !is_served || (r.ecx, r.edx) != (0xF000, 0x0110 + slot) {
            return Err((slot, Differing::Answer));
        }
    }
    Ok(())
}

fn compare_call(m: &mut Machine, call: &Called) -> Result<(), Differing> {
    let (ax, [ds, es], [ecx, edx], after) = *call;
    let called = Regs {
        ecx,
        edx,
        ds,
        es,
        ..Regs::ZERO
    };
    let (carry, wanted) = match after {
        Ok(served) => (Carry::Clear, [0, served[0], served[1]]),
        Err(eax) => (Carry::Set, [eax, ecx, edx]),
    };
    same(Differing::Answer, serves(m, called, ax, carry))?;
    let r = m.regs();
    same(Differing::Registers, [r.eax, r.ecx, r.edx] == wanted)
}

#[test]
fn callbacks_are_allocated_and_freed(rt: HostRuntime) -> Result<(), Fail> {
    let mut m = entered(rt.alloc(), Width::Sixteen)?;
    assert_eq!(rt; compare_allocated(&mut m), Ok(()));
    assert_eq!(rt; compare_all(&mut m, &CALLS, compare_call), Ok(()));
    Ok(())
}

// The procedure is at 0087h:0200h, and the structure at 008Fh:0100h.
const PROCEDURE: FarPtr = FarPtr {
    sel: 0x87,
    off: 0x200,
};

const STRUCTURE: FarPtr = FarPtr {
    sel: 0x8F,
    off: 0x100,
};

// The real caller at the trap byte of slot 5, with its stack at 2000h:0300h.
const CALLER: Regs = Regs {
    eax: 0xA1A2_A3A4,
    ecx: 0xC1C2_C3C4,
    edx: 0xD1D2_D3D4,
    ebx: 0xB1B2_B3B4,
    esp: 0x7777_0300,
    ebp: 0xE1E2_E3E4,
    esi: 0x5152_5354,
    edi: 0x6162_6364,
    eip: 0x115,
    cs: 0xF000,
    ss: 0x2000,
    ds: 0x3D3D,
    es: 0x3E3E,
    fs: 0x3F3F,
    gs: 0x4040,
    flags: Flags {
        cf: true,
        zf: true,
        ..Flags::CLEAR
    },
};

// The registers at the procedure.
const AT_PROCEDURE: Regs = Regs {
    eip: 0x200,
    cs: 0x87,
    esp: 0x7FA,
    ss: 0x8F,
    esi: 0x5152_0300,
    ds: 0x107,
    edi: 0x6162_0100,
    es: 0x8F,
    fs: 0,
    gs: 0,
    ..CALLER
};

// What the structure holds of that caller, in words from EDI on, with virtual interrupts on.
const HELD: [u16; 25] = [
    0x6364, 0x6162, 0x5354, 0x5152, 0xE3E4, 0xE1E2, 0, 0, 0xB3B4, 0xB1B2, 0xD3D4, 0xD1D2, 0xC3C4,
    0xC1C2, 0xA3A4, 0xA1A2, 0x0243, 0x3E3E, 0x3D3D, 0x3F3F, 0x4040, 0x0115, 0xF000, 0x0300, 0x2000,
];

// Gives slot 5 a procedure and a structure, and goes to real mode.
fn set_callback(m: &mut Machine, procedure: FarPtr, at: FarPtr) {
    if m.width().is_some() {
        m.set_back(5, Some((procedure, at)));
    }
    m.set_mode(Mode::Real);
}

// Whether the trap byte of a slot, reached in real mode, leads to this.
fn enters(m: &mut Machine, slot: u8, answer: Result<(), Exit>) -> bool {
    m.mode() == Mode::Real && enter(m, slot) == answer
}

fn compare_entered(m: &mut Machine) -> Result<(), Differing> {
    set_callback(m, PROCEDURE, STRUCTURE);
    m.set_regs(CALLER);
    m.set_vif(true);
    same(Differing::Answer, enters(m, 5, Ok(())))?;
    same(Differing::Registers, m.regs() == AT_PROCEDURE)?;
    same(Differing::Mode, m.mode() == Mode::Protected)?;
    same(Differing::Interrupts, !m.vif())?;
    same(Differing::Depth, depth(m) == 1)?;
    let structure = has_words(m, PROTECTED_STACKS + 0x100, &HELD);
    let frame = has_words(m, PROTECTED_STACKS + 0x7FA, &[0x323, 0x87, 0x243]);
    same(Differing::Memory, structure && frame)?;
    let stack = m.desc(32).map(|(d, _)| (d.base, d.limit));
    same(Differing::Descriptor(32), stack == Some((0x2_0000, 0xFFFF)))
}

// It returns with its structure four bytes further on.
fn compare_left(m: &mut Machine) -> Result<(), Differing> {
    let r = m.regs();
    m.set_regs(Regs { edi: 0x104, ..r });
    m.set_vif(true);
    same(Differing::Answer, leave(m) == Ok(()))?;
    let r = m.regs();
    let general = [r.edi, r.esi, r.ebx, r.eax];
    let place = (r.cs, r.eip, r.ss, r.esp);
    same(
        Differing::Registers,
        general == [0x5152_5354, 0xE1E2_E3E4, 0xD1D2_D3D4, 0x3E3E_0243]
            && place == (0x2000, 0x300, 0, 0),
    )?;
    same(Differing::Mode, m.mode() == Mode::Real)?;
    same(Differing::Interrupts, !m.vif())?;
    same(Differing::Depth, depth(m) == 0)
}

#[test]
fn a_callback_gets_its_callers_registers(rt: HostRuntime) -> Result<(), Fail> {
    let mut m = entered(rt.alloc(), Width::Sixteen)?;
    let entering = compare_entered(&mut m);
    let leaving = compare_left(&mut m);
    assert_eq!(rt; [entering, leaving], [Ok(()); 2]);
    Ok(())
}

// The procedure, the structure and the real caller's SS, and the answer; 0107h names the descriptor of that stack.
type Entered = ((u16, u32), (u16, u32), u16, Result<(), Exit>);

// The last offset of the protected stacks with too few bytes after it for a structure of 32h bytes.
const NO_ROOM: u32 = GREATEST_DEPTH * PROTECTED_STACK_SIZE - 0x31;

const ENTERED: [Entered; 7] = [
    ((0x107, 0), (0x87, 0), 0x2000, Err(Exit::BadFrame)),
    ((0x87, 0x1_0000), (0x8F, 0), 0x2000, Err(Exit::BadFrame)),
    ((0x87, 0), (0x87, 0), 0x2000, Err(Exit::LostStructure)),
    ((0x87, 0), (0x8F, NO_ROOM), 0x2000, Err(Exit::LostStructure)),
    ((0x87, 0), (0x107, 0xFFCF), 0x2000, Err(Exit::LostStructure)),
    ((0x87, 0), (0x107, 0), 0xF000, Err(Exit::LostStructure)),
    ((0x87, 0), (0x107, 0xFFCE), 0x2000, Ok(())),
];

fn compare_entry(m: &mut Machine, row: &Entered) -> Result<(), Differing> {
    let ((sel, off), (at_sel, at_off), ss, answer) = *row;
    let at = FarPtr {
        sel: at_sel,
        off: at_off,
    };
    set_callback(m, FarPtr { sel, off }, at);
    m.set_regs(Regs { ss, ..CALLER });
    same(Differing::Answer, enters(m, 5, answer))
}

// The last of them has entered; its structure is lost then.
fn compare_lost(m: &mut Machine) -> Result<(), Differing> {
    let r = m.regs();
    let found = (r.esp, r.esi, r.edi, r.ds);
    same(Differing::Registers, found == (0x7F4, 0x300, 0xFFCE, 0x107))?;
    same(Differing::Memory, m.dos16(0x2_FFCE) == 0x6364)?;
    m.set_regs(Regs { es: 0, ..r });
    same(Differing::Answer, leave(m) == Err(Exit::LostStructure))?;
    same(Differing::Depth, depth(m) == 1)
}

#[test]
fn exits_of_callbacks(rt: HostRuntime) -> Result<(), Fail> {
    let mut m = entered(rt.alloc(), Width::ThirtyTwo)?;
    assert!(rt; leave(&mut m) == Err(Exit::Stray));
    assert_eq!(rt; compare_all(&mut m, &ENTERED, compare_entry), Ok(()));
    assert_eq!(rt; compare_lost(&mut m), Ok(()));
    Ok(())
}

fn compare_deep(m: &mut Machine) -> Result<(), Differing> {
    let exception = Record::Exc { number: 6, code: 0 };
    for _ in 0..GREATEST_DEPTH {
        let is_pushed = m.width().is_some() && push(m, &exception).is_ok();
        same(Differing::Depth, is_pushed)?;
    }
    same(Differing::Call(1), leave(m) == Err(Exit::Stray))?;
    set_callback(m, STRUCTURE, STRUCTURE);
    same(Differing::Call(2), enters(m, 5, Err(Exit::Deep)))?;
    same(Differing::Call(3), enters(m, 4, Err(Exit::Stray)))?;
    same(Differing::Depth, u32::from(depth(m)) == GREATEST_DEPTH)
}

#[test]
fn callbacks_end_at_the_greatest_depth(rt: HostRuntime) -> Result<(), Fail> {
    let mut m = entered(rt.alloc(), Width::Sixteen)?;
    assert_eq!(rt; compare_deep(&mut m), Ok(()));
    Ok(())
}
