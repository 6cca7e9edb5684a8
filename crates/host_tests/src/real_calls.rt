// Worked calls, reflections, returns and refusals. The values come from the rules by hand.
use crate::machines::{Differing, compare_all, entered, has_words, same};
use client_world::limits::GREATEST_DEPTH;
use client_world::memory_map::{PROTECTED_STACK_SIZE, PROTECTED_STACKS, REAL_STACK_SEGMENT};
use client_world::{Begun, Call, Exit, Flags, Mode, Regs, Width};
use guest_space::Machine;
use mode_stack::depth;
use std::test::Fail;
use translation::{begin, end, reflect};

// The client runs at 0087h:0010h. Its structure is at 008Fh:0100h, and its stack at 008Fh:7800h.
const STRUCTURE: u32 = PROTECTED_STACKS + 0x100;

const STACK: u32 = PROTECTED_STACKS + 0x7800;

const CLIENT: Regs = Regs {
    eax: 0xABCD_0300,
    ecx: 2,
    esp: 0x7800,
    edi: 0x100,
    eip: 0x10,
    cs: 0x87,
    ss: 0x8F,
    es: 0x8F,
    ds: 0x8F,
    fs: 0x1234,
    flags: Flags {
        cf: true,
        ..Flags::CLEAR
    },
    ..Regs::ZERO
};

// Puts words into the megabyte.
fn put(m: &mut Machine, words: &[(u32, u16)]) {
    for (at, word) in words {
        if *at < 0xF_0000 {
            m.set_dos8(*at, (*word % 0x100) as u8);
            m.set_dos8(*at + 1, (*word / 0x100) as u8);
        }
    }
}

// The structure: each doubleword has its own number, the flags are those given, CS:IP is 1234h:5678h, and SS:SP is given; and the client's
// two words.
fn put_structure(m: &mut Machine, image: u16, ss: u16, sp: u16) {
    put(
        m,
        &[
            (STRUCTURE, 0x0D1D),
            (STRUCTURE + 0x04, 0x051D),
            (STRUCTURE + 0x08, 0x0B0D),
            (STRUCTURE + 0x10, 0x0B1D),
            (STRUCTURE + 0x14, 0x0D0D),
            (STRUCTURE + 0x18, 0x0C1D),
            (STRUCTURE + 0x1C, 0x0A1D),
            (STRUCTURE + 0x1E, 0xFFFF),
            (STRUCTURE + 0x20, image),
            (STRUCTURE + 0x22, 0x2200),
            (STRUCTURE + 0x24, 0x2400),
            (STRUCTURE + 0x26, 0x2600),
            (STRUCTURE + 0x28, 0x2800),
            (STRUCTURE + 0x2A, 0x5678),
            (STRUCTURE + 0x2C, 0x1234),
            (STRUCTURE + 0x2E, sp),
            (STRUCTURE + 0x30, ss),
            (STACK, 0x1111),
            (STACK + 2, 0x2222),
        ],
    );
}

// The words on the callee's stack.
fn has_stack(m: &Machine, words: &[u16]) -> bool {
    let r = m.regs();
    has_words(m, 16 * u32::from(r.ss) + r.esp % 0x1_0000, words)
}

// Whether a call in protected mode begins, or is refused.
fn begins(m: &mut Machine, call: Call, begun: Begun) -> bool {
    m.mode() == Mode::Protected && !matches!(call, Call::Reflect(_)) && begin(m, call) == begun
}

// Whether interrupt 21h in protected mode is reflected, or ends the client.
fn reflects(m: &mut Machine, answer: Result<(), Exit>) -> bool {
    m.mode() == Mode::Protected && reflect(m, 0x21) == answer
}

// The mode, the virtual interrupt flag and the depth.
fn compare_state(m: &Machine, mode: Mode, vif: bool, calls: u8) -> Result<(), Differing> {
    same(Differing::Mode, m.mode() == mode)?;
    same(Differing::Interrupts, m.vif() == vif)?;
    same(Differing::Depth, depth(m) == calls)
}

// A call: the flags and the stack in its structure; where it starts, its stack pointer, its words, and whether virtual interrupts are on.
struct Started {
    call: Call,
    image: u16,
    stack: (u16, u16),
    start: (u16, u32),
    top: (u16, u32),
    words: [u16; 5],
    vif: bool,
}

const STARTED: [Started; 4] = [
    Started {
        call: Call::Int(0x21),
        image: 0x0245,
        stack: (0, 0),
        start: (0xF000, 0x21),
        top: (REAL_STACK_SEGMENT, 0x3F6),
        words: [0x103, 0xF000, 0x245, 0x1111, 0x2222],
        vif: false,
    },
    Started {
        call: Call::Far,
        image: 0x0245,
        stack: (0xD000, 0x100),
        start: (0x1234, 0x5678),
        top: (0xD000, 0xF8),
        words: [0x103, 0xF000, 0x1111, 0x2222, 0],
        vif: true,
    },
    Started {
        call: Call::Far,
        image: 0x0045,
        stack: (0xD000, 0x100),
        start: (0x1234, 0x5678),
        top: (0xD000, 0xF8),
        words: [0x103, 0xF000, 0x1111, 0x2222, 0],
        vif: false,
    },
    Started {
        call: Call::Iret,
        image: 0xF245,
        stack: (0xD000, 0),
        start: (0x1234, 0x5678),
        top: (0xD000, 0xFFF6),
        words: [0x103, 0xF000, 0xF245, 0x1111, 0x2222],
        vif: false,
    },
];

// The registers of a callee that its structure gives, whatever the call.
fn are_given(r: &Regs) -> bool {
    [r.edi, r.esi, r.ebp, r.ebx] == [0x0D1D, 0x051D, 0x0B0D, 0x0B1D]
        && [r.edx, r.ecx, r.eax] == [0x0D0D, 0x0C1D, 0xFFFF_0A1D]
        && [r.es, r.ds, r.fs, r.gs] == [0x2200, 0x2400, 0x2600, 0x2800]
        && r.flags.image(false) == 0x47
}

fn compare_started(m: &mut Machine, case: &Started) -> Result<(), Differing> {
    m.set_regs(CLIENT);
    put_structure(m, case.image, case.stack.0, case.stack.1);
    same(Differing::Answer, begins(m, case.call, Begun::Run))?;
    let r = m.regs();
    let is_there = (r.cs, r.eip) == case.start && (r.ss, r.esp) == case.top;
    same(Differing::Registers, is_there && are_given(&r))?;
    same(Differing::Memory, has_stack(m, &case.words))?;
    compare_state(m, Mode::Real, case.vif, 1)
}

// Each call is made on a machine of its own.
#[test]
fn calls_start_with_their_structure(rt: HostRuntime) -> Result<(), Fail> {
    for (number, case) in STARTED.iter().enumerate() {
        let mut m = entered(rt.alloc(), Width::Sixteen)?;
        assert_eq!(rt; compare_started(&mut m, case), Ok(()), "call {number}");
    }
    Ok(())
}

// What a procedure leaves at the trap of its return: its frame is popped.
const LEFT: Regs = Regs {
    eax: 0xA1A2_A3A4,
    ecx: 0xC1C2_C3C4,
    edx: 0xD1D2_D3D4,
    ebx: 0xB1B2_B3B4,
    esp: 0x100,
    ebp: 0xE1E2_E3E4,
    esi: 0x5152_5354,
    edi: 0x6162_6364,
    eip: 0x103,
    cs: 0xF000,
    ss: 0xD000,
    ds: 0x3D3D,
    es: 0x3E3E,
    fs: 0x3F3F,
    gs: 0x4040,
    flags: Flags {
        zf: true,
        ..Flags::CLEAR
    },
};

// The structure after the return, in words from EDI on. The reserved doubleword stays.
const FILLED: [u16; 25] = [
    0x6364, 0x6162, 0x5354, 0x5152, 0xE3E4, 0xE1E2, 0x77, 0, 0xB3B4, 0xB1B2, 0xD3D4, 0xD1D2,
    0xC3C4, 0xC1C2, 0xA3A4, 0xA1A2, 0x242, 0x3E3E, 0x3D3D, 0x3F3F, 0x4040, 0x5678, 0x1234, 0x100,
    0xD000,
];

fn compare_return(m: &mut Machine) -> Result<(), Differing> {
    same(Differing::Call(1), end(m) == Err(Exit::Stray))?;
    m.set_regs(CLIENT);
    put_structure(m, 0, 0xD000, 0x100);
    m.set_dos8(STRUCTURE + 0x0C, 0x77);
    same(Differing::Call(2), begins(m, Call::Far, Begun::Run))?;
    m.set_regs(LEFT);
    m.set_vif(true);
    same(Differing::Call(3), end(m) == Ok(()))?;
    let after = Regs {
        fs: 0,
        flags: Flags::CLEAR,
        ..CLIENT
    };
    same(Differing::Registers, m.regs() == after)?;
    same(Differing::Memory, has_words(m, STRUCTURE, &FILLED))?;
    compare_state(m, Mode::Protected, true, 0)
}

#[test]
fn a_return_fills_the_structure(rt: HostRuntime) -> Result<(), Fail> {
    let mut m = entered(rt.alloc(), Width::ThirtyTwo)?;
    assert_eq!(rt; compare_return(&mut m), Ok(()));
    Ok(())
}

// A client that asks DOS for a character, and the real-mode registers at DOS's handler.
const ASKING: Regs = Regs {
    eax: 0x25A,
    ecx: 3,
    edx: 0x85A,
    ebx: 1,
    ebp: 0xFC,
    edi: 0x100,
    flags: Flags {
        pf: true,
        zf: true,
        ..Flags::CLEAR
    },
    ..CLIENT
};

const SERVED: Regs = Regs {
    esp: 0x3FA,
    eip: 0x21,
    cs: 0xF000,
    ss: REAL_STACK_SEGMENT,
    ds: 0,
    es: 0,
    fs: 0,
    gs: 0,
    ..ASKING
};

const CARRY: Flags = Flags {
    cf: true,
    ..Flags::CLEAR
};

// What the handler leaves at the trap of its return, and what the client gets of it.
const ANSWERED: Regs = Regs {
    eax: 0x1234_5678,
    esp: 0x400,
    eip: 0x103,
    flags: CARRY,
    ..SERVED
};

const RETURNED: Regs = Regs {
    eax: 0x1234_5678,
    fs: 0,
    flags: CARRY,
    ..ASKING
};

fn compare_reflected(m: &mut Machine) -> Result<(), Differing> {
    m.set_regs(ASKING);
    same(Differing::Answer, reflects(m, Ok(())))?;
    same(Differing::Registers, m.regs() == SERVED)?;
    same(Differing::Memory, has_stack(m, &[0x103, 0xF000, 0x246]))?;
    compare_state(m, Mode::Real, false, 1)
}

fn compare_answered(m: &mut Machine) -> Result<(), Differing> {
    m.set_regs(ANSWERED);
    same(Differing::Answer, end(m) == Ok(()))?;
    same(Differing::Registers, m.regs() == RETURNED)?;
    compare_state(m, Mode::Protected, true, 0)
}

#[test]
fn a_reflection_passes_the_general_registers(rt: HostRuntime) -> Result<(), Fail> {
    let mut m = entered(rt.alloc(), Width::Sixteen)?;
    let reflected = compare_reflected(&mut m);
    let answered = compare_answered(&mut m);
    assert_eq!(rt; [reflected, answered], [Ok(()); 2]);
    Ok(())
}

// Clients, with the stack in their structures, whose call is refused, and EAX after it: too many words, no structure, a word of theirs past
// the limit, and words of the callee's stack at the segment's end and in read-only memory.
const REFUSED: [(Regs, u16, u16, u32); 5] = [
    (Regs { ecx: 201, ..CLIENT }, 0xD000, 0x200, 0xABCD_8021),
    (Regs { es: 0, ..CLIENT }, 0xD000, 0x200, 0xABCD_8025),
    (
        Regs {
            esp: GREATEST_DEPTH * PROTECTED_STACK_SIZE - 3,
            ..CLIENT
        },
        0xD000,
        0x200,
        0xABCD_8025,
    ),
    (CLIENT, 0xD000, 1, 0xABCD_8025),
    (CLIENT, 0xF000, 0x200, 0xABCD_8025),
];

fn compare_refused(m: &mut Machine, row: &(Regs, u16, u16, u32)) -> Result<(), Differing> {
    let (client, ss, sp, eax) = *row;
    put_structure(m, 0, ss, sp);
    m.set_regs(client);
    same(Differing::Answer, begins(m, Call::Iret, Begun::Refused))?;
    same(Differing::Registers, m.regs() == Regs { eax, ..client })?;
    same(Differing::Depth, depth(m) == 0)
}

#[test]
fn calls_are_refused(rt: HostRuntime) -> Result<(), Fail> {
    let mut m = entered(rt.alloc(), Width::Sixteen)?;
    assert_eq!(rt; compare_all(&mut m, &REFUSED, compare_refused), Ok(()));
    Ok(())
}

fn compare_depths(m: &mut Machine) -> Result<(), Differing> {
    m.set_regs(Regs { cs: 0x17, ..CLIENT });
    for _ in 0..GREATEST_DEPTH {
        same(Differing::Call(1), reflects(m, Ok(())))?;
        same(Differing::Call(2), end(m) == Err(Exit::BadFrame))?;
        if m.width().is_some() {
            m.set_mode(Mode::Protected);
        }
    }
    same(Differing::Call(3), reflects(m, Err(Exit::Deep)))?;
    same(Differing::Call(4), begins(m, Call::Iret, Begun::Refused))?;
    same(Differing::Registers, m.regs().eax == 0xABCD_8012)?;
    same(Differing::Depth, u32::from(depth(m)) == GREATEST_DEPTH)
}

#[test]
fn calls_end_at_the_greatest_depth(rt: HostRuntime) -> Result<(), Fail> {
    let mut m = entered(rt.alloc(), Width::Sixteen)?;
    assert_eq!(rt; compare_depths(&mut m), Ok(()));
    Ok(())
}
