// Worked entries and far returns. The values come from the rules by hand.
use crate::machines::{Differing, same};
use client_world::limits::GREATEST_DEPTH;
use client_world::memory_map::{PROTECTED_STACK_SIZE, PROTECTED_STACKS, ROM_START};
use client_world::selectors::{HOST_CODE, HOST_STACKS};
use client_world::{Carry, Desc, Exit, Kind, Mode, Origin, Regs, Width};
use guest_space::Machine;
use mode_gates::{entry, pop_far};
use std::test::Fail;

// Before a call of the entry: the far call's frame lies at 1000h:00FCh, and the prefix names its environment, 61h.
const CALLED: Regs = Regs {
    eax: 0xABCD_0000,
    esp: 0x8765_00FC,
    eip: 0x100,
    cs: 0xF000,
    ss: 0x1000,
    ds: 0x2000,
    es: 0x3000,
    fs: 0x4000,
    gs: 0x5000,
    ..Regs::ZERO
};

// A machine at the entry, which returns to 1234h:5678h.
#[tactic(auto, unfolding(host_memory::specs::Blank::blank_world))]
fn called(m: &mut Machine, eax: u32) {
    for (at, byte) in [
        (0x100FC, 0x78),
        (0x100FD, 0x56),
        (0x100FE, 0x34),
        (0x100FF, 0x12),
        (0x66C, 0x61),
        (0x66D, 0x00),
    ] {
        m.set_dos8(at, byte);
    }
    m.set_regs(Regs { eax, ..CALLED });
}

// Whether the entry, called in real mode, answers this.
fn enters(m: &mut Machine, answer: Result<Carry, Exit>) -> bool {
    m.mode() == Mode::Real && entry(m) == answer
}

// The descriptors after a first entry, with the size bit of stacks and data.
fn compare_descriptors(m: &Machine, wide: bool) -> Result<(), Differing> {
    let limit = GREATEST_DEPTH * PROTECTED_STACK_SIZE - 1;
    let data = Kind::WRITABLE_DATA;
    let rows = [
        (
            HOST_CODE,
            Kind::Code,
            ROM_START,
            0xFFFF,
            false,
            Origin::Host,
        ),
        (
            HOST_STACKS,
            data,
            PROTECTED_STACKS,
            limit,
            wide,
            Origin::Host,
        ),
        (64, Kind::Code, 0x1_2340, 0xFFFF, false, Origin::Entry),
        (65, data, 0x1_0000, 0xFFFF, wide, Origin::Entry),
        (66, data, 0x2_0000, 0xFFFF, wide, Origin::Entry),
        (67, data, 0x640, 0xFF, false, Origin::Psp),
        (68, data, 0x610, 0xFFFF, false, Origin::Psp),
    ];
    for (index, kind, base, limit, size, origin) in rows {
        let d = Desc::plain(kind, base, limit, size);
        same(
            Differing::Descriptor(index),
            m.desc(index) == Some((d, origin)),
        )?;
    }
    Ok(())
}

// A first entry. The environment in the prefix becomes a selector.
fn compare_entry(m: &mut Machine, eax: u32, width: Width) -> Result<(), Differing> {
    called(m, eax);
    same(Differing::Answer, enters(m, Ok(Carry::Clear)))?;
    let is_entered = m.mode() == Mode::Protected && m.width() == Some(width);
    same(Differing::Mode, is_entered)?;
    let r = m.regs();
    let place = (r.cs, r.eip, r.ss, r.esp) == (0x0207, 0x5678, 0x020F, 0x100);
    let data = (r.ds, r.es, r.fs, r.gs) == (0x0217, 0x021F, 0, 0);
    same(Differing::Registers, place && data && !r.flags.cf)?;
    same(Differing::Memory, m.dos16(0x66C) == 0x0227)?;
    compare_descriptors(m, width == Width::ThirtyTwo)
}

#[test]
fn the_first_entry_makes_seven_descriptors(rt: HostRuntime) -> Result<(), Fail> {
    let mut m = Machine::new(rt.alloc(), 1)?;
    assert_eq!(rt; compare_entry(&mut m, 0xABCD_0000, Width::Sixteen), Ok(()));
    let mut m = Machine::new(rt.alloc(), 1)?;
    assert_eq!(rt;
        compare_entry(&mut m, 0xABCD_FF01, Width::ThirtyTwo),
        Ok(())
    );
    Ok(())
}

// A second call, back in real mode, sets carry and changes neither mode nor width.
fn compare_second(m: &mut Machine) -> Result<(), Differing> {
    called(m, 0xABCD_0000);
    same(Differing::Call(1), enters(m, Ok(Carry::Clear)))?;
    m.set_mode(Mode::Real);
    called(m, 1);
    same(Differing::Call(2), enters(m, Ok(Carry::Set)))?;
    let is_kept = m.mode() == Mode::Real && m.width() == Some(Width::Sixteen);
    same(Differing::Mode, is_kept)?;
    let r = m.regs();
    let place = (r.cs, r.eip, r.ss, r.esp) == (0x1234, 0x5678, 0x1000, 0x8765_0100);
    same(Differing::Registers, place && r.flags.cf)
}

#[test]
fn a_second_entry_is_refused(rt: HostRuntime) -> Result<(), Fail> {
    let mut m = Machine::new(rt.alloc(), 1)?;
    assert_eq!(rt; compare_second(&mut m), Ok(()));
    Ok(())
}

// An offset word at FFFFh can't be read: nothing changes.
#[test]
fn a_frame_that_wraps_is_bad(rt: HostRuntime) -> Result<(), Fail> {
    let mut m = Machine::new(rt.alloc(), 1)?;
    called(&mut m, 0);
    let before = Regs {
        esp: 0xFFFF,
        ..m.regs()
    };
    m.set_regs(before);
    assert!(rt; pop_far(&mut m) == Err(Exit::BadFrame));
    assert!(rt; m.regs() == before);
    Ok(())
}
