// What the accesses of a machine return.
use crate::compare::{in_row, same};
use client_world::{
    Desc, FarPtr, Fault, Kind, Mode, Origin, SegReg, Width, a_plain_descriptor_keeps_a_world_sound,
};
use guest_space::Machine;
use std::alloc::{AllocError, Global};
use std::test::Fail;

// Writable data from address 0 on, up to FFFFFFFFh.
const FLAT: Desc = Desc {
    base: 0,
    limit: 0xF_FFFF,
    gran: true,
    size: true,
    avl: false,
    present: true,
    kind: Kind::Data {
        writable: true,
        down: false,
    },
};

// A machine in protected mode in which selector 022Fh names that.
#[tactic(auto, unfolding(host_memory::specs::Blank::blank_world))]
fn flat_machine(alloc: Global) -> Result<Machine, AllocError> {
    let mut machine = Machine::new(alloc, 1)?;
    machine.set_width(Width::Sixteen);
    machine.set_mode(Mode::Protected);
    machine.soundness();
    a_plain_descriptor_keeps_a_world_sound();
    machine.set_desc(69, Some((FLAT, Origin::Own)));
    Ok(machine)
}

fn is_fault(answer: Result<(), Fault>, number: u8, code: u32) -> bool {
    answer == Err(Fault { number, code })
}

// Segment registers, offsets, and the faults of a byte's read there.
const FAULTS: [(SegReg, u32, u8, u32); 4] = [
    (SegReg::Ds, 0xC000_0000, 0x0E, 5),
    (SegReg::Ds, 0x20_0000, 0x0E, 4),
    (SegReg::Es, 0, 0x0D, 0),
    (SegReg::Fs, 0, 0x0D, 0x234),
];

fn compare_fault(
    machine: &mut Machine,
    seg: SegReg,
    off: u32,
    fault: Fault,
) -> Result<(), &'static str> {
    machine.warm(seg, off);
    same("fault", machine.read::<1>(seg, off) == Err(fault))
}

// A null selector isn't loaded into SS, nor one that names no descriptor into FS.
fn compare_refused(machine: &mut Machine) -> Result<(), &'static str> {
    let ss = machine.load_seg(SegReg::Ss, 0);
    same("a load of SS", is_fault(ss, 0x0D, 0))?;
    let fs = machine.load_seg(SegReg::Fs, 0x237);
    same("a load of FS", is_fault(fs, 0x0D, 0x234))
}

// A byte that is put at a far pointer, and one that is read there, by a selector in no register.
fn compare_far(machine: &mut Machine) -> Result<(), &'static str> {
    let p = FarPtr {
        sel: 0x22F,
        off: 0x1_0010,
    };
    if machine.far_ok(p, 1, true) {
        machine.far_set8(p, 0xA7);
    }
    same("a byte that is put", machine.dos8(0x1_0010) == 0xA7)?;
    machine.set_dos8(0x1_0010, 0x5B);
    let is_read = machine.far_ok(p, 1, false) && machine.far_get8(p) == 0x5B;
    same("a byte that is read", is_read)?;
    let null = FarPtr { sel: 0, off: 0x10 };
    same("the null selector", !machine.far_ok(null, 1, false))
}

// The megabyte's end, and its start after that, with these pages in the cache.
fn compare_pages(machine: &mut Machine) -> Result<(), &'static str> {
    machine.warm(SegReg::Ds, 0xF_0000);
    machine.warm(SegReg::Ds, 0xF_FFFE);
    machine.warm(SegReg::Ds, 0x10_0000);
    let end = machine.read(SegReg::Ds, 0xF_FFFE);
    same("the end", end == Ok([0xF4, 0xF4, 0, 0]))?;
    let refused = machine.write(SegReg::Ds, 0xF_0000, [0]);
    same("a write of read-only memory", is_fault(refused, 0x0E, 7))?;
    let written = machine.write(SegReg::Ds, 0x10_0000, [0x78, 0x56, 0x34, 0x12]);
    same("a write past the end", written == Ok(()))?;
    let start = machine.read(SegReg::Ds, 0);
    same("the start", start == Ok([0x78, 0x56, 0x34, 0x12]))
}

#[test]
fn accesses_in_protected_mode(rt: HostRuntime) -> Result<(), Fail> {
    let mut machine = flat_machine(rt.alloc())?;
    same("length", machine.ram().len() == 1_949_696)?;
    let ds = machine.load_seg(SegReg::Ds, 0x22F);
    same("a load of DS", ds == Ok(()))?;
    let mut regs = machine.regs();
    regs.fs = 0x237;
    machine.set_regs(regs);
    for (number, (seg, off, fault, code)) in FAULTS.iter().enumerate() {
        let fault = Fault {
            number: *fault,
            code: *code,
        };
        in_row(number, compare_fault(&mut machine, *seg, *off, fault))?;
    }
    compare_refused(&mut machine)?;
    compare_far(&mut machine)?;
    compare_pages(&mut machine)?;
    Ok(())
}

// A machine in protected mode whose DS names a descriptor that begins at 10000h now and began at 0 before. The byte at 10000h is 5Ah.
#[tactic(auto, unfolding(host_memory::specs::Blank::blank_world))]
fn moved_machine(alloc: Global) -> Result<Machine, AllocError> {
    let mut machine = Machine::new(alloc, 1)?;
    machine.set_dos8(0x1_0000, 0x5A);
    machine.set_width(Width::Sixteen);
    machine.set_mode(Mode::Protected);
    machine.set_selector(SegReg::Ds, 0x22F);
    machine.soundness();
    a_plain_descriptor_keeps_a_world_sound();
    machine.set_desc(69, Some((FLAT, Origin::Own)));
    machine.soundness();
    let moved = Desc {
        base: 0x1_0000,
        ..FLAT
    };
    machine.set_desc(69, Some((moved, Origin::Own)));
    Ok(machine)
}

#[test]
fn a_base_that_is_set_is_that_of_the_next_read(rt: HostRuntime) -> Result<(), Fail> {
    let machine = moved_machine(rt.alloc())?;
    same("byte", machine.read(SegReg::Ds, 0) == Ok([0x5A]))?;
    Ok(())
}

// A word's write at the last byte of a segment.
fn compare_last(machine: &mut Machine) -> Result<(), &'static str> {
    let ss = machine.write(SegReg::Ss, 0xFFFF, [0, 0]);
    same("a write through SS", is_fault(ss, 0x0C, 0))?;
    let es = machine.write(SegReg::Es, 0xFFFF, [0, 0]);
    same("a write through ES", is_fault(es, 0x0D, 0))
}

#[test]
fn accesses_in_real_mode(rt: HostRuntime) -> Result<(), Fail> {
    let mut machine = Machine::new(rt.alloc(), 1)?;
    let ss = machine.load_seg(SegReg::Ss, 0x75);
    same("a load of SS", ss == Ok(()))?;
    compare_last(&mut machine)?;
    let ss = machine.load_seg(SegReg::Ss, 0);
    same("a load of SS with 0", ss == Ok(()))?;
    let mut regs = machine.regs();
    regs.cs = 0xF000;
    regs.eip = 0xFFF8;
    machine.set_regs(regs);
    same("code", machine.code().as_slice() == [0xF4; 8].as_slice())?;
    Ok(())
}

const CALLBACK: Option<(FarPtr, FarPtr)> = Some((
    FarPtr {
        sel: 0x1027,
        off: 0x1234_5678,
    },
    FarPtr {
        sel: 0xFFFF,
        off: 0xFFFF_FFFE,
    },
));

// The slots before the last one are free.
fn compare_free(machine: &Machine) -> Result<(), &'static str> {
    for slot in 0..15 {
        same("a free slot", machine.back(slot).is_none())?;
    }
    Ok(())
}

#[test]
#[tactic(auto, unfolding(host_memory::specs::Blank::blank_world))]
fn callbacks_are_set_and_freed(rt: HostRuntime) -> Result<(), Fail> {
    let mut machine = Machine::new(rt.alloc(), 1)?;
    machine.set_width(Width::Sixteen);
    machine.set_back(0, CALLBACK);
    machine.set_back(15, CALLBACK);
    same("the first slot", machine.back(0) == CALLBACK)?;
    machine.set_back(0, None);
    compare_free(&machine)?;
    same("the last slot", machine.back(15) == CALLBACK)?;
    Ok(())
}
