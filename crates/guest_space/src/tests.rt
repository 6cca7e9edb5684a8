// A machine is the memory and what the processor keeps, and nothing else. Its other tests are in `unit_tests`.
use crate::hidden_parts::Hidden;
use crate::machine::Machine;
use crate::pages::{CACHE_SIZE, CacheEntry};
use client_world::{Mode, Regs, Width};
use guest_ram::Ram;
use std::test::Fail;

// All fields of a machine, with their types: with one more this isn't compiled.
fn parts(
    machine: &Machine,
) -> (
    &Ram,
    u32,
    Regs,
    Mode,
    Option<Width>,
    bool,
    [Option<Hidden>; 6],
    [CacheEntry; CACHE_SIZE],
) {
    let Machine {
        ram,
        pages,
        regs,
        mode,
        width,
        vif,
        hidden,
        cache,
    } = machine;
    let ram: &Ram = ram;
    let pages: u32 = *pages;
    let regs: Regs = *regs;
    let mode: Mode = *mode;
    let width: Option<Width> = *width;
    let vif: bool = *vif;
    let hidden: [Option<Hidden>; 6] = *hidden;
    let cache: [CacheEntry; CACHE_SIZE] = *cache;
    (ram, pages, regs, mode, width, vif, hidden, cache)
}

// The name of a part that isn't as it should be.
fn same(part: &'static str, is_same: bool) -> Result<(), &'static str> {
    if is_same { Ok(()) } else { Err(part) }
}

fn compare(machine: &Machine) -> Result<(), &'static str> {
    let (ram, pages, regs, mode, width, vif, hidden, cache) = parts(machine);
    same("length", ram.len() == 1_949_696)?;
    same("pages", pages == 1)?;
    same("registers", regs == Regs::ZERO)?;
    same("mode", mode == Mode::Real)?;
    same("width", width.is_none())?;
    same("virtual interrupt flag", vif)?;
    let part = Hidden {
        base: 0,
        limit: 0xFFFF,
        access: 0xF3,
        size: false,
    };
    same("hidden parts", hidden == [Some(part); 6])?;
    let entry = CacheEntry {
        used: false,
        page: 0x10_0000,
        frame: 0,
        writable: false,
    };
    same("cache", cache == [entry; CACHE_SIZE])
}

#[test]
fn a_machine_keeps_nothing_but_its_memory_and_the_processor(rt: HostRuntime) -> Result<(), Fail> {
    let machine = Machine::new(rt.alloc(), 1)?;
    compare(&machine)?;
    Ok(())
}
