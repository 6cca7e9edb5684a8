// Worked rows: a call, and what it makes of registers, memory, flags, keys and console.
use crate::compare::{in_row, same};
use client_world::limits::CONSOLE_ROOM;
use client_world::{DosDone, Regs, SegReg};
use dos_calls::{Console, Keys, int2f, int21};
use guest_space::Machine;
use rows::{ROWS, Row, START};
use std::alloc::Global;
use std::test::Fail;

mod rows;

// Writes zeros to the console, by calls of the function for files, until there is room for n more.
fn fill(m: &mut Machine, keys: &mut Keys, console: &mut Console, room: u32) {
    let mut left = CONSOLE_ROOM.saturating_sub(room);
    for _ in 0..17 {
        let count = left.min(0xFFFF);
        m.set_regs(Regs {
            eax: 0x4000,
            ebx: 1,
            ecx: count,
            ds: 0x5000,
            ..START
        });
        let _ = int21(m, keys, console);
        left -= count;
    }
}

// Memory and registers of a row.
fn set(m: &mut Machine, row: &Row) -> Result<(), &'static str> {
    m.set_regs(START);
    let memory = m.write(SegReg::Ds, 0x100, row.memory);
    let flags = m.write(SegReg::Ss, 0x304, [row.flags]);
    m.set_regs(row.regs);
    same("what is written before", memory.is_ok() && flags.is_ok())
}

fn compare_machine(m: &mut Machine, row: &Row) -> Result<(), &'static str> {
    same("registers", m.regs() == row.regs_after)?;
    m.set_regs(START);
    let memory = m.read(SegReg::Ds, 0x100);
    same("memory", memory == Ok(row.memory_after))?;
    let flags = m.read(SegReg::Ss, 0x304);
    same("flags", flags == Ok([row.flags_after]))
}

fn compare_keys(keys: &mut Keys, wanted: &[u8]) -> Result<(), &'static str> {
    for key in wanted {
        same("keys", keys.take() == Some(*key))?;
    }
    same("keys after these", !keys.any_left())
}

fn compare_console(console: &Console, filled: usize, wanted: &[u8]) -> Result<(), &'static str> {
    let bytes = console.bytes();
    if bytes.len() < filled {
        return Err("console");
    }
    same("console", &bytes[filled..] == wanted)
}

fn compare(
    m: &mut Machine,
    keys: &mut Keys,
    console: &mut Console,
    row: &Row,
) -> Result<(), &'static str> {
    let filled = console.bytes().len();
    set(m, row)?;
    same("answer", int21(m, keys, console) == row.done)?;
    compare_keys(keys, row.keys_after)?;
    compare_console(console, filled, row.written)?;
    compare_machine(m, row)
}

fn compare_row(alloc: Global, m: &mut Machine, number: usize, row: &Row) -> Result<(), Fail> {
    let mut keys = Keys::new(alloc, row.keys)?;
    let mut console = Console::new(alloc)?;
    fill(m, &mut keys, &mut console, row.room);
    in_row(number, compare(m, &mut keys, &mut console, row))?;
    Ok(())
}

#[test]
fn every_call(rt: HostRuntime) -> Result<(), Fail> {
    let mut m = Machine::new(rt.alloc(), 1)?;
    for (number, row) in ROWS.iter().enumerate() {
        compare_row(rt.alloc(), &mut m, number, row)?;
    }
    Ok(())
}

#[test]
fn a_text_without_a_dollar_is_a_whole_segment(rt: HostRuntime) -> Result<(), Fail> {
    let mut m = Machine::new(rt.alloc(), 1)?;
    let mut keys = Keys::new(rt.alloc(), b"")?;
    let mut console = Console::new(rt.alloc())?;
    m.set_regs(Regs {
        eax: 0x0900,
        ds: 0x5000,
        ..START
    });
    let done = int21(&mut m, &mut keys, &mut console);
    same("answer", done == DosDone::Served)?;
    same("console", console.bytes().len() == 0x1_0000)?;
    Ok(())
}

// Registers before a call of INT 2Fh and after it: another function's, and those of the entry.
const MULTIPLEX: [(Regs, Regs); 2] = [
    (
        Regs {
            eax: 0x1111_1686,
            ..START
        },
        Regs {
            eax: 0x1111_1686,
            ..START
        },
    ),
    (
        Regs {
            eax: 0x1111_1687,
            esi: 0x5555_5555,
            edi: 0x6666_6666,
            ..START
        },
        Regs {
            eax: 0x1111_0000,
            ebx: 0x2222_0001,
            ecx: 0x3333_0003,
            edx: 0x4444_005A,
            esi: 0x5555_0000,
            edi: 0x6666_0100,
            es: 0xF000,
            ..START
        },
    ),
];

#[test]
fn the_host_is_there(rt: HostRuntime) -> Result<(), Fail> {
    let mut m = Machine::new(rt.alloc(), 1)?;
    for (number, (before, after)) in MULTIPLEX.iter().enumerate() {
        m.set_regs(*before);
        int2f(&mut m);
        in_row(number, same("registers", m.regs() == *after))?;
    }
    Ok(())
}
