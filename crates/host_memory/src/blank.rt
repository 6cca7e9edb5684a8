// A new memory: real mode, no block, no descriptor, the vectors that lead to the host, and all of DOS memory and of the page budget free.
ghost use Rattle.std.specs.Prelude.{◌≡◌, ◌≤◌, ◌<◌, ◌+◌, ◌*◌, ℕ, IfOk, None, length, true};
ghost use Rattle.client_world.specs.{declared.registers.Mode.TheVariants.{Real}, Soundness.{IsSound}};
ghost use Rattle.host_memory.specs.{Blank.{no_regs, blank_world}, Filling.{Written, real_vector_at, table_entry, table_size, table_start}};
ghost use Rattle.host_memory.specs.{Filling.{vector_half_at}, Holds.{Holds}, Layout.{world_of}, Tables.{directory_entry_at, low_entry_at}};
ghost use Rattle.host_memory.specs.Tables.{window_entry_at};

use crate::dos_list::{header, listed_entry};
use client_world::host_frames::{
    BLOCK_TABLE_FRAMES, BLOCK_TABLES, BUDGET_FRAMES, DOS_FRAMES, DOS_LIST, LOW_TABLE,
    PAGE_DIRECTORY, PAGE_ENTRY_SIZE, PAGE_SIZE, TABLE_ENTRIES, VECTORS, WINDOW_TABLE,
};
use client_world::limits::{EXCEPTION_VECTORS, INTERRUPT_VECTORS, MAX_PAGES};
use client_world::memory_map::{
    ARENA_END, ARENA_START, DOS_SIZE, DOS_VIEW_PAGES, HOST_WINDOW, PARAGRAPH_SIZE, ROM_BYTE,
    ROM_SEGMENT, ROM_START, SEGMENT_SIZE,
};
use client_world::selectors::{HOST_CODE, selector_of};
use client_world::traps::PROTECTED_VECTOR_TRAPS;
use client_world::{DosEntry, DosState};
use guest_ram::Ram;
use page_tables::{SUPERVISOR_WRITABLE, TABLE_SPAN, USER_READ_ONLY, USER_WRITABLE, link_frames};
use std::alloc::{AllocError, Global};

// The doublewords of the protected vectors, two for each.
const VECTOR_HALVES: u32 = 2 * (INTERRUPT_VECTORS + EXCEPTION_VECTORS);

// The letter of the last header of DOS memory: 'Z'. Source: MS-DOS memory control blocks.
const LAST_HEADER: u8 = 0x5A;

// The one entry of DOS memory: all of the arena is free.
const WHOLE_ARENA: DosEntry = DosEntry {
    at: ARENA_START as u16,
    paras: (ARENA_END - ARENA_START - 1) as u16,
    state: DosState::Free,
};

// The directory's entry at an index.
fn directory_entry(index: u32) -> u32
    requires { index < TABLE_ENTRIES }
    ensures { result ≡ directory_entry_at index }
{
    if index == 0 {
        PAGE_SIZE * LOW_TABLE + USER_WRITABLE
    } else if index <= BLOCK_TABLE_FRAMES {
        PAGE_SIZE * (BLOCK_TABLES + (index - 1)) + USER_WRITABLE
    } else if index == HOST_WINDOW / TABLE_SPAN {
        PAGE_SIZE * WINDOW_TABLE + SUPERVISOR_WRITABLE
    } else {
        0
    }
}

// The entry of a page of the first 4 MB.
fn low_entry(page: u32) -> u32
    requires { page < TABLE_ENTRIES }
    ensures { result ≡ low_entry_at page }
{
    if page < ROM_START / PAGE_SIZE {
        PAGE_SIZE * page + USER_WRITABLE
    } else if page < DOS_FRAMES {
        PAGE_SIZE * page + USER_READ_ONLY
    } else if page < DOS_VIEW_PAGES {
        PAGE_SIZE * (page - DOS_FRAMES) + USER_WRITABLE
    } else {
        0
    }
}

// The entry of a page of the host's window.
fn window_entry(page: u32) -> u32
    requires { page < TABLE_ENTRIES }
    ensures { result ≡ window_entry_at page }
{
    if page < BUDGET_FRAMES - PAGE_DIRECTORY {
        PAGE_SIZE * (PAGE_DIRECTORY + page) + SUPERVISOR_WRITABLE
    } else {
        0
    }
}

// The vector of real mode of a number in a new memory, as a doubleword.
fn blank_vector(n: u32) -> u32
    requires { n < INTERRUPT_VECTORS }
    ensures { result ≡ real_vector_at n }
{
    SEGMENT_SIZE * u32::from(ROM_SEGMENT) + n
}

// A half of a protected vector: its offset, or its selector.
fn vector_half(k: u32) -> u32
    requires { k < VECTOR_HALVES }
    ensures { result ≡ vector_half_at k }
{
    if k % 2 == 0 {
        PROTECTED_VECTOR_TRAPS - ROM_START + k / 2
    } else {
        u32::from(selector_of(HOST_CODE))
    }
}

// A table of doublewords of a new memory.
#[derive(Clone, Copy, PartialEq, Eq)]
enum Table {
    RealVectors,
    Directory,
    Low,
    Window,
    ProtectedVectors,
}

// The address of a table.
fn table_start(table: Table) -> u32
    ensures { result ≡ table_start table }
{
    match table {
        Table::RealVectors => 0,
        Table::Directory => PAGE_SIZE * PAGE_DIRECTORY,
        Table::Low => PAGE_SIZE * LOW_TABLE,
        Table::Window => PAGE_SIZE * WINDOW_TABLE,
        Table::ProtectedVectors => PAGE_SIZE * VECTORS,
    }
}

// How many doublewords it has.
fn table_size(table: Table) -> u32
    ensures size { result ≡ table_size table }
    ensures inside { table_start table + 4 * result ≤ PAGE_SIZE * BUDGET_FRAMES }
{
    match table {
        Table::RealVectors => INTERRUPT_VECTORS,
        Table::Directory | Table::Low | Table::Window => TABLE_ENTRIES,
        Table::ProtectedVectors => VECTOR_HALVES,
    }
}

// The one at an index.
fn table_entry(table: Table, index: u32) -> u32
    requires { index < table_size table }
    ensures { result ≡ table_entry table index }
{
    match table {
        Table::RealVectors => blank_vector(index),
        Table::Directory => directory_entry(index),
        Table::Low => low_entry(index),
        Table::Window => window_entry(index),
        Table::ProtectedVectors => vector_half(index),
    }
}

fn fill_table(ram: &mut Ram, table: Table)
    requires { PAGE_SIZE * BUDGET_FRAMES ≤ length ram.old }
    ensures { Written (table_entry table) (table_start table) (table_size table) ram.old ram.new }
{
    let start = table_start(table);
    for index in 0..table_size(table) {
        ram.set32(start + PAGE_ENTRY_SIZE * index, table_entry(table, index));
    }
}

/// The memory of a new machine whose blocks may take `pages` pages together, 1 to `MAX_PAGES`, or `AllocError` where memory is short.
/// Source: own.
pub fn blank_memory(alloc: Global, pages: u32) -> Result<Ram, AllocError>
    requires some { 0 < pages }
    requires few { pages ≤ MAX_PAGES }
    ensures holds { IfOk result (λ ram. Holds ram pages) }
    ensures world { IfOk result (λ ram. world_of ram pages Real no_regs true None ≡ blank_world pages) }
    ensures sound { IfOk result (λ ram. IsSound (blank_world pages)) }
{
    let mut ram = Ram::new(alloc, BUDGET_FRAMES + pages)?;
    link_frames(&mut ram);
    ram.fill(ROM_START, DOS_SIZE - ROM_START, ROM_BYTE);
    fill_table(&mut ram, Table::RealVectors);
    ram.write(
        PARAGRAPH_SIZE * ARENA_START,
        &header(LAST_HEADER, WHOLE_ARENA),
    );
    fill_table(&mut ram, Table::Directory);
    fill_table(&mut ram, Table::Low);
    fill_table(&mut ram, Table::Window);
    ram.write(PAGE_SIZE * DOS_LIST, &listed_entry(WHOLE_ARENA));
    fill_table(&mut ram, Table::ProtectedVectors);
    Ok(ram)
}

/// The world of a new machine is sound.
pub fn a_blank_world_is_sound()
    ensures { (budget : ℕ) → IsSound (blank_world budget) }
{}
