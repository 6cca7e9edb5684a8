// DOS memory: its bytes by their address, the list of its entries with their headers in the megabyte, and that list together with the
// descriptors of a block of INT 31h function 0100h.
ghost use Rattle.std.specs.Prelude.{◌≡◌, ◌+◌, ◌<◌, slice_index, ◌≤◌, ◌*◌, length, take, drop, slice_index_or, nat_eq, if◌then◌else◌};
ghost use Rattle.client_world.specs.{declared.memory_map.TheConstants.{DOS_SIZE}, declared.dos_memory.DosEntry.{DosEntry}};
ghost use Rattle.client_world.specs.declared.host_frames.TheConstants.{PAGE_SIZE, BUDGET_FRAMES, DOS_LIST, DESCRIPTORS};
ghost use Rattle.client_world.specs.{declared.place.Place.{Place}, Access.{real_address}, DosMemory.{IsArena}, Selector.{FitsRow}};
ghost use Rattle.client_world.specs.Soundness.{descriptors_for};
ghost use Rattle.guest_ram.specs.Bytes.{word_of, put};
ghost use Rattle.guest_space.specs.{Dos.{real_vector, real_vector_address, with_dos_byte}, Arena.{with_replaced_entries, NoneMade}};
ghost use Rattle.guest_space.specs.{Arena.{with_entries, list_bytes, arena_bytes}, DosRuns.{CanPutRun, dos_descriptor, dos_limit, dos_row}};
ghost use Rattle.guest_space.specs.DosRuns.{rows_of_run, with_entries_and_run, with_run_bytes};
ghost use Rattle.host_memory.specs.DosList.{state_of, entry_at, entry_count, entry_room, entry_size, arena_in, KeepsArena};
ghost use Rattle.host_memory.specs.{Headers.{with_headers}, Layout.{arena_part, address_of}};
ghost use Rattle.desc_table.specs.Rows.{HasRows};

use crate::hidden_parts::all_parts;
use crate::machine::Machine;
use arrayvec::ArrayVec;
use client_world::host_frames::{DOS_ENTRY_SIZE, DOS_LIST, DOS_LIST_FRAMES, PAGE_SIZE};
use client_world::memory_map::{DOS_SIZE, PARAGRAPH_SIZE, ROM_START, SEGMENT_SIZE};
use client_world::{Desc, DosEntry, DosRun, DosState, FarPtr, Kind, Origin};
use desc_table::set;
use guest_ram::Ram;
use host_memory::{header, listed_entry};

/// Where the byte at an offset of a real-mode segment lies in the DOS megabyte; the offset wraps in its segment.
/// Source: 80386 Programmer's Reference Manual, ch. 15; that it wraps is own.
pub fn real_address(segment: u16, offset: u32) -> u32
    ensures at { result ≡ real_address segment offset }
    ensures within { result < DOS_SIZE }
{
    (u32::from(segment) * PARAGRAPH_SIZE + offset % SEGMENT_SIZE) % DOS_SIZE
}

/// Where the vector of real mode of an interrupt lies in the DOS megabyte: its offset, and two bytes above it its segment.
/// Source: 80386 Programmer's Reference Manual, ch. 17, INT/INTO.
pub fn real_vector_address(n: u8) -> u32
    ensures { result ≡ real_vector_address n }
{
    4 * u32::from(n)
}

impl Machine {
    /// The byte of the DOS megabyte at an address below 100000h.
    pub fn dos8(&self, at: u32) -> u8
        requires { at < DOS_SIZE }
        ensures { result ≡ slice_index self.now.world.dos at }
    {
        self.ram.get8(at)
    }

    /// The word of the DOS megabyte at an address and the next one, both below 100000h.
    pub fn dos16(&self, at: u32) -> u16
        requires { at + 1 < DOS_SIZE }
        ensures { result ≡ word_of self.now.world.dos at }
    {
        u16::from(self.dos8(at)) + 0x100 * u16::from(self.dos8(at + 1))
    }

    /// The vector of real mode of an interrupt: an offset and a segment.
    /// Source: 80386 Programmer's Reference Manual, ch. 17, INT/INTO.
    pub fn real_vector(&self, n: u8) -> FarPtr
        ensures { result ≡ real_vector self.now.world n }
    {
        let at = real_vector_address(n);
        FarPtr {
            sel: self.dos16(at + 2),
            off: u32::from(self.dos16(at)),
        }
    }

    /// Puts a byte of the DOS megabyte at an address below 100000h; from F0000h on it is dropped. Source: own.
    pub fn set_dos8(&mut self, at: u32, v: u8)
        requires { at < DOS_SIZE }
        ensures world { self.new.world ≡ record self.old.world { dos = with_dos_byte self.old.world.dos at v } }
        ensures bytes { self.new.bytes ≡ with_dos_byte self.old.bytes at v }
    {
        if at < ROM_START {
            self.ram.set8(at, v);
        }
    }
}

// Where the list lies in the memory.
const LIST_START: u32 = PAGE_SIZE * DOS_LIST;

// The entries for which there is room.
const ENTRY_ROOM: u32 = PAGE_SIZE * DOS_LIST_FRAMES / DOS_ENTRY_SIZE;

// The state of a code in the list.
fn state(code: u8) -> DosState
    ensures { result ≡ state_of code }
{
    match code {
        1 => DosState::Free,
        2 => DosState::Used,
        _ => DosState::Dpmi,
    }
}

// The entry at an address of the memory.
#[tactic(auto, unfolding(host_memory::specs::DosList::entry_at))]
fn entry(ram: &Ram, at: u32) -> DosEntry
    requires { at + entry_size ≤ length ram.now }
    ensures { result ≡ entry_at ram.now at }
{
    let _size = ram.len();
    DosEntry {
        at: ram.get16(at),
        paras: ram.get16(at + 2),
        state: state(ram.get8(at + 4)),
    }
}

// The number of entries.
fn entry_count(ram: &Ram) -> u32
    requires { PAGE_SIZE * BUDGET_FRAMES ≤ length ram.now }
    ensures count { result ≡ entry_count (arena_part ram.now) }
    ensures few { result ≤ entry_room }
{
    for place in 0..ENTRY_ROOM {
        if ram.get8(LIST_START + DOS_ENTRY_SIZE * place + 4) == 0 {
            return place;
        }
    }
    ENTRY_ROOM
}

// Writes entries one after another.
fn write_entries(ram: &mut Ram, at: u32, entries: &[DosEntry])
    requires { at + entry_size * length entries.now ≤ length ram.old }
    ensures bytes { ram.new ≡ put ram.old at (list_bytes entries.now) }
    ensures size { length ram.new ≡ length ram.old }
{
    let _size = ram.len();
    let mut place = at;
    for entry in entries {
        ram.write(place, &listed_entry(*entry));
        place += DOS_ENTRY_SIZE;
    }
}

// Puts entries in place of `old` others, of n in all.
fn replace_entries(ram: &mut Ram, n: u32, place: u32, old: u32, new: &[DosEntry])
    requires frames { PAGE_SIZE * BUDGET_FRAMES ≤ length ram.old }
    requires keeps { KeepsArena (arena_part ram.old) }
    requires count { n ≡ entry_count (arena_part ram.old) }
    requires few { n ≤ entry_room }
    requires within { place + old ≤ n }
    requires fits { n + length new.now ≤ entry_room + old }
    ensures { ram.new
        ≡ put ram.old (PAGE_SIZE * DOS_LIST) (arena_bytes (with_replaced_entries (arena_in (arena_part ram.old)) place old new.now)) }
{
    let count = new.len() as u32;
    let from = LIST_START + DOS_ENTRY_SIZE * (place + old);
    let to = LIST_START + DOS_ENTRY_SIZE * (place + count);
    ram.copy(from, to, DOS_ENTRY_SIZE * (n - (place + old)));
    write_entries(ram, LIST_START + DOS_ENTRY_SIZE * place, new);
    let end = LIST_START + DOS_ENTRY_SIZE * (n - old + count);
    ram.fill(end, DOS_ENTRY_SIZE * old.saturating_sub(count), 0);
}

// The letter of the header of an entry, of n in all: 'Z' of the last one, 'M' of the others. Source: MS-DOS memory control blocks.
fn letter(place: u32, n: u32) -> u8
    requires { place < n }
    ensures { result ≡ (if nat_eq (place + 1) n then 0x5A else 0x4D) }
{
    if place + 1 == n { 0x5A } else { 0x4D }
}

// Writes the header of each of n entries.
fn write_headers(ram: &mut Ram, n: u32)
    requires frames { PAGE_SIZE * BUDGET_FRAMES ≤ length ram.old }
    requires count { n ≡ entry_count (arena_part ram.old) }
    requires few { n ≤ entry_room }
    requires arena { IsArena (arena_in (arena_part ram.old)) }
    ensures { ram.new ≡ with_headers ram.old (arena_in (arena_part ram.old)) }
{
    for place in 0..n {
        let entry = entry(ram, LIST_START + DOS_ENTRY_SIZE * place);
        let bytes = header(letter(place, n), entry);
        ram.write(PARAGRAPH_SIZE * entry.at as u32, &bytes);
    }
}

// Puts entries in place of `old` others, and writes the header of every entry.
pub(crate) fn put_entries(ram: &mut Ram, place: u16, old: u16, new: &ArrayVec<DosEntry, 3>)
    requires frames { PAGE_SIZE * BUDGET_FRAMES ≤ length ram.old }
    requires keeps { KeepsArena (arena_part ram.old) }
    requires within { place + old ≤ length (arena_in (arena_part ram.old)) }
    requires sound { IsArena (with_replaced_entries (arena_in (arena_part ram.old)) place old new.now.items) }
    ensures { ram.new ≡ with_headers
        (put ram.old (PAGE_SIZE * DOS_LIST) (arena_bytes (with_replaced_entries (arena_in (arena_part ram.old)) place old new.now.items)))
        (with_replaced_entries (arena_in (arena_part ram.old)) place old new.now.items) }
{
    let n = entry_count(ram);
    let entries = new.as_slice();
    replace_entries(ram, n, place as u32, old as u32, entries);
    write_headers(ram, n - old as u32 + entries.len() as u32);
}

impl Machine {
    /// The number of entries of DOS memory, which are an arena.
    pub fn arena_len(&self) -> u16
        ensures count { result ≡ length self.now.world.arena }
        ensures sound { IsArena self.now.world.arena }
    {
        entry_count(&self.ram) as u16
    }

    /// The entry of DOS memory at a place.
    pub fn arena(&self, place: u16) -> DosEntry
        requires { place < length self.now.world.arena }
        ensures { (default : DosEntry) → result ≡ slice_index_or self.now.world.arena place default }
    {
        entry(&self.ram, LIST_START + DOS_ENTRY_SIZE * place as u32)
    }

    /// Puts entries of DOS memory in place of `old` others from a place on, and writes the header of every entry. INT 31h function
    /// 0100h made none of them. Source: own.
    pub fn arena_put(&mut self, place: u16, old: u16, new: &ArrayVec<DosEntry, 3>)
        requires within { place + old ≤ length self.old.world.arena }
        requires old_plain { NoneMade (take old (drop place self.old.world.arena)) }
        requires new_plain { NoneMade new.now.items }
        requires sound { IsArena (with_replaced_entries self.old.world.arena place old new.now.items) }
        ensures world { self.new.world ≡ with_entries self.old.world place old new.now.items }
        ensures bytes { self.new.bytes ≡ with_headers
            (put self.old.bytes (PAGE_SIZE * DOS_LIST) (arena_bytes (with_replaced_entries self.old.world.arena place old new.now.items)))
            (with_replaced_entries self.old.world.arena place old new.now.items) }
    {
        put_entries(&mut self.ram, place, old, new);
    }
}

/// How many descriptors a block of DOS memory has: one for each 64 KB. Source: DPMI 0.9, INT 31h function 0100h.
pub fn descriptors_for(paras: u16) -> u16
    ensures count { result ≡ descriptors_for paras }
    ensures few { result ≤ 16 }
{
    ((u32::from(paras) + 0xFFF) / 0x1000) as u16
}

// The limit of a descriptor of a block of DOS memory.
fn dos_limit(paras: u16, number: u16) -> u32
    requires { number < descriptors_for paras }
    ensures { result ≡ dos_limit paras number }
{
    let bytes = PARAGRAPH_SIZE * u32::from(paras);
    if number == 0 {
        bytes - 1
    } else {
        (bytes - 0x1_0000 * u32::from(number) - 1).min(0xFFFF)
    }
}

// A descriptor of a block of DOS memory.
fn dos_descriptor(segment: u16, paras: u16, number: u16) -> Desc
    requires { number < descriptors_for paras }
    ensures { result ≡ dos_descriptor segment paras number }
{
    Desc::plain(
        Kind::WRITABLE_DATA,
        PARAGRAPH_SIZE * u32::from(segment) + 0x1_0000 * u32::from(number),
        dos_limit(paras, number),
        false,
    )
}

// The row of a descriptor of a block of DOS memory, nothing where the block has fewer.
#[tactic(auto, using(crate::proofs::DosRows::fits_dos_row), unfolding(crate::specs::DosRuns::dos_row))]
fn dos_row(segment: u16, paras: u16, number: u16) -> Option<(Desc, Origin)>
    ensures row { result ≡ dos_row segment paras number }
    ensures fits { FitsRow result }
{
    if number < descriptors_for(paras) {
        Some((dos_descriptor(segment, paras, number), Origin::Dos(segment)))
    } else {
        None
    }
}

// Puts the descriptors of a block in place of those that it had.
fn put_dos_rows(ram: &mut Ram, run: DosRun)
    requires rows { HasRows ram.old }
    requires within { run.first + rows_of_run run ≤ DESCRIPTORS }
    ensures { ram.new ≡ with_run_bytes ram.old run (rows_of_run run) }
{
    let count = descriptors_for(run.before).max(descriptors_for(run.after));
    for number in 0..count {
        set(ram, run.first + number, dos_row(run.seg, run.after, number));
    }
}

impl Machine {
    /// Puts entries of DOS memory as `arena_put` does, and with them the descriptors of a block that INT 31h function 0100h makes or made.
    /// Source: own.
    pub fn arena_put_dpmi(&mut self, place: u16, old: u16, new: &ArrayVec<DosEntry, 3>, run: DosRun)
        requires { CanPutRun self.old.world place old new.now.items run }
        ensures world { self.new.world ≡ with_entries_and_run self.old.world place old new.now.items run }
        ensures bytes { self.new.bytes ≡ with_run_bytes (with_headers
            (put self.old.bytes (PAGE_SIZE * DOS_LIST) (arena_bytes (with_replaced_entries self.old.world.arena place old new.now.items)))
            (with_replaced_entries self.old.world.arena place old new.now.items)) run (rows_of_run run) }
        ensures addresses { (p : Place) → address_of self.new.bytes p ≡ address_of self.old.bytes p }
    {
        put_entries(&mut self.ram, place, old, new);
        put_dos_rows(&mut self.ram, run);
        self.hidden = all_parts(&self.ram, self.mode, &self.regs);
    }
}
