// The records of calls, which lie in the host's frames.
ghost use Rattle.std.specs.{Prelude.{◌≡◌, ◌≢◌, ◌≤◌, ◌<◌, ◌*◌, Some, None, length, slice_index}, List.{slice_get}};
ghost use Rattle.client_world.specs.declared.host_frames.TheConstants.{PAGE_SIZE, BUDGET_FRAMES};
ghost use Rattle.client_world.specs.declared.limits.TheConstants.{GREATEST_DEPTH};
ghost use Rattle.guest_ram.specs.Bytes.{region};
ghost use Rattle.host_memory.specs.{Layout.{records_part}, Records.{record_at, record_bytes, record_count, record_size}};
ghost use Rattle.guest_space.specs.Records.{record_place, with_record, without_record};

use crate::machine::Machine;
use client_world::host_frames::{PAGE_SIZE, RECORD_SIZE, RECORDS};
use client_world::limits::GREATEST_DEPTH;
use guest_ram::Ram;

// Where the rows of the records lie in the memory.
const ROWS_START: u32 = PAGE_SIZE * RECORDS;

// How many there are, one for each depth.
const ROWS: u8 = GREATEST_DEPTH as u8;

// The bytes of a row.
const ROW_SIZE: usize = RECORD_SIZE as usize;

// The number of records.
fn record_count(ram: &Ram) -> u8
    requires { PAGE_SIZE * BUDGET_FRAMES ≤ length ram.now }
    ensures count { result ≡ record_count (records_part ram.now) }
    ensures few { result ≤ GREATEST_DEPTH }
{
    for place in 0..ROWS {
        if ram.get8(ROWS_START + RECORD_SIZE * place as u32) == 0 {
            return place;
        }
    }
    ROWS
}

impl Machine {
    /// The number of records, 32 at most. Source: own.
    pub fn record_count(&self) -> u8
        ensures count { result ≡ length self.now.world.calls }
        ensures few { result ≤ GREATEST_DEPTH }
    {
        record_count(&self.ram)
    }

    /// The bytes of the row of a record at a slot below 32; the outermost record has row 0. Where there is no record, all are 0. Source:
    /// own.
    pub fn record_bytes(&self, slot: u8) -> [u8; ROW_SIZE]
        requires { slot < GREATEST_DEPTH }
        ensures bytes { result ≡ region self.now.bytes (record_place slot) record_size }
        ensures held { slot < length self.now.world.calls → slice_get self.now.world.calls slot ≡ Some (record_at result 0) }
        ensures some { slot < length self.now.world.calls → slice_index result 0 ≢ 0 }
        ensures none { length self.now.world.calls ≤ slot → slice_index result 0 ≡ 0 }
    {
        self.ram.get(ROWS_START + RECORD_SIZE * slot as u32)
    }

    /// Puts a record after all others, by the bytes of its row. Source: own.
    pub fn put_record(&mut self, bytes: &[u8; ROW_SIZE])
        requires width { self.old.world.width ≢ None }
        requires depth { length self.old.world.calls < GREATEST_DEPTH }
        requires exact { record_bytes (record_at bytes.now 0) ≡ bytes.now }
        ensures { self.new ≡ with_record self.old (record_at bytes.now 0) bytes.now }
    {
        let place = record_count(&self.ram);
        self.ram
            .write(ROWS_START + RECORD_SIZE * place as u32, bytes);
    }

    /// Takes the last record away; its row becomes 0. Source: own.
    pub fn drop_record(&mut self)
        requires { 0 < length self.old.world.calls }
        ensures { self.new ≡ without_record self.old }
    {
        let place = record_count(&self.ram) - 1;
        self.ram
            .fill(ROWS_START + RECORD_SIZE * place as u32, RECORD_SIZE, 0);
    }
}
