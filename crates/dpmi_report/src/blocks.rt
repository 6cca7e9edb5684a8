// The part of the memory blocks. It takes no memory; where it fails, a first part of its text was put, and the count of faults rose.
ghost use Rattle.std.specs.Prelude.{◌≡◌, ◌<◌, Some, None, count_by, is_some, nat_lt, slice_index, slice_index_or};
ghost use Rattle.client_world.specs.{declared.limits.TheConstants.{MAX_BLOCKS}, World.{block_at}};
ghost use Rattle.block_memory.specs.BlockSizes.{locks_of_block, row_seen};
ghost use Rattle.dpmi_io.specs.Puts.{Puts};
ghost use Rattle.dpmi_report.specs.{Lines.{block_text, block_row}, Rows.{up_to}, Text.{blocks_head, blocks_part}};

use crate::digest::block_digest;
use crate::lines::{block_line, blocks_line};
use client_world::BlockRow;
use client_world::host_frames::PAGE_SIZE;
use client_world::limits::MAX_BLOCKS;
use dpmi_io::{Line, Sink, SinkFail, put_all};
use guest_space::Machine;

// Whether a page of a memory block is locked.
fn is_locked(machine: &Machine, handle: u16, row: BlockRow, page: u32) -> bool
    requires block { row_seen (block_at machine.now.world.blocks handle) ≡ Some row }
    requires inside { page < row.pages }
    ensures { result ≡ nat_lt 0 (slice_index (locks_of_block (block_at machine.now.world.blocks handle)) page) }
{
    machine.soundness();
    machine.lock_count(row.base + page * PAGE_SIZE) > 0
}

// The number of locked pages of a memory block.
fn count_locked(machine: &Machine, handle: u16, row: BlockRow) -> u32
    requires { row_seen (block_at machine.now.world.blocks handle) ≡ Some row }
    ensures { result ≡ count_by (nat_lt 0) (locks_of_block (block_at machine.now.world.blocks handle)) }
{
    let mut count = 0;
    for page in 0..row.pages {
        if is_locked(machine, handle, row, page) {
            count += 1;
        }
    }
    count
}

// The line of a memory block.
fn block_line_of(machine: &Machine, handle: u16, row: BlockRow) -> Line
    requires { row_seen (block_at machine.now.world.blocks handle) ≡ Some row }
    ensures { result.items ≡ block_text handle (block_at machine.now.world.blocks handle) }
{
    machine.soundness();
    let locked = count_locked(machine, handle, row);
    let digest = block_digest(machine, handle, row.pages);
    block_line(u32::from(handle), row.base, row.pages, locked, &digest)
}

// Puts the line of the memory block of a place, where there is one.
fn put_block<O: Sink>(machine: &Machine, place: u16, out: &mut O) -> Result<(), SinkFail>
    requires { place < MAX_BLOCKS }
    ensures { Puts result O.taken O.faults out.old out.new (block_row machine.now.world.blocks place) }
{
    let handle = place + 1;
    match machine.block(handle) {
        Some(row) => {
            let line = block_line_of(machine, handle, row);
            put_all(out, line.as_slice())
        }
        None => put_all(out, b"".as_slice()),
    }
}

// Puts the lines of the memory blocks.
fn put_block_rows<O: Sink>(machine: &Machine, out: &mut O) -> Result<(), SinkFail>
    ensures { Puts result O.taken O.faults out.old out.new (up_to (block_row machine.now.world.blocks) MAX_BLOCKS) }
{
    for place in 0..MAX_BLOCKS as u16 {
        put_block(machine, place, out)?;
    }
    Ok(())
}

// Whether a place has a memory block.
fn is_block(machine: &Machine, place: u16) -> bool
    requires { place < MAX_BLOCKS }
    ensures { result ≡ is_some (slice_index_or machine.now.world.blocks place None) }
{
    machine.block(place + 1).is_some()
}

// The number of memory blocks.
fn count_blocks(machine: &Machine) -> u32
    ensures { result ≡ count_by is_some machine.now.world.blocks }
{
    machine.soundness();
    let mut count = 0;
    for place in 0..MAX_BLOCKS as u16 {
        if is_block(machine, place) {
            count += 1;
        }
    }
    count
}

// The line before the memory blocks.
fn blocks_line_of(machine: &Machine) -> Line
    ensures { result.items ≡ blocks_head (count_by is_some machine.now.world.blocks) }
{
    blocks_line(count_blocks(machine))
}

// Puts the line before the memory blocks.
fn put_blocks_head<O: Sink>(machine: &Machine, out: &mut O) -> Result<(), SinkFail>
    ensures { Puts result O.taken O.faults out.old out.new (blocks_head (count_by is_some machine.now.world.blocks)) }
{
    let line = blocks_line_of(machine);
    put_all(out, line.as_slice())
}

/// Puts the memory blocks' part. Where it fails a first part of it was put, and the output's count of faults rose. Source: own.
pub fn put_blocks<O: Sink>(machine: &Machine, out: &mut O) -> Result<(), SinkFail>
    ensures { Puts result O.taken O.faults out.old out.new (blocks_part machine.now.world) }
{
    put_blocks_head(machine, out)?;
    put_block_rows(machine, out)
}
