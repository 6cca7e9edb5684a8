// What is free.
ghost use Rattle.std.specs.Prelude.{◌≡◌, ◌≤◌, ◌+◌, ◌%◌};
ghost use Rattle.client_world.specs.declared.limits.TheConstants.{MAX_PAGES};
ghost use Rattle.guest_ram.specs.Bytes.{dword_bytes, put};
ghost use Rattle.service_rows.specs.Reasons.{Does};
ghost use Rattle.block_services.specs.{Free.{free_table, largest_new_block}, Rows.{free_memory_information}};

use crate::blocks::free_pages;
use crate::gaps::widest_gap;
use client_world::host_frames::PAGE_SIZE;
use client_world::memory_map::BLOCK_REGION_PAGES;
use guest_space::{Machine, dword_bytes};
use service_rows::{Refusal, es_di};

// The greatest number of pages, up to a limit, for which a new block would find a free run.
fn largest_new_block(m: &Machine, most: u32) -> u32
    ensures pages { result ≡ largest_new_block m.now.world.blocks most }
    ensures most { result ≤ most }
{
    most.min(widest_gap(m))
}

// Writes a doubleword into a table, least significant byte first.
fn put_dword(table: &mut [u8; 48], at: usize, v: u32)
    requires { at + 4 ≤ 48 }
    ensures { table.new ≡ put table.old at (dword_bytes (v % 0x100000000)) }
{
    let [first, second, third, fourth] = dword_bytes(v);
    table[at] = first;
    table[at + 1] = second;
    table[at + 2] = third;
    table[at + 3] = fourth;
}

// The table of what is free.
#[tactic(auto, unfolding(crate::specs::Free::free_table, guest_ram::specs::Listed::copies))]
fn free_table(m: &Machine, most: u32) -> [u8; 48]
    requires { most ≤ MAX_PAGES }
    ensures { result ≡ free_table m.now.world most }
{
    m.soundness();
    let mut table = [0xFF; 48];
    put_dword(&mut table, 0, PAGE_SIZE * most);
    put_dword(&mut table, 4, most);
    put_dword(&mut table, 8, most);
    put_dword(&mut table, 12, BLOCK_REGION_PAGES);
    put_dword(&mut table, 16, m.budget().saturating_sub(m.pages_locked()));
    put_dword(&mut table, 20, m.budget() - m.pages_used());
    put_dword(&mut table, 24, m.budget());
    put_dword(&mut table, 28, BLOCK_REGION_PAGES - m.pages_used());
    put_dword(&mut table, 32, 0);
    table
}

/// Function 0500h: writes the table of what is free at ES:(E)DI.
#[tactic(auto, unfolding(crate::specs::Rows::free_memory_information, guest_space::specs::Far::world_after_far_write, //
guest_space::specs::Far::after_far_write, guest_space::specs::Transfer::with_places))]
pub(crate) fn free_memory_information(m: &mut Machine) -> Result<(), Refusal>
    ensures { Does (free_memory_information m.old.world) result m.old m.new }
{
    let p = es_di(m);
    if !m.far_ok(p, 0x30, true) {
        return Err(Refusal::InvalidAddress);
    }
    let most = largest_new_block(m, free_pages(m));
    let table = free_table(m, most);
    m.write_bytes(p, &table);
    Ok(())
}
