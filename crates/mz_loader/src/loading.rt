// Loading a client.
ghost use Rattle.std.specs.Prelude.{◌≡◌, ◌≤◌, length, false, OnOk, IfErr, Some, None};
ghost use Rattle.host_memory.specs.Blank.{blank_world};
ghost use Rattle.mz_loader.specs.{Refusal.{header_bytes, has_bad_table, has_bad_target, has_no_room, refusal}, Start.{world_at_start}};

use crate::blocks::make_blocks;
use crate::header::block_paras;
use crate::prefix::write_psp;
use crate::reasons::refusal;
use crate::registers::set_start_regs;
use crate::relocations::write_program;
use client_world::LoadFault;
use guest_space::Machine;

// Puts the client of a file that is loaded into the machine.
#[tactic(auto, unfolding(crate::specs::Start::world_at_start, guest_space::specs::Arena::with_entries))]
fn start(m: &mut Machine, file: &[u8])
    requires blank { m.old.world ≡ blank_world m.old.world.budget }
    requires long { header_bytes ≤ length file.now }
    requires table { has_bad_table file.now ≡ false }
    requires room { has_no_room file.now ≡ false }
    requires targets { has_bad_target file.now ≡ false }
    ensures { m.new.world ≡ world_at_start file.now m.old.world }
{
    let paras = block_paras(file) as u16;
    make_blocks(m, paras);
    write_psp(m, paras);
    write_program(m, file);
    set_start_regs(m, file);
}

/// Loads a client into a machine that holds nothing, or returns the first reason for which the file isn't loaded, and changes nothing.
/// Source: MS-DOS Programmer's Reference, .EXE file header and program segment prefix; the order of the reasons is own.
pub fn load(m: &mut Machine, file: &[u8]) -> Result<(), LoadFault>
    requires blank { m.old.world ≡ blank_world m.old.world.budget }
    ensures loaded { OnOk result ((refusal file.now ≡ None) × (m.new.world ≡ world_at_start file.now m.old.world)) }
    ensures refused { IfErr result (λ fault. (refusal file.now ≡ Some fault) × (m.new ≡ m.old)) }
{
    match refusal(file) {
        Some(fault) => Err(fault),
        None => {
            start(m, file);
            Ok(())
        }
    }
}
