// The environment and the program segment prefix.
ghost use Rattle.std.specs.Prelude.{◌≡◌, ◌+◌, ◌*◌, ◌≤◌};
ghost use Rattle.client_world.specs.declared.memory_map.TheConstants.{PARAGRAPH_SIZE};
ghost use Rattle.guest_ram.specs.Bytes.{put};
ghost use Rattle.mz_loader.specs.{Header.{most_paras}, Start.{environment, environment_segment, psp_address, psp_front, psp_environment}};
ghost use Rattle.mz_loader.specs.Start.{psp_command, with_psp};

use crate::blocks::ENVIRONMENT_SEGMENT;
use crate::writing::write_run;
use client_world::memory_map::{PARAGRAPH_SIZE, PSP_SEGMENT};
use guest_space::Machine;

// Where the prefix is.
const PSP_ADDRESS: u32 = PARAGRAPH_SIZE * PSP_SEGMENT as u32;

// Writes the environment: no variables, one string after them, `C:\CLIENT.EXE`.
#[tactic(auto, unfolding(crate::specs::Start::environment))]
fn write_environment(m: &mut Machine)
    ensures { m.new.world ≡ record m.old.world {
      dos = put m.old.world.dos (PARAGRAPH_SIZE * environment_segment) environment;
    } }
{
    let bytes = b"\0\0\x01\0C:\\CLIENT.EXE\0";
    write_run(m, PARAGRAPH_SIZE * ENVIRONMENT_SEGMENT as u32, bytes);
}

// Writes INT 20h, and the segment after the program's block.
#[tactic(auto, unfolding(crate::specs::Start::psp_front))]
fn write_front(m: &mut Machine, paras: u16)
    requires { paras ≤ most_paras }
    ensures { m.new.world ≡ record m.old.world { dos = put m.old.world.dos psp_address (psp_front paras) } }
{
    let [low, high] = (PSP_SEGMENT + paras).to_le_bytes();
    write_run(m, PSP_ADDRESS, &[0xCD, 0x20, low, high]);
}

// Writes the environment's segment.
#[tactic(auto, unfolding(crate::specs::Start::psp_environment))]
fn write_environment_segment(m: &mut Machine)
    ensures { m.new.world ≡ record m.old.world {
      dos = put m.old.world.dos (psp_address + 0x2C) psp_environment;
    } }
{
    write_run(m, PSP_ADDRESS + 0x2C, &ENVIRONMENT_SEGMENT.to_le_bytes());
}

// Writes the command line, an empty one.
#[tactic(auto, unfolding(crate::specs::Start::psp_command))]
fn write_command(m: &mut Machine)
    ensures { m.new.world ≡ record m.old.world { dos = put m.old.world.dos (psp_address + 0x80) psp_command } }
{
    write_run(m, PSP_ADDRESS + 0x80, &[0, b'\r']);
}

/// Writes the environment and the prefix of a program whose block has n paragraphs.
/// Source: MS-DOS program segment prefix and environment.
#[tactic(auto, unfolding(crate::specs::Start::with_psp))]
pub(crate) fn write_psp(m: &mut Machine, paras: u16)
    requires { paras ≤ most_paras }
    ensures { m.new.world ≡ record m.old.world { dos = with_psp paras m.old.world.dos } }
{
    write_environment(m);
    write_front(m, paras);
    write_environment_segment(m);
    write_command(m);
}
