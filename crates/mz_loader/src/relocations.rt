// The relocations.
ghost use Rattle.std.specs.Prelude.{◌≡◌, ◌+◌, ◌*◌, ◌≤◌, length, false};
ghost use Rattle.mz_loader.specs.{Header.{relocations, relocation_table}, declared.header.TheConstants.{MOST_BYTES}};
ghost use Rattle.mz_loader.specs.Refusal.{header_bytes, has_bad_table, has_bad_target, has_no_room, some_beyond};
ghost use Rattle.mz_loader.specs.Start.{after_relocation, after_relocations, with_program};

use crate::header::{relocation_table, relocations};
use crate::image::write_image;
use crate::reasons::{image_room, relocation_target};
use client_world::memory_map::{IMAGE_SEGMENT, IMAGE_START};
use guest_space::Machine;

// Adds the image's segment to the word at a place of the image.
#[tactic(auto, unfolding(crate::specs::Start::after_relocation))]
fn relocate_word(m: &mut Machine, target: u32)
    requires { target + 2 ≤ MOST_BYTES }
    ensures { m.new.world ≡ record m.old.world { dos = after_relocation m.old.world.dos target } }
{
    let at = IMAGE_START + target;
    let word = m.dos16(at);
    let moved = word.wrapping_add(IMAGE_SEGMENT);
    m.set_dos8(at, (moved % 0x100) as u8);
    m.set_dos8(at + 1, (moved / 0x100) as u8);
}

// Makes n relocations from that at an address of the file on.
fn relocate_from(m: &mut Machine, file: &[u8], limit: u32, at: u16, n: u16)
    requires inside { at + 4 * n ≤ length file.now }
    requires room { limit ≤ MOST_BYTES }
    requires within { some_beyond file.now limit at n ≡ false }
    ensures { m.new.world ≡ record m.old.world { dos = after_relocations file.now at n m.old.world.dos } }
{
    for i in 0..n {
        let target = relocation_target(file, at as usize + 4 * i as usize);
        relocate_word(m, target);
    }
}

// Makes the relocations.
#[tactic(auto, using(crate::proofs::Relocating::all_relocated_none))]
fn relocate(m: &mut Machine, file: &[u8])
    requires long { header_bytes ≤ length file.now }
    requires table { has_bad_table file.now ≡ false }
    requires targets { has_bad_target file.now ≡ false }
    ensures { m.new.world ≡ record m.old.world {
      dos = after_relocations file.now (relocation_table file.now) (relocations file.now) m.old.world.dos;
    } }
{
    let count = relocations(file);
    if count != 0 {
        relocate_from(m, file, image_room(file), relocation_table(file), count);
    }
}

/// Writes the program: the image, and in it the relocations.
#[tactic(auto, unfolding(crate::specs::Start::with_program))]
pub(crate) fn write_program(m: &mut Machine, file: &[u8])
    requires long { header_bytes ≤ length file.now }
    requires table { has_bad_table file.now ≡ false }
    requires room { has_no_room file.now ≡ false }
    requires targets { has_bad_target file.now ≡ false }
    ensures { m.new.world ≡ record m.old.world { dos = with_program file.now m.old.world.dos } }
{
    write_image(m, file);
    relocate(m, file);
}
