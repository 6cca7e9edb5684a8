// The image.
ghost use Rattle.std.specs.Prelude.{◌≡◌, ◌+◌, ◌≤◌, length, slice_index, false};
ghost use Rattle.client_world.specs.declared.memory_map.TheConstants.{IMAGE_START};
ghost use Rattle.guest_ram.specs.{Bytes.{put}, Listed.{listed}};
ghost use Rattle.mz_loader.specs.{declared.header.TheConstants.{MOST_BYTES}, Refusal.{header_bytes, has_no_room}, Start.{image}};

use crate::header::{header_length, image_length};
use client_world::memory_map::IMAGE_START;
use guest_space::Machine;

// The byte at an address of the file, 0 past its end.
#[tactic(auto, using(crate::proofs::Relocating::past_end))]
fn byte_of(file: &[u8], at: usize) -> u8
    ensures { result ≡ slice_index file.now at }
{
    if at < file.len() { file[at] } else { 0 }
}

// Writes n bytes of the file to where the image is.
fn write_part(m: &mut Machine, file: &[u8], from: u32, n: u32)
    requires room { n ≤ MOST_BYTES }
    ensures { m.new.world ≡ record m.old.world {
      dos = put m.old.world.dos IMAGE_START (listed n (λ at. slice_index file.now (from + at)));
    } }
{
    for i in 0..n {
        let byte = byte_of(file, from as usize + i as usize);
        m.set_dos8(IMAGE_START + i, byte);
    }
}

/// Writes the image.
#[tactic(auto, unfolding(crate::specs::Start::image))]
pub(crate) fn write_image(m: &mut Machine, file: &[u8])
    requires long { header_bytes ≤ length file.now }
    requires room { has_no_room file.now ≡ false }
    ensures { m.new.world ≡ record m.old.world { dos = put m.old.world.dos IMAGE_START (image file.now) } }
{
    write_part(m, file, header_length(file), image_length(file));
}
