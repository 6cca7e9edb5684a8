// What a call puts into the arena, with the descriptors of a block that has them.
ghost use Rattle.std.specs.Prelude.{◌≡◌};
ghost use Rattle.dos_blocks.specs.{Blocks.{first_descriptor, new_descriptor, with_block}, Puts.{CanPutBlock}};

use crate::selectors::descriptor_of_block;
use arrayvec::ArrayVec;
use client_world::{DosEntry, DosRun};
use guest_space::{Machine, descriptors_for};
use service_rows::first_free;

/// Puts entries in place of others, and for a block of INT 31h function 0100h its run of descriptors.
pub(crate) fn put_block(
    m: &mut Machine,
    for_dpmi: bool,
    place: u16,
    old: u16,
    new: &ArrayVec<DosEntry, 3>,
    run: DosRun,
)
    requires { CanPutBlock for_dpmi m.old.world place old new.now.items run }
    ensures { m.new.world ≡ with_block for_dpmi m.old.world place old new.now.items run }
{
    if for_dpmi {
        m.arena_put_dpmi(place, old, new, run)
    } else {
        m.arena_put(place, old, new)
    }
}

/// The index of the first descriptor of a new block of n paragraphs; 0 for a block of a DOS call.
pub(crate) fn new_descriptor(m: &Machine, for_dpmi: bool, n: u16) -> u16
    ensures { result ≡ new_descriptor for_dpmi m.now.world.descriptors n }
{
    if for_dpmi {
        first_free(m, descriptors_for(n)).unwrap_or(0)
    } else {
        0
    }
}

/// The index of the first descriptor of the block at a segment; 0 for a block of a DOS call.
pub(crate) fn first_descriptor(m: &Machine, for_dpmi: bool, segment: u16) -> u16
    ensures { result ≡ first_descriptor for_dpmi m.now.world.descriptors segment }
{
    if for_dpmi {
        descriptor_of_block(m, segment).unwrap_or(0)
    } else {
        0
    }
}
