// Runs of bytes of the DOS megabyte.
ghost use Rattle.std.specs.Prelude.{◌≡◌, ◌+◌, ◌≤◌, length};
ghost use Rattle.client_world.specs.declared.memory_map.TheConstants.{ROM_START};
ghost use Rattle.guest_ram.specs.Bytes.{put};

use guest_space::Machine;

/// Writes bytes of the DOS megabyte, which end below read-only memory.
pub(crate) fn write_run(m: &mut Machine, at: u32, bytes: &[u8])
    requires { at + length bytes.now ≤ ROM_START }
    ensures { m.new.world ≡ record m.old.world { dos = put m.old.world.dos at bytes.now } }
{
    let mut place = at;
    for byte in bytes {
        m.set_dos8(place, *byte);
        place += 1;
    }
}
