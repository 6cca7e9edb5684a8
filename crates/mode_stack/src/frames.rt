// Where frames lie on the host's stacks of protected mode.
ghost use Rattle.std.specs.Prelude.{◌≡◌, ◌≤◌, ◌<◌};
ghost use Rattle.client_world.specs.declared.limits.TheConstants.{GREATEST_DEPTH};
ghost use Rattle.client_world.specs.{declared.memory_map.TheConstants.{PROTECTED_STACK_SIZE}, World.{depth}};
ghost use Rattle.mode_stack.specs.Frames.{frame_address};

use crate::stack::depth;
use client_world::FarPtr;
use client_world::memory_map::PROTECTED_STACK_SIZE;
use client_world::selectors::{HOST_STACKS, selector_of};
use guest_space::Machine;

/// The address of a frame of `size` bytes, which ends where the stack of the depth does. Source: own.
pub fn frame_address(m: &Machine, size: u32) -> FarPtr
    requires depth { depth m.now.world < GREATEST_DEPTH }
    requires size { size ≤ PROTECTED_STACK_SIZE }
    ensures { result ≡ frame_address m.now.world size }
{
    FarPtr {
        sel: selector_of(HOST_STACKS),
        off: (u32::from(depth(m)) + 1) * PROTECTED_STACK_SIZE - size,
    }
}
