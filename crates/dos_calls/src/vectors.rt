// The calls on vectors, the version, the prefix, and the end of the client.
ghost use Rattle.std.specs.Prelude.{◌≡◌, List, ℕ};
ghost use Rattle.dos_calls.specs.{Calls.{set_vector, dos_version, get_vector, get_prefix, terminate, unknown_function}, Answering.{Serves}};

use crate::bytes::put_bytes;
use crate::registers::refuse;
use client_world::memory_map::PSP_SEGMENT;
use client_world::{DosDone, Exit, low_byte, low_half, with_low_half};
use guest_space::Machine;
use service_rows::set_bx;

// The error code for a function that DOS doesn't have.
const BAD_FUNCTION: u16 = 1;

/// Function 25h: vector AL of real mode becomes DS:DX.
#[tactic(auto, unfolding(crate::specs::Calls::set_vector))]
pub(crate) fn set_vector(m: &mut Machine)
    ensures { Serves set_vector m.old.world m.new.world }
{
    let r = m.regs();
    let offset = low_half(r.edx);
    let bytes = [
        (offset % 0x100) as u8,
        (offset / 0x100) as u8,
        (r.ds % 0x100) as u8,
        (r.ds / 0x100) as u8,
    ];
    put_bytes(m, 0, 4 * u32::from(low_byte(r.eax)), &bytes);
}

/// Function 30h: the version.
#[tactic(auto, unfolding(crate::specs::Calls::dos_version))]
pub(crate) fn version(m: &mut Machine)
    ensures { Serves dos_version m.old.world m.new.world }
{
    let mut r = m.regs();
    r.eax = with_low_half(r.eax, 5);
    r.ebx = with_low_half(r.ebx, 0);
    r.ecx = with_low_half(r.ecx, 0);
    m.set_regs(r);
}

/// Function 35h: ES:BX becomes vector AL of real mode.
#[tactic(auto, unfolding(crate::specs::Calls::get_vector))]
pub(crate) fn get_vector(m: &mut Machine)
    ensures { Serves get_vector m.old.world m.new.world }
{
    let mut r = m.regs();
    let at = 4 * u32::from(low_byte(r.eax));
    r.ebx = with_low_half(r.ebx, m.dos16(at));
    r.es = m.dos16(at + 2);
    m.set_regs(r);
}

/// Function 62h: BX becomes the segment of the prefix.
#[tactic(auto, unfolding(crate::specs::Calls::get_prefix))]
pub(crate) fn get_prefix(m: &mut Machine)
    ensures { Serves get_prefix m.old.world m.new.world }
{
    set_bx(m, PSP_SEGMENT);
}

/// Function 4Ch: the client ends itself with the code in AL.
#[tactic(auto, unfolding(crate::specs::Calls::terminate))]
pub(crate) fn terminate(m: &Machine) -> DosDone
    ensures { (keys console : List ℕ) → terminate (record { world = m.now.world; keys = keys; console = console })
        ≡ record { done = result; world = m.now.world; keys = keys; console = console } }
{
    DosDone::Ended(Exit::Exited(low_byte(m.regs().eax)))
}

/// Every other function is refused.
#[tactic(auto, unfolding(crate::specs::Calls::unknown_function))]
pub(crate) fn unknown_function(m: &mut Machine)
    ensures { Serves unknown_function m.old.world m.new.world }
{
    refuse(m, BAD_FUNCTION);
}
