// The calls on files: 0 is the keys, 1 and 2 are the console.
ghost use Rattle.std.specs.Prelude.{◌≡◌, List, ℕ, take};
ghost use Rattle.client_world.specs.Registers.{low_half};
ghost use Rattle.dos_calls.specs.{Calls.{read_file, write_file, keys_result}, Answering.{IfEnded}};

use crate::bytes::{print_bytes, put_bytes};
use crate::console::Console;
use crate::keys::Keys;
use crate::registers::{refuse, set_carry};
use client_world::{DosDone, Exit, low_half};
use guest_space::Machine;
use service_rows::set_ax;

// The error code for a number that no file has.
const BAD_HANDLE: u16 = 6;

// Moves the first CX keys, or all that are left, to DS:DX, and returns their number.
fn read_keys(m: &mut Machine, keys: &mut Keys)
    ensures { (console : List ℕ) →
        keys_result (record { world = m.old.world; keys = keys.old; console = console }) (take (low_half m.old.world.regs.ecx) keys.old)
        ≡ record { done = DosDone.Served; world = m.new.world; keys = keys.new; console = console } }
{
    let r = m.regs();
    let taken = keys.first(low_half(r.ecx) as usize);
    let count = taken.len();
    put_bytes(m, r.ds, low_half(r.edx) as u32, taken);
    set_ax(m, count as u16);
    set_carry(m, false);
    keys.skip(count);
}

/// Function 3Fh: the first CX keys, or all that are left, go from file 0 to DS:DX, and AX is their number.
#[tactic(auto, unfolding(crate::specs::Calls::read_file))]
pub(crate) fn read_file(m: &mut Machine, keys: &mut Keys)
    ensures { (console : List ℕ) → read_file (record { world = m.old.world; keys = keys.old; console = console })
        ≡ record { done = DosDone.Served; world = m.new.world; keys = keys.new; console = console } }
{
    if low_half(m.regs().ebx) == 0 {
        read_keys(m, keys);
    } else {
        refuse(m, BAD_HANDLE);
    }
}

/// Function 40h: CX bytes from DS:DX on go to file 1 or 2, and AX is their number.
#[tactic(auto, unfolding(crate::specs::Calls::write_file, crate::specs::Calls::print_result))]
pub(crate) fn write_file(m: &mut Machine, console: &mut Console) -> DosDone
    ensures call { (keys : List ℕ) → write_file (record { world = m.old.world; keys = keys; console = console.old })
        ≡ record { done = result; world = m.new.world; keys = keys; console = console.new } }
    ensures ended { IfEnded result (m.new ≡ m.old) }
{
    let r = m.regs();
    let file = low_half(r.ebx);
    if file != 1 && file != 2 {
        refuse(m, BAD_HANDLE);
        return DosDone::Served;
    }
    let count = low_half(r.ecx);
    if !print_bytes(m, console, r.ds, low_half(r.edx), count) {
        return DosDone::Ended(Exit::ConsoleFull);
    }
    set_ax(m, count);
    set_carry(m, false);
    DosDone::Served
}
