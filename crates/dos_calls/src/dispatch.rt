// INT 21h, by AH.
ghost use Rattle.std.specs.Prelude.{◌≡◌};
ghost use Rattle.dos_calls.specs.{Calls.{dos_call}, Answering.{IfEnded}};

use crate::characters::{
    ask_key, direct_console, read_echo, read_key, write_character, write_text,
};
use crate::console::Console;
use crate::files::{read_file, write_file};
use crate::keys::Keys;
use crate::line::read_line;
use crate::memory::{allocate, free, resize};
use crate::vectors::{get_prefix, get_vector, set_vector, terminate, unknown_function, version};
use client_world::{DosDone, high_byte};
use guest_space::Machine;

/// Serves INT 21h: the function whose number is in AH. A number that DOS doesn't have is refused with the carry and error 1 in AX. Where it
/// ends the client, the machine stays as it was. Source: MS-DOS Programmer's Reference, functions 01h to 62h.
#[tactic(auto, unfolding(crate::specs::Calls::dos_call))]
pub fn int21(m: &mut Machine, keys: &mut Keys, console: &mut Console) -> DosDone
    ensures call { record { done = result; world = m.new.world; keys = keys.new; console = console.new }
        ≡ dos_call (record { world = m.old.world; keys = keys.old; console = console.old }) }
    ensures ended { IfEnded result (m.new ≡ m.old) }
{
    match high_byte(m.regs().eax) {
        0x01 => return read_echo(m, keys, console),
        0x02 => return write_character(m, console),
        0x06 => return direct_console(m, keys, console),
        0x07 | 0x08 => return read_key(m, keys),
        0x09 => return write_text(m, console),
        0x0A => return read_line(m, keys, console),
        0x0B => ask_key(m, keys),
        0x25 => set_vector(m),
        0x30 => version(m),
        0x35 => get_vector(m),
        0x3F => read_file(m, keys),
        0x40 => return write_file(m, console),
        0x48 => allocate(m),
        0x49 => free(m),
        0x4A => resize(m),
        0x4C => return terminate(m),
        0x62 => get_prefix(m),
        _ => unknown_function(m),
    }
    DosDone::Served
}
