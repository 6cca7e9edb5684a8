// The call that takes a line of keys.
ghost use Rattle.std.specs.Prelude.{◌≡◌, ◌<◌, ◌+◌, [], ◌∷◌, ◌++◌, Some, take, drop, length};
ghost use Rattle.dos_calls.specs.{Calls.{has_room, with_line, line_of, line_result, read_line}, Answering.{console_with, IfEnded}};

use crate::bytes::{byte_at, put_bytes};
use crate::console::Console;
use crate::keys::{Keys, first};
use client_world::{DosDone, Exit, low_half};
use guest_space::Machine;

// The key that ends a line.
const RETURN: u8 = 0x0D;

// Adds a line and its return to the console, as many bytes as fit, and returns whether all did.
fn print_line(console: &mut Console, line: &[u8]) -> bool
    ensures room { result ≡ has_room console.old (line.now ++ 0x0D ∷ []) }
    ensures bytes { console.new ≡ console_with console.old (line.now ++ 0x0D ∷ []) }
{
    console.print(line) && console.print(&[RETURN])
}

// Puts a line, its return and its length into the buffer at DS:DX.
#[tactic(auto, using(crate::proofs::ByteLaws::put_line))]
fn put_line(m: &mut Machine, line: &[u8])
    requires { length line.now < 0x100 }
    ensures { m.new.world ≡ with_line m.old.world line.now }
{
    let r = m.regs();
    let at = low_half(r.edx) as u32;
    let count = line.len();
    put_bytes(m, r.ds, at + 2, line);
    put_bytes(m, r.ds, at + 2 + count as u32, &[RETURN]);
    put_bytes(m, r.ds, at + 1, &[count as u8]);
}

// Takes a line of n keys, of which the buffer has room for some with a return.
fn take_line(
    m: &mut Machine,
    keys: &mut Keys,
    console: &mut Console,
    room: u8,
    count: usize,
) -> DosDone
    requires some { 0 < room }
    requires line { line_of keys.old ≡ Some (take count keys.old, drop (count + 1) keys.old) }
    requires there { count < length keys.old }
    ensures call { line_result (record { world = m.old.world; keys = keys.old; console = console.old }) room (line_of keys.old)
        ≡ record { done = result; world = m.new.world; keys = keys.new; console = console.new } }
    ensures ended { IfEnded result (m.new ≡ m.old) }
{
    let line = first(keys.first(count), room as usize - 1);
    if !print_line(console, line) {
        keys.skip_line(count);
        return DosDone::Ended(Exit::ConsoleFull);
    }
    put_line(m, line);
    keys.skip_line(count);
    DosDone::Served
}

/// Function 0Ah: a line into the buffer at DS:DX, whose first byte is its room.
#[tactic(auto, unfolding(crate::specs::Calls::read_line))]
pub(crate) fn read_line(m: &mut Machine, keys: &mut Keys, console: &mut Console) -> DosDone
    ensures call { read_line (record { world = m.old.world; keys = keys.old; console = console.old })
        ≡ record { done = result; world = m.new.world; keys = keys.new; console = console.new } }
    ensures ended { IfEnded result (m.new ≡ m.old) }
{
    let r = m.regs();
    let room = byte_at(m, r.ds, low_half(r.edx) as u32);
    if room == 0 {
        return DosDone::Served;
    }
    match keys.line_length() {
        Some(count) => take_line(m, keys, console, room, count),
        None => DosDone::Ended(Exit::NoKeys),
    }
}
