// The calls that take keys and write characters.
ghost use Rattle.std.specs.Prelude.{◌≡◌, List, ℕ};
ghost use Rattle.dos_calls.specs.Calls.{read_echo, write_character, poll_key, direct_console, read_key, write_text, ask_key};
ghost use Rattle.dos_calls.specs.Answering.{IfEnded};

use crate::bytes::print_text;
use crate::console::Console;
use crate::keys::Keys;
use crate::registers::{set_al, set_zero};
use client_world::{DosDone, Exit, low_byte, low_half};
use guest_space::Machine;

/// Function 01h: a key into AL, and to the console.
#[tactic(auto, unfolding(crate::specs::Calls::read_echo, crate::specs::Calls::print_result))]
pub(crate) fn read_echo(m: &mut Machine, keys: &mut Keys, console: &mut Console) -> DosDone
    ensures call { read_echo (record { world = m.old.world; keys = keys.old; console = console.old })
        ≡ record { done = result; world = m.new.world; keys = keys.new; console = console.new } }
    ensures ended { IfEnded result (m.new ≡ m.old) }
{
    let Some(key) = keys.take() else {
        return DosDone::Ended(Exit::NoKeys);
    };
    if !console.print(&[key]) {
        return DosDone::Ended(Exit::ConsoleFull);
    }
    set_al(m, key);
    DosDone::Served
}

/// Function 02h: DL to the console.
#[tactic(auto, unfolding(crate::specs::Calls::write_character, crate::specs::Calls::print_result))]
pub(crate) fn write_character(m: &Machine, console: &mut Console) -> DosDone
    ensures { (keys : List ℕ) → write_character (record { world = m.now.world; keys = keys; console = console.old })
        ≡ record { done = result; world = m.now.world; keys = keys; console = console.new } }
{
    if console.print(&[low_byte(m.regs().edx)]) {
        DosDone::Served
    } else {
        DosDone::Ended(Exit::ConsoleFull)
    }
}

// Function 06h with DL = FFh: a key into AL, where there is one.
fn poll_key(m: &mut Machine, keys: &mut Keys) -> DosDone
    ensures call { (console : List ℕ) → poll_key (record { world = m.old.world; keys = keys.old; console = console })
        ≡ record { done = result; world = m.new.world; keys = keys.new; console = console } }
    ensures served { result ≡ DosDone.Served }
{
    match keys.take() {
        Some(key) => {
            set_al(m, key);
            set_zero(m, false);
        }
        None => {
            set_al(m, 0);
            set_zero(m, true);
        }
    }
    DosDone::Served
}

/// Function 06h: DL to the console, or FFh asks for a key.
#[tactic(auto, unfolding(crate::specs::Calls::direct_console))]
pub(crate) fn direct_console(m: &mut Machine, keys: &mut Keys, console: &mut Console) -> DosDone
    ensures call { direct_console (record { world = m.old.world; keys = keys.old; console = console.old })
        ≡ record { done = result; world = m.new.world; keys = keys.new; console = console.new } }
    ensures ended { IfEnded result (m.new ≡ m.old) }
{
    if low_byte(m.regs().edx) == 0xFF {
        poll_key(m, keys)
    } else {
        write_character(m, console)
    }
}

/// Functions 07h and 08h: a key into AL.
#[tactic(auto, unfolding(crate::specs::Calls::read_key))]
pub(crate) fn read_key(m: &mut Machine, keys: &mut Keys) -> DosDone
    ensures call { (console : List ℕ) → read_key (record { world = m.old.world; keys = keys.old; console = console })
        ≡ record { done = result; world = m.new.world; keys = keys.new; console = console } }
    ensures ended { IfEnded result (m.new ≡ m.old) }
{
    let Some(key) = keys.take() else {
        return DosDone::Ended(Exit::NoKeys);
    };
    set_al(m, key);
    DosDone::Served
}

/// Function 09h: the text at DS:DX up to its `$`.
#[tactic(auto, unfolding(crate::specs::Calls::write_text, crate::specs::Calls::print_result))]
pub(crate) fn write_text(m: &Machine, console: &mut Console) -> DosDone
    ensures { (keys : List ℕ) → write_text (record { world = m.now.world; keys = keys; console = console.old })
        ≡ record { done = result; world = m.now.world; keys = keys; console = console.new } }
{
    let r = m.regs();
    if print_text(m, console, r.ds, low_half(r.edx)) {
        DosDone::Served
    } else {
        DosDone::Ended(Exit::ConsoleFull)
    }
}

/// Function 0Bh: whether a key is left.
#[tactic(auto, unfolding(crate::specs::Calls::ask_key))]
pub(crate) fn ask_key(m: &mut Machine, keys: &Keys)
    ensures { (console : List ℕ) → ask_key (record { world = m.old.world; keys = keys.now; console = console })
        ≡ record { done = DosDone.Served; world = m.new.world; keys = keys.now; console = console } }
{
    set_al(m, if keys.any_left() { 0xFF } else { 0 });
}
