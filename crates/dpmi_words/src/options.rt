//! The options of the command: the name of each, and what its value is. The check of the words, the command of `clap` and the meaning
//! take them from here. Source: own.
ghost use Rattle.std.specs.Prelude.{◌≡◌, map};
ghost use Rattle.dpmi_words.specs.Options.{pair_options, pair_rows, row_of, run_options, run_rows, soak_options, soak_rows};
ghost use Rattle.dpmi_words.specs.Seen.{names_of};

use client_world::limits::{
    DEFAULT_BOUND, DEFAULT_PAGES, DEFAULT_SLICE, DEFAULT_TRACE, GREATEST_TIMER, MAX_PAGES,
    MAX_PAIR_PAGES, MAX_SLICE, MAX_STEPS, MAX_TRACE,
};

/// What the value of an option is.
#[derive(Clone, Copy)]
pub enum ValueKind {
    /// Bytes, in hexadecimal digits.
    Hex,
    /// The name of a file.
    Name,
    /// A number between the first two; the third where the option isn't given.
    Number(u32, u32, u32),
    /// A number between the two; none where the option isn't given.
    OptionalNumber(u32, u32),
}

/// An option.
#[derive(Clone, Copy)]
pub struct CommandOption {
    /// The name, which the words have after `--`.
    pub name: &'static str,
    pub kind: ValueKind,
}

/// The keystrokes.
pub const KEYS: CommandOption = CommandOption {
    name: "keys",
    kind: ValueKind::Hex,
};

/// The file with the keystrokes.
pub const KEYS_FILE: CommandOption = CommandOption {
    name: "keys-file",
    kind: ValueKind::Name,
};

/// The most turns of a client.
pub const BOUND: CommandOption = CommandOption {
    name: "bound",
    kind: ValueKind::Number(1, MAX_STEPS, DEFAULT_BOUND),
};

/// The most pages, of 4096 bytes, that the client's memory blocks take together.
pub const PAGES: CommandOption = CommandOption {
    name: "pages",
    kind: ValueKind::Number(1, MAX_PAGES, DEFAULT_PAGES),
};

/// The most lines of the trace that are kept.
pub const TRACE: CommandOption = CommandOption {
    name: "trace",
    kind: ValueKind::Number(0, MAX_TRACE, DEFAULT_TRACE),
};

/// After how many rounds the timer's interrupt becomes due.
pub const TIMER: CommandOption = CommandOption {
    name: "timer",
    kind: ValueKind::OptionalNumber(1, GREATEST_TIMER),
};

/// The turns of a slice.
pub const SLICE: CommandOption = CommandOption {
    name: "slice",
    kind: ValueKind::Number(1, MAX_SLICE, DEFAULT_SLICE),
};

/// The pages of the first client of a pair.
pub const PAGES_A: CommandOption = CommandOption {
    name: "pages-a",
    kind: ValueKind::Number(1, MAX_PAIR_PAGES, DEFAULT_PAGES),
};

/// The pages of the second client of a pair.
pub const PAGES_B: CommandOption = CommandOption {
    name: "pages-b",
    kind: ValueKind::Number(1, MAX_PAIR_PAGES, DEFAULT_PAGES),
};

/// The options of `run`. Source: own.
pub fn run_options() -> [CommandOption; 6]
    ensures rows { map row_of result ≡ run_rows }
    ensures names { names_of result ≡ run_options }
{
    [KEYS, KEYS_FILE, BOUND, PAGES, TRACE, TIMER]
}

/// The options of `soak`: none. Source: own.
pub fn soak_options() -> [CommandOption; 0]
    ensures rows { map row_of result ≡ soak_rows }
    ensures names { names_of result ≡ soak_options }
{
    []
}

/// The options of `pair`. Source: own.
pub fn pair_options() -> [CommandOption; 4]
    ensures rows { map row_of result ≡ pair_rows }
    ensures names { names_of result ≡ pair_options }
{
    [SLICE, BOUND, PAGES_A, PAGES_B]
}
