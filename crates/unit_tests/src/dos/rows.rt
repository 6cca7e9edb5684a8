// The worked rows. The values come from the description of each function by hand.
use client_world::limits::CONSOLE_ROOM;
use client_world::{DosDone, Exit, Flags, Regs};

// A row begins with these registers, but for what it names: DS:DX is 1000h:0100h, and the pushed flags are at SS:0304h.
pub(crate) const START: Regs = Regs {
    eax: 0x1111_0000,
    ecx: 0x3333_0000,
    edx: 0x4444_0100,
    ebx: 0x2222_0000,
    esp: 0x300,
    ebp: 0,
    esi: 0,
    edi: 0,
    eip: 0x21,
    flags: Flags::CLEAR,
    es: 0x2000,
    cs: 0xF000,
    ss: 0x3000,
    ds: 0x1000,
    fs: 0,
    gs: 0,
};

// Registers, the bytes at DS:0100h, the low byte of the pushed flags, the keys and the room of the console before a call; and what
// there is after it, with the bytes that went to the console, and its answer.
pub(crate) struct Row {
    pub(crate) regs: Regs,
    pub(crate) regs_after: Regs,
    pub(crate) memory: [u8; 8],
    pub(crate) memory_after: [u8; 8],
    pub(crate) flags: u8,
    pub(crate) flags_after: u8,
    pub(crate) keys: &'static [u8],
    pub(crate) keys_after: &'static [u8],
    pub(crate) room: u32,
    pub(crate) written: &'static [u8],
    pub(crate) done: DosDone,
}

// Carry and zero are set, and a text lies in memory.
const PLAIN: Row = Row {
    regs: START,
    regs_after: START,
    memory: *b"Hi!$abcd",
    memory_after: *b"Hi!$abcd",
    flags: 0x43,
    flags_after: 0x43,
    keys: b"",
    keys_after: b"",
    room: CONSOLE_ROOM,
    written: b"",
    done: DosDone::Served,
};

const NO_KEYS: DosDone = DosDone::Ended(Exit::NoKeys);

const FULL: DosDone = DosDone::Ended(Exit::ConsoleFull);

// A row: its registers, those that it leaves, and what else is there and is left.
macro_rules! row {
    ([$($was:ident: $v:expr),*], [$($is:ident: $w:expr),*] $(, $field:ident: $x:expr)*) => {
        Row {
            regs: Regs { $($was: $v,)* ..START },
            regs_after: Regs { $($is: $w,)* ..Regs { $($was: $v,)* ..START } },
            $($field: $x,)*
            ..PLAIN
        }
    };
}

pub(crate) const ROWS: [Row; 44] = [
    row!([eax: 0x1111_0100], [eax: 0x1111_0161], keys: b"ab", keys_after: b"b", written: b"a"),
    row!([eax: 0x1111_0100], [], done: NO_KEYS),
    row!([eax: 0x1111_0100], [], keys: b"ab", keys_after: b"b", room: 0, done: FULL),
    row!([eax: 0x1111_0200, edx: 0x4444_0141], [], written: b"A"),
    row!([eax: 0x1111_0200, edx: 0x4444_0141], [], room: 0, done: FULL),
    row!([eax: 0x1111_0600, edx: 0x4444_01FF], [eax: 0x1111_0678], flags_after: 0x03, keys: b"x"),
    row!([eax: 0x1111_0655, edx: 0x4444_01FF], [eax: 0x1111_0600], flags: 0x03),
    row!([eax: 0x1111_0600, edx: 0x4444_0124], [], keys: b"x", keys_after: b"x", written: b"$"),
    row!([eax: 0x1111_0700], [eax: 0x1111_0771], keys: b"qr", keys_after: b"r"),
    row!([eax: 0x1111_0800], [eax: 0x1111_080D], keys: b"\r"),
    row!([eax: 0x1111_0800], [], done: NO_KEYS),
    row!([eax: 0x1111_0900], [], written: b"Hi!"),
    row!([eax: 0x1111_0900, edx: 0x4444_0103], []),
    row!([eax: 0x1111_0900], [], room: 2, written: b"Hi", done: FULL),
    row!([eax: 0x1111_0900], [], room: 3, written: b"Hi!"),
    // a room of 4 is for three characters and their return
    row!([eax: 0x1111_0A00], [], memory: [4, 9, 9, 9, 9, 9, 9, 9], memory_after: [4, 3, b'a', b'b', b'c', 0x0D, 9, 9],
        keys: b"abcdef\rz", keys_after: b"z", written: b"abc\r"),
    row!([eax: 0x1111_0A00], [], memory: [4, 9, 9, 9, 9, 9, 9, 9], memory_after: [4, 2, b'a', b'b', 0x0D, 9, 9, 9],
        keys: b"ab\r", written: b"ab\r"),
    row!([eax: 0x1111_0A00], [], memory: [1, 9, 9, 9, 9, 9, 9, 9], memory_after: [1, 0, 0x0D, 9, 9, 9, 9, 9],
        keys: b"abc\r\r", keys_after: b"\r", written: b"\r"),
    row!([eax: 0x1111_0A00], [], memory: [0; 8], memory_after: [0; 8], keys: b"ab\r", keys_after: b"ab\r"),
    row!([eax: 0x1111_0A00], [], keys: b"abc", keys_after: b"abc", done: NO_KEYS),
    row!([eax: 0x1111_0A00], [], keys: b"abc\rd", keys_after: b"d", room: 3, written: b"abc", done: FULL),
    row!([eax: 0x1111_0B00], [eax: 0x1111_0BFF], keys: b"a", keys_after: b"a"),
    row!([eax: 0x1111_0B55], [eax: 0x1111_0B00]),
    // the vector of 10h is the host's, and that of 21h the one that was set
    row!([eax: 0x1111_3510], [ebx: 0x2222_0010, es: 0xF000]),
    row!([eax: 0x1111_2521, edx: 0x4444_1234], []),
    row!([eax: 0x1111_3521], [ebx: 0x2222_1234, es: 0x1000]),
    row!([eax: 0x1111_3022, ebx: 0x2222_3333, ecx: 0x3333_4444],
        [eax: 0x1111_0005, ebx: 0x2222_0000, ecx: 0x3333_0000]),
    row!([eax: 0x1111_3F00, ecx: 0x3333_0003], [eax: 0x1111_0003], memory_after: *b"hel$abcd", flags_after: 0x42,
        keys: b"hello", keys_after: b"lo"),
    row!([eax: 0x1111_3F00, ecx: 0x3333_FFFF], [eax: 0x1111_0005], memory_after: *b"hellobcd", flags_after: 0x42,
        keys: b"hello"),
    row!([eax: 0x1111_3F00, ebx: 0x2222_0001, ecx: 0x3333_0003], [eax: 0x1111_0006], flags: 0x42,
        keys: b"hello", keys_after: b"hello"),
    row!([eax: 0x1111_4000, ebx: 0x2222_0001, ecx: 0x3333_0005], [eax: 0x1111_0005], flags_after: 0x42,
        written: b"Hi!$a"),
    row!([eax: 0x1111_4000, ebx: 0x2222_0002, ecx: 0x3333_0000], [eax: 0x1111_0000], flags_after: 0x42),
    row!([eax: 0x1111_4000, ebx: 0x2222_0002, ecx: 0x3333_0005], [], room: 4, written: b"Hi!$", done: FULL),
    row!([eax: 0x1111_4000, ebx: 0x2222_0000, ecx: 0x3333_0005], [eax: 0x1111_0006], flags: 0x42),
    // the arena's paragraphs, 60h to 9FFFh, less a header
    row!([eax: 0x1111_4800, ebx: 0x2222_FFFF], [eax: 0x1111_0008, ebx: 0x2222_9F9F], flags: 0x42),
    row!([eax: 0x1111_4800, ebx: 0x2222_0010], [eax: 0x1111_0061], flags_after: 0x42),
    row!([eax: 0x1111_4A00, ebx: 0x2222_0020, es: 0x61], [], flags_after: 0x42),
    row!([eax: 0x1111_4A00, ebx: 0x2222_FFFF, es: 0x61], [eax: 0x1111_0008, ebx: 0x2222_9F9F], flags: 0x42),
    row!([eax: 0x1111_4900, es: 0x61], [], flags_after: 0x42),
    row!([eax: 0x1111_4900, es: 0x61], [eax: 0x1111_0009], flags: 0x42),
    row!([eax: 0x1111_4A00, ebx: 0x2222_0001, es: 0x61], [eax: 0x1111_0009], flags: 0x42),
    row!([eax: 0x1111_4C07], [], done: DosDone::Ended(Exit::Exited(7))),
    row!([eax: 0x1111_6200], [ebx: 0x2222_0064]),
    row!([eax: 0x1111_0300], [eax: 0x1111_0001], flags: 0x42),
];
