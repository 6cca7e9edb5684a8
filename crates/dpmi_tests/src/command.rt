// The command over files and an output in memory, of which none fails.
use crate::files::{LETTER_TEXT, ONE_LETTER, answer, client, is_first_of};
use dpmi_io::{MemShelf, MemSink};
use std::alloc::{AllocError, Global};
use std::process::Abort;
use std::test::Fail;

// The console, the exit and the turns of the client that prints the letter `A`.
const LETTER: &str = "console 1\nA\nexit exited 0\nsteps 7\n";

// Whether a text starts so, and has that part.
fn shows(bytes: &[u8], start: &str, part: &str) -> bool {
    match str::from_utf8(bytes) {
        Ok(text) => text.starts_with(start) && text.contains(part),
        Err(_) => false,
    }
}

// Whether it is that line of a refusal, or a text that begins so and has that exit with its turns.
fn has(bytes: &[u8], text: &str) -> bool {
    match text.split_once("\nexit ") {
        Some((console, end)) => shows(bytes, console, "\nreport\nexit ")
            && shows(bytes, console, end),
        None => bytes == text.as_bytes(),
    }
}

// Whether the command over one file A.EXE answers so: the status, and the console, the exit and the turns, or the line of a refusal.
fn is_answered(
    rt: &(impl Abort + AllocGlobal),
    texts: &[&str],
    file: &[u8],
    status: u8,
    text: &str,
) -> Result<bool, Fail> {
    let mut shelf = MemShelf::new(rt.alloc());
    shelf.add("A.EXE", file)?;
    let mut out = MemSink::new(rt.alloc(), 2000, 3)?;
    Ok(answer(rt.alloc(), texts, &mut shelf, &mut out)? == status && has(out.bytes(), text))
}

// Files of zeros, by their lengths.
const ZEROS: [(usize, &str); 5] = [
    (0, "refused ShortHeader\n"),
    (27, "refused ShortHeader\n"),
    (28, "refused Signature\n"),
    (4_194_304, "refused Signature\n"),
    (4_194_305, "refused FileTooLong\n"),
];

#[test]
fn a_file_of_zeros_is_refused_by_its_length(rt: HostRuntime) -> Result<(), Fail> {
    let mut wrong = None;
    for (row, (count, text)) in ZEROS.iter().enumerate() {
        let file = vec![in rt.alloc(); 0; *count]?;
        if !is_answered(&rt, &["run", "A.EXE"], &file, 2, *text)? {
            wrong = Some(row);
        }
    }
    assert_eq!(rt; wrong, None);
    Ok(())
}

// JMP F000h:0100h, which enters protected mode and goes on at the far address on top of the stack, 0000h:0000h: the interrupt vectors are
// run, two instructions for each of the first five, and after ADD AX,0000h comes LOCK PUSH ES, an exception, whose default handler ends the
// client in a turn of its own; MOV AH,01h and INT 21h, which asks for a key; HLT.
const CODES: [(&[u8], &str); 3] = [
    (
        b"\xEA\x00\x01\x00\xF0",
        "console 0\n\nexit fault 06 code=00000000\nsteps 15\n",
    ),
    (b"\xB4\x01\xCD\x21", "console 0\n\nexit nokeys\nsteps 3\n"),
    (
        b"\xF4",
        "console 0\n\nexit fault 0d code=00000000\nsteps 1\n",
    ),
];

#[test]
fn each_code_has_its_exit(rt: HostRuntime) -> Result<(), Fail> {
    let mut wrong = None;
    for (row, (code, text)) in CODES.iter().enumerate() {
        let file = client(&rt, *code)?;
        if !is_answered(&rt, &["run", "A.EXE"], &file, 1, *text)? {
            wrong = Some(row);
        }
    }
    assert_eq!(rt; wrong, None);
    Ok(())
}

// The client of the letter with one word of its header changed, to 0 and to FFFFh: its place, and the texts. With CS = FFFFh the run
// begins in the prefix, whose last sixteen bytes are eight instructions; without a header the header is the code.
const HEADER_WORDS: [(usize, &str, &str); 13] = [
    (0x02, LETTER, "refused LastPage\n"),
    (0x04, "refused LastPage\n", "refused NoRoom\n"),
    (0x06, LETTER, "refused RelocTable\n"),
    (
        0x08,
        "console 0\n\nexit fault 06 code=00000000\nsteps 9\n",
        "refused LastPage\n",
    ),
    (0x0A, LETTER, "refused NoRoom\n"),
    (0x0C, LETTER, LETTER),
    (0x0E, LETTER, LETTER),
    (0x10, LETTER, LETTER),
    (0x12, LETTER, LETTER),
    (
        0x14,
        LETTER,
        "console 0\n\nexit fault 0d code=00000000\nsteps 1\n",
    ),
    (0x16, LETTER, "console 1\nA\nexit exited 0\nsteps 15\n"),
    (0x18, LETTER, LETTER),
    (0x1A, LETTER, LETTER),
];

// The status that goes with a text: that of a refusal, of a client that ended itself, or of any other exit.
fn status_of(text: &str) -> u8 {
    if text.starts_with("refused ") {
        2
    } else if text.contains("\nexit exited ") {
        0
    } else {
        1
    }
}

// Whether the client of the letter with that word in its header is answered so.
fn is_word_answered(
    rt: &(impl Abort + AllocGlobal),
    at: usize,
    byte: u8,
    text: &str,
) -> Result<bool, Fail> {
    let mut file = ONE_LETTER;
    assert!(rt; at < 0x1B);
    file[at] = byte;
    file[at + 1] = byte;
    let mut shelf = MemShelf::new(rt.alloc());
    shelf.add("A.EXE", &file)?;
    let mut out = MemSink::new(rt.alloc(), 2000, 100)?;
    let status = answer(rt.alloc(), &["run", "A.EXE"], &mut shelf, &mut out)?;
    Ok(status == status_of(text) && has(out.bytes(), text))
}

#[test]
fn each_header_word_has_its_answer(rt: HostRuntime) -> Result<(), Fail> {
    let mut wrong = None;
    for (at, zero, greatest) in &HEADER_WORDS {
        if !is_word_answered(&rt, *at, 0, *zero)? {
            wrong = Some((*at, 0));
        }
        if !is_word_answered(&rt, *at, 0xFF, *greatest)? {
            wrong = Some((*at, 0xFF));
        }
    }
    assert_eq!(rt; wrong, None);
    Ok(())
}

// Clients that mean harm: one fills all memory from 00000h on, itself too; one jumps into read-only memory; stacks at 1, at 0 and in
// read-only memory; a byte written there; vectors that lead to trap bytes, of the return from a call, of the entry and of DOS calls. After
// the entry the rest of the code segment is run, two bytes at a time, the exception comes at its limit, and its default handler ends the
// client.
const HOSTILE: [(&[u8], u8, &str); 9] = [
    (
        b"\x31\xC0\x8E\xC0\x31\xFF\xB9\xFF\xFF\xF3\xAA",
        1,
        "console 0\n\nexit fault 0d code=00000000\nsteps 34633\n",
    ),
    (
        b"\xEA\x00\x04\x00\xF0",
        1,
        "console 0\n\nexit fault 0d code=00000000\nsteps 2\n",
    ),
    (
        b"\xBC\x01\x00\xCD\x21",
        1,
        "console 0\n\nexit fault 0c code=00000000\nsteps 2\n",
    ),
    (
        b"\xBC\x00\x00\xB8\x00\x4C\xCD\x21",
        0,
        "console 0\n\nexit exited 0\nsteps 4\n",
    ),
    (
        b"\xB8\x00\xF0\x8E\xD0\xCD\x21",
        1,
        "console 0\n\nexit fault 0e code=00000007\nsteps 3\n",
    ),
    (
        b"\xB8\x00\xF0\x8E\xD8\xA2\x00\x00",
        1,
        "console 0\n\nexit fault 0e code=00000007\nsteps 3\n",
    ),
    (
        b"\xBA\x03\x01\xB8\x00\xF0\x8E\xD8\xB8\x21\x25\xCD\x21\xCD\x21",
        1,
        "console 0\n\ntrace 1 of 1\nint21 25\nreport\nexit stray\nsteps 8\n",
    ),
    (
        b"\x31\xC0\x8E\xD8\xC7\x06\x80\x01\x00\x01\xC7\x06\x82\x01\x00\xF0\xCD\x60",
        1,
        "console 0\n\nexit fault 0d code=00000000\nsteps 32767\n",
    ),
    (
        b"\x31\xC0\x8E\xD8\xC7\x06\x80\x01\x21\x00\xC7\x06\x82\x01\x00\xF0\xB8\x05\x4C\xCD\x60",
        0,
        "console 0\n\nexit exited 5\nsteps 7\n",
    ),
];

#[test]
fn hostile_clients_end_with_a_name(rt: HostRuntime) -> Result<(), Fail> {
    let mut wrong = None;
    for (row, (code, status, text)) in HOSTILE.iter().enumerate() {
        let file = client(&rt, *code)?;
        if !is_answered(&rt, &["run", "A.EXE"], &file, *status, *text)? {
            wrong = Some(row);
        }
    }
    assert_eq!(rt; wrong, None);
    Ok(())
}

// The two bytes of the header on the last page: a last page of 0 bytes is a whole one, and so is one of 512.
const LAST_PAGES: [(u8, u8, u8, &str); 3] = [
    (0x00, 0x00, 0, LETTER),
    (0x00, 0x02, 0, LETTER),
    (0x01, 0x02, 2, "refused LastPage\n"),
];

#[test]
fn each_last_page_has_its_answer(rt: HostRuntime) -> Result<(), Fail> {
    let mut file = [0; 512];
    file[..43].copy_from_slice(&ONE_LETTER);
    let mut wrong = None;
    for (row, (low, high, status, text)) in LAST_PAGES.iter().enumerate() {
        file[2] = *low;
        file[3] = *high;
        if !is_answered(&rt, &["run", "A.EXE"], &file, *status, *text)? {
            wrong = Some(row);
        }
    }
    assert_eq!(rt; wrong, None);
    Ok(())
}

// Relocations 0000h:01xxh, by the low byte of the offset. With a maximum of 0010h the image's block ends at 0000h:0110h: the last word
// before it may be a relocation's.
const RELOCATIONS: [(u8, u8, &str); 2] = [(0x0E, 0, LETTER), (0x0F, 2, "refused RelocTarget\n")];

#[test]
fn each_relocation_has_its_answer(rt: HostRuntime) -> Result<(), Fail> {
    let mut file = ONE_LETTER;
    file[0x06] = 0x01;
    file[0x0C] = 0x10;
    file[0x0D] = 0x00;
    file[0x1D] = 0x01;
    let mut wrong = None;
    for (row, (offset, status, text)) in RELOCATIONS.iter().enumerate() {
        file[0x1C] = *offset;
        if !is_answered(&rt, &["run", "A.EXE"], &file, *status, *text)? {
            wrong = Some(row);
        }
    }
    assert_eq!(rt; wrong, None);
    Ok(())
}

// Whether the client of the letter with one relocation, cut to that length, is answered as it must be. Shorter than the header, 28 bytes,
// or than the relocation, which ends at 32, it is refused. A longer one is loaded, and its image is filled up with zeros: its run ends with
// some exit, since its turns have a bound, and the whole file prints its letter.
fn is_cut_answered(alloc: Global, file: &[u8], length: usize) -> Result<bool, AllocError> {
    let mut shelf = MemShelf::new(alloc);
    shelf.add("A.EXE", file.get(..length).unwrap_or(&[]))?;
    let mut out = MemSink::new(alloc, 2000, 100)?;
    let words = ["run", "A.EXE", "--bound", "40000"];
    let status = answer(alloc, &words, &mut shelf, &mut out)?;
    Ok(if length < 28 {
        status == 2 && out.bytes() == b"refused ShortHeader\n".as_slice()
    } else if length < 32 {
        status == 2 && out.bytes() == b"refused RelocTable\n".as_slice()
    } else if length < 43 {
        status <= 1 && out.bytes().starts_with(b"console ")
    } else {
        status == 0 && has(out.bytes(), LETTER)
    })
}

#[test]
fn each_cut_file_has_its_answer(rt: HostRuntime) -> Result<(), Fail> {
    let mut file = ONE_LETTER;
    file[0x06] = 0x01;
    file[0x0C] = 0x10;
    file[0x0D] = 0x00;
    file[0x1C] = 0x0E;
    file[0x1D] = 0x01;
    let mut wrong = None;
    for length in 0..44 {
        if !is_cut_answered(rt.alloc(), &file, length)? {
            wrong = Some(length);
        }
    }
    assert_eq!(rt; wrong, None);
    Ok(())
}

// The client of the letter without its code: zeros, 32,768 instructions of two bytes; then there is no byte to fetch at 10000h.
#[test]
fn a_file_without_its_image_runs_zeros(rt: HostRuntime) -> Result<(), Fail> {
    let text = "console 0\n\nexit fault 0d code=00000000\nsteps 32769\n";
    let mut wrong = None;
    for length in 28..33 {
        let cut = ONE_LETTER.get(..length).unwrap_or(&[]);
        if !is_answered(&rt, &["run", "A.EXE"], cut, 1, text)? {
            wrong = Some(length);
        }
    }
    assert_eq!(rt; wrong, None);
    Ok(())
}

// Words that mean nothing: each option twice, without a value, with an empty one, with a value of another kind, and out of its range at
// both ends; FILE that is empty, that begins with a dash, or comes twice; an option that isn't there; both kinds of keystrokes; and the
// same of a made client and of a pair.
const WRONG_WORDS: [&[&str]; 52] = [
    &[],
    &[""],
    &["run"],
    &["run", ""],
    &["run", "-A.EXE"],
    &["run", "--"],
    &["run", "-"],
    &["run", "--", "A.EXE"],
    &["run", "A.EXE", "A.EXE"],
    &["walk", "A.EXE"],
    &["--help"],
    &["run", "A.EXE", "--help"],
    &["run", "A.EXE", "--steps", "1"],
    &["run", "A.EXE", "--bound"],
    &["run", "A.EXE", "--bound="],
    &["run", "A.EXE", "--bound", ""],
    &["run", "A.EXE", "--bound", "--pages"],
    &["run", "A.EXE", "--bound", "0"],
    &["run", "A.EXE", "--bound", "1000000001"],
    &["run", "A.EXE", "--bound", "00000000001"],
    &["run", "A.EXE", "--bound", "1x"],
    &["run", "A.EXE", "--bound", "+1"],
    &["run", "A.EXE", "--bound=1", "--bound=1"],
    &["run", "A.EXE", "--pages"],
    &["run", "A.EXE", "--pages", "0"],
    &["run", "A.EXE", "--pages=16385"],
    &["run", "A.EXE", "--pages", "ten"],
    &["run", "A.EXE", "--pages", "1", "--pages", "1"],
    &["run", "--trace", "A.EXE"],
    &["run", "A.EXE", "--trace=10001"],
    &["run", "A.EXE", "--trace", "-1"],
    &["run", "A.EXE", "--trace=0", "--trace", "0"],
    &["run", "A.EXE", "--keys"],
    &["run", "A.EXE", "--keys", "4"],
    &["run", "A.EXE", "--keys=4g"],
    &["run", "A.EXE", "--keys="],
    &["run", "A.EXE", "--keys", "41", "--keys", "41"],
    &["run", "A.EXE", "--keys-file"],
    &["run", "A.EXE", "--keys-file", "-K"],
    &["run", "A.EXE", "--keys-file=K", "--keys-file=K"],
    &["run", "A.EXE", "--keys=41", "--keys-file=K"],
    &["run", "A.EXE", "--timer", "0"],
    &["soak"],
    &["soak", ""],
    &["soak", "-1"],
    &["soak", "18446744073709551616"],
    &["soak", "000000000000000000001"],
    &["soak", "1", "1"],
    &["soak", "1", "--bound", "1"],
    &["pair", "A.EXE"],
    &["pair", "A.EXE", "A.EXE", "--pages-b=8193"],
    &["Run", "A.EXE"],
];

#[test]
fn words_that_mean_nothing_are_refused(rt: HostRuntime) -> Result<(), Fail> {
    let mut wrong = None;
    for (row, texts) in WRONG_WORDS.iter().enumerate() {
        if !is_answered(&rt, *texts, &ONE_LETTER, 2, "refused words\n")? {
            wrong = Some(row);
        }
    }
    assert_eq!(rt; wrong, None);
    Ok(())
}

// The client that reads a key and prints it: MOV AH,01h; INT 21h; MOV AX,4C00h; INT 21h. The file of keystrokes is the letter `Y` and
// 65,535 more.
const ONE_KEY: [u8; 9] = [0xB4, 0x01, 0xCD, 0x21, 0xB8, 0x00, 0x4C, 0xCD, 0x21];

// The client that enters protected mode, allocates a block of 65,536 bytes and one of a byte, and ends.
const TWO_BLOCKS: [u8; 41] = [
    0xB8, 0x87, 0x16, 0xCD, 0x2F, 0x06, 0x57, 0x89, 0xE5, 0x31, 0xC0, 0xFF, 0x5E, 0x00, 0xB8, 0x01,
    0x05, 0xBB, 0x01, 0x00, 0xB9, 0x00, 0x00, 0xCD, 0x31, 0xB8, 0x01, 0x05, 0xBB, 0x00, 0x00, 0xB9,
    0x01, 0x00, 0xCD, 0x31, 0xB8, 0x00, 0x4C, 0xCD, 0x21,
];

// Options, the status, the first of the text, and a part of it.
const OPTIONS: [(&[&str], u8, &str, &str); 16] = [
    (
        &["run", "P.EXE", "--pages", "16"],
        0,
        "console 0\n\ntrace 5 of 5\nint2f 1687\nentry 16\nint31 0501 ok\nint31 0501 carry\nint21 4c\nreport\nexit exited 0\nsteps 22\n\
        mode protected\ndepth 0\n",
        "\nblocks 1\nblock 1 base=00400000 pages=16 locked=0 sha256=de2f256064a0af797747c2b97505dc0b9f3df0de4f489eac731c23ae9ca9cc31\n\
        dos sha256=",
    ),
    (
        &["run", "P.EXE", "--pages=00017"],
        0,
        "console 0\n\ntrace 5 of 5\nint2f 1687\nentry 16\nint31 0501 ok\nint31 0501 ok\nint21 4c\n",
        "\nblocks 2\nblock 1 base=00400000 pages=16 locked=0 sha256=",
    ),
    (
        &["run", "A.EXE"],
        1,
        "console 0\n\ntrace 1 of 1\nint21 01\nreport\nexit nokeys\nsteps 3\n",
        "",
    ),
    (
        &["run", "A.EXE", "--keys", "58"],
        0,
        "console 1\nX\ntrace 2 of 2\nint21 01\nint21 4c\nreport\nexit exited 0\nsteps 6\n",
        "",
    ),
    (
        &["run", "--keys-file=K", "A.EXE"],
        0,
        "console 1\nY\ntrace 2 of 2\nint21 01\nint21 4c\nreport\nexit exited 0\nsteps 6\n",
        "",
    ),
    (
        &["run", "--keys=4a4B", "--trace", "1", "A.EXE"],
        0,
        "console 1\nJ\ntrace 1 of 2\nint21 01\nreport\nexit exited 0\nsteps 6\n",
        "",
    ),
    (
        &["run", "A.EXE", "--trace=0", "--keys-file", "K", "--pages=1"],
        0,
        "console 1\nY\ntrace 0 of 2\nreport\nexit exited 0\nsteps 6\n",
        "",
    ),
    (
        &["run", "L.EXE", "--bound", "1"],
        1,
        "console 0\n\ntrace 0 of 0\nreport\nexit bound\nsteps 1\nmode real\ndepth 0\n\
        regs eax=00000200 ebx=00000000 ecx=00000000 edx=00000000 esi=00000000 edi=00000000 ebp=00000000 esp=00000100 eip=00000002 fl=0202 \
        cs=0074 ss=0075 ds=0064 es=0064 ",
        "",
    ),
    (
        &["run", "A.EXE", "--bound=05", "--keys=58"],
        1,
        "console 1\nX\ntrace 1 of 1\nint21 01\nreport\nexit bound\nsteps 5\nmode real\n",
        "",
    ),
    (
        &["run", "A.EXE", "--bound=0000000006", "--keys=58"],
        0,
        "console 1\nX\ntrace 2 of 2\n",
        "",
    ),
    (&["run", "K"], 2, "refused Signature\n", ""),
    (
        &["run", "A.EXE", "--keys-file", "LONG"],
        2,
        "refused KeysTooLong\n",
        "",
    ),
    (&["run", "A.EXE", "--keys-file", "NONE"], 3, "", ""),
    (&["run", "NONE", "--keys-file", "LONG"], 3, "", ""),
    (
        &["run", "L.EXE", "--timer", "3"],
        0,
        "console 1\nA\ntrace 2 of 2\nint21 02\nint21 4c\nreport\nexit exited 0\nsteps 15\nmode real\ndepth 0\n\
        regs eax=00004c00 ebx=00000000 ecx=00000000 edx=00000041 esi=00000000 edi=00000000 ebp=00000000 esp=000000fa eip=00000021 fl=0002 \
        cs=f000 ss=0075 ds=0064 es=0064 fs=0000 gs=0000\ndescs 0\nblocks 0\n",
        "\ndos sha256=220e234fe35f69a2ba2e07da76cf70cd8b99b83b215fd0727bd9dc65ea7956ae\n",
    ),
    (
        &["pair", "L.EXE", "A.EXE"],
        1,
        "pair slice 1000\nslice 0 a 1\nA\nclient a\nconsole 1\nA\n",
        "\nclient b\nconsole 0\n\ntrace 1 of 1\nint21 01\nreport\nexit nokeys\nsteps 3\n",
    ),
];

// The files that those words name.
fn files_of_options(rt: &(impl Abort + AllocGlobal)) -> Result<MemShelf, Fail> {
    let mut shelf = MemShelf::new(rt.alloc());
    shelf.add("A.EXE", &client(rt, &ONE_KEY)?)?;
    shelf.add("P.EXE", &client(rt, &TWO_BLOCKS)?)?;
    shelf.add("L.EXE", &ONE_LETTER)?;
    let mut keys = vec![in rt.alloc(); b'Y'; 65_536]?;
    shelf.add("K", &keys)?;
    keys.push(b'Y')?;
    shelf.add("LONG", &keys)?;
    Ok(shelf)
}

// Whether the command answers those words so: the status, the first of the text, and a part of it.
fn is_option_answered(
    alloc: Global,
    shelf: &mut MemShelf,
    texts: &[&str],
    status: u8,
    start: &str,
    part: &str,
) -> Result<bool, AllocError> {
    let mut out = MemSink::new(alloc, 2000, 100)?;
    Ok(answer(alloc, texts, shelf, &mut out)? == status && shows(out.bytes(), start, part))
}

#[test]
fn each_option_has_its_effect(rt: HostRuntime) -> Result<(), Fail> {
    let mut shelf = files_of_options(&rt)?;
    let mut wrong = None;
    for (row, (texts, status, start, part)) in OPTIONS.iter().enumerate() {
        if !is_option_answered(rt.alloc(), &mut shelf, *texts, *status, *start, *part)? {
            wrong = Some(row);
        }
    }
    assert_eq!(rt; wrong, None);
    Ok(())
}

// In slices of three turns the letter is printed in the second one, at the trap byte of INT 21h.
#[test]
fn two_clients_take_turns(rt: HostRuntime) -> Result<(), Fail> {
    let pair = ["pair", "A.EXE", "A.EXE", "--slice", "3"];
    let mut shelf = MemShelf::new(rt.alloc());
    shelf.add("A.EXE", &ONE_LETTER)?;
    let mut out = MemSink::new(rt.alloc(), 2000, 100)?;
    let status = answer(rt.alloc(), &pair, &mut shelf, &mut out)?;
    let text = str::from_utf8(out.bytes()).unwrap_or("");
    let parts = [
        "pair slice 3\nslice 1 a 1\nA\nslice 1 b 1\nA\nclient a\n",
        LETTER_TEXT,
        "client b\n",
        LETTER_TEXT,
    ];
    assert!(rt; status == 0 && text.len() == 781 && is_first_of(text, &parts));
    Ok(())
}

// Pairs that are refused, or whose files aren't all there: both are read, the first one first, and then loaded.
const REFUSED_PAIRS: [(&[&str], u8, &str); 8] = [
    (&["pair", "A.EXE"], 2, "refused words\n"),
    (&["pair", "A.EXE", "EMPTY"], 2, "refused b ShortHeader\n"),
    (&["pair", "EMPTY", "A.EXE"], 2, "refused a ShortHeader\n"),
    (&["pair", "EMPTY", "EMPTY"], 2, "refused a ShortHeader\n"),
    (&["pair", "EMPTY", "LONG"], 2, "refused b FileTooLong\n"),
    (&["pair", "LONG", "NONE"], 2, "refused a FileTooLong\n"),
    (&["pair", "EMPTY", "NONE"], 3, ""),
    (&["pair", "NONE", "LONG"], 3, ""),
];

// The files that those words name.
fn files_of_pairs(rt: &impl AllocGlobal) -> Result<MemShelf, Fail> {
    let mut shelf = MemShelf::new(rt.alloc());
    shelf.add("A.EXE", &ONE_LETTER)?;
    shelf.add("EMPTY", &[])?;
    let long = vec![in rt.alloc(); 0; 4_194_305]?;
    shelf.add("LONG", &long)?;
    Ok(shelf)
}

#[test]
fn pairs_are_refused_in_order(rt: HostRuntime) -> Result<(), Fail> {
    let mut shelf = files_of_pairs(&rt)?;
    let mut wrong = None;
    for (row, (texts, status, text)) in REFUSED_PAIRS.iter().enumerate() {
        let mut out = MemSink::new(rt.alloc(), 100, 100)?;
        let answered = answer(rt.alloc(), *texts, &mut shelf, &mut out)?;
        if answered != *status || out.bytes() != text.as_bytes() {
            wrong = Some(row);
        }
    }
    assert_eq!(rt; wrong, None);
    Ok(())
}

// Whether a text is the summary of a made client of that number: its first line, and six in all.
fn is_summary(bytes: &[u8], start: &[u8]) -> bool {
    bytes.starts_with(start) && bytes.iter().filter(|b| **b == b'\n').count() == 6
}

// A made client run twice writes the same six lines.
#[test]
fn a_made_client_has_its_summary(rt: HostRuntime) -> Result<(), Fail> {
    let soak = ["soak", "7"];
    let mut shelf = MemShelf::new(rt.alloc());
    let mut first = MemSink::new(rt.alloc(), 1000, 1000)?;
    let mut second = MemSink::new(rt.alloc(), 1000, 3)?;
    let answers = (
        answer(rt.alloc(), &soak, &mut shelf, &mut first)?,
        answer(rt.alloc(), &soak, &mut shelf, &mut second)?,
    );
    let is_same = answers == (0, 0) && first.bytes() == second.bytes();
    assert!(rt; is_same && is_summary(first.bytes(), b"soak 7\nexit exited 0\nsteps "));
    Ok(())
}
