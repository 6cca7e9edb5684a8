// Clients, the words of the command line, and the command over them.
use dpmi_cli::dpmi;
use dpmi_io::{MemShelf, MemSink};
use std::alloc::{AllocError, Global};
use std::process::Abort;
use std::test::Fail;

// The client that prints the letter `A`: MOV AH,02h; MOV DL,41h; INT 21h; MOV AX,4C00h; INT 21h.
pub(crate) const ONE_LETTER: [u8; 43] = [
    0x4D, 0x5A, 0x2B, 0x00, 0x01, 0x00, 0x00, 0x00, 0x02, 0x00, 0x10, 0x00, 0xFF, 0xFF, 0x01, 0x00,
    0x00, 0x01, 0x00, 0x00, 0x00, 0x00, 0x00, 0x00, 0x1C, 0x00, 0x00, 0x00, 0x00, 0x00, 0x00, 0x00,
    0xB4, 0x02, 0xB2, 0x41, 0xCD, 0x21, 0xB8, 0x00, 0x4C, 0xCD, 0x21,
];

// What is written of the run of the client that prints the letter `A`. The megabyte of the digest holds the vectors, the blocks of DOS
// memory, the environment, the prefix and the code, by their definitions, and the frame of the last interrupt on the stack.
pub(crate) const LETTER_TEXT: &str =
    "console 1\nA\ntrace 2 of 2\nint21 02\nint21 4c\nreport\nexit exited 0\nsteps 7\nmode real\ndepth 0\n\
    regs eax=00004c00 ebx=00000000 ecx=00000000 edx=00000041 esi=00000000 edi=00000000 ebp=00000000 esp=000000fa eip=00000021 fl=0002 \
    cs=f000 ss=0075 ds=0064 es=0064 fs=0000 gs=0000\ndescs 0\nblocks 0\ndos \
    sha256=220e234fe35f69a2ba2e07da76cf70cd8b99b83b215fd0727bd9dc65ea7956ae\n";

// Those words, in owned texts.
pub(crate) fn owned_words(alloc: Global, texts: &[&str]) -> Result<Vec<String>, AllocError> {
    let mut words = Vec::new(alloc);
    for text in texts {
        words.push(String::from_str(alloc, *text)?)?;
    }
    Ok(words)
}

// The command's status for these words, over files and an output in memory. It hides what `dpmi` promises, which each proof above would
// read.
pub(crate) fn answer(
    alloc: Global,
    texts: &[&str],
    shelf: &mut MemShelf,
    out: &mut MemSink,
) -> Result<u8, AllocError> {
    let words = owned_words(alloc, texts)?;
    Ok(dpmi(alloc, words.as_slice(), shelf, out))
}

// The client of other code: in that client's header the bytes of the last page and SS, the paragraph after the code, are others.
pub(crate) fn client(rt: &(impl Abort + AllocGlobal), code: &[u8]) -> Result<Vec<u8>, Fail> {
    assert!(rt; code.len() <= 200);
    let mut file = ONE_LETTER[..32].to_vec(rt.alloc())?;
    file.extend_from_slice(code)?;
    assert!(rt; file.len() >= 32);
    file[0x02] = (32 + code.len()) as u8;
    file[0x0E] = code.len().div_ceil(16) as u8;
    Ok(file)
}

// Whether a text is as much as there is of these parts, one after another.
pub(crate) fn is_first_of(text: &str, parts: &[&str]) -> bool {
    let mut left = text;
    for part in parts {
        match left.strip_prefix(*part) {
            Some(after) => left = after,
            None => return part.starts_with(left),
        }
    }
    left.is_empty()
}
