// The client of the tests.
use dpmi_calls::Client;

// It prints the letter `A`: MOV AH,02h; MOV DL,41h; INT 21h; MOV AX,4C00h; INT 21h. Its code is at 0074h:0000h, the linear address 740h,
// and its stack at 0075h:0100h.
const ONE_LETTER: [u8; 43] = [
    0x4D, 0x5A, 0x2B, 0x00, 0x01, 0x00, 0x00, 0x00, 0x02, 0x00, 0x10, 0x00, 0xFF, 0xFF, 0x01, 0x00,
    0x00, 0x01, 0x00, 0x00, 0x00, 0x00, 0x00, 0x00, 0x1C, 0x00, 0x00, 0x00, 0x00, 0x00, 0x00, 0x00,
    0xB4, 0x02, 0xB2, 0x41, 0xCD, 0x21, 0xB8, 0x00, 0x4C, 0xCD, 0x21,
];

// The client, with a timer or without one.
pub(crate) fn letter(timer: u32) -> Client<'static> {
    Client {
        file: &ONE_LETTER,
        keys: &[],
        pages: 1,
        timer,
    }
}

// A client whose file is no program.
pub(crate) fn no_program() -> Client<'static> {
    Client {
        file: b"no program, and yet as long as a header",
        keys: &[],
        pages: 1,
        timer: 0,
    }
}
