// Texts, and states after some turns.
use crate::letter::{letter, no_program};
use dpmi_calls::{DONE, NO_ROOM, NOT_THERE, REFUSED, State, states_after, write_text};
use std::alloc::Global;
use std::process::Abort;
use std::test::Fail;

// After how many turns, and then AX, DX, CS, IP, SP, where CS begins, and how the run ended. INT pushes six bytes, and goes to the vector's
// trap at F000h:0021h, where the host serves it in the next turn. After the client's end nothing changes.
const ROWS: [(u32, u32, u32, u16, u32, u32, u32, u8); 7] = [
    (0, 0, 0, 0x74, 0, 0x100, 0x740, 0),
    (1, 0x0200, 0, 0x74, 2, 0x100, 0x740, 0),
    (2, 0x0200, 0x41, 0x74, 4, 0x100, 0x740, 0),
    (3, 0x0200, 0x41, 0xF000, 0x21, 0xFA, 0xF0000, 0),
    (4, 0x0200, 0x41, 0x74, 6, 0x100, 0x740, 0),
    (6, 0x4C00, 0x41, 0xF000, 0x21, 0xFA, 0xF0000, 0),
    (7, 0x4C00, 0x41, 0xF000, 0x21, 0xFA, 0xF0000, 1),
];

// The low bytes of the image of the flags that the first INT pushes, at 0075h:00FEh; the first byte of the code; and a place where nothing
// lies.
const PLACES: [u32; 3] = [0x84E, 0x740, 0x11_0000];

fn is_row(row: &(u32, u32, u32, u16, u32, u32, u32, u8), state: &State) -> bool {
    (
        state.steps,
        state.eax,
        state.edx,
        state.cs,
        state.eip,
        state.esp,
        state.cs_base,
        state.exit,
    ) == *row
}

// The number of the first row that differs.
fn first_difference(alloc: Global, after: &mut [State; 7]) -> Option<usize> {
    let turns = [0, 1, 2, 3, 4, 6, 7];
    let mut memory = [0; 21];
    if states_after(alloc, letter(0), &turns, &PLACES, after, &mut memory) != DONE {
        return Some(100);
    }
    for (number, row) in ROWS.iter().enumerate() {
        if !is_row(row, &after[number]) {
            return Some(number);
        }
    }
    // The flags are pushed by the third turn.
    let seen = (
        memory[2 * 3],
        memory[3 * 3],
        memory[3 * 3 + 1],
        memory[3 * 3 + 2],
    );
    if seen != (0, 2, 0xB4, NOT_THERE) {
        return Some(200);
    }
    None
}

#[test]
fn states_are_those_of_the_client(rt: HostRuntime) -> Result<(), Fail> {
    let mut after = [State::NONE; 7];
    let wrong = first_difference(rt.alloc(), &mut after);
    assert!(rt; wrong.is_none());
    Ok(())
}

// Whether these turns are refused.
fn is_refused(alloc: Global, turns: &[u32], rows: &mut [State]) -> bool {
    states_after(alloc, letter(0), turns, &[], rows, &mut []) == REFUSED
}

#[test]
fn turns_that_go_down_are_refused(rt: HostRuntime) -> Result<(), Fail> {
    let mut rows = [State::NONE; 2];
    let mut all = is_refused(rt.alloc(), &[2, 1], &mut rows);
    all = is_refused(rt.alloc(), &[1, 1_000_000_001], &mut rows) && all;
    all = is_refused(rt.alloc(), &[1], &mut rows) && all;
    all = !is_refused(rt.alloc(), &[1, 1_000_000_000], &mut rows) && all;
    assert!(rt; all);
    Ok(())
}

// Whether the text begins and ends so, with that status.
fn is_text(alloc: Global, room: usize, status: u8, start: &str) -> Result<bool, Fail> {
    let mut text = vec![in alloc; 0; room]?;
    let mut written = 0;
    let is_status = write_text(alloc, &letter(0), 100, 10, &mut text, &mut written) == status;
    match text.get(..written) {
        Some(bytes) => Ok(is_status && bytes.starts_with(start.as_bytes())),
        None => Ok(false),
    }
}

#[test]
fn texts_are_those_of_the_command(rt: HostRuntime) -> Result<(), Fail> {
    let start = "console 1\nA\ntrace 2 of 2\nint21 02\nint21 4c\nreport\nexit exited 0\nsteps 7\n";
    let mut all = is_text(rt.alloc(), 1000, 0, start)?;
    all = is_text(rt.alloc(), 10, NO_ROOM, "")? && all;
    let mut line = [0; 18];
    let mut written = 0;
    all = write_text(rt.alloc(), &no_program(), 100, 10, &mut line, &mut written) == REFUSED && all;
    all = line == *b"refused Signature\n" && all;
    assert!(rt; all && written == 18);
    Ok(())
}
