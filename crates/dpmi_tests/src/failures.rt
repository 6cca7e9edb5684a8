// The command over files and an output of which one call fails, at their limits, and over those that never fail.
use crate::files::{LETTER_TEXT, ONE_LETTER, answer, is_first_of, owned_words};
use dpmi_cli::dpmi_without_failure;
use dpmi_io::{MemShelf, MemSink, SureShelf, SureSink};
use std::alloc::{AllocError, Global};
use std::test::Fail;

// The status, and how many bytes are written, where so many calls of the files succeed and the next one fails.
fn answer_with_failure(
    alloc: Global,
    texts: &[&str],
    before: u64,
) -> Result<(u8, usize), AllocError> {
    let mut out = MemSink::new(alloc, 1000, 100)?;
    let mut shelf = MemShelf::new(alloc);
    shelf.add("A.EXE", &ONE_LETTER)?;
    shelf.add("B.EXE", &ONE_LETTER)?;
    shelf.add("K", b"Y")?;
    shelf.fail_at(before.saturating_add(1))?;
    let status = answer(alloc, texts, &mut shelf, &mut out)?;
    Ok((status, out.bytes().len()))
}

// Words that name two files, and how many bytes are written where no call fails.
const TWO_FILES: [(&[&str], usize); 2] = [
    (&["run", "A.EXE", "--keys-file", "K"], 361),
    (&["pair", "A.EXE", "B.EXE"], 784),
];

// The calls are: the first file is opened, read and read to its end, and so is the second. No seventh is made.
#[test]
fn each_call_of_the_files_fails_in_turn(rt: HostRuntime) -> Result<(), Fail> {
    let mut wrong = None;
    for (row, (texts, count)) in TWO_FILES.iter().enumerate() {
        for before in 0..7 {
            let wanted = if before < 6 { (3, 0) } else { (0, *count) };
            if answer_with_failure(rt.alloc(), *texts, before)? != wanted {
                wrong = Some((row, before));
            }
        }
    }
    assert_eq!(rt; wrong, None);
    Ok(())
}

// Words that name a file LONG, how many bytes it has, how many calls of the files succeed before one fails, the status and the text. The
// calls are: a file is opened, read, and, unless it fills the buffer, which has one byte more than the file may have, read once more to
// find its end. So of a file that is too long the second read isn't made: the call that would fail is that one. A file that is just as long
// as it may be is read to its end.
const LONG_FILES: [(&[&str], usize, u64, u8, &str); 8] = [
    (&["run", "LONG"], 4_194_304, 2, 3, ""),
    (&["run", "LONG"], 4_194_305, 2, 2, "refused FileTooLong\n"),
    (&["run", "LONG"], 4_194_306, 2, 2, "refused FileTooLong\n"),
    (&["run", "A.EXE", "--keys-file", "LONG"], 65_536, 5, 3, ""),
    (
        &["run", "A.EXE", "--keys-file", "LONG"],
        65_537,
        5,
        2,
        "refused KeysTooLong\n",
    ),
    (
        &["run", "A.EXE", "--keys-file", "LONG"],
        65_538,
        5,
        2,
        "refused KeysTooLong\n",
    ),
    (
        &["pair", "LONG", "A.EXE"],
        4_194_305,
        2,
        2,
        "refused a FileTooLong\n",
    ),
    (
        &["pair", "A.EXE", "LONG"],
        4_194_305,
        5,
        2,
        "refused b FileTooLong\n",
    ),
];

// Whether the command answers so, where LONG has that many zero bytes and so many calls of the files succeed.
fn is_limit_answered(
    alloc: Global,
    texts: &[&str],
    length: usize,
    before: u64,
    status: u8,
    text: &str,
) -> Result<bool, AllocError> {
    let long = vec![in alloc; 0; length]?;
    let mut shelf = MemShelf::new(alloc);
    shelf.add("A.EXE", &ONE_LETTER)?;
    shelf.add("LONG", &long)?;
    shelf.fail_at(before.saturating_add(1))?;
    let mut out = MemSink::new(alloc, 100, 100)?;
    let answered = answer(alloc, texts, &mut shelf, &mut out)?;
    Ok(answered == status && out.bytes() == text.as_bytes())
}

#[test]
fn a_file_is_read_to_one_byte_past_its_limit(rt: HostRuntime) -> Result<(), Fail> {
    let mut wrong = None;
    for (row, (texts, length, before, status, text)) in LONG_FILES.iter().enumerate() {
        if !is_limit_answered(rt.alloc(), *texts, *length, *before, *status, *text)? {
            wrong = Some(row);
        }
    }
    assert_eq!(rt; wrong, None);
    Ok(())
}

// Whether the command whose output fails after so many bytes has that status, and has written as many bytes of that text.
fn is_cut(
    alloc: Global,
    texts: &[&str],
    parts: &[&str],
    count: u64,
    status: u8,
) -> Result<bool, AllocError> {
    let mut shelf = MemShelf::new(alloc);
    shelf.add("A.EXE", &ONE_LETTER)?;
    let mut out = MemSink::new(alloc, 1000, 1)?;
    out.fail_at(count.saturating_add(1))?;
    let answered = answer(alloc, texts, &mut shelf, &mut out)?;
    let text = str::from_utf8(out.bytes()).unwrap_or("not text");
    Ok(answered == status && text.len() as u64 == count && is_first_of(text, parts))
}

// In pieces of one byte each put writes one: where one fails, those before it are written. The text of the run has 361 bytes.
#[test]
fn each_put_of_a_run_fails_in_turn(rt: HostRuntime) -> Result<(), Fail> {
    let mut wrong = None;
    for count in 0..362 {
        let status = if count < 361 { 4 } else { 0 };
        if !is_cut(rt.alloc(), &["run", "A.EXE"], &[LETTER_TEXT], count, status)? {
            wrong = Some(count);
        }
    }
    assert_eq!(rt; wrong, None);
    Ok(())
}

// The text of the pair has 784 bytes: the letters come in the first slice of 1,000 turns.
const PAIR_PARTS: [&str; 4] = [
    "pair slice 1000\nslice 0 a 1\nA\nslice 0 b 1\nA\nclient a\n",
    LETTER_TEXT,
    "client b\n",
    LETTER_TEXT,
];

#[test]
fn each_put_of_a_pair_fails_in_turn(rt: HostRuntime) -> Result<(), Fail> {
    let pair = ["pair", "A.EXE", "A.EXE"];
    let mut wrong = None;
    for count in 0..785 {
        let status = if count < 784 { 4 } else { 0 };
        if !is_cut(rt.alloc(), &pair, &PAIR_PARTS, count, status)? {
            wrong = Some(count);
        }
    }
    assert_eq!(rt; wrong, None);
    Ok(())
}

// Words, the status, and how many bytes are written.
const SURE_RUNS: [(&[&str], u8, u64); 4] = [
    (&["run", "A.EXE"], 0, 361),
    (&["run", "B.EXE", "--keys-file", "K"], 0, 361),
    (&["walk", "A.EXE"], 2, 14),
    (&["pair", "A.EXE", "B.EXE"], 0, 784),
];

#[test]
fn nothing_fails_where_nothing_can(rt: HostRuntime) -> Result<(), Fail> {
    let mut wrong = None;
    for (row, (texts, status, count)) in SURE_RUNS.iter().enumerate() {
        let given = owned_words(rt.alloc(), *texts)?;
        let mut shelf = SureShelf::new(rt.alloc(), &ONE_LETTER)?;
        let mut out = SureSink::new();
        let answered = dpmi_without_failure(rt.alloc(), given.as_slice(), &mut shelf, &mut out);
        if answered != *status || out.count() != *count {
            wrong = Some(row);
        }
    }
    assert_eq!(rt; wrong, None);
    Ok(())
}

#[test]
fn a_refusal_that_is_cut_off_keeps_its_status(rt: HostRuntime) -> Result<(), Fail> {
    let mut shelf = MemShelf::new(rt.alloc());
    let mut full = MemSink::new(rt.alloc(), 4, 9)?;
    let status = answer(rt.alloc(), &[], &mut shelf, &mut full)?;
    assert!(rt; status == 2 && full.bytes() == b"refu".as_slice());
    Ok(())
}
