// Words and what they mean.
use crate::compare::{in_row, same};
use dpmi_words::{KeySource, Pair, Run, Words, read_words};
use std::alloc::{AllocError, Global};
use std::test::Fail;

// The words of a text, which single spaces part: two spaces have an empty word between them.
fn words_of(alloc: Global, text: &str) -> Result<Vec<String>, AllocError> {
    let mut words = Vec::new(alloc);
    for word in text.split(' ') {
        words.push(String::from_str(alloc, word)?)?;
    }
    Ok(words)
}

// A run: its words, the file, the keystrokes, the name of their file, and the bound, the pages and the trace number.
type RunRow = (
    &'static str,
    &'static str,
    &'static [u8],
    &'static str,
    [u32; 3],
);

const RUNS: [RunRow; 9] = [
    ("run A.EXE", "A.EXE", b"", "", [10_000_000, 1024, 1000]),
    ("run A.EXE --bound=010", "A.EXE", b"", "", [10, 1024, 1000]),
    (
        "run --pages 16 A.EXE --bound 1 --keys=58",
        "A.EXE",
        b"X",
        "",
        [1, 16, 1000],
    ),
    (
        "run --trace 0 --pages=1 --bound=1000000000 --keys-file K.TXT A.EXE",
        "A.EXE",
        b"",
        "K.TXT",
        [1_000_000_000, 1, 0],
    ),
    (
        "run A.EXE --pages 16384 --trace=10000",
        "A.EXE",
        b"",
        "",
        [10_000_000, 16_384, 10_000],
    ),
    (
        "run A.EXE --pages 0000016384 --trace=0000000001",
        "A.EXE",
        b"",
        "",
        [10_000_000, 16_384, 1],
    ),
    (
        "run A.EXE --keys aFA0",
        "A.EXE",
        b"\xAF\xA0",
        "",
        [10_000_000, 1024, 1000],
    ),
    (
        "run --keys-file=A=B soak",
        "soak",
        b"",
        "A=B",
        [10_000_000, 1024, 1000],
    ),
    ("run bound=1", "bound=1", b"", "", [10_000_000, 1024, 1000]),
];

fn compare_keys(keys: &KeySource, pressed: &[u8], stored: &str) -> Result<(), &'static str> {
    match keys {
        KeySource::Pressed(bytes) => same(
            "keystrokes",
            bytes.as_slice() == pressed && stored.is_empty(),
        ),
        KeySource::Stored(name) => same("the file of keystrokes", *name == stored),
    }
}

fn compare_run(run: &Run, row: &RunRow) -> Result<(), &'static str> {
    let (_, file, pressed, stored, numbers) = row;
    same("file", run.file == *file)?;
    same("numbers", [run.bound, run.pages, run.trace] == *numbers)?;
    compare_keys(&run.keys, pressed, stored)
}

#[test]
fn words_mean_a_run(rt: HostRuntime) -> Result<(), Fail> {
    for (number, row) in RUNS.iter().enumerate() {
        let words = words_of(rt.alloc(), row.0)?;
        let compared = match read_words(rt.alloc(), words.as_slice())? {
            Some(Words::Run(run)) => compare_run(&run, row),
            _ => Err("meaning"),
        };
        in_row(number, compared)?;
    }
    Ok(())
}

// The words of a run, and the number of its timer.
const TIMERS: [(&str, Option<u32>); 4] = [
    ("run A.EXE", None),
    ("run A.EXE --timer 1", Some(1)),
    ("run --timer=1000000000 A.EXE", Some(1_000_000_000)),
    ("run A.EXE --trace 0 --timer 0000000003", Some(3)),
];

#[test]
fn words_mean_a_timer(rt: HostRuntime) -> Result<(), Fail> {
    for (number, (text, timer)) in TIMERS.iter().enumerate() {
        let words = words_of(rt.alloc(), text)?;
        let compared = match read_words(rt.alloc(), words.as_slice())? {
            Some(Words::Run(run)) => same("timer", run.timer == *timer),
            _ => Err("meaning"),
        };
        in_row(number, compared)?;
    }
    Ok(())
}

// The words after `soak`, and their number.
const SOAKS: [(&str, u64); 4] = [
    ("soak 7", 7),
    ("soak 0", 0),
    ("soak 18446744073709551615", 18_446_744_073_709_551_615),
    ("soak 00000000000000000007", 7),
];

#[test]
fn words_mean_a_soak(rt: HostRuntime) -> Result<(), Fail> {
    for (number, (text, seed)) in SOAKS.iter().enumerate() {
        let words = words_of(rt.alloc(), text)?;
        let compared = match read_words(rt.alloc(), words.as_slice())? {
            Some(Words::Soak(n)) => same("number", n == *seed),
            _ => Err("meaning"),
        };
        in_row(number, compared)?;
    }
    Ok(())
}

// A pair: its words, its two files, and the slice, the bound and the pages of each.
type PairRow = (&'static str, [&'static str; 2], [u32; 4]);

const PAIRS: [PairRow; 6] = [
    (
        "pair A.EXE B.EXE",
        ["A.EXE", "B.EXE"],
        [1000, 10_000_000, 1024, 1024],
    ),
    (
        "pair A.EXE A.EXE --slice 3",
        ["A.EXE", "A.EXE"],
        [3, 10_000_000, 1024, 1024],
    ),
    (
        "pair --slice=1000000 A.EXE --bound 1 B.EXE",
        ["A.EXE", "B.EXE"],
        [1_000_000, 1, 1024, 1024],
    ),
    (
        "pair --pages-b 16 A.EXE B.EXE --pages-a=8192",
        ["A.EXE", "B.EXE"],
        [1000, 10_000_000, 8192, 16],
    ),
    (
        "pair B.EXE --bound=1000000000 --slice 1 A.EXE --pages-a 1",
        ["B.EXE", "A.EXE"],
        [1, 1_000_000_000, 1, 1024],
    ),
    (
        "pair pair run",
        ["pair", "run"],
        [1000, 10_000_000, 1024, 1024],
    ),
];

fn compare_pair(pair: &Pair, row: &PairRow) -> Result<(), &'static str> {
    let (_, [first, second], numbers) = row;
    same("the first file", pair.first == *first)?;
    same("the second file", pair.second == *second)?;
    let found = [pair.slice, pair.bound, pair.pages_a, pair.pages_b];
    same("numbers", found == *numbers)
}

#[test]
fn words_mean_a_pair(rt: HostRuntime) -> Result<(), Fail> {
    for (number, row) in PAIRS.iter().enumerate() {
        let words = words_of(rt.alloc(), row.0)?;
        let compared = match read_words(rt.alloc(), words.as_slice())? {
            Some(Words::Pair(pair)) => compare_pair(&pair, row),
            _ => Err("meaning"),
        };
        in_row(number, compared)?;
    }
    Ok(())
}

// Words that mean nothing.
const NOTHING: [&str; 60] = [
    "",
    "run",
    "run ",
    "walk A.EXE",
    "RUN A.EXE",
    "A.EXE",
    "run A.EXE B.EXE",
    "run -A.EXE",
    "run A.EXE -",
    "run A.EXE --",
    "run A.EXE -- B.EXE",
    "run A.EXE --help",
    "run A.EXE -h",
    "run A.EXE --version",
    "run A.EXE --=1",
    "run A.EXE --operand=B",
    "run A.EXE --boun 1",
    "run A.EXE -b 1",
    "run --bound 1",
    "run A.EXE --bound",
    "run A.EXE --bound=",
    "run A.EXE --bound ",
    "run A.EXE --bound 0",
    "run A.EXE --bound 1000000001",
    "run A.EXE --bound 00000000001",
    "run A.EXE --bound 9999999999",
    "run A.EXE --bound +5",
    "run A.EXE --bound -5",
    "run A.EXE --bound 5h",
    "run A.EXE --bound --pages 1",
    "run A.EXE --pages 1 --pages 1",
    "run A.EXE --pages 1 --pages=1",
    "run A.EXE --pages 0",
    "run A.EXE --pages 16385",
    "run A.EXE --trace 10001",
    "run A.EXE --keys 4",
    "run A.EXE --keys 4G",
    "run A.EXE --keys 41 --keys-file K",
    "soak",
    "soak 7 8",
    "soak 7 --bound 1",
    "soak 18446744073709551616",
    "soak 000000000000000000007",
    "soak x",
    "soak 7 --timer 3",
    "run A.EXE --timer 0",
    "run A.EXE --timer 1000000001",
    "run A.EXE --timer 3 --timer 3",
    "pair",
    "pair A.EXE",
    "pair A.EXE B.EXE C.EXE",
    "pair A.EXE ",
    "pair A.EXE B.EXE --slice 0",
    "pair A.EXE B.EXE --slice 1000001",
    "pair A.EXE B.EXE --bound 0",
    "pair A.EXE B.EXE --pages-a 0",
    "pair A.EXE B.EXE --pages-b 8193",
    "pair A.EXE B.EXE --pages 1",
    "pair A.EXE B.EXE --keys 58",
    "pair A.EXE B.EXE --first=C.EXE",
];

#[test]
fn words_mean_nothing(rt: HostRuntime) -> Result<(), Fail> {
    for text in NOTHING.iter() {
        let words = words_of(rt.alloc(), text)?;
        let meaning = read_words(rt.alloc(), words.as_slice())?;
        same(text, meaning.is_none())?;
    }
    same("no words", read_words(rt.alloc(), &[])?.is_none())?;
    Ok(())
}
