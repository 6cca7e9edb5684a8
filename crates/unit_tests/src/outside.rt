// The outside in memory and over the system, at values known by hand.
ghost use Rattle.std.specs.Prelude.{IsSome};

use crate::compare::{in_row, same};
use dpmi_io::{
    FileShelf, MemShelf, MemSink, Shelf, ShelfFail, Sink, SinkFail, StdoutSink, SureShelf,
    SureSink, put_all, read_whole,
};
use std::alloc::{AllocError, Global};
use std::fs;
use std::test::Fail;

// What each put of three bytes answers, in pieces of two, with room for five, where the second is listed; and the bytes after it.
const PUTS: [(Result<usize, SinkFail>, &str); 5] = [
    (Ok(2), "ab"),
    (Err(SinkFail), "ab"),
    (Ok(2), "abab"),
    (Ok(1), "ababa"),
    (Err(SinkFail), "ababa"),
];

fn compare_put(
    sink: &mut MemSink,
    answer: Result<usize, SinkFail>,
    text: &str,
) -> Result<(), &'static str> {
    same("answer", sink.put(b"abc") == answer)?;
    same("bytes", sink.bytes() == text.as_bytes())
}

#[test]
fn a_sink_takes_pieces_until_its_room_is_full(rt: HostRuntime) -> Result<(), Fail> {
    let mut sink = MemSink::new(rt.alloc(), 5, 2)?;
    sink.fail_at(2)?;
    for (number, (answer, text)) in PUTS.iter().enumerate() {
        in_row(number, compare_put(&mut sink, *answer, text))?;
    }
    Ok(())
}

#[test]
fn bytes_are_put_to_their_end(rt: HostRuntime) -> Result<(), Fail> {
    let mut sink = MemSink::new(rt.alloc(), 8, 3)?;
    let whole = put_all(&mut sink, b"console");
    let part = put_all(&mut sink, b"0\n");
    same("all of the bytes", whole == Ok(()))?;
    same("bytes without room", part == Err(SinkFail))?;
    same("text", sink.bytes() == b"console0".as_slice())?;
    Ok(())
}

// The open file is these bytes.
fn compare_file<F: Shelf>(shelf: &mut F, bytes: &[u8]) -> Result<(), &'static str>
    requires { IsSome (F.open_name shelf.old) }
{
    let mut buf = [0; 8];
    let count = read_whole(shelf, &mut buf);
    same("count", count == Ok(bytes.len()))?;
    same("bytes", buf.get(..bytes.len()) == Some(bytes))
}

#[test]
fn a_shelf_gives_the_newest_bytes_of_a_name(rt: HostRuntime) -> Result<(), Fail> {
    let mut shelf = MemShelf::new(rt.alloc());
    shelf.add("A.EXE", b"old")?;
    shelf.add("B.EXE", b"other")?;
    shelf.add("A.EXE", b"newer")?;
    for (name, bytes) in [("A.EXE", "newer"), ("B.EXE", "other")] {
        shelf.open(String::from_str(rt.alloc(), name)?)?;
        compare_file(&mut shelf, bytes.as_bytes())?;
    }
    let missing = shelf.open(String::from_str(rt.alloc(), "C.EXE")?);
    same("another name", missing == Err(ShelfFail::Missing))?;
    Ok(())
}

// A shelf whose first and fourth calls fail.
fn listed(alloc: Global) -> Result<MemShelf, AllocError> {
    let mut shelf = MemShelf::new(alloc);
    shelf.fail_at(1)?;
    shelf.fail_at(4)?;
    shelf.add("A.EXE", b"abc")?;
    Ok(shelf)
}

// A file is opened twice, and then read twice.
fn compare_listed<F: Shelf>(alloc: Global, shelf: &mut F) -> Result<(), Fail> {
    let first = shelf.open(String::from_str(alloc, "A.EXE")?);
    same("the first call", first == Err(ShelfFail::Failed))?;
    shelf.open(String::from_str(alloc, "A.EXE")?)?;
    let mut buf = [0; 2];
    let third = shelf.read(&mut buf)?;
    same("the third call", third == 2)?;
    let fourth = shelf.read(&mut buf);
    same("the fourth call", fourth == Err(ShelfFail::Failed))?;
    Ok(())
}

#[test]
fn listed_calls_of_a_shelf_fail(rt: HostRuntime) -> Result<(), Fail> {
    let mut shelf = listed(rt.alloc())?;
    compare_listed(rt.alloc(), &mut shelf)
}

#[test]
fn a_sure_shelf_has_its_file_under_every_name(rt: HostRuntime) -> Result<(), Fail> {
    let mut shelf = SureShelf::new(rt.alloc(), b"abc")?;
    let mut sink = SureSink::new();
    for name in ["A.EXE", ""] {
        shelf.open(String::from_str(rt.alloc(), name)?)?;
        compare_file(&mut shelf, b"abc")?;
        put_all(&mut sink, b"abc")?;
    }
    same("count", sink.count() == 6)?;
    Ok(())
}

#[test]
fn the_system_fails_as_failed(rt: HostRuntime) -> Result<(), Fail> {
    let mut shelf = FileShelf::new(&rt);
    let opened = shelf.open(String::from_str(rt.alloc(), "no such file")?);
    same("a file that isn't there", opened == Err(ShelfFail::Failed))?;
    let mut room = [0; 4];
    let mut sink = StdoutSink::new(room.as_mut_slice());
    let whole = put_all(&mut sink, b"exit");
    same("all of the bytes", whole == Ok(()))?;
    let full = sink.put(b"ed");
    same("bytes without room", full == Err(SinkFail))?;
    same("text", room.as_slice() == b"exit".as_slice())?;
    Ok(())
}

// The name under which the test keeps a file of its own.
const OWN_FILE: &str = "file of a test";

#[test]
fn a_file_of_the_system_is_read(rt: HostRuntime) -> Result<(), Fail> {
    fs::write(&rt, OWN_FILE, "file")?;
    let mut shelf = FileShelf::new(&rt);
    shelf.open(String::from_str(rt.alloc(), OWN_FILE)?)?;
    let read = compare_file(&mut shelf, b"file");
    fs::remove_file(&rt, OWN_FILE)?;
    read?;
    Ok(())
}
