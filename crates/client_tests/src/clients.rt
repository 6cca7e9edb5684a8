// The marked cases of clients/suite: the command's status, and the SHA-256 of all that it writes. `tools/suite --only NAME` shows how the
// text of a case differs; the client's source says what is expected, and why.
use case::Case;
use dpmi_cli::dpmi;
use dpmi_io::{MemShelf, MemSink};
use sha2::{Digest, Sha256};
use std::alloc::{AllocError, Global};
use std::process::Abort;
use std::test::Fail;
use tables_1_to_2::{TABLE_1, TABLE_2};
use tables_3_to_4::{TABLE_3, TABLE_4};
use tables_5_to_6::{TABLE_5, TABLE_6};
use tables_7::TABLE_7;

mod case;
mod clients_a_to_b;
mod clients_c_to_e;
mod clients_f;
mod clients_g;
mod clients_h_to_z;
mod tables_1_to_2;
mod tables_3_to_4;
mod tables_5_to_6;
mod tables_7;

// What differs from a case's row.
#[derive(Clone, Copy, Debug, PartialEq)]
enum Differing {
    Status(u8),
    Text,
}

fn compare(case: &Case, status: u8, text: &[u8]) -> Result<(), Differing> {
    if status != case.status {
        return Err(Differing::Status(status));
    }
    if Sha256::digest(text) == *case.digest {
        Ok(())
    } else {
        Err(Differing::Text)
    }
}

// The words of a case, in owned texts.
fn words_of(alloc: Global, case: &Case) -> Result<Vec<String>, AllocError> {
    let mut words = Vec::new(alloc);
    for word in case.words.split_whitespace() {
        words.push(String::from_str(alloc, word)?)?;
    }
    Ok(words)
}

// The clients of a case, as files.
fn files_of(alloc: Global, case: &Case) -> Result<MemShelf, AllocError> {
    let mut shelf = MemShelf::new(alloc);
    if let Some(client) = case.a {
        shelf.add("A.EXE", client)?;
    }
    if let Some(client) = case.b {
        shelf.add("B.EXE", client)?;
    }
    Ok(shelf)
}

// Runs the command over a case, and compares what it answers and writes.
fn run(alloc: Global, case: &Case) -> Result<Result<(), Differing>, AllocError> {
    let mut shelf = files_of(alloc, case)?;
    let mut out = MemSink::new(alloc, 600_000, 4096)?;
    let words = words_of(alloc, case)?;
    let status = dpmi(alloc, words.as_slice(), &mut shelf, &mut out);
    Ok(compare(case, status, out.bytes()))
}

fn run_all(rt: &impl Abort, alloc: Global, cases: &[Case]) -> Result<(), AllocError> {
    for case in cases {
        let compared = run(alloc, case)?;
        assert_eq!(rt; compared, Ok(()), "tools/suite --only {}", case.name);
    }
    Ok(())
}

#[test]
fn clients_of_table_1_have_their_texts(rt: HostRuntime) -> Result<(), Fail> {
    run_all(&rt, rt.alloc(), &TABLE_1)?;
    Ok(())
}

#[test]
fn clients_of_table_2_have_their_texts(rt: HostRuntime) -> Result<(), Fail> {
    run_all(&rt, rt.alloc(), &TABLE_2)?;
    Ok(())
}

#[test]
fn clients_of_table_3_have_their_texts(rt: HostRuntime) -> Result<(), Fail> {
    run_all(&rt, rt.alloc(), &TABLE_3)?;
    Ok(())
}

#[test]
fn clients_of_table_4_have_their_texts(rt: HostRuntime) -> Result<(), Fail> {
    run_all(&rt, rt.alloc(), &TABLE_4)?;
    Ok(())
}

#[test]
fn clients_of_table_5_have_their_texts(rt: HostRuntime) -> Result<(), Fail> {
    run_all(&rt, rt.alloc(), &TABLE_5)?;
    Ok(())
}

#[test]
fn clients_of_table_6_have_their_texts(rt: HostRuntime) -> Result<(), Fail> {
    run_all(&rt, rt.alloc(), &TABLE_6)?;
    Ok(())
}

#[test]
fn clients_of_table_7_have_their_texts(rt: HostRuntime) -> Result<(), Fail> {
    run_all(&rt, rt.alloc(), &TABLE_7)?;
    Ok(())
}
