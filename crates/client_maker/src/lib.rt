//! A client that is made from a number, for long runs: 2000 calls of DOS and DPMI services, chosen by a sequence of random numbers.
//! It promises that the file is the one that its definition in `specs/` names, byte for byte. It uses no other crate.
//! How the bytes are put together is free. The definition isn't: a change gives every number another client, and what `soak` wrote
//! before no longer compares.
#![tactic(auto)]

ghost use Rattle.std.specs.Prelude.{◌≡◌, ◌≤◌, ◌+◌, ◌++◌, length, IfOk, OnOk};
ghost use Rattle.client_maker.specs.{Pieces.{next_number, piece, chosen_piece}, Made.{header, made_code, made}};

use std::alloc::{AllocError, Global};

/// The pieces of a made client. Source: own.
pub const PIECES: u32 = 2000;

// The number after x. Source: Knuth's MMIX.
fn next(x: u64) -> u64
    ensures { result ≡ next_number x }
{
    x.wrapping_mul(6_364_136_223_846_793_005)
        .wrapping_add(1_442_695_040_888_963_407)
}

// Adds the piece of this kind with its parameter.
fn add_piece(code: &mut Vec<u8>, kind: u8, parameter: u16) -> Result<(), AllocError>
    ensures added { OnOk result (code.new.items ≡ code.old.items ++ piece kind parameter) }
    ensures short { length code.new.items ≤ length code.old.items + 16 }
{
    let low = (parameter % 0x100) as u8;
    let high = (parameter / 0x100) as u8;
    match kind {
        0 => code.extend_from_slice(&[
            0xB8,
            0x00,
            0x00,
            0xB9,
            (parameter % 4) as u8,
            0x00,
            0xCD,
            0x31,
            0x89,
            0xC3,
        ]),
        1 => code.extend_from_slice(&[
            0xB8, 0x08, 0x00, 0xB9, low, high, 0xBA, 0xFF, 0x0F, 0xCD, 0x31,
        ]),
        2 => code.extend_from_slice(&[
            0xB8, 0x01, 0x05, 0xBB, 0x00, 0x00, 0xB9, low, high, 0xCD, 0x31,
        ]),
        3 => code.extend_from_slice(&[0xB8, 0x02, 0x05, 0xCD, 0x31]),
        4 => code.extend_from_slice(&[0xB2, 0x20 + (parameter % 64) as u8, 0xB4, 0x02, 0xCD, 0x21]),
        5 => code.extend_from_slice(&[0xB8, 0x02, 0x00, 0xBB, low, high, 0xCD, 0x31, 0x89, 0xC3]),
        6 => code.extend_from_slice(&[
            0xB8, 0x00, 0x06, 0xBB, 0x40, 0x00, 0xB9, 0x00, 0x00, 0x31, 0xF6, 0xBF, low, high,
            0xCD, 0x31,
        ]),
        _ => code.extend_from_slice(&[0xB8, 0x01, 0x00, 0xCD, 0x31]),
    }
}

// Adds the piece that the number chooses.
fn add_chosen(code: &mut Vec<u8>, x: u64) -> Result<(), AllocError>
    ensures added { OnOk result (code.new.items ≡ code.old.items ++ chosen_piece x) }
    ensures short { length code.new.items ≤ length code.old.items + 16 }
{
    let kind = (x / 0x100_0000_0000_0000 % 8) as u8;
    let parameter = (x / 0x1_0000_0000 % 0x1_0000) as u16;
    add_piece(code, kind, parameter)
}

// The code of the client: the entry into protected mode, the pieces, the end.
#[tactic(auto, using(crate::proofs::InTurn::number_first, crate::proofs::InTurn::number_next, crate::proofs::InTurn::pieces_first, //
crate::proofs::InTurn::pieces_next))]
fn made_code(alloc: Global, seed: u64) -> Result<Vec<u8>, AllocError>
    ensures code { IfOk result (λ code. code.items ≡ made_code seed) }
    ensures short { IfOk result (λ code. length code.items ≤ 32_019) }
{
    let mut code = Vec::new(alloc);
    code.extend_from_slice(&[
        0xB8, 0x87, 0x16, 0xCD, 0x2F, 0x06, 0x57, 0x89, 0xE5, 0x31, 0xC0, 0xFF, 0x5E, 0x00,
    ])?;
    let mut x = seed;
    for _ in 0..PIECES {
        x = next(x);
        add_chosen(&mut code, x)?;
    }
    code.extend_from_slice(&[0xB8, 0x00, 0x4C, 0xCD, 0x21])?;
    Ok(code)
}

// The header of a file with that many bytes of code.
fn header_of(code_bytes: u32) -> [u8; 32]
    requires { code_bytes ≤ 32_019 }
    ensures { result ≡ header code_bytes }
{
    let last_page = (32 + code_bytes) % 512;
    let pages = (32 + code_bytes + 511) / 512;
    let stack = (code_bytes + 15) / 16;
    [
        b'M',
        b'Z',
        (last_page % 0x100) as u8,
        (last_page / 0x100) as u8,
        (pages % 0x100) as u8,
        (pages / 0x100) as u8,
        0,
        0,
        2,
        0,
        0x10,
        0,
        0xFF,
        0xFF,
        (stack % 0x100) as u8,
        (stack / 0x100) as u8,
        0,
        1,
        0,
        0,
        0,
        0,
        0,
        0,
        0x1C,
        0,
        0,
        0,
        0,
        0,
        0,
        0,
    ]
}

/// Makes the file of the client of a seed: an MZ file of 10,051 to 32,051 bytes, whose client enters protected mode,
/// makes 2000 calls and ends with code 0. The same seed makes the same file.
/// Fails where memory is out. Source: own.
pub fn make(alloc: Global, seed: u64) -> Result<Vec<u8>, AllocError>
    ensures { IfOk result (λ file. file.items ≡ made seed) }
{
    let code = made_code(alloc, seed)?;
    let mut file = Vec::new(alloc);
    file.extend_from_slice(header_of(code.len() as u32).as_slice())?;
    file.extend_from_slice(code.as_slice())?;
    Ok(file)
}
