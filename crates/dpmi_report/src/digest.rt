// The digests of the DOS megabyte and of a memory block.
ghost use Rattle.std.specs.Prelude.{◌≡◌, ◌≤◌, ◌+◌, ◌*◌, length, take, drop};
ghost use Rattle.sha2.specs.Sha256.{sha256};
ghost use Rattle.client_world.specs.{declared.host_frames.TheConstants.{PAGE_SIZE}, declared.memory_map.TheConstants.{BLOCK_REGION_END}};
ghost use Rattle.client_world.specs.{declared.memory_map.TheConstants.{DOS_SIZE}, Access.{bytes_of_block}, World.{block_at}};

use client_world::host_frames::PAGE_SIZE;
use client_world::memory_map::DOS_SIZE;
use guest_space::Machine;
use sha2::{Digest, Sha256};

// The bytes of a piece, which are hashed together.
const PIECE_SIZE: u32 = 64;

// A piece of the megabyte from an address on.
fn dos_piece(machine: &Machine, at: u32) -> [u8; 64]
    requires inside { at + 64 ≤ DOS_SIZE }
    requires size { length machine.now.world.dos ≡ DOS_SIZE }
    ensures { result ≡ take 64 (drop at machine.now.world.dos) }
{
    let mut piece = [0; 64];
    for i in 0..PIECE_SIZE {
        piece[i as usize] = machine.dos8(at + i);
    }
    piece
}

/// The SHA-256 digest of the DOS megabyte. Source: FIPS 180-4.
pub fn dos_digest(machine: &Machine) -> [u8; 32]
    ensures { result ≡ sha256 machine.now.world.dos }
{
    machine.soundness();
    let mut hasher = Sha256::new();
    for i in 0..DOS_SIZE / PIECE_SIZE {
        hasher.update(dos_piece(machine, i * PIECE_SIZE));
    }
    hasher.finalize()
}

// A piece of a memory block from a place on.
fn block_piece(machine: &Machine, handle: u16, at: u32) -> [u8; 64]
    requires inside { at + 64 ≤ length (bytes_of_block (block_at machine.now.world.blocks handle)) }
    requires low { at + 64 ≤ BLOCK_REGION_END }
    ensures { result ≡ take 64 (drop at (bytes_of_block (block_at machine.now.world.blocks handle))) }
{
    let mut piece = [0; 64];
    for i in 0..PIECE_SIZE {
        piece[i as usize] = machine.block8(handle, at + i);
    }
    piece
}

/// The SHA-256 digest of the bytes of a memory block with that many pages. Source: FIPS 180-4.
pub fn block_digest(machine: &Machine, handle: u16, pages: u32) -> [u8; 32]
    requires size { length (bytes_of_block (block_at machine.now.world.blocks handle)) ≡ pages * PAGE_SIZE }
    requires few { pages * PAGE_SIZE ≤ BLOCK_REGION_END }
    ensures { result ≡ sha256 (bytes_of_block (block_at machine.now.world.blocks handle)) }
{
    let mut hasher = Sha256::new();
    for i in 0..pages * (PAGE_SIZE / PIECE_SIZE) {
        hasher.update(block_piece(machine, handle, i * PIECE_SIZE));
    }
    hasher.finalize()
}
