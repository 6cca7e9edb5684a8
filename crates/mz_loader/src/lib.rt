//! The loader of MZ files.
//! It promises that a client starts in the world that its file defines, which is sound, and that a file is refused for the first reason
//! and changes nothing. It uses `guest_space`, whose machine it fills: bytes of the DOS megabyte, entries of DOS memory, and registers.
//! How the image is copied is free. The reasons (`specs/Refusal`) and the first world (`specs/Start`) aren't: a user sees the one, and
//! every run begins in the other.
#![tactic(auto)]

mod blocks;
mod header;
mod image;
mod laws;
mod loading;
mod prefix;
mod reasons;
mod registers;
mod relocations;
mod writing;

pub use laws::every_start_is_sound;
pub use loading::load;
