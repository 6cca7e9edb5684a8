// Flags by their letters.
use client_world::Flags;

/// The flags that the letters O, D, S, Z, A, P and C name.
pub(crate) fn flags(letters: &[u8]) -> Flags {
    let mut f = Flags::CLEAR;
    for letter in letters {
        match *letter {
            b'O' => f.of = true,
            b'D' => f.df = true,
            b'S' => f.sf = true,
            b'Z' => f.zf = true,
            b'A' => f.af = true,
            b'P' => f.pf = true,
            b'C' => f.cf = true,
            _ => {}
        }
    }
    f
}
