// Whole texts put, and files read to their end or to the end of a buffer.
ghost use Rattle.std.specs.Prelude.{◌≡◌, ◌≤◌, length, take, IfOk, OnOk, OnErr, IfSome, IsErrOf, IsSome};
ghost use Rattle.dpmi_io.specs.{Causes.{Rose}, Puts.{Puts}};

use crate::{Shelf, ShelfFail, Sink, SinkFail};

/// Puts all of the bytes. It takes no memory. Where it fails a prefix of them was taken, and the count of faults rose. Source: own.
pub fn put_all<O: Sink>(out: &mut O, bytes: &[u8]) -> Result<(), SinkFail>
    ensures puts { Puts result O.taken O.faults out.old out.new bytes.now }
    ensures later { O.faults out.old ≤ O.faults out.new }
{
    let mut done = 0;
    while done < bytes.len() {
        match out.put(&bytes[done..]) {
            Ok(count) => done += count,
            Err(fail) => return Err(fail),
        }
    }
    Ok(())
}

/// Reads the open file to its end, or the buffer full, and returns the number of bytes. It fails as `Failed` alone, and the count of faults
/// then rose. Source: own.
pub fn read_whole<F: Shelf>(shelf: &mut F, buf: &mut [u8]) -> Result<usize, ShelfFail>
    requires { IsSome (F.open_name shelf.old) }
    ensures files { F.files shelf.new ≡ F.files shelf.old }
    ensures bound { IfOk result (λ n. n ≤ length buf.new) }
    ensures bytes { IfOk result (λ n.
        IfSome (F.left shelf.old) (λ left. take n buf.new ≡ take (length buf.new) left)) }
    ensures quiet { OnOk result
        ((F.faults shelf.new ≡ F.faults shelf.old) × (F.blamed shelf.new ≡ F.blamed shelf.old)) }
    ensures not_missing { IsErrOf result ShelfFail.Missing → ⊥ }
    ensures failed { OnErr result
        (Rose (F.faults shelf.old) (F.faults shelf.new) × (F.blamed shelf.new ≡ F.open_name shelf.old)) }
{
    let mut done = 0;
    while done < buf.len() {
        let got = shelf.read(&mut buf[done..])?;
        if got == 0 {
            break;
        }
        done += got;
    }
    Ok(done)
}
