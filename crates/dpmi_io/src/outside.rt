// Where files come from and where text goes, and when a call of them may fail.
ghost use Rattle.std.specs.Prelude.{◌≡◌, ◌≤◌, ◌<◌, List, ℕ, Some, None, length, take, string_bytes, IfOk, OnOk, OnErr, IsErrOf, IsSome};
ghost use Rattle.std.specs.declared.option.Option.{Option};
ghost use Rattle.dpmi_io.specs.{Causes.{Rose}, Content.{Files, Starts, Lacks, Gives, Shown, Gains, GainsPart}};

use thiserror::Error;

/// Why a call of a shelf failed. Source: own.
#[derive(Clone, Copy, Debug, PartialEq, Eq, Error)]
pub enum ShelfFail {
    /// There is no file of that name.
    #[error("there is no such file")]
    Missing,
    /// The file could not be opened or read.
    #[error("the file could not be read")]
    Failed,
}

/// A sink took no further byte. Source: own.
#[derive(Clone, Copy, Debug, PartialEq, Eq, Error)]
#[error("the output could not be written")]
pub struct SinkFail;

/// Files by name, of which at most one is open. Source: own.
pub trait Shelf {
    /// The name of the open file.
    ghost open_name: { Self → Option (List ℕ) };

    /// The name of the file at the last call that returned `Failed`.
    ghost blamed: { Self → Option (List ℕ) };

    /// The files, where they are known.
    ghost files: { Self → Option Files };

    /// The bytes left of the open file, where they are known.
    ghost left: { Self → Option (List ℕ) };

    /// How often a call returned `Failed`, up to the greatest u64.
    ghost faults: { Self → ℕ };

    /// Starts the file of that name, in the place of the one that was open.
    /// `Missing`: the files are known, and none has the name. `Failed`: the count of faults rose.
    fn open(&mut self, name: String) -> Result<(), ShelfFail>
        ensures files { files self.new ≡ files self.old }
        ensures opened { OnOk result (open_name self.new ≡ Some (string_bytes name)) }
        ensures starts { OnOk result (Starts (files self.old) (string_bytes name) (left self.new)) }
        ensures quiet { OnOk result
            ((faults self.new ≡ faults self.old) × (blamed self.new ≡ blamed self.old)) }
        ensures missing { IsErrOf result ShelfFail.Missing →
            Lacks (files self.old) (string_bytes name)
            × (faults self.new ≡ faults self.old)
            × (blamed self.new ≡ blamed self.old) }
        ensures failed { IsErrOf result ShelfFail.Failed →
            Rose (faults self.old) (faults self.new) × (blamed self.new ≡ Some (string_bytes name)) }
        ensures later { faults self.old ≤ faults self.new }
        ensures closed { OnErr result (open_name self.new ≡ None) };

    /// Moves the first of the bytes left to the start of the buffer, and returns their number,
    /// which is 0 only at the end. It fails as `Failed` alone, and the count of faults then rose.
    fn read(&mut self, buf: &mut [u8]) -> Result<usize, ShelfFail>
        requires opened { IsSome (open_name self.old) }
        requires room { 0 < length buf.old }
        ensures files { files self.new ≡ files self.old }
        ensures bound { IfOk result (λ n. n ≤ length buf.new) }
        ensures bytes { IfOk result (λ n. Gives (left self.old) (left self.new) (take n buf.new)) }
        ensures opened { OnOk result (open_name self.new ≡ open_name self.old) }
        ensures quiet { OnOk result
            ((faults self.new ≡ faults self.old) × (blamed self.new ≡ blamed self.old)) }
        ensures not_missing { IsErrOf result ShelfFail.Missing → ⊥ }
        ensures failed { OnErr result
            (Rose (faults self.old) (faults self.new) × (blamed self.new ≡ open_name self.old)) }
        ensures later { faults self.old ≤ faults self.new }
        ensures closed { OnErr result (open_name self.new ≡ None) };
}

/// Where text goes. Source: own.
pub trait Sink {
    /// What is shown of the bytes taken.
    ghost taken: { Self → Shown };

    /// How often a call failed, up to the greatest u64.
    ghost faults: { Self → ℕ };

    /// Takes some of the first bytes, at least one, and returns their number.
    /// Where it fails it may have taken some of the first, and the count of faults rose.
    fn put(&mut self, bytes: &[u8]) -> Result<usize, SinkFail>
        requires { 0 < length bytes.now }
        ensures bound { IfOk result (λ n. (0 < n) × (n ≤ length bytes.now)) }
        ensures took { IfOk result (λ n. Gains (taken self.old) (taken self.new) (take n bytes.now)) }
        ensures quiet { OnOk result (faults self.new ≡ faults self.old) }
        ensures part { OnErr result (GainsPart (taken self.old) (taken self.new) bytes.now) }
        ensures failed { OnErr result (Rose (faults self.old) (faults self.new)) }
        ensures later { faults self.old ≤ faults self.new };
}
