// A shelf in memory, whose calls fail by a list.
ghost use Rattle.std.specs.Prelude.{◌≡◌, ◌≤◌, ◌<◌, ◌↔◌, length, take, drop, string_bytes, IfOk, OnOk, OnErr, IsErr, IsErrOf, IsSome};
ghost use Rattle.std.specs.{Prelude.{IsTrue}, Option.{option_copied}};
ghost use Rattle.dpmi_io.specs.StoredFiles.{files_of};
ghost use Rattle.std.specs.FinMap as map;

use crate::open_file::{OpenFile, give};
use crate::plan::FaultPlan;
use crate::{Shelf, ShelfFail};
use std::alloc::{AllocError, Global};
use std::collections::BTreeMap;
use std::marker::Model;

/// Files in memory.
/// Its calls of `open` and `read` count together from 1, and fail where they are listed.
/// Source: own.
#[derive(Drop)]
pub struct MemShelf {
    alloc: Global,
    files: BTreeMap<String, Vec<u8>>,
    current: Option<OpenFile>,
    blamed: Option<String>,
    plan: FaultPlan,
}

impl Model for MemShelf {
    ghost use Rattle.std.specs.Prelude.{string_bytes};
    ghost use Rattle.std.specs.Option.{option_map};
    ghost use Rattle.std.specs.Coded.{codes};
    ghost use Rattle.dpmi_io.specs.MemShelf.{MemShelfState, file_map_code};

    ghost Value = { MemShelfState };

    ghost coded = { Prim.hlevel (codes, file_map_code) };

    ghost use Rattle.dpmi_io.specs.StoredFiles.{files_of, open_at};

    ghost view = { λ s. record {
      files = files_of s.files.entries;
      current = option_map open_at s.current;
      blamed = option_map string_bytes s.blamed;
      plan = s.plan;
    } };
}

impl Shelf for MemShelf {
    ghost use Rattle.std.specs.Prelude.{Some, None};
    ghost use Rattle.dpmi_io.specs.Causes.{Rose};
    ghost use Rattle.dpmi_io.specs.Content.{Starts, Lacks, Gives};
    ghost use Rattle.dpmi_io.specs.FaultPlan.{is_listed};
    ghost use Rattle.dpmi_io.specs.MemShelf.{shelf_open, shelf_left, open_result, read_count, after_open, after_missing, after_failure};
    ghost use Rattle.dpmi_io.specs.MemShelf.{after_read};

    ghost open_name = { shelf_open };

    ghost blamed = { λ s. s.blamed };

    ghost files = { λ s. Some (map.get s.files) };

    ghost left = { shelf_left };

    ghost faults = { λ s. s.plan.faults };

    fn open(&mut self, name: String) -> Result<(), ShelfFail>
        ensures result { result ≡ open_result self.old (string_bytes name) }
        ensures after { OnOk result (self.new ≡ after_open self.old (string_bytes name)) }
        ensures after_missing { IsErrOf result ShelfFail.Missing → self.new ≡ after_missing self.old }
        ensures after_failed { IsErrOf result ShelfFail.Failed → self.new ≡ after_failure self.old (Some (string_bytes name)) }

        // What a shelf promises.
        ensures files { map.get self.new.files ≡ map.get self.old.files }
        ensures opened { OnOk result (shelf_open self.new ≡ Some (string_bytes name)) }
        ensures starts { OnOk result (Starts (Some (map.get self.old.files)) (string_bytes name) (shelf_left self.new)) }
        ensures quiet { OnOk result ((self.new.plan.faults ≡ self.old.plan.faults) × (self.new.blamed ≡ self.old.blamed)) }
        ensures missing { IsErrOf result ShelfFail.Missing →
            Lacks (Some (map.get self.old.files)) (string_bytes name)
            × (self.new.plan.faults ≡ self.old.plan.faults)
            × (self.new.blamed ≡ self.old.blamed) }
        ensures failed { IsErrOf result ShelfFail.Failed →
            Rose self.old.plan.faults self.new.plan.faults × (self.new.blamed ≡ Some (string_bytes name)) }
        ensures later { self.old.plan.faults ≤ self.new.plan.faults }
        ensures closed { OnErr result (shelf_open self.new ≡ None) }
    {
        self.current = None;
        if self.plan.count() {
            self.plan.fail();
            self.blamed = Some(name);
            return Err(ShelfFail::Failed);
        }
        if stored(&self.files, name.as_str()).is_none() {
            return Err(ShelfFail::Missing);
        }
        self.current = Some(OpenFile { name, at: 0 });
        Ok(())
    }

    fn read(&mut self, buf: &mut [u8]) -> Result<usize, ShelfFail>
        requires opened { IsSome (shelf_open self.old) }
        requires room { 0 < length buf.old }
        ensures fails { IsErr result ↔ IsTrue (is_listed self.old.plan) }
        ensures count { IfOk result (λ n. n ≡ read_count (shelf_left self.old) (length buf.old)) }
        ensures after { IfOk result (λ n. self.new ≡ after_read self.old n) }
        ensures after_failed { OnErr result (self.new ≡ after_failure self.old (shelf_open self.old)) }
        ensures rest { IfOk result (λ n. drop n buf.new ≡ drop n buf.old) }
        ensures unused { OnErr result (buf.new ≡ buf.old) }

        // What a shelf promises.
        ensures files { map.get self.new.files ≡ map.get self.old.files }
        ensures bound { IfOk result (λ n. n ≤ length buf.new) }
        ensures bytes { IfOk result (λ n. Gives (shelf_left self.old) (shelf_left self.new) (take n buf.new)) }
        ensures opened { OnOk result (shelf_open self.new ≡ shelf_open self.old) }
        ensures quiet { OnOk result ((self.new.plan.faults ≡ self.old.plan.faults) × (self.new.blamed ≡ self.old.blamed)) }
        ensures not_missing { IsErrOf result ShelfFail.Missing → ⊥ }
        ensures failed { OnErr result
            (Rose self.old.plan.faults self.new.plan.faults × (self.new.blamed ≡ shelf_open self.old)) }
        ensures later { self.old.plan.faults ≤ self.new.plan.faults }
        ensures closed { OnErr result (shelf_open self.new ≡ None) }
    {
        if self.plan.count() {
            self.plan.fail();
            self.blamed = self.current.take().map(|current| current.name);
            return Err(ShelfFail::Failed);
        }
        let Some(current) = self.current.as_mut() else {
            return Ok(0);
        };
        let bytes = stored(&self.files, current.name.as_str()).unwrap_or(&[]);
        Ok(give(bytes, &mut current.at, buf))
    }
}

// The bytes of the file of that name.
fn stored<'a>(files: &'a BTreeMap<String, Vec<u8>>, name: &str) -> Option<&'a [u8]>
    ensures { option_copied result ≡ map.get (files_of files.now.entries) name.now }
{
    match files.get(name) {
        Some(bytes) => Some(bytes.as_slice()),
        None => None,
    }
}

impl MemShelf {
    ghost use Rattle.dpmi_io.specs.FaultPlan.{after_listing};
    ghost use Rattle.dpmi_io.specs.MemShelf.{new_shelf, after_add};

    /// A shelf with no files, of which no call is to fail. Source: own.
    pub fn new(alloc: Global) -> MemShelf
        ensures { result ≡ new_shelf }
    {
        MemShelf {
            alloc,
            files: BTreeMap::new(alloc),
            current: None,
            blamed: None,
            plan: FaultPlan::new(alloc),
        }
    }

    /// Adds a file, or gives the one of that name these bytes. A file that is open goes on at its place in the new bytes. Fails where
    /// memory is out; the shelf is then as it was. Source: own.
    pub fn add(&mut self, name: &str, bytes: &[u8]) -> Result<(), AllocError>
        ensures ok { OnOk result (self.new ≡ after_add self.old name.now bytes.now) }
        ensures err { OnErr result (self.new ≡ self.old) }
    {
        let bytes = bytes.to_vec(self.alloc)?;
        let name = String::from_str(self.alloc, name)?;
        self.files.insert(name, bytes)?;
        Ok(())
    }

    /// Lists a call that isn't made yet, counted from 1: it will fail. Fails itself where memory is out; the shelf is then as it was.
    /// Source: own.
    pub fn fail_at(&mut self, call: u64) -> Result<(), AllocError>
        requires { self.old.plan.calls < call }
        ensures ok { OnOk result (self.new ≡ record self.old { plan = after_listing self.old.plan call }) }
        ensures err { OnErr result (self.new ≡ self.old) }
    {
        self.plan.fail_at(call)
    }
}
