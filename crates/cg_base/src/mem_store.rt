ghost use Rattle.std.specs.Prelude.{◌≡◌, OnOk, OnErr, IsErrOf, Some};
ghost use Rattle.std.specs.Option.{option_copied};
ghost use Rattle.std.specs.FinMap as map;
ghost use Rattle.cg_base.specs.Outside.{HasCause, ReadsFile, ReadInto};
ghost use Rattle.cg_base.specs.Calls.{none_made, Counts};

use crate::calls::Calls;
use crate::{FileMap, Found, List, Memory, Store, StoreFault};
use std::alloc::Global;
use std::marker::Model;

/// A store in memory that fails at the calls that it is told.
///
/// It counts its reads and its changes, each from 1, and answers `Failed` exactly at the calls of
/// its two lists. Its files are told. A refused write or remove leaves all files as they were.
#[derive(Drop)]
pub struct MemStore {
    files: FileMap,
    reads: Calls,
    changes: Calls,
}

impl Model for MemStore {
    ghost use Rattle.std.specs.Coded.{codes};
    ghost use Rattle.cg_base.specs.FileMap.{files_code};
    ghost use Rattle.cg_base.specs.InMemory.{StoreInMemory};

    ghost Value = { StoreInMemory };

    ghost coded = { Prim.hlevel (codes, files_code) };

    ghost view = { λ s. record { files = s.files; reads = s.reads; changes = s.changes } };
}

impl MemStore {
    /// A store without files, whose reads and changes with these numbers are to fail.
    pub fn new(alloc: Global, bad_reads: List<u64>, bad_changes: List<u64>) -> MemStore
        ensures files { result.files ≡ map.empty }
        ensures reads { result.reads ≡ none_made bad_reads }
        ensures changes { result.changes ≡ none_made bad_changes }
    {
        MemStore {
            files: FileMap::new(alloc),
            reads: Calls::new(bad_reads),
            changes: Calls::new(bad_changes),
        }
    }

    /// Sets a file, which counts as no call. On `Memory` the store is as it was.
    pub fn add(&mut self, name: &str, bytes: &[u8]) -> Result<(), Memory>
        ensures ok { OnOk result (self.new ≡ record self.old { files = map.insert self.old.files name.now bytes.now }) }
        ensures err { OnErr result (self.new ≡ self.old) }
    {
        self.files.write(name, bytes)
    }

    /// The bytes of a file; `None` exactly where the name is not in the store.
    pub fn file(&self, name: &str) -> Option<&[u8]>
        ensures { option_copied result ≡ map.get self.now.files name.now }
    {
        self.files.get(name)
    }
}

impl Store for MemStore {
    ghost content = { λ s. Some s.files };

    ghost read_faults = { λ s. s.reads.faults };

    ghost change_faults = { λ s. s.changes.faults };

    fn read(&mut self, name: &str, limit: usize, into: &mut Vec<u8>) -> Result<Found, StoreFault>
        ensures counted { Counts (IsErrOf result StoreFault.Failed) self.old.reads self.new.reads }
        ensures same { self.new.files ≡ self.old.files }
        ensures changes { self.new.changes ≡ self.old.changes }
        ensures cause { HasCause (IsErrOf result StoreFault.Failed) self.old.reads.faults self.new.reads.faults }
        ensures found { ReadsFile (Some self.old.files) name.now limit result into.old.items into.new.items }
        ensures into { ReadInto result into.old.items into.new.items }
    {
        if self.reads.next_fails() {
            return Err(StoreFault::Failed);
        }
        self.files.read(name, limit, into)
    }

    fn write(&mut self, name: &str, bytes: &[u8]) -> Result<(), StoreFault>
        ensures counted { Counts (IsErrOf result StoreFault.Failed) self.old.changes self.new.changes }
        ensures reads { self.new.reads ≡ self.old.reads }
        ensures cause { HasCause (IsErrOf result StoreFault.Failed) self.old.changes.faults self.new.changes.faults }
        ensures written { OnOk result (self.new.files ≡ map.insert self.old.files name.now bytes.now) }
        ensures refused { OnErr result (self.new.files ≡ self.old.files) }
    {
        if self.changes.next_fails() {
            return Err(StoreFault::Failed);
        }
        self.files.write(name, bytes)?;
        Ok(())
    }

    // It takes no memory.
    fn remove(&mut self, name: &str) -> Result<(), StoreFault>
        ensures counted { Counts (IsErrOf result StoreFault.Failed) self.old.changes self.new.changes }
        ensures reads { self.new.reads ≡ self.old.reads }
        ensures cause { HasCause (IsErrOf result StoreFault.Failed) self.old.changes.faults self.new.changes.faults }
        ensures removed { OnOk result (self.new.files ≡ map.remove self.old.files name.now) }
        ensures refused { OnErr result (self.new.files ≡ self.old.files) }
        ensures failed { OnErr result (result ≡ Err StoreFault.Failed) }
    {
        if self.changes.next_fails() {
            return Err(StoreFault::Failed);
        }
        self.files.remove(name);
        Ok(())
    }
}
