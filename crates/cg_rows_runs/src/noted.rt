ghost use Rattle.std.specs.Prelude.{◌≡◌, None, IsErrOf};
ghost use Rattle.cg_base.specs.Outside.{HasCause, ReadInto};

use cg_base::{Found, List, MemStore, Memory, Store, StoreFault};
use std::alloc::Global;

/// A store in memory that notes its changes, in order. Its content is not told.
#[derive(Drop)]
pub struct NotedStore {
    alloc: Global,
    store: MemStore,
    changes: Vec<String>,
}

impl NotedStore {
    /// A store without files, whose reads and changes with these numbers are to fail.
    pub fn new(alloc: Global, bad_reads: List<u64>, bad_changes: List<u64>) -> NotedStore {
        NotedStore {
            alloc,
            store: MemStore::new(alloc, bad_reads, bad_changes),
            changes: Vec::new(alloc),
        }
    }

    /// Sets a file, which counts as no call and is no change.
    pub fn add(&mut self, name: &str, bytes: &[u8]) -> Result<(), Memory> {
        self.store.add(name, bytes)
    }

    /// The bytes of a file.
    pub fn file(&self, name: &str) -> Option<&[u8]> {
        self.store.file(name)
    }

    /// The changes that were made, as `wrote out/b_reg_top.sv`.
    pub fn changes(&self) -> &[String] {
        self.changes.as_slice()
    }

    fn note(&mut self, change: &str, name: &str) -> Result<(), Memory>
        ensures { self.new.store ≡ self.old.store }
    {
        let note = format!(in self.alloc; "{change} {name}")?;
        self.changes.push(note)?;
        Ok(())
    }
}

impl Store for NotedStore {
    ghost content = { λ _. None };

    ghost read_faults = { λ s. s.store.reads.faults };

    ghost change_faults = { λ s. s.store.changes.faults };

    fn read(&mut self, name: &str, limit: usize, into: &mut Vec<u8>) -> Result<Found, StoreFault>
        ensures changes { self.new.store.changes.faults ≡ self.old.store.changes.faults }
        ensures cause { HasCause (IsErrOf result StoreFault.Failed) self.old.store.reads.faults self.new.store.reads.faults }
        ensures into { ReadInto result into.old.items into.new.items }
    {
        self.store.read(name, limit, into)
    }

    fn write(&mut self, name: &str, bytes: &[u8]) -> Result<(), StoreFault>
        ensures reads { self.new.store.reads.faults ≡ self.old.store.reads.faults }
        ensures cause { HasCause (IsErrOf result StoreFault.Failed) self.old.store.changes.faults self.new.store.changes.faults }
    {
        self.store.write(name, bytes)?;
        self.note("wrote", name)?;
        Ok(())
    }

    fn remove(&mut self, name: &str) -> Result<(), StoreFault>
        ensures reads { self.new.store.reads.faults ≡ self.old.store.reads.faults }
        ensures cause { HasCause (IsErrOf result StoreFault.Failed) self.old.store.changes.faults self.new.store.changes.faults }
    {
        self.store.remove(name)?;
        self.note("removed", name)?;
        Ok(())
    }
}
