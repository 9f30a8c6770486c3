ghost use Rattle.std.specs.Prelude.{◌≡◌, OnOk, OnErr, Some};
ghost use Rattle.std.specs.Option.{option_copied};
ghost use Rattle.std.specs.FinMap as map;
ghost use Rattle.cg_base.specs.Outside.{ReadsFile, ReadInto};

use crate::{Found, List, Memory, StoreFault};
use std::alloc::Global;
use std::collections::BTreeMap;
use std::marker::Model;

/// Files in memory: a map from names to bytes.
#[derive(Drop)]
pub struct FileMap {
    alloc: Global,
    files: BTreeMap<String, List<u8>>,
}

impl Model for FileMap {
    ghost use Rattle.cg_base.specs.Outside.{Files};
    ghost use Rattle.cg_base.specs.FileMap.{files_of_entries, files_code};

    ghost Value = { Files };

    ghost coded = { files_code };

    ghost view = { λ m. files_of_entries m.files.entries };
}

impl FileMap {
    /// A map without files, which takes no memory.
    pub fn new(alloc: Global) -> FileMap
        ensures { result ≡ map.empty }
    {
        FileMap {
            alloc,
            files: BTreeMap::new(alloc),
        }
    }

    /// The bytes of a file; `None` exactly where the name is not in the map.
    pub fn get(&self, name: &str) -> Option<&[u8]>
        ensures { option_copied result ≡ map.get self.now name.now }
    {
        match self.files.get(name) {
            Some(bytes) => Some(bytes.as_slice()),
            None => None,
        }
    }

    /// Appends the bytes of a file to `into`, if they are at most `limit`.
    pub fn read(&self, name: &str, limit: usize, into: &mut Vec<u8>) -> Result<Found, StoreFault>
        ensures found { ReadsFile (Some self.now) name.now limit result into.old.items into.new.items }
        ensures into { ReadInto result into.old.items into.new.items }
        ensures memory { OnErr result (result ≡ Err StoreFault.Memory) }
    {
        let Some(bytes) = self.get(name) else {
            return Ok(Found::Absent);
        };
        if bytes.len() > limit {
            return Ok(Found::Large);
        }
        into.extend_from_slice(bytes)?;
        Ok(Found::Yes)
    }

    /// Sets a file, in the place of one with its name. On `Memory` the map is as it was, and the
    /// bytes are dropped.
    pub fn insert(&mut self, name: &str, bytes: List<u8>) -> Result<(), Memory>
        ensures ok { OnOk result (self.new ≡ map.insert self.old name.now bytes) }
        ensures err { OnErr result (self.new ≡ self.old) }
    {
        let name = String::from_str(self.alloc, name)?;
        self.files.insert(name, bytes)?;
        Ok(())
    }

    /// Sets a file to a copy of these bytes. On `Memory` the map is as it was.
    pub fn write(&mut self, name: &str, bytes: &[u8]) -> Result<(), Memory>
        ensures ok { OnOk result (self.new ≡ map.insert self.old name.now bytes.now) }
        ensures err { OnErr result (self.new ≡ self.old) }
    {
        let bytes = List::of(self.alloc, bytes)?;
        self.insert(name, bytes)
    }

    /// Takes a file away, if it is there.
    pub fn remove(&mut self, name: &str)
        ensures { self.new ≡ map.remove self.old name.now }
    {
        self.files.remove(name);
    }
}
