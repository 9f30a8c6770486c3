ghost use Rattle.std.specs.Prelude.{◌≡◌, [], IsOk, Some};
ghost use Rattle.std.specs.Option.{option_copied};
ghost use Rattle.std.specs.FinMap as map;

use crate::rest::Rest;
use crate::{Failed, FileMap, Found, List, Sink, SinkFault, Source, Store, StoreFault};
use std::alloc::Global;
use std::marker::Model;

/// A store in memory that never fails. Its files are told.
#[derive(Drop)]
pub struct CalmStore {
    files: FileMap,
}

impl Model for CalmStore {
    ghost use Rattle.cg_base.specs.Outside.{Files};
    ghost use Rattle.cg_base.specs.FileMap.{files_code};

    ghost Value = { Files };

    ghost coded = { files_code };

    ghost view = { λ s. s.files };
}

impl CalmStore {
    /// A store without files.
    pub fn new(alloc: Global) -> CalmStore
        ensures { result ≡ map.empty }
    {
        CalmStore {
            files: FileMap::new(alloc),
        }
    }

    /// The bytes of a file; `None` exactly where the name is not in the store.
    pub fn file(&self, name: &str) -> Option<&[u8]>
        ensures { option_copied result ≡ map.get self.now name.now }
    {
        self.files.get(name)
    }
}

impl Store for CalmStore {
    ghost content = { λ s. Some s };

    ghost read_faults = { λ _. 0 };

    ghost change_faults = { λ _. 0 };

    fn read(&mut self, name: &str, limit: usize, into: &mut Vec<u8>) -> Result<Found, StoreFault> {
        self.files.read(name, limit, into)
    }

    fn write(&mut self, name: &str, bytes: &[u8]) -> Result<(), StoreFault> {
        self.files.write(name, bytes)?;
        Ok(())
    }

    // It takes no memory, and so it always does what it was asked to.
    fn remove(&mut self, name: &str) -> Result<(), StoreFault>
        ensures done { IsOk result }
        ensures removed { self.new ≡ map.remove self.old name.now }
    {
        self.files.remove(name);
        Ok(())
    }
}

/// A source in memory that never fails. The bytes that are left are told.
#[derive(Drop)]
pub struct CalmSource {
    rest: Rest,
}

impl Model for CalmSource {
    ghost use Rattle.std.specs.Prelude.{List, ℕ};

    ghost Value = { List ℕ };

    ghost view = { λ s. s.rest };
}

impl CalmSource {
    /// A source that has these bytes left.
    pub fn new(bytes: List<u8>) -> CalmSource
        ensures { result ≡ bytes }
    {
        CalmSource {
            rest: Rest::new(bytes),
        }
    }
}

impl Source for CalmSource {
    ghost left = { λ s. Some s };

    ghost faults = { λ _. 0 };

    fn fill(&mut self, buf: &mut [u8]) -> Result<usize, Failed> {
        Ok(self.rest.give(buf))
    }
}

/// A sink in memory that never fails. The bytes that it took are told.
#[derive(Drop)]
pub struct CalmSink {
    held: List<u8>,
}

impl Model for CalmSink {
    ghost use Rattle.std.specs.Prelude.{List, ℕ};

    ghost Value = { List ℕ };

    ghost view = { λ s. s.held };
}

impl CalmSink {
    /// A sink that has taken nothing.
    pub fn new(alloc: Global) -> CalmSink
        ensures { result ≡ [] }
    {
        CalmSink {
            held: List::new(alloc),
        }
    }

    /// The bytes that the sink took.
    pub fn bytes(&self) -> &[u8]
        ensures { result.now ≡ self.now }
    {
        self.held.as_slice()
    }
}

impl Sink for CalmSink {
    ghost held = { λ s. Some s };

    ghost faults = { λ _. 0 };

    fn put(&mut self, bytes: &[u8]) -> Result<(), SinkFault> {
        self.held.add(bytes)?;
        Ok(())
    }
}
