//! Files by their names, and the builds of them.

ghost use Rattle.std.specs.Prelude.{◌≡◌, ◌<◌, ◌≤◌, None, IfOk, OnOk, OnErr, option_copied};
ghost use Rattle.cg_keep.specs.declared.keep.KeepFault.TheVariants.{Memory as OutOfMemory};

use crate::build::{build, source_of};
use crate::names::wanted_names;
use cg_base::{FileMap, Gate, List, Memory, Steps, Text};
use cg_desc::{DescFault, Fault};
use cg_design::DesignSource;
use cg_outputs::OutFile;
use std::alloc::Global;
use std::marker::Model;
use std::sync::ledger::Ledger;
use std::thread::Threads;

/// What was built: all files that are written, by name, the manifest last.
#[derive(Drop)]
pub struct Built {
    pub files: List<OutFile>,
}

/// Why nothing was built: the files break a rule, of which this is the first, or memory was not found.
#[derive(Drop)]
pub enum KeepFault {
    Refused(Fault),
    Memory,
}

impl From<Memory> for KeepFault {
    ghost from_gives = { λ _ e. e ≡ OutOfMemory };

    fn from(_: Memory) -> Self {
        KeepFault::Memory
    }
}

/// The files of a top's build, by their names, with what was last built of them.
#[derive(Drop)]
pub struct Keep {
    alloc: Global,
    top: Text,
    files: FileMap,
    last: Option<Built>,
}

impl Model for Keep {
    ghost use Rattle.cg_base.specs.FileMap.{files_code};
    ghost use Rattle.std.specs.Coded.{codes};
    ghost use Rattle.cg_keep.specs.Kept.{Kept};

    ghost Value = { Kept };

    ghost coded = { Prim.hlevel (codes, files_code) };

    ghost view = { λ k. record { top = k.top; files = k.files; last = k.last } };
}

impl Keep {
    ghost use Rattle.std.specs.FinMap as map;
    ghost use Rattle.cg_keep.specs.Files.{AreWanted};
    ghost use Rattle.cg_desc.specs.Merged.{IsMerged};
    ghost use Rattle.cg_space.specs.Violations.{NoViolation};
    ghost use Rattle.cg_keep.specs.Kept.{Describes, Refreshes};

    /// No files yet; the top's own is the one of this name.
    pub fn new(alloc: Global, top: Text) -> Result<Keep, Memory>
        ensures { IfOk result (λ k. k ≡ record { top = top; files = map.empty; last = None }) }
    {
        Ok(Keep {
            alloc,
            top,
            files: FileMap::new(alloc),
            last: None,
        })
    }

    /// Puts a file, in the place of one with its name. On `Memory` nothing changes, and the bytes are dropped.
    pub fn put(&mut self, name: Text, bytes: List<u8>) -> Result<(), Memory>
        ensures ok { OnOk result (self.new ≡ record self.old { files = map.insert self.old.files name bytes }) }
        ensures err { OnErr result (self.new ≡ self.old) }
    {
        self.files.insert(name.as_str(), bytes)
    }

    /// Takes a file away, if it is there.
    pub fn del(&mut self, name: &str)
        ensures { self.new ≡ record self.old { files = map.remove self.old.files name.now } }
    {
        self.files.remove(name);
    }

    /// The bytes of a file; `None` exactly where it is not kept.
    pub fn file(&self, name: &str) -> Option<&[u8]>
        ensures { option_copied result ≡ map.get self.now.files name.now }
    {
        self.files.get(name)
    }

    /// The names of the files of the build, in their order: the top's own, then those of the crossbars that it lists, then those of
    /// the types of its instances. Where the top's own file breaks a rule by itself, it is the only one.
    pub fn wanted(&self) -> Result<List<Text>, Memory>
        ensures { IfOk result (λ names. AreWanted (map.get self.now.files self.now.top) self.now.top names) }
    {
        wanted_names(
            self.alloc,
            self.files.get(self.top.as_str()),
            self.top.as_str(),
        )
    }

    /// What the files describe together: the top, merged with its crossbars and blocks, and the trees of the descriptions; or the first of all that they break,
    /// exactly, where it is one of the rules up to those on ranges.
    pub fn source(&self) -> Result<DesignSource, DescFault>
        ensures describes { Describes result self.now.top self.now.files }
        ensures merged { IfOk result (λ s. IsMerged s.merged) }
        ensures spaced { IfOk result (λ s. NoViolation s.merged) }
    {
        source_of(self.alloc, &self.files, self.top.as_str())
    }

    /// Builds the files as they are, and keeps what is built: all that is written of them, or the first of all that they break, exactly.
    ///
    /// The answer is that of a build of these files from nothing, whatever was built before, with any number of workers from 1 to 64 and
    /// any gate. Where the files break a rule, or memory is not found, what was last built stays; the files stay always.
    pub fn rebuild<R: Threads + Sync, G: Gate + Sync, L: Ledger>(
        &mut self,
        _rt: &R,
        _workers: u8,
        _gate: &G,
        _steps: &mut Steps<L>,
    ) -> Result<(), KeepFault>
        requires some { 0 < _workers }
        requires few { _workers ≤ 64 }
        ensures refreshes { Refreshes self.old self.new result }
        ensures steps { _steps.new ≡ _steps.old }
    {
        match build(self.alloc, &self.files, self.top.as_str()) {
            Ok(files) => {
                self.last = Some(Built { files });
                Ok(())
            }
            Err(DescFault::Fault(fault)) => Err(KeepFault::Refused(fault)),
            Err(DescFault::Memory) => Err(KeepFault::Memory),
        }
    }

    /// What was last built; `None` exactly where nothing was yet.
    pub fn last_built(&self) -> Option<&Built>
        ensures { option_copied result ≡ self.now.last }
    {
        self.last.as_ref()
    }
}
