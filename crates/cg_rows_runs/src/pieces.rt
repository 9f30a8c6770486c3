ghost use Rattle.std.specs.Prelude.{◌≤◌, None, IfOk, IsErr, length};
ghost use Rattle.cg_base.specs.Outside.{HasCause};

use cg_base::{Failed, List, MemSource, Source};
use std::alloc::Global;

/// A source in memory that gives no more than a number of bytes at a time. Its content is not told.
#[derive(Drop)]
pub struct PiecedSource {
    source: MemSource,
    most: usize,
}

impl PiecedSource {
    /// A source of these bytes, whose calls with the numbers `bad` are to fail.
    pub fn new(bytes: List<u8>, bad: List<u64>, most: usize) -> PiecedSource {
        PiecedSource {
            source: MemSource::new(bytes, bad),
            most,
        }
    }

    /// A source without bytes.
    pub fn empty(alloc: Global) -> PiecedSource {
        PiecedSource::new(List::new(alloc), List::new(alloc), 1)
    }
}

impl Source for PiecedSource {
    ghost left = { λ _. None };

    ghost faults = { λ s. s.source.calls.faults };

    fn fill(&mut self, buf: &mut [u8]) -> Result<usize, Failed>
        ensures bound { IfOk result (λ n. n ≤ length buf.new) }
        ensures cause { HasCause (IsErr result) self.old.source.calls.faults self.new.source.calls.faults }
    {
        let most = self.most.min(buf.len());
        self.source.fill(&mut buf[..most])
    }
}
