ghost use Rattle.std.specs.Prelude.{◌≡◌, ◌≤◌, ◌<◌, ℕ, List, Some, [], ◌++◌, OnOk, OnErr, IfOk, IsErr, IsErrOf, length, min, take};
ghost use Rattle.cg_base.specs.Outside.{HasCause, Taken, TookPrefix};
ghost use Rattle.cg_base.specs.Calls.{none_made, Counts};

use crate::calls::Calls;
use crate::rest::Rest;
use crate::{Failed, List, Sink, SinkFault, Source};
use std::alloc::Global;
use std::marker::Model;

/// A source in memory that fails at the calls that it is told.
///
/// It counts its calls from 1 and fails exactly at those of its list. The bytes that are left are
/// told. Else it gives as many bytes as there are and fit.
#[derive(Drop)]
pub struct MemSource {
    rest: Rest,
    calls: Calls,
}

impl Model for MemSource {
    ghost use Rattle.cg_base.specs.InMemory.{SourceInMemory};

    ghost Value = { SourceInMemory };

    ghost view = { λ s. record { left = s.rest; calls = s.calls } };
}

impl MemSource {
    /// A source that has these bytes left, and whose calls with the numbers `bad` are to fail.
    pub fn new(bytes: List<u8>, bad: List<u64>) -> MemSource
        ensures left { result.left ≡ bytes }
        ensures calls { result.calls ≡ none_made bad }
    {
        MemSource {
            rest: Rest::new(bytes),
            calls: Calls::new(bad),
        }
    }
}

impl Source for MemSource {
    ghost left = { λ s. Some s.left };

    ghost faults = { λ s. s.calls.faults };

    fn fill(&mut self, buf: &mut [u8]) -> Result<usize, Failed>
        ensures counted { Counts (IsErr result) self.old.calls self.new.calls }
        ensures bound { IfOk result (λ n. n ≤ length buf.new) }
        ensures most { IfOk result (λ n. n ≡ min (length self.old.left) (length buf.old)) }
        ensures taken { IfOk result (λ n. Taken (Some self.old.left) (Some self.new.left) (take n buf.new)) }
        ensures end { IfOk result (λ n. n ≡ 0 → 0 < length buf.new → (rest : List ℕ) → Some self.old.left ≡ Some rest → rest ≡ []) }
        ensures kept { OnErr result (self.new.left ≡ self.old.left) }
        ensures cause { HasCause (IsErr result) self.old.calls.faults self.new.calls.faults }
    {
        if self.calls.next_fails() {
            return Err(Failed);
        }
        Ok(self.rest.give(buf))
    }
}

/// A sink in memory that fails at the calls that it is told.
///
/// It counts its calls from 1 and answers `Failed` exactly at those of its list. Where it refuses a
/// piece it has taken nothing of it. The bytes that it took are told.
#[derive(Drop)]
pub struct MemSink {
    held: List<u8>,
    calls: Calls,
}

impl Model for MemSink {
    ghost use Rattle.cg_base.specs.InMemory.{SinkInMemory};

    ghost Value = { SinkInMemory };

    ghost view = { λ s. record { held = s.held; calls = s.calls } };
}

impl MemSink {
    /// A sink that has taken nothing, and whose calls with the numbers `bad` are to fail.
    pub fn new(alloc: Global, bad: List<u64>) -> MemSink
        ensures held { result.held ≡ [] }
        ensures calls { result.calls ≡ none_made bad }
    {
        MemSink {
            held: List::new(alloc),
            calls: Calls::new(bad),
        }
    }

    /// The bytes that the sink took.
    pub fn bytes(&self) -> &[u8]
        ensures { result.now ≡ self.now.held }
    {
        self.held.as_slice()
    }
}

impl Sink for MemSink {
    ghost held = { λ s. Some s.held };

    ghost faults = { λ s. s.calls.faults };

    fn put(&mut self, bytes: &[u8]) -> Result<(), SinkFault>
        ensures counted { Counts (IsErrOf result SinkFault.Failed) self.old.calls self.new.calls }
        ensures taken { OnOk result (self.new.held ≡ self.old.held ++ bytes.now) }
        ensures part { OnErr result (TookPrefix (Some self.old.held) (Some self.new.held) bytes.now) }
        ensures refused { OnErr result (self.new.held ≡ self.old.held) }
        ensures cause { HasCause (IsErrOf result SinkFault.Failed) self.old.calls.faults self.new.calls.faults }
    {
        if self.calls.next_fails() {
            return Err(SinkFault::Failed);
        }
        self.held.add(bytes)?;
        Ok(())
    }
}
