//! The outside of the program as traits, and lists, texts and numbers for the crates above.
//!
//! `Store`, `Source`, `Sink` and `Gate` are all that the program knows of files, of input and
//! output, and of its workers. Their contracts speak of content where an object tells it, and of
//! counts of faults, so a caller can say what it did and why it stopped. The versions in memory
//! tell their content: `MemStore`, `MemSource` and `MemSink` fail at the calls that they are
//! told, and `CalmStore`, `CalmSource` and `CalmSink` never fail. `FileStore`, `StdSource` and
//! `StdSink` adapt the system in a few lines, and tell no content: they are the trusted edge.
//!
//! `List` and `Text` are seen by contracts as lists of items and of bytes. Want of memory is
//! `Memory`, a variant of its own wherever it can come; no contract says that it does not come.
//! `Steps` counts steps for contracts alone. `mask`, `align_up` and `parse_int` take no memory.
#![tactic(auto)]

mod arithmetic;
mod calls;
mod calm;
mod file_map;
mod list;
mod mem_store;
mod mem_streams;
mod memory;
mod number;
mod outside;
mod rest;
mod steps;
mod system;
mod text;

pub use arithmetic::{align_up, mask};
pub use calm::{CalmSink, CalmSource, CalmStore};
pub use file_map::FileMap;
pub use list::List;
pub use mem_store::MemStore;
pub use mem_streams::{MemSink, MemSource};
pub use memory::Memory;
pub use number::{NumFault, number_of_is_exact, parse_int};
pub use outside::{Failed, Found, Gate, OpenGate, Sink, SinkFault, Source, Store, StoreFault};
pub use steps::Steps;
pub use system::{FileStore, StdSink, StdSource};
pub use text::Text;
