use cg_base::{List, Text};

/// Where a line goes: to the output, or to the errors.
#[derive(Clone, Copy, Debug, PartialEq, Eq)]
pub enum Stream {
    Out,
    Err,
}

/// One change of the outside: a file is written or removed, under its whole name in the store, or a line is said on a stream.
#[derive(Drop)]
pub enum Deed {
    Write { name: Text, bytes: List<u8> },
    Remove { name: Text },
    Say { stream: Stream, line: Text },
}
