use cg_base::Text;

/// What `regtool` writes.
#[derive(Clone, Copy, Debug, PartialEq, Eq)]
pub enum RegOut {
    /// The register modules (`-r`).
    Registers,
    /// The header of constants (`-D`).
    Header,
    /// The completed description (`-j`).
    Completed,
}

/// What is to be done. `file` is a description, and `dir` a folder: of the outputs, or, for
/// `Probe`, of the texts that are read.
#[derive(Debug, Drop, PartialEq, Eq)]
pub enum Command {
    /// Writes one kind of output of a block.
    Regtool { made: RegOut, dir: Text, file: Text },
    /// Writes the module of a crossbar.
    Tlgen { file: Text, dir: Text },
    /// Writes all outputs of a top, with 1 to 64 workers.
    Topgen { file: Text, dir: Text, workers: u8 },
    /// Reads edits and builds from the input, with 1 to 64 workers.
    Session { file: Text, dir: Text, workers: u8 },
    /// Follows a read of the byte address `addr` from the host named `host`.
    Probe { dir: Text, host: Text, addr: u32 },
    /// Makes a large top of the number, 1 to 200, in memory.
    Sample { number: u32 },
}
