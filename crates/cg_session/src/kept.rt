//! What a session keeps between its commands.

use cg_base::{List, Text};
use cg_keep::Keep;
use cg_outputs::OutFile;

/// The files that were put, the output folder, a copy of the last good build's outputs under their names in the store, and whether the last
/// build was refused.
#[derive(Drop)]
pub struct Session {
    pub keep: Keep,
    pub dir: Text,
    pub good: List<OutFile>,
    pub refused: bool,
}
