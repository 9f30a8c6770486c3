//! What a top names for the ports of one owner.

use crate::tie::Owner;
use cg_desc::{At, NamePair};

/// An owner of ports, with the place of its name in the top's file and the sources that are named there for its clocks and its resets.
#[derive(Clone, Copy)]
pub(crate) struct Owned<'a> {
    pub owner: Owner,
    pub at: At,
    pub clocks: &'a [NamePair],
    pub resets: &'a [NamePair],
}
