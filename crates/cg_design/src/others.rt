//! The files of a top besides its own.

ghost use Rattle.std.specs.Prelude.{◌≡◌, ◌+◌, ◌≤◌, length, map, option_map};
ghost use Rattle.cg_design.specs.Inner.Reading.{ReadsOthers, block_files, crossbar_files};

use crate::block::BlockSource;
use crate::blocks::read_blocks;
use crate::crossbars::read_crossbars;
use crate::reading::behind_all;
use cg_base::{List, Memory, Text};
use cg_desc::{DescFault, XbarDesc, XbarUse};
use cg_merge::earlier_fault;
use std::alloc::Global;

/// The crossbars that a top lists, and the blocks of its types.
#[derive(Drop)]
pub(crate) struct Others {
    pub crossbars: List<XbarDesc>,
    pub blocks: List<BlockSource>,
}

/// What the files of these crossbars and of these types describe, or the first of all that they break, each by itself.
///
/// `given` is what there is of the crossbars' files and then of the types', and `before` how many bytes the top's own file has.
pub(crate) fn read_others(
    alloc: Global,
    listed: &[XbarUse],
    types: &[Text],
    before: u64,
    given: &[Option<&[u8]>],
) -> Result<Others, DescFault>
    requires few_crossbars { length listed.now ≤ 16 }
    requires few_types { length types.now ≤ 64 }
    requires count { length given.now ≡ length listed.now + length types.now }
    ensures { ReadsOthers result listed.now types.now
        (crossbar_files (length listed.now) before (map (option_map (λ b. b.now)) given.now))
        (block_files (length listed.now) before (map (option_map (λ b. b.now)) given.now)) }
{
    let (of_crossbars, of_blocks) = given.split_at(listed.len());
    let crossbars = match read_crossbars(alloc, listed, before, of_crossbars) {
        Ok(crossbars) => crossbars,
        Err(Memory) => return Err(DescFault::Memory),
    };
    let file = 1 + listed.len() as u32;
    let behind = behind_all(before, of_crossbars);
    let blocks = match read_blocks(alloc, types, file, behind, of_blocks) {
        Ok(blocks) => blocks,
        Err(Memory) => return Err(DescFault::Memory),
    };
    match earlier_fault(crossbars.first, blocks.first) {
        Some(fault) => Err(DescFault::Fault(fault)),
        None => Ok(Others {
            crossbars: crossbars.found,
            blocks: blocks.found,
        }),
    }
}
