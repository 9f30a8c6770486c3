//! The files of all blocks of a top.

ghost use Rattle.std.specs.Prelude.{◌≡◌, ◌≤◌, ℕ, length, map, option_map, IfOk};
ghost use Rattle.cg_design.specs.Files.{files_from};
ghost use Rattle.cg_design.specs.Inner.Reading.{AreBlocksRead, IsCountOf};

use crate::block::{BlockSource, read_block};
use crate::reading::{Reading, behind};
use cg_base::{List, Memory, Text};
use cg_desc::LaidBlock;
use cg_hjson::Tree;
use std::alloc::Global;

/// The blocks that these files describe, which are of these types, and the first of all that the files break.
///
/// `file` is the number of the first of them in the build, and `before` how many bytes the files before it have together.
pub(crate) fn read_blocks(
    alloc: Global,
    types: &[Text],
    file: u32,
    before: u64,
    given: &[Option<&[u8]>],
) -> Result<Reading<BlockSource>, Memory>
    requires count { length given.now ≡ length types.now }
    requires few { length types.now ≤ 64 }
    requires number { file ≤ 17 }
    ensures { (exact : ℕ) → IsCountOf before exact
        → IfOk result (λ r. AreBlocksRead types.now (files_from file exact (map (option_map (λ b. b.now)) given.now)) (length types.now) r) }
{
    let mut reading = Reading::new(alloc);
    let mut count = before;
    for (number, bytes) in given.iter().enumerate() {
        let kind = types[number].as_str();
        let read = read_block(alloc, file + number as u32, count, *bytes, kind);
        reading = reading.add(read)?;
        count = behind(count, *bytes);
    }
    Ok(reading)
}

/// The trees of blocks' files, and the blocks, each in order.
pub(crate) fn parted(
    alloc: Global,
    sources: List<BlockSource>,
) -> Result<(List<Tree>, List<LaidBlock>), Memory>
    ensures { IfOk result (λ r. (r.0 ≡ map (λ s. s.tree) sources) × (r.1 ≡ map (λ s. s.laid) sources)) }
{
    let mut trees = List::new(alloc);
    let mut blocks = List::new(alloc);
    for source in sources.into_vec() {
        let BlockSource { tree, laid } = source;
        trees.push(tree)?;
        blocks.push(laid)?;
    }
    Ok((trees, blocks))
}
