//! A block's file, up to all that is written of it.

ghost use Rattle.std.specs.Prelude.{◌≡◌, map, IfOk};
ghost use Rattle.cg_svspec.specs.Printable.{AllOf};
ghost use Rattle.cg_desc.specs.Laid.{IsLaid};
ghost use Rattle.cg_desc.specs.Valid.{IsValidBlock};
ghost use Rattle.cg_blkread.specs.Described.{block_of};
ghost use Rattle.cg_hdrspec.specs.BlockHeader.{header_text};
ghost use Rattle.cg_sv.specs.Views.{module_of};
ghost use Rattle.cg_regspec.specs.RegisterModule.{modules_of};
ghost use Rattle.cg_finding.specs.Refusal.{Names};
ghost use Rattle.cg_finding.specs.Rules as rules;
ghost use Rattle.cg_files.specs.Files.{some_file};
ghost use Rattle.cg_block.specs.Stages.{IsLaidOutAs};
ghost use Rattle.cg_block.specs.Breaks.{FindsInTree, FindsInFile, IsGoodBlock};
ghost use Rattle.cg_block.specs.Unit.{IsUnitOf};

use crate::block::laid_block;
use crate::texts::{BlockTexts, block_texts};
use cg_base::Text;
use cg_desc::{At, DescFault, LaidBlock};
use cg_files::tree_of;
use cg_finding::{Found, refusal};
use cg_hjson::Tree;
use cg_sv::SvRegFault;
use std::alloc::Global;

/// A block that breaks nothing: its tree, its interfaces laid out, and its register modules and header.
#[derive(Drop)]
pub struct BlockUnit {
    pub tree: Tree,
    pub laid: LaidBlock,
    pub texts: BlockTexts,
}

/// Two names of what is written are the same.
fn clash(alloc: Global, file: u32, at: At, name: &Text) -> DescFault
    ensures { Names result file (rules.names_clash at name.now) }
{
    refusal(alloc, Found::names_clash(at, name.as_str()), file)
}

/// The texts of a block that is laid out, or the first name that comes twice in them.
fn texts_of(
    alloc: Global,
    tree: &Tree,
    file: u32,
    laid: &LaidBlock,
) -> Result<BlockTexts, DescFault>
    requires stage { IsLaidOutAs file tree.now laid.now }
    requires valid { IsValidBlock (block_of file tree.now) }
    requires laid { AllOf IsLaid laid.now.faces }
    ensures finds { FindsInTree result file tree.now (λ texts. IsGoodBlock file tree.now laid.now) }
    ensures modules { IfOk result (λ texts. map module_of texts.modules ≡ modules_of laid.now) }
    ensures header { IfOk result (λ texts. texts.header ≡ header_text laid.now) }
{
    match block_texts(alloc, laid) {
        Ok(texts) => Ok(texts),
        Err(SvRegFault::Clash { name }) => Err(clash(alloc, file, tree.at, &name)),
        Err(SvRegFault::Memory) => Err(DescFault::Memory),
    }
}

/// The unit of a block's tree.
fn unit_of(alloc: Global, tree: Tree, file: u32) -> Result<BlockUnit, DescFault>
    ensures finds { FindsInTree result file tree (λ unit. IsGoodBlock file unit.tree unit.laid) }
    ensures tree { IfOk result (λ unit. unit.tree ≡ tree) }
    ensures modules { IfOk result (λ unit. map module_of unit.texts.modules ≡ modules_of unit.laid) }
    ensures header { IfOk result (λ unit. unit.texts.header ≡ header_text unit.laid) }
{
    let laid = match laid_block(alloc, &tree, file) {
        Ok(laid) => laid,
        Err(refusal) => return Err(refusal),
    };
    match texts_of(alloc, &tree, file, &laid) {
        Ok(texts) => Ok(BlockUnit { tree, laid, texts }),
        Err(refusal) => Err(refusal),
    }
}

/// The unit of the block that a file describes, or the first of all that the file breaks.
///
/// `file` is the file's number in the build, and `before` how many bytes the files before it have together.
pub fn read_block(
    alloc: Global,
    file: u32,
    before: u64,
    bytes: &[u8],
) -> Result<BlockUnit, DescFault>
    ensures { FindsInFile result (some_file file before bytes.now) (λ unit. IsUnitOf (some_file file before bytes.now) unit) }
{
    match tree_of(alloc, file, before, bytes) {
        Ok(tree) => unit_of(alloc, tree, file),
        Err(refusal) => Err(refusal),
    }
}
