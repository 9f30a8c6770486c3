//! A block's description, from its text to its interfaces with their offsets, a crossbar's, and a top's.

ghost use Rattle.std.specs.Prelude.{IfOk};
ghost use Rattle.cg_desc.specs.Crossbar.{IsValidCrossbar};
ghost use Rattle.cg_desc.specs.Top.{IsValidTop};
ghost use Rattle.cg_desc.specs.Valid.{IsValidBlock};

use cg_base::{List, Memory};
use cg_blkread::block;
use cg_desc::{BlockDesc, DescFault, FaceItems, LaidBlock, TopDesc, XbarDesc, fault_text};
use cg_expand::expand;
use cg_hjson::{HjsonFault, Tree, read};
use cg_layout::lay;
use cg_topread::top as read_top;
use cg_xbread::xbar;
use std::alloc::Global;

/// How many bytes the text of a row has at most.
const LIMIT: usize = 4_000_000;

/// Why there is nothing to show of a text.
#[derive(Drop)]
pub enum Stop {
    /// It is no document, or a very long one.
    NoDocument,
    /// It is no good description, or memory was not found.
    Refused(DescFault),
}

impl From<DescFault> for Stop {
    fn from(fault: DescFault) -> Self {
        Stop::Refused(fault)
    }
}

impl Stop {
    /// The line of the fault, without the name of a file.
    pub fn line(self, alloc: Global) -> Result<String, Memory> {
        match self {
            Stop::NoDocument => Ok(String::from_str(alloc, "no document")?),
            Stop::Refused(DescFault::Fault(fault)) => {
                let line = fault_text(alloc, &fault, "")?;
                let line = line.as_str();
                Ok(String::from_str(alloc, line.strip_prefix(":").unwrap_or(line))?)
            }
            Stop::Refused(DescFault::Memory) => Err(Memory),
        }
    }
}

fn tree(alloc: Global, document: &str) -> Result<Tree, Stop> {
    if document.len() > LIMIT {
        return Err(Stop::NoDocument);
    }
    match read(alloc, document) {
        Ok(tree) => Ok(tree),
        Err(HjsonFault::Memory) => Err(Stop::Refused(DescFault::Memory)),
        Err(HjsonFault::NotDocument { .. } | HjsonFault::TooDeep { .. }) => Err(Stop::NoDocument),
    }
}

/// The description of the block.
pub fn described(alloc: Global, document: &str) -> Result<BlockDesc, Stop>
    ensures { IfOk result (λ described. IsValidBlock described) }
{
    let tree = tree(alloc, document)?;
    let described = block(alloc, &tree, 0)?;
    Ok(described)
}

/// The items of each device interface.
pub fn expanded(alloc: Global, document: &str) -> Result<List<FaceItems>, Stop> {
    let described = described(alloc, document)?;
    let items = expand(alloc, &described)?;
    Ok(items)
}

/// The block with its rows at their offsets.
pub fn laid(alloc: Global, document: &str) -> Result<LaidBlock, Stop> {
    let described = described(alloc, document)?;
    let items = expand(alloc, &described)?;
    let laid = lay(alloc, described, items)?;
    Ok(laid)
}

/// The description of the crossbar.
pub fn crossbar(alloc: Global, document: &str) -> Result<XbarDesc, Stop>
    ensures { IfOk result (λ crossbar. IsValidCrossbar crossbar) }
{
    let tree = tree(alloc, document)?;
    let crossbar = xbar(alloc, &tree, 0)?;
    Ok(crossbar)
}

/// The description of the top.
pub fn top(alloc: Global, document: &str) -> Result<TopDesc, Stop>
    ensures { IfOk result (λ top. IsValidTop top) }
{
    let tree = tree(alloc, document)?;
    let top = read_top(alloc, &tree, 0)?;
    Ok(top)
}
