//! What the answers share that begin with the tree of a document.

ghost use Rattle.std.specs.Prelude.{IfOk, IfSome};
ghost use Rattle.cg_hjson.specs.Json.{IntegersFit};
ghost use Rattle.cg_hjson.specs.Views.{tree_of};

use cg_base::Memory;
use cg_finding::Found;
use cg_hjson::{HjsonFault, Tree, read};
use std::alloc::Global;

/// The tree of a short document.
pub fn read_tree(alloc: Global, text: &str) -> Result<Option<Tree>, Memory>
    ensures { IfOk result (λ found. IfSome found (λ tree. IntegersFit (tree_of tree))) }
{
    if text.len() > 100_000 {
        return Ok(None);
    }
    match read(alloc, text) {
        Ok(tree) => Ok(Some(tree)),
        Err(HjsonFault::Memory) => Err(Memory),
        Err(_) => Ok(None),
    }
}

/// What is answered where the text has no tree.
pub fn no_document(alloc: Global) -> Result<String, Memory> {
    Ok(String::from_str(alloc, "no document")?)
}

/// The rule, the byte place and the name of a found fault, or `none`.
pub fn shown(alloc: Global, found: Option<Found>) -> Result<String, Memory> {
    match found {
        Some(found) => Ok(format!(in alloc; "{} {} {}", found.rule, found.at.byte, found.name)?),
        None => Ok(String::from_str(alloc, "none")?),
    }
}
