//! The JSON values of documents.

ghost use Rattle.std.specs.Prelude.{◌≡◌, None};
ghost use Rattle.cg_finding.specs.Finding.{first_of};
ghost use Rattle.cg_hjson.specs.Json.{IntegersFit};
ghost use Rattle.cg_hjson.specs.Views.{tree_of};
ghost use Rattle.cg_keys.specs.Duplicates.{duplicate_faults};

use crate::trees::{no_document, read_tree, shown};
use cg_base::Memory;
use cg_hjson::{Tree, to_json};
use cg_keys::first_duplicate;
use std::alloc::Global;

#[tactic(auto, using(cg_keys::proofs::KeysOnce::keys_once))]
fn json_text(alloc: Global, tree: &Tree) -> Result<String, Memory>
    requires keys { first_of (duplicate_faults tree.now) ≡ None }
    requires integers { IntegersFit (tree_of tree.now) }
{
    let value = to_json(alloc, tree)?;
    Ok(value.to_string(alloc)?)
}

/// The JSON text of the document, or its first key that stands twice.
pub fn answer(alloc: Global, given: &str) -> Result<String, Memory> {
    let Some(tree) = read_tree(alloc, given)? else {
        return no_document(alloc);
    };
    match first_duplicate(alloc, &tree)? {
        Some(found) => shown(alloc, Some(found)),
        None => json_text(alloc, &tree),
    }
}
