//! The keys that stand twice in an object.

use crate::trees::{no_document, read_tree, shown};
use cg_base::Memory;
use cg_keys::first_duplicate;
use std::alloc::Global;

/// The first key that stands twice: rule 20, its byte place and the key.
pub fn answer(alloc: Global, given: &str) -> Result<String, Memory> {
    let Some(tree) = read_tree(alloc, given)? else {
        return no_document(alloc);
    };
    shown(alloc, first_duplicate(alloc, &tree)?)
}
