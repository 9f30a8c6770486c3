//! Completed descriptions of blocks.

use crate::blocks::line;
use cg_base::{Memory, Text};
use cg_blkdone::done_block;
use cg_blkread::block;
use cg_desc::DescFault;
use cg_files::tree_of;
use cg_jsonspec::documents_are_sayable;
use std::alloc::Global;

fn completed(alloc: Global, text: &str) -> Result<Text, DescFault> {
    documents_are_sayable();
    let tree = tree_of(alloc, 0, 0, text.as_bytes())?;
    let block = block(alloc, &tree, 0)?;
    let text = done_block(alloc, &tree, &block)?;
    Ok(text)
}

/// The completed description of a block, or the line of its first fault.
pub fn answer(alloc: Global, given: &str) -> Result<String, Memory> {
    match completed(alloc, given) {
        Ok(text) => Ok(text.into_string()),
        Err(fault) => line(alloc, fault),
    }
}
