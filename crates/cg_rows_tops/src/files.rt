//! One file of a build: the top, the crossbar or the block that it describes, under the name that the top gives.

ghost use Rattle.std.specs.Prelude.{IfOk};
ghost use Rattle.cg_desc.specs.Crossbar.{IsValidCrossbar};
ghost use Rattle.cg_desc.specs.Merged.{IsValidLaidBlock};
ghost use Rattle.cg_desc.specs.Top.{IsValidTop};

use crate::given::Given;
use cg_desc::{DescFault, LaidBlock, TopDesc, XbarDesc};
use cg_design::{read_block, read_crossbar, read_top};
use std::alloc::Global;

/// A file of a build: its number, its name, and how many bytes the files before it have together.
#[derive(Clone, Copy)]
pub struct Place<'a> {
    pub number: u32,
    pub name: &'a str,
    pub before: u64,
}

/// What there is of the file.
fn bytes_at<'a>(given: &Given<'a>, name: &str) -> Option<&'a [u8]> {
    match given.text_of(name) {
        Some(text) => Some(text.as_bytes()),
        None => None,
    }
}

/// The top that the first file describes.
pub fn top_at(alloc: Global, given: &Given, name: &str) -> Result<TopDesc, DescFault>
    ensures { IfOk result (λ top. IsValidTop top) }
{
    match read_top(alloc, bytes_at(given, name)) {
        Ok(source) => Ok(source.top),
        Err(refused) => Err(refused),
    }
}

/// The crossbar that a file describes, under the name that the top lists.
pub fn crossbar_at(
    alloc: Global,
    given: &Given,
    place: Place,
    listed: &str,
) -> Result<XbarDesc, DescFault>
    ensures { IfOk result (λ crossbar. IsValidCrossbar crossbar) }
{
    let bytes = bytes_at(given, place.name);
    read_crossbar(alloc, place.number, place.before, bytes, listed)
}

/// The block that a file describes, under the name of its type.
pub fn block_at(
    alloc: Global,
    given: &Given,
    place: Place,
    kind: &str,
) -> Result<LaidBlock, DescFault>
    ensures { IfOk result (λ laid. IsValidLaidBlock laid) }
{
    let bytes = bytes_at(given, place.name);
    match read_block(alloc, place.number, place.before, bytes, kind) {
        Ok(source) => Ok(source.laid),
        Err(refused) => Err(refused),
    }
}
