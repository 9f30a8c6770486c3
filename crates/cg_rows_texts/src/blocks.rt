//! The blocks that rows describe, up to their interfaces laid out.

ghost use Rattle.std.specs.Prelude.{IfOk};
ghost use Rattle.cg_hdrspec.specs.Laws.{IsNamed};

use cg_base::Memory;
use cg_block::laid_block;
use cg_desc::{DescFault, LaidBlock, fault_text};
use cg_files::tree_of;
use std::alloc::Global;

/// The block that a text describes, its interfaces laid out.
pub fn laid(alloc: Global, text: &str) -> Result<LaidBlock, DescFault>
    ensures { IfOk result (λ laid. IsNamed laid) }
{
    let tree = tree_of(alloc, 0, 0, text.as_bytes())?;
    let laid = laid_block(alloc, &tree, 0)?;
    Ok(laid)
}

/// The line of a fault, as of a file `b.hjson`.
pub fn line(alloc: Global, fault: DescFault) -> Result<String, Memory> {
    match fault {
        DescFault::Fault(fault) => Ok(fault_text(alloc, &fault, "b.hjson")?.into_string()),
        DescFault::Memory => Err(Memory),
    }
}
