//! One crossbar, which has no top.

ghost use Rattle.std.specs.Prelude.{◌≡◌, [], IfOk};
ghost use Rattle.cg_desc.specs.Crossbar.{IsValidCrossbar};
ghost use Rattle.cg_desc.specs.Merged.{IsValidMerged, all_outside, alone};

use cg_base::{List, Memory, Text};
use cg_desc::{At, MergedTop, NodeDesc, NodeEnd, TopDesc, XbarDesc, XbarEnds};
use std::alloc::Global;

/// The top that lists nothing, of the crossbar's file.
fn empty_top(alloc: Global, file: u32, at: At) -> TopDesc
    ensures { result ≡ record { file = file; name = []; sources = []; resets = []; spaces = []; insts = []; xbars = []; pads = []; signals = []; at = at } }
{
    TopDesc {
        file,
        name: Text::new(alloc),
        sources: List::new(alloc),
        resets: List::new(alloc),
        spaces: List::new(alloc),
        insts: List::new(alloc),
        xbars: List::new(alloc),
        pads: List::new(alloc),
        signals: List::new(alloc),
        at,
    }
}

/// That each of these nodes is outside.
fn all_outside(alloc: Global, nodes: &[NodeDesc]) -> Result<List<NodeEnd>, Memory>
    ensures { IfOk result (λ ends. ends ≡ all_outside nodes.now) }
{
    let mut ends = List::new(alloc);
    for _node in nodes {
        ends.push(NodeEnd::Outside)?;
    }
    Ok(ends)
}

/// Merges one crossbar without a top: no instance is there, and every node is outside.
///
/// The crossbar is as its reader gives it. `Memory` says nothing about the crossbar, which is dropped with it.
pub fn merge_one(alloc: Global, xbar: XbarDesc) -> Result<MergedTop, Memory>
    requires { IsValidCrossbar xbar }
    ensures alone { IfOk result (λ top. top ≡ alone xbar) }
    ensures valid { IfOk result (λ top. IsValidMerged top) }
{
    let top = empty_top(alloc, xbar.file, xbar.at);
    let mut ends = List::new(alloc);
    ends.push(XbarEnds {
        ends: all_outside(alloc, xbar.nodes.as_slice())?,
    })?;
    let mut xbars = List::new(alloc);
    xbars.push(xbar)?;
    Ok(MergedTop {
        top,
        xbars,
        blocks: List::new(alloc),
        kinds: List::new(alloc),
        ends,
    })
}
