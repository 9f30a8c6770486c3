//! The nodes of a merged top, what they stand for, and the interfaces of its instances.

ghost use Rattle.std.specs.Prelude.{◌≡◌, ◌↔◌, ◌<◌, ℕ, Some, length};
ghost use Rattle.cg_desc.specs.Ends.{CrossbarIs};
ghost use Rattle.cg_desc.specs.Merged.{design_of, BlockAt, EndAt, FaceAt, NodeAt};
ghost use Rattle.cg_desc.specs.declared.block.LaidBlock.{LaidBlock as ABlock};
ghost use Rattle.cg_desc.specs.declared.block.LaidFace.{LaidFace as AFace};
ghost use Rattle.cg_desc.specs.declared.crossbar.XbarDesc.{XbarDesc as Crossbar};
ghost use Rattle.cg_space.specs.Inner.Sound.{HasNode, IsNestedAt, IsSound};

use cg_desc::{LaidBlock, LaidFace, MergedTop, NodeDesc, NodeEnd};

/// How many nodes the crossbar has.
pub fn node_count(top: &MergedTop, xbar: usize) -> usize
    requires { xbar < length top.now.xbars }
    ensures count { (x : Crossbar) → CrossbarIs (design_of top.now) xbar x → result ≡ length x.nodes }
    ensures nodes { (n : ℕ) → (n < result) ↔ HasNode top.now xbar n }
{
    top.xbars.as_slice()[xbar].nodes.len()
}

/// Node `node` of crossbar `xbar`.
pub fn node_at(top: &MergedTop, xbar: usize, node: usize) -> &NodeDesc
    requires { HasNode top.now xbar node }
    ensures { NodeAt top.now xbar node result.now }
{
    &top.xbars.as_slice()[xbar].nodes.as_slice()[node]
}

/// What it stands for.
pub fn end_at(top: &MergedTop, xbar: usize, node: usize) -> NodeEnd
    requires sound { IsSound top.now }
    requires there { HasNode top.now xbar node }
    ensures { EndAt top.now xbar node result }
{
    top.ends.as_slice()[xbar].ends.as_slice()[node]
}

/// The crossbar that it stands for, where it is a device that stands for one.
pub fn nested_in(top: &MergedTop, xbar: usize, node: usize) -> Option<u32>
    requires sound { IsSound top.now }
    requires there { HasNode top.now xbar node }
    ensures { (y : ℕ) → (result ≡ Some y) ↔ IsNestedAt top.now xbar node y }
{
    if node_at(top, xbar, node).host {
        return None;
    }
    match end_at(top, xbar, node) {
        NodeEnd::Xbar { xbar } => Some(xbar),
        NodeEnd::Face { .. } | NodeEnd::Host { .. } | NodeEnd::Outside => None,
    }
}

/// The block of an instance.
fn block_at(top: &MergedTop, inst: u32) -> &LaidBlock
    requires { (block : ABlock) × BlockAt top.now inst block }
    ensures { BlockAt top.now inst result.now }
{
    &top.blocks.as_slice()[top.kinds.as_slice()[inst as usize] as usize]
}

/// A device interface of an instance.
pub fn face_at(top: &MergedTop, inst: u32, face: u32) -> &LaidFace
    requires { (laid : AFace) × FaceAt top.now inst face laid }
    ensures { FaceAt top.now inst face result.now }
{
    &block_at(top, inst).faces.as_slice()[face as usize]
}
