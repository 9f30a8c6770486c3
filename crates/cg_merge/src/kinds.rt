//! The number of each instance's block.

ghost use Rattle.std.specs.Prelude.{◌≡◌, ◌<◌, ◌^◌, IfOk, IfSome, length, map, position};
ghost use Rattle.std.specs.Str.{bytes_eq};
ghost use Rattle.cg_merge.specs.Kinds.{number_of};

use cg_base::{List, Memory};
use cg_desc::{InstDesc, LaidBlock};
use std::alloc::Global;

fn place_of(blocks: &[LaidBlock], kind: &str) -> Option<usize>
    ensures place { result ≡ position (λ block. bytes_eq block.desc.name kind.now) blocks.now }
    ensures within { IfSome result (λ place. place < length blocks.now) }
{
    blocks
        .iter()
        .position(|block| block.desc.name.as_str() == kind)
}

/// The number of the first block of a type.
fn number_of(blocks: &[LaidBlock], kind: &str) -> u32
    requires { length blocks.now < 2 ^ 32 }
    ensures { result ≡ number_of blocks.now kind.now }
{
    match place_of(blocks, kind) {
        Some(number) => number as u32,
        // Each type has its block.
        None => 0,
    }
}

/// The number of each instance's block.
pub(crate) fn kinds_of(
    alloc: Global,
    insts: &[InstDesc],
    blocks: &[LaidBlock],
) -> Result<List<u32>, Memory>
    requires { length blocks.now < 2 ^ 32 }
    ensures { IfOk result (λ kinds. kinds ≡ map (λ inst. number_of blocks.now inst.kind) insts.now) }
{
    let mut kinds = List::new(alloc);
    for inst in insts {
        kinds.push(number_of(blocks, inst.kind.as_str()))?;
    }
    Ok(kinds)
}
