//! The clocks of a crossbar.

ghost use Rattle.std.specs.Prelude.{◌≡◌, IfOk, map};
ghost use Rattle.cg_nodes.specs.Clocks.{clock_uses};
ghost use Rattle.cg_nodes.specs.Listed.{clocks_of};

use cg_base::{List, Memory, Text};
use cg_desc::XbarDesc;
use indexmap::IndexSet;
use std::alloc::Global;

/// The names of a set, in its order.
fn texts_of(alloc: Global, names: &[&str]) -> Result<List<Text>, Memory>
    ensures { IfOk result (λ texts. texts ≡ map (λ n. n.now) names.now) }
{
    let mut texts = List::new(alloc);
    for name in names {
        texts.push(Text::of(alloc, name)?)?;
    }
    Ok(texts)
}

/// The clocks of a crossbar and of its nodes, each where it is first used.
pub(crate) fn clocks_of(alloc: Global, xbar: &XbarDesc) -> Result<List<Text>, Memory>
    ensures { IfOk result (λ clocks. clocks ≡ clocks_of xbar.now) }
{
    let mut used = IndexSet::new(alloc);
    used.insert(xbar.clock.as_str())?;
    for node in xbar.nodes.as_slice() {
        used.insert(node.clock.as_str())?;
    }
    Ok(texts_of(alloc, used.as_slice())?)
}
