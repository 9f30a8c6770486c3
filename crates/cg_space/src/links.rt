//! Which crossbars stand in which as devices.

ghost use Rattle.std.specs.Prelude.{◌≡◌, ◌↔◌, ◌<◌, ◌++◌, ℕ, IfOk, OnOk, length};
ghost use Rattle.cg_svspec.specs.Names.{Among};
ghost use Rattle.cg_desc.specs.Reach.{Nests};
ghost use Rattle.cg_space.specs.Inner.Sound.{IsSound};
ghost use Rattle.cg_space.specs.Inner.Tables.{AreLinks, those};

use crate::nodes::{nested_in, node_count};
use cg_base::{List, Memory};
use cg_desc::MergedTop;
use std::alloc::Global;

/// Appends a number, where there is one.
fn push_found(numbers: &mut List<u32>, found: Option<u32>) -> Result<(), Memory>
    ensures { OnOk result (numbers.new ≡ numbers.old ++ those found) }
{
    match found {
        Some(number) => numbers.push(number),
        None => Ok(()),
    }
}

/// The crossbars for which devices of this one stand.
fn nested_crossbars(alloc: Global, top: &MergedTop, xbar: usize) -> Result<List<u32>, Memory>
    requires sound { IsSound top.now }
    requires there { xbar < length top.now.xbars }
    ensures { IfOk result (λ inner. (y : ℕ) → Among y inner ↔ Nests top.now xbar y) }
{
    let mut inner = List::new(alloc);
    for node in 0..node_count(top, xbar) {
        push_found(&mut inner, nested_in(top, xbar, node))?;
    }
    Ok(inner)
}

/// The crossbars for which devices of each stand.
pub fn links(alloc: Global, top: &MergedTop) -> Result<List<List<u32>>, Memory>
    requires { IsSound top.now }
    ensures { IfOk result (AreLinks top.now) }
{
    let mut links = List::new(alloc);
    for xbar in 0..top.xbars.len() {
        links.push(nested_crossbars(alloc, top, xbar)?)?;
    }
    Ok(links)
}
