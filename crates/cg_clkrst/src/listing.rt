//! The ties of a top's owners, in their order.

ghost use Rattle.std.specs.Prelude.{◌≡◌, ◌++◌, ◌+◌, ◌≤◌, ℕ, List as Items, IfOk, OnOk, Some, [], ◌∷◌, length, map, slice_get, take};
ghost use Rattle.cg_irq.specs.Instances.{HasBlocks};
ghost use Rattle.cg_clkrst.specs.Owned.{AreApart, AreFor, AreOwn, AreTied, HaveSources, port_at, uses_before};
ghost use Rattle.cg_clkrst.specs.Ports.{TiePort, instance_uses, uses_of};
ghost use Rattle.cg_clkrst.specs.declared.tie.Owner.TheVariants.{Inst, Xbar};

use crate::owned::Owned;
use crate::ports::{Port, block_ports, crossbar_ports, is_among};
use crate::sources::source_of;
use crate::tie::{Owner, Tie};
use cg_base::{List, Memory, Text};
use cg_desc::{InstDesc, MergedTop, XbarUse};
use std::alloc::Global;

/// What the top names for an instance.
pub(crate) fn instance_owner<'a>(number: u32, inst: &'a InstDesc) -> Owned<'a>
    ensures owner { result.owner ≡ Inst number }
    ensures at { result.at ≡ inst.now.at }
    ensures clocks { result.clocks.now ≡ inst.now.clocks }
    ensures resets { result.resets.now ≡ inst.now.resets }
{
    Owned {
        owner: Owner::Inst(number),
        at: inst.at,
        clocks: inst.clocks.as_slice(),
        resets: inst.resets.as_slice(),
    }
}

/// What the top names for a listed crossbar, which has no resets.
pub(crate) fn crossbar_owner<'a>(number: u32, listed: &'a XbarUse) -> Owned<'a>
    ensures owner { result.owner ≡ Xbar number }
    ensures at { result.at ≡ listed.now.at }
    ensures clocks { result.clocks.now ≡ listed.now.clocks }
    ensures resets { result.resets.now ≡ [] }
{
    Owned {
        owner: Owner::Xbar(number),
        at: listed.at,
        clocks: listed.clocks.as_slice(),
        resets: &[],
    }
}

/// The tie of a port.
fn tie_of(alloc: Global, owner: Owner, port: &Port, source: &str) -> Result<Tie, Memory>
    ensures { IfOk result (λ tie. tie ≡ record { owner = owner; reset = port.now.reset; port = port.now.name.now; source = source.now }) }
{
    let source = Text::of(alloc, source)?;
    Ok(Tie {
        owner,
        reset: port.reset,
        port: Text::of(alloc, port.name)?,
        source,
    })
}

/// The tie of a port of an owner, unless the port is used before.
fn add_tie(
    alloc: Global,
    top: &MergedTop,
    owned: &Owned,
    before: &[Port],
    port: &Port,
    ties: &mut List<Tie>,
) -> Result<(), Memory>
    requires named { AreFor top.now owned.now }
    requires sourced { HaveSources top.now (port_at owned.now.owner port.now ∷ []) }
    ensures { OnOk result ((uses : Items TiePort) → AreTied top.now (uses ++ map (port_at owned.now.owner) before.now) ties.old → AreApart uses (port_at owned.now.owner port.now ∷ []) → AreTied top.now (uses ++ (map (port_at owned.now.owner) before.now ++ port_at owned.now.owner port.now ∷ [])) ties.new) }
{
    if is_among(before, port) {
        return Ok(());
    }
    match source_of(top, owned, port) {
        Some(source) => {
            ties.push(tie_of(alloc, owned.owner, port, source)?)?;
            Ok(())
        }
        None => Ok(()),
    }
}

/// The ties of an owner's ports, each where it is first used.
fn add_ties(
    alloc: Global,
    top: &MergedTop,
    owned: &Owned,
    ports: &[Port],
    ties: &mut List<Tie>,
) -> Result<(), Memory>
    requires named { AreFor top.now owned.now }
    requires sourced { HaveSources top.now (map (port_at owned.now.owner) ports.now) }
    ensures { OnOk result ((uses : Items TiePort) → AreTied top.now uses ties.old → AreApart uses (map (port_at owned.now.owner) ports.now) → AreTied top.now (uses ++ map (port_at owned.now.owner) ports.now) ties.new) }
{
    for (number, port) in ports.iter().enumerate() {
        add_tie(alloc, top, owned, &ports[..number], port, ties)?;
    }
    Ok(())
}

/// The ties of an instance.
fn add_instance(
    alloc: Global,
    top: &MergedTop,
    number: usize,
    inst: &InstDesc,
    ties: &mut List<Tie>,
) -> Result<(), Memory>
    requires has_blocks { HasBlocks top.now }
    requires there { slice_get top.now.top.insts number ≡ Some inst.now }
    requires sourced { HaveSources top.now (uses_of top.now) }
    ensures { OnOk result (AreTied top.now (instance_uses top.now.blocks 0 (take number top.now.kinds)) ties.old → AreTied top.now (instance_uses top.now.blocks 0 (take (number + 1) top.now.kinds)) ties.new) }
{
    let block = &top.blocks.as_slice()[top.kinds.as_slice()[number] as usize];
    let ports = block_ports(alloc, block)?;
    let owned = instance_owner(number as u32, inst);
    add_ties(alloc, top, &owned, ports.as_slice(), ties)?;
    Ok(())
}

/// The clocks of a listed crossbar with their sources.
fn add_crossbar(
    alloc: Global,
    top: &MergedTop,
    number: usize,
    listed: &XbarUse,
    ties: &mut List<Tie>,
) -> Result<(), Memory>
    requires few { length top.now.top.xbars ≤ 16 }
    requires there { slice_get top.now.top.xbars number ≡ Some listed.now }
    requires sourced { HaveSources top.now (uses_of top.now) }
    ensures { OnOk result (AreTied top.now (uses_before top.now number) ties.old → AreTied top.now (uses_before top.now (number + 1)) ties.new) }
{
    let Some(xbar) = top.xbars.as_slice().get(number) else {
        return Ok(());
    };
    let ports = crossbar_ports(alloc, xbar)?;
    let owned = crossbar_owner(number as u32, listed);
    add_ties(alloc, top, &owned, ports.as_slice(), ties)?;
    Ok(())
}

/// The ties of the instances.
fn add_instances(alloc: Global, top: &MergedTop, ties: &mut List<Tie>) -> Result<(), Memory>
    requires has_blocks { HasBlocks top.now }
    requires sourced { HaveSources top.now (uses_of top.now) }
    ensures { OnOk result (AreTied top.now [] ties.old → AreTied top.now (uses_before top.now 0) ties.new) }
{
    for (number, inst) in top.top.insts.as_slice().iter().enumerate() {
        add_instance(alloc, top, number, inst, ties)?;
    }
    Ok(())
}

/// The ties of the listed crossbars, behind those of the instances.
fn add_crossbars(alloc: Global, top: &MergedTop, ties: &mut List<Tie>) -> Result<(), Memory>
    requires few { length top.now.top.xbars ≤ 16 }
    requires sourced { HaveSources top.now (uses_of top.now) }
    ensures { OnOk result (AreTied top.now (uses_before top.now 0) ties.old → AreTied top.now (uses_of top.now) ties.new) }
{
    for (number, listed) in top.top.xbars.as_slice().iter().enumerate() {
        add_crossbar(alloc, top, number, listed, ties)?;
    }
    Ok(())
}

/// The ties of a top all of whose ports have their sources.
pub(crate) fn all_ties(alloc: Global, top: &MergedTop) -> Result<List<Tie>, Memory>
    requires has_blocks { HasBlocks top.now }
    requires few { length top.now.top.xbars ≤ 16 }
    requires sourced { HaveSources top.now (uses_of top.now) }
    ensures { IfOk result (AreTied top.now (uses_of top.now)) }
{
    let mut ties = List::new(alloc);
    add_instances(alloc, top, &mut ties)?;
    add_crossbars(alloc, top, &mut ties)?;
    Ok(ties)
}
