//! The first port that lacks its source.

ghost use Rattle.std.specs.Prelude.{◌≡◌, ◌≤◌, IfOk, Some, cond, length, map, slice_get};
ghost use Rattle.cg_finding.specs.Found.{seen, sees};
ghost use Rattle.cg_finding.specs.Rules as rules;
ghost use Rattle.cg_finding.specs.Told.{TellsFirst};
ghost use Rattle.cg_irq.specs.Instances.{HasBlocks};
ghost use Rattle.cg_irq.specs.Walked.{SomeBreaks};
ghost use Rattle.cg_clkrst.specs.Owned.{AreFor, AreOwn, OwnerLacks, LacksAt, port_at};
ghost use Rattle.cg_clkrst.specs.declared.tie.Owner.TheVariants.{Inst, Xbar};

use crate::listing::{crossbar_owner, instance_owner};
use crate::owned::Owned;
use crate::ports::{Port, block_ports, crossbar_ports};
use crate::sources::source_of;
use cg_base::Memory;
use cg_desc::{At, InstDesc, MergedTop, XbarUse};
use cg_finding::{Found, earlier_of};
use std::alloc::Global;

/// A port without its source, told at a place.
fn lack_of<'r>(at: At, port: &Port<'r>) -> Found<'r>
    ensures { seen result ≡ cond port.now.reset (rules.bad_reset at port.now.name.now) (rules.bad_clock at port.now.name.now) }
{
    if port.reset {
        Found::bad_reset(at, port.name)
    } else {
        Found::bad_clock(at, port.name)
    }
}

/// A port of an owner, if it lacks its source.
fn lacking<'r>(top: &MergedTop, owned: &Owned, port: &Port<'r>) -> Option<Found<'r>>
    requires { AreFor top.now owned.now }
    ensures { TellsFirst (sees result) (LacksAt top.now owned.now port.now) }
{
    match source_of(top, owned, port) {
        Some(_) => None,
        None => Some(lack_of(owned.at, port)),
    }
}

/// The first of an owner's ports that lacks its source.
fn first_lacking<'r>(top: &MergedTop, owned: &Owned, ports: &[Port<'r>]) -> Option<Found<'r>>
    requires named { AreFor top.now owned.now }
    requires own { AreOwn top.now owned.now.owner (map (port_at owned.now.owner) ports.now) }
    ensures { TellsFirst (sees result) (OwnerLacks top.now owned.now.owner owned.now.at) }
{
    let mut first = None;
    for port in ports {
        first = earlier_of(first, lacking(top, owned, port));
    }
    first
}

/// The first of an instance's ports that lacks its source.
fn first_in_instance<'r>(
    alloc: Global,
    top: &'r MergedTop,
    number: usize,
    inst: &'r InstDesc,
) -> Result<Option<Found<'r>>, Memory>
    requires has_blocks { HasBlocks top.now }
    requires there { slice_get top.now.top.insts number ≡ Some inst.now }
    ensures { IfOk result (λ found. TellsFirst (sees found) (OwnerLacks top.now (Inst number) inst.now.at)) }
{
    let block = &top.blocks.as_slice()[top.kinds.as_slice()[number] as usize];
    let ports = block_ports(alloc, block)?;
    let owned = instance_owner(number as u32, inst);
    Ok(first_lacking(top, &owned, ports.as_slice()))
}

/// The first of a listed crossbar's clocks that lacks its source.
fn first_in_crossbar<'r>(
    alloc: Global,
    top: &'r MergedTop,
    number: usize,
    listed: &'r XbarUse,
) -> Result<Option<Found<'r>>, Memory>
    requires few { length top.now.top.xbars ≤ 16 }
    requires there { slice_get top.now.top.xbars number ≡ Some listed.now }
    ensures { IfOk result (λ found. TellsFirst (sees found) (OwnerLacks top.now (Xbar number) listed.now.at)) }
{
    let Some(xbar) = top.xbars.as_slice().get(number) else {
        return Ok(None);
    };
    let ports = crossbar_ports(alloc, xbar)?;
    let owned = crossbar_owner(number as u32, listed);
    Ok(first_lacking(top, &owned, ports.as_slice()))
}

/// The first port of an instance that lacks its source.
pub(crate) fn first_in_instances(
    alloc: Global,
    top: &MergedTop,
) -> Result<Option<Found<'_>>, Memory>
    requires { HasBlocks top.now }
    ensures { IfOk result (λ found. TellsFirst (sees found) (SomeBreaks (λ i inst. OwnerLacks top.now (Inst i) inst.at) top.now.top.insts)) }
{
    let mut first = None;
    for (number, inst) in top.top.insts.as_slice().iter().enumerate() {
        first = earlier_of(first, first_in_instance(alloc, top, number, inst)?);
    }
    Ok(first)
}

/// The first clock of a listed crossbar that lacks its source.
pub(crate) fn first_in_crossbars(
    alloc: Global,
    top: &MergedTop,
) -> Result<Option<Found<'_>>, Memory>
    requires { length top.now.top.xbars ≤ 16 }
    ensures { IfOk result (λ found. TellsFirst (sees found) (SomeBreaks (λ x listed. OwnerLacks top.now (Xbar x) listed.at) top.now.top.xbars)) }
{
    let mut first = None;
    for (number, listed) in top.top.xbars.as_slice().iter().enumerate() {
        first = earlier_of(first, first_in_crossbar(alloc, top, number, listed)?);
    }
    Ok(first)
}
