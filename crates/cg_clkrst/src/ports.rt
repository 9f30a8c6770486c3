//! The ports that a block and a crossbar use.

ghost use Rattle.std.specs.Prelude.{◌≡◌, ◌++◌, ℕ, IfOk, OnOk, Some, map};
ghost use Rattle.std.specs.List.{list_any};
ghost use Rattle.cg_clkrst.specs.Owned.{is_same, port_at};
ghost use Rattle.cg_clkrst.specs.Ports.{block_uses, crossbar_uses, entry_uses};
ghost use Rattle.cg_clkrst.specs.declared.tie.Owner.{Owner as AnOwner};
ghost use Rattle.cg_clkrst.specs.declared.tie.Owner.TheVariants.{Inst, Xbar};

use cg_base::{List, Memory};
use cg_desc::{ClockDesc, LaidBlock, XbarDesc};
use std::alloc::Global;

/// A use of a port: of a reset, or of a clock.
#[derive(Clone, Copy, Debug)]
pub(crate) struct Port<'a> {
    pub reset: bool,
    pub name: &'a str,
}

/// Whether two ports of one owner are one.
#[tactic(auto, unfolding(crate::specs::Owned::is_same))]
fn is_same(port: &Port, other: &Port) -> bool
    ensures { result ≡ is_same port.now other.now }
{
    port.reset == other.reset && port.name == other.name
}

/// Whether a port is one of these of its owner.
pub(crate) fn is_among(ports: &[Port], port: &Port) -> bool
    ensures { result ≡ list_any (λ p. is_same p port.now) ports.now }
{
    ports.iter().any(|other| is_same(other, port))
}

/// The clock and the reset, if there is one, that an entry of `clocking` uses.
fn add_entry<'a>(entry: &'a ClockDesc, ports: &mut List<Port<'a>>) -> Result<(), Memory>
    ensures { OnOk result ((owner : AnOwner) → map (port_at owner) ports.new ≡ map (port_at owner) ports.old ++ entry_uses owner entry.now) }
{
    ports.push(Port {
        reset: false,
        name: entry.clock.as_str(),
    })?;
    if let Some(reset) = &entry.reset {
        ports.push(Port {
            reset: true,
            name: reset.as_str(),
        })?;
    }
    Ok(())
}

/// The ports that a block uses, in the order of its `clocking`.
pub(crate) fn block_ports<'a>(alloc: Global, block: &'a LaidBlock) -> Result<List<Port<'a>>, Memory>
    ensures { IfOk result (λ ports. (i : ℕ) → map (port_at (Inst i)) ports ≡ block_uses i (Some block.now)) }
{
    let mut ports = List::new(alloc);
    for entry in block.desc.clocking.as_slice() {
        add_entry(entry, &mut ports)?;
    }
    Ok(ports)
}

/// The clocks that a crossbar uses: its own, then those of its nodes in order.
pub(crate) fn crossbar_ports<'a>(
    alloc: Global,
    xbar: &'a XbarDesc,
) -> Result<List<Port<'a>>, Memory>
    ensures { IfOk result (λ ports. (x : ℕ) → map (port_at (Xbar x)) ports ≡ crossbar_uses x (Some xbar.now)) }
{
    let mut ports = List::new(alloc);
    ports.push(Port {
        reset: false,
        name: xbar.clock.as_str(),
    })?;
    for node in xbar.nodes.as_slice() {
        ports.push(Port {
            reset: false,
            name: node.clock.as_str(),
        })?;
    }
    Ok(ports)
}
