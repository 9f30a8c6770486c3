//! Links, by the names of their nets.

ghost use Rattle.std.specs.Prelude.{◌≡◌, ◌++◌, IfOk, codes};
ghost use Rattle.cg_busspec.specs.Crossbar.{label};
ghost use Rattle.cg_busspec.specs.CrossbarModule.{link_named, l_link, socket_link, joined_link, lane};
ghost use Rattle.cg_svxbar.specs.Viewed.{link_of};

use crate::nodes::{has_fifo, is_joined, label};
use cg_base::{Memory, Text};
use cg_desc::XbarDesc;
use std::alloc::Global;

/// A link, by the names of its nets: the request's and the response's.
#[derive(Drop)]
pub struct Link {
    pub request: Text,
    pub response: Text,
}

/// The link whose nets have this stem and name.
pub fn named_link(alloc: Global, stem: &str, name: &str) -> Result<Link, Memory>
    ensures { IfOk result (λ l. link_of l ≡ link_named stem.now name.now) }
{
    let request = format!(in alloc; "{stem}{name}_req")?;
    let response = format!(in alloc; "{stem}{name}_rsp")?;
    Ok(Link {
        request: Text::from_string(request),
        response: Text::from_string(response),
    })
}

/// The link of a node with this stem: `h_` at a host's port and `f_` behind its FIFO, `m_` before a device's FIFO and `d_` at
/// its port.
pub fn node_link(alloc: Global, stem: &str, xbar: &XbarDesc, number: usize) -> Result<Link, Memory>
    ensures { IfOk result (λ l. link_of l ≡ link_named stem.now (label xbar.now number)) }
{
    let name = label(alloc, xbar, number)?;
    named_link(alloc, stem, name.as_str())
}

/// The link from a host to a device that has an M-to-1 socket.
pub fn pair_link(alloc: Global, xbar: &XbarDesc, host: usize, device: usize) -> Result<Link, Memory>
    ensures { IfOk result (λ l. link_of l ≡ l_link xbar.now host device) }
{
    let host = label(alloc, xbar, host)?;
    let device = label(alloc, xbar, device)?;
    let name = format!(in alloc; "{host}_t_{device}")?;
    named_link(alloc, "l_", name.as_str())
}

/// The link at a host's 1-to-N socket.
#[tactic(auto, unfolding(cg_busspec::specs::CrossbarModule::socket_link))]
pub fn socket_link(alloc: Global, xbar: &XbarDesc, host: usize) -> Result<Link, Memory>
    ensures { IfOk result (λ l. link_of l ≡ socket_link xbar.now host) }
{
    if has_fifo(xbar, host) {
        let link = node_link(alloc, "f_", xbar, host)?;
        return Ok(link);
    }
    let link = node_link(alloc, "h_", xbar, host)?;
    Ok(link)
}

/// The first link of a device behind its M-to-1 socket, if it has one.
#[tactic(auto, unfolding(cg_busspec::specs::CrossbarModule::joined_link))]
pub fn joined_link(alloc: Global, xbar: &XbarDesc, device: usize) -> Result<Link, Memory>
    ensures { IfOk result (λ l. link_of l ≡ joined_link xbar.now device) }
{
    if has_fifo(xbar, device) {
        let link = node_link(alloc, "m_", xbar, device)?;
        return Ok(link);
    }
    let link = node_link(alloc, "d_", xbar, device)?;
    Ok(link)
}

/// The link to a device behind a host's 1-to-N socket.
#[tactic(auto, unfolding(cg_busspec::specs::CrossbarModule::lane))]
pub fn lane(alloc: Global, xbar: &XbarDesc, host: usize, device: usize) -> Result<Link, Memory>
    ensures { IfOk result (λ l. link_of l ≡ lane xbar.now host device) }
{
    if is_joined(alloc, xbar, device)? {
        let link = pair_link(alloc, xbar, host, device)?;
        return Ok(link);
    }
    let link = joined_link(alloc, xbar, device)?;
    Ok(link)
}
