//! The parts of a crossbar, as instances of its module.

ghost use Rattle.std.specs.Prelude.{◌≡◌, ◌++◌, [], ◌∷◌, IfOk, OnOk, map, codes, length};
ghost use Rattle.cg_svspec.specs.Tree.{net, lit};
ghost use Rattle.cg_busspec.specs.CrossbarModule.{requests, responses, bundle, clock_net, connection, number_parameter, fifo_instance, split_instance, join_instance};
ghost use Rattle.cg_sv.specs.Views.{expression_of, entry_of, parameter_of, connection_of};
ghost use Rattle.cg_svxbar.specs.Viewed.{link_of};

use crate::links::Link;
use cg_base::{List, Memory};
use cg_sv::{Conn, Entry, Expr, Param, make};
use std::alloc::Global;

/// The port of a clock.
fn clock_net(alloc: Global, clock: &str) -> Result<Expr, Memory>
    ensures { IfOk result (λ x. expression_of x ≡ net (clock_net clock.now)) }
{
    let name = format!(in alloc; "c_{clock}")?;
    let net = make::net(alloc, &name)?;
    Ok(net)
}

/// The requests of several links side by side, the first lowest.
fn requests(alloc: Global, links: &[Link]) -> Result<Expr, Memory>
    ensures { IfOk result (λ x. expression_of x ≡ bundle (requests (map link_of links.now))) }
{
    let mut nets = Vec::new(alloc);
    for link in links {
        let net = make::net(alloc, link.request.as_str())?;
        nets.push(net)?;
    }
    nets.reverse();
    Ok(make::cat(List::from_vec(nets)))
}

/// Their responses.
fn responses(alloc: Global, links: &[Link]) -> Result<Expr, Memory>
    ensures { IfOk result (λ x. expression_of x ≡ bundle (responses (map link_of links.now))) }
{
    let mut nets = Vec::new(alloc);
    for link in links {
        let net = make::net(alloc, link.response.as_str())?;
        nets.push(net)?;
    }
    nets.reverse();
    Ok(make::cat(List::from_vec(nets)))
}

/// Adds the connections of a part's side of the hosts, where it has one link there.
fn connect_host(alloc: Global, conns: &mut List<Conn>, link: &Link) -> Result<(), Memory>
    ensures { OnOk result (map connection_of conns.new ≡ map connection_of conns.old
        ++ connection (codes "req_i") (net link.now.request) ∷ connection (codes "rsp_o") (net link.now.response) ∷ []) }
{
    let request = make::net(alloc, link.request.as_str())?;
    make::connection(alloc, conns, "req_i", request)?;
    let response = make::net(alloc, link.response.as_str())?;
    make::connection(alloc, conns, "rsp_o", response)?;
    Ok(())
}

/// Adds those of its side of the devices, where it has one link there.
fn connect_device(alloc: Global, conns: &mut List<Conn>, link: &Link) -> Result<(), Memory>
    ensures { OnOk result (map connection_of conns.new ≡ map connection_of conns.old
        ++ connection (codes "req_o") (net link.now.request) ∷ connection (codes "rsp_i") (net link.now.response) ∷ []) }
{
    let request = make::net(alloc, link.request.as_str())?;
    make::connection(alloc, conns, "req_o", request)?;
    let response = make::net(alloc, link.response.as_str())?;
    make::connection(alloc, conns, "rsp_i", response)?;
    Ok(())
}

/// The one parameter of a socket: the number of its many links.
#[tactic(auto, using(crate::proofs::Bundles::links_long))]
fn links_parameter(alloc: Global, name: &str, links: &[Link]) -> Result<List<Param>, Memory>
    ensures { IfOk result (λ params. map parameter_of params ≡ number_parameter name.now (length (map link_of links.now)) ∷ []) }
{
    let mut params = List::new(alloc);
    make::parameter(alloc, &mut params, name, make::lit(0, links.len() as u64))?;
    Ok(params)
}

/// The connections of a FIFO from one link to another, between their clocks.
fn fifo_connections(
    alloc: Global,
    near: &str,
    far: &str,
    from: &Link,
    to: &Link,
) -> Result<List<Conn>, Memory>
    ensures { IfOk result (λ conns. map connection_of conns
        ≡ connection (codes "clk_h_i") (net (clock_net near.now)) ∷ connection (codes "clk_d_i") (net (clock_net far.now))
        ∷ connection (codes "req_i") (net from.now.request) ∷ connection (codes "rsp_o") (net from.now.response)
        ∷ connection (codes "req_o") (net to.now.request) ∷ connection (codes "rsp_i") (net to.now.response) ∷ []) }
{
    let mut conns = List::new(alloc);
    let near = clock_net(alloc, near)?;
    make::connection(alloc, &mut conns, "clk_h_i", near)?;
    let far = clock_net(alloc, far)?;
    make::connection(alloc, &mut conns, "clk_d_i", far)?;
    connect_host(alloc, &mut conns, from)?;
    connect_device(alloc, &mut conns, to)?;
    Ok(conns)
}

/// Adds the asynchronous FIFO from one link to another, between their clocks.
pub fn add_fifo(
    alloc: Global,
    entries: &mut List<Entry>,
    name: &str,
    near: &str,
    far: &str,
    from: &Link,
    to: &Link,
) -> Result<(), Memory>
    ensures { OnOk result (map entry_of entries.new ≡ map entry_of entries.old
        ++ fifo_instance name.now near.now far.now (link_of from.now) (link_of to.now) ∷ []) }
{
    let conns = fifo_connections(alloc, near, far, from, to)?;
    make::instance(
        alloc,
        entries,
        "tlul_fifo_async",
        List::new(alloc),
        name,
        conns,
    )?;
    Ok(())
}

/// The connections of a 1-to-N socket from one link to several.
fn split_connections(
    alloc: Global,
    clock: &str,
    select: &str,
    from: &Link,
    to: &[Link],
) -> Result<List<Conn>, Memory>
    ensures { IfOk result (λ conns. map connection_of conns
        ≡ connection (codes "clk_i") (net (clock_net clock.now)) ∷ connection (codes "sel_i") (net select.now)
        ∷ connection (codes "req_i") (net from.now.request) ∷ connection (codes "rsp_o") (net from.now.response)
        ∷ connection (codes "req_o") (bundle (requests (map link_of to.now))) ∷ connection (codes "rsp_i") (bundle (responses (map link_of to.now))) ∷ []) }
{
    let mut conns = List::new(alloc);
    let clock = clock_net(alloc, clock)?;
    make::connection(alloc, &mut conns, "clk_i", clock)?;
    let select = make::net(alloc, select)?;
    make::connection(alloc, &mut conns, "sel_i", select)?;
    connect_host(alloc, &mut conns, from)?;
    let requests = requests(alloc, to)?;
    make::connection(alloc, &mut conns, "req_o", requests)?;
    let responses = responses(alloc, to)?;
    make::connection(alloc, &mut conns, "rsp_i", responses)?;
    Ok(conns)
}

/// Adds the 1-to-N socket from one link to several.
pub fn add_split(
    alloc: Global,
    entries: &mut List<Entry>,
    name: &str,
    clock: &str,
    select: &str,
    from: &Link,
    to: &[Link],
) -> Result<(), Memory>
    ensures { OnOk result (map entry_of entries.new ≡ map entry_of entries.old
        ++ split_instance name.now clock.now select.now (link_of from.now) (map link_of to.now) ∷ []) }
{
    let params = links_parameter(alloc, "N", to)?;
    let conns = split_connections(alloc, clock, select, from, to)?;
    make::instance(alloc, entries, "tlul_socket_1n", params, name, conns)?;
    Ok(())
}

/// The connections of an M-to-1 socket from several links to one.
fn join_connections(
    alloc: Global,
    clock: &str,
    from: &[Link],
    to: &Link,
) -> Result<List<Conn>, Memory>
    ensures { IfOk result (λ conns. map connection_of conns
        ≡ connection (codes "clk_i") (net (clock_net clock.now))
        ∷ connection (codes "req_i") (bundle (requests (map link_of from.now))) ∷ connection (codes "rsp_o") (bundle (responses (map link_of from.now)))
        ∷ connection (codes "req_o") (net to.now.request) ∷ connection (codes "rsp_i") (net to.now.response) ∷ []) }
{
    let mut conns = List::new(alloc);
    let clock = clock_net(alloc, clock)?;
    make::connection(alloc, &mut conns, "clk_i", clock)?;
    let requests = requests(alloc, from)?;
    make::connection(alloc, &mut conns, "req_i", requests)?;
    let responses = responses(alloc, from)?;
    make::connection(alloc, &mut conns, "rsp_o", responses)?;
    connect_device(alloc, &mut conns, to)?;
    Ok(conns)
}

/// Adds the M-to-1 socket from several links to one.
pub fn add_join(
    alloc: Global,
    entries: &mut List<Entry>,
    name: &str,
    clock: &str,
    from: &[Link],
    to: &Link,
) -> Result<(), Memory>
    ensures { OnOk result (map entry_of entries.new ≡ map entry_of entries.old
        ++ join_instance name.now clock.now (map link_of from.now) (link_of to.now) ∷ []) }
{
    let params = links_parameter(alloc, "M", from)?;
    let conns = join_connections(alloc, clock, from, to)?;
    make::instance(alloc, entries, "tlul_socket_m1", params, name, conns)?;
    Ok(())
}
