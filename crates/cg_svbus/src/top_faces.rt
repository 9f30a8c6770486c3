//! Connections of an instance's interfaces, and their spellings.

ghost use Rattle.std.specs.Prelude.{◌≡◌, ◌++◌, [], ◌∷◌, IfOk, OnOk, map};
ghost use Rattle.std.specs.Option.{option_map};
ghost use Rattle.cg_busspec.specs.CrossbarModule.{connection, halvings};
ghost use Rattle.cg_sv.specs.Views.{connection_of, parameter_of};
ghost use Rattle.cg_svxbar.specs.Viewed.{link_of};
ghost use Rattle.cg_svbus.specs.TopViewed.{node_id_of, face_port};
ghost use Rattle.cg_svspec.specs.Tree.{net};
ghost use Rattle.cg_svspec.specs.Walk.{address_width_name, response_name};
ghost use Rattle.cg_topspec.specs.Top.{all_nodes, block_of, device_node, host_node};
ghost use Rattle.cg_topspec.specs.TopModule.{face_request, host_face_request, host_face_response, link_connections, joined_at, face_connections, host_connections, address_width};

use crate::top_blocks::{faces, host_faces};
use crate::top_links::{device_node, host_node, own_link};
use crate::top_nodes::TopNode;
use cg_base::{List, Memory, Text};
use cg_desc::{LaidFace, MergedTop, Range};
use cg_sv::{Conn, Param, make};
use cg_svxbar::{Link, power_of};
use std::alloc::Global;

/// Adds the connection of a port to a net.
pub fn connect(alloc: Global, conns: &mut List<Conn>, port: &str, to: &str) -> Result<(), Memory>
    ensures { OnOk result (map connection_of conns.new ≡ map connection_of conns.old ++ connection port.now (net to.now) ∷ []) }
{
    let net = make::net(alloc, to)?;
    make::connection(alloc, conns, port, net)?;
    Ok(())
}

/// Adds the connections of two ports to a link.
pub fn connect_link(
    alloc: Global,
    conns: &mut List<Conn>,
    request: &str,
    response: &str,
    link: &Link,
) -> Result<(), Memory>
    ensures { OnOk result (map connection_of conns.new ≡ map connection_of conns.old ++ link_connections request.now response.now (link_of link.now)) }
{
    connect(alloc, conns, request, link.request.as_str())?;
    connect(alloc, conns, response, link.response.as_str())?;
    Ok(())
}

/// Adds the connections of an interface to the link of the node that stands for it, if there is one.
fn connect_node(
    alloc: Global,
    conns: &mut List<Conn>,
    top: &MergedTop,
    request: &str,
    response: &str,
    node: Option<TopNode>,
) -> Result<(), Memory>
    ensures { OnOk result (map connection_of conns.new ≡ map connection_of conns.old ++ joined_at top.now request.now response.now (option_map node_id_of node)) }
{
    if let Some(id) = node {
        let link = own_link(alloc, top, id)?;
        connect_link(alloc, conns, request, response, &link)?;
    }
    Ok(())
}

/// The name of a port of an interface: `plain` where the interface has no name, and else its name with this end.
fn face_port(alloc: Global, face: &Option<Text>, plain: &str, end: &str) -> Result<Text, Memory>
    ensures { IfOk result (λ name. name ≡ face_port plain.now end.now face.now) }
{
    match face {
        None => {
            let name = Text::of(alloc, plain)?;
            Ok(name)
        }
        Some(face) => {
            let name = format!(in alloc; "{face}{end}")?;
            Ok(Text::from_string(name))
        }
    }
}

/// The name of the parameter that has the address width of an interface.
fn address_width_name(alloc: Global, face: &Option<Text>) -> Result<Text, Memory>
    ensures { IfOk result (λ name. name ≡ address_width_name face.now) }
{
    match face {
        None => {
            let name = Text::of(alloc, "Aw")?;
            Ok(name)
        }
        Some(face) => {
            let name = format!(in alloc; "Aw_{face}")?;
            Ok(Text::from_string(name))
        }
    }
}

/// Adds the connections of a device interface, the one of this number.
#[tactic(auto, using(crate::proofs::TopParts::spelled_faces))]
fn add_face(
    alloc: Global,
    conns: &mut List<Conn>,
    top: &MergedTop,
    nodes: &[TopNode],
    inst: usize,
    number: usize,
    face: &Option<Text>,
) -> Result<(), Memory>
    requires { map node_id_of nodes.now ≡ all_nodes top.now }
    ensures { OnOk result (map connection_of conns.new ≡ map connection_of conns.old
        ++ joined_at top.now (face_request face.now) (response_name face.now) (device_node top.now inst number)) }
{
    let request = face_port(alloc, face, "tl_req_i", "_tl_req_i")?;
    let response = face_port(alloc, face, "tl_rsp_o", "_tl_rsp_o")?;
    let node = device_node(top, nodes, inst, number);
    connect_node(alloc, conns, top, request.as_str(), response.as_str(), node)?;
    Ok(())
}

/// Adds those of all device interfaces of an instance.
pub fn add_faces(
    alloc: Global,
    conns: &mut List<Conn>,
    top: &MergedTop,
    nodes: &[TopNode],
    inst: usize,
) -> Result<(), Memory>
    requires { map node_id_of nodes.now ≡ all_nodes top.now }
    ensures { OnOk result (map connection_of conns.new ≡ map connection_of conns.old
        ++ face_connections top.now inst 0 (block_of top.now inst).faces) }
{
    for (number, face) in faces(top, inst).iter().enumerate() {
        add_face(alloc, conns, top, nodes, inst, number, &face.name)?;
    }
    Ok(())
}

/// Adds the connections of a host interface, the one of this number.
#[tactic(auto, using(crate::proofs::TopParts::spelled_faces))]
fn add_host_face(
    alloc: Global,
    conns: &mut List<Conn>,
    top: &MergedTop,
    nodes: &[TopNode],
    inst: usize,
    number: usize,
    face: &Option<Text>,
) -> Result<(), Memory>
    requires { map node_id_of nodes.now ≡ all_nodes top.now }
    ensures { OnOk result (map connection_of conns.new ≡ map connection_of conns.old
        ++ joined_at top.now (host_face_request face.now) (host_face_response face.now) (host_node top.now inst number)) }
{
    let request = face_port(alloc, face, "tl_h_req_o", "_tl_req_o")?;
    let response = face_port(alloc, face, "tl_h_rsp_i", "_tl_rsp_i")?;
    let node = host_node(top, nodes, inst, number);
    connect_node(alloc, conns, top, request.as_str(), response.as_str(), node)?;
    Ok(())
}

/// Adds those of all host interfaces of an instance.
pub fn add_host_faces(
    alloc: Global,
    conns: &mut List<Conn>,
    top: &MergedTop,
    nodes: &[TopNode],
    inst: usize,
) -> Result<(), Memory>
    requires { map node_id_of nodes.now ≡ all_nodes top.now }
    ensures { OnOk result (map connection_of conns.new ≡ map connection_of conns.old
        ++ host_connections top.now inst 0 (block_of top.now inst).desc.hosts) }
{
    for (number, face) in host_faces(top, inst).iter().enumerate() {
        add_host_face(alloc, conns, top, nodes, inst, number, &face.name)?;
    }
    Ok(())
}

/// How many bits the addresses of so many bytes have: how often the size can be halved, at most 32 times.
#[tactic(auto, unfolding(cg_busspec::specs::CrossbarModule::power_of))]
fn address_bits(size: u32) -> u32
    ensures { result ≡ halvings 32 size }
{
    let range = Range {
        base: 0,
        size: u64::from(size),
    };
    power_of(&range)
}

/// Adds the parameter with the address width of an interface.
fn add_width(alloc: Global, params: &mut List<Param>, face: &LaidFace) -> Result<(), Memory>
    ensures { OnOk result (map parameter_of params.new ≡ map parameter_of params.old ++ address_width face.now ∷ []) }
{
    let name = address_width_name(alloc, &face.name)?;
    let bits = address_bits(face.size);
    make::parameter(alloc, params, name.as_str(), make::lit(0, u64::from(bits)))?;
    Ok(())
}

/// The parameters of an instance: the address widths of its device interfaces.
pub fn address_widths(alloc: Global, top: &MergedTop, inst: usize) -> Result<List<Param>, Memory>
    ensures { IfOk result (λ params. map parameter_of params ≡ map address_width (block_of top.now inst).faces) }
{
    let mut params = List::new(alloc);
    for face in faces(top, inst) {
        add_width(alloc, &mut params, face)?;
    }
    Ok(params)
}
