//! Whether the entries of a module fit where they stand: widths, known nets, and the ports of known parts.
ghost use Rattle.std.specs.Prelude.{◌≡◌, ◌≤◌, ◌+◌, ◌<◌, ◌^◌, ◌++◌, [], ◌∷◌, min, map, take, drop, length};
ghost use Rattle.std.specs.List.{list_all};
ghost use Rattle.cg_svspec.specs.Tree.{expressions};
ghost use Rattle.cg_svspec.specs.Value.{connection_at};
ghost use Rattle.cg_svspec.specs.WellFormed.{flop_ports, split_ports, join_ports, fifo_ports};
ghost use Rattle.cg_sv.specs.Views.{expression_of, port_of, parameter_of, connection_of, entry_of, module_of};
ghost use Rattle.cg_svcheck.specs.Widths as wide;
ghost use Rattle.cg_svcheck.specs.Counting as counted;
ghost use Rattle.cg_svcheck.specs.Fitting as test;

use crate::drivers::{few, one_if};
use crate::forms::{bare_net, connection_at, literal_at};
use crate::nets::{Nets, Scan};
use crate::widths::width_of;
use cg_sv::{Conn, Entry, Expr, Module, Param};
/// Whether an expression uses only known nets.
#[cycle(uses)]
#[tactic(auto, using(cg_sv::proofs::Views::views))]
fn uses_only<N: Nets>(nets: &N, expr: &Expr) -> bool
    ensures { result ≡ wide.uses_only (N.known nets.now) (expression_of expr.now) }
{
    match expr {
        Expr::Net(name) => nets.is_known(name.as_str()),
        Expr::Cut { net, .. } => nets.is_known(net.as_str()),
        Expr::Lit { .. } => true,
        Expr::Cat(parts) => parts_use_only(nets, parts.as_slice()),
        Expr::Not(part) => uses_only(nets, part),
        Expr::Any(part) => uses_only(nets, part),
        Expr::And(first, second) => { uses_only(nets, first) && uses_only(nets, second) }
        Expr::Or(first, second) => { uses_only(nets, first) && uses_only(nets, second) }
        Expr::Equal(first, second) => { uses_only(nets, first) && uses_only(nets, second) }
        Expr::Pick(condition, one, zero) => {
            uses_only(nets, condition) && (uses_only(nets, one) && uses_only(nets, zero))
        }
    }
}
/// Whether each part uses only known nets.
#[cycle(uses)]
fn parts_use_only<N: Nets>(nets: &N, parts: &[Expr]) -> bool
    ensures { result ≡ wide.parts_use_only (N.known nets.now) (expressions (map expression_of parts.now)) }
{
    for part in parts {
        if !uses_only(nets, part) {
            return false;
        }
    }
    true
}
/// Whether each connection uses only known nets.
fn connections_use_only<N: Nets>(nets: &N, conns: &[Conn]) -> bool
    ensures { result ≡ test.connections_use_only (N.known nets.now) (map connection_of conns.now) }
{
    for conn in conns {
        if !uses_only(nets, &conn.value) {
            return false;
        }
    }
    true
}
/// How often a connection has the name, or 2 where that is more.
fn connected_count(conns: &[Conn], name: &str) -> u32
    ensures { result ≡ min 2 (test.connected_count name.now (map connection_of conns.now)) }
{
    let mut total = 0;
    for conn in conns {
        total = few(total, one_if(conn.name.as_str() == name));
    }
    total
}
/// Whether each of the connections has a name that no other has.
fn are_named_once(all: &[Conn], conns: &[Conn]) -> bool
    ensures { result ≡ list_all (test.is_connected_once (map connection_of all.now)) (map connection_of conns.now) }
{
    for conn in conns {
        if connected_count(all, conn.name.as_str()) >= 2 {
            return false;
        }
    }
    true
}
/// Whether there are so many connections, of names that differ.
#[tactic(auto, unfolding(crate::specs::Fitting::connections_differ))]
fn are_connections(count: usize, conns: &[Conn]) -> bool
    ensures { result ≡ test.are_connections count (map connection_of conns.now) }
{
    conns.len() == count && are_named_once(conns, conns)
}
/// Whether the width is this one.
fn is_of(width: u64, found: Option<u32>) -> bool
    ensures { result ≡ test.is_of width found }
{
    match found {
        Some(found) => found as u64 == width,
        None => false,
    }
}
/// Whether what is connected at the name has the width.
fn is_connected<N: Nets>(nets: &N, conns: &[Conn], name: &str, width: u64) -> bool
    ensures { result ≡ test.is_of_width (N.widths nets.now) width (connection_at name.now (map connection_of conns.now)) }
{
    match connection_at(conns, name) {
        Some(value) => is_of(width, width_of(nets, value)),
        None => false,
    }
}
/// Whether the ports of a flip-flop of this width are connected with their widths.
fn has_flop_ports<N: Nets>(nets: &N, conns: &[Conn], width: u64) -> bool
    ensures { result ≡ test.ports_connected (N.widths nets.now) (map connection_of conns.now) (flop_ports width) }
{
    is_connected(nets, conns, "clk_i", 1)
        && (is_connected(nets, conns, "rst_ni", 1)
            && (is_connected(nets, conns, "d_i", width) && is_connected(nets, conns, "q_o", width)))
}
/// Whether the ports of a socket from one host to so many devices are connected with their widths.
fn has_split_ports<N: Nets>(nets: &N, conns: &[Conn], links: u64) -> bool
    requires { links < 2 ^ 16 }
    ensures { result ≡ test.ports_connected (N.widths nets.now) (map connection_of conns.now) (split_ports links) }
{
    is_connected(nets, conns, "clk_i", 1)
        && (is_connected(nets, conns, "sel_i", 8)
            && (is_connected(nets, conns, "req_i", 70)
                && (is_connected(nets, conns, "rsp_o", 33)
                    && (is_connected(nets, conns, "req_o", 70 * links)
                        && is_connected(nets, conns, "rsp_i", 33 * links)))))
}
/// Whether the ports of a socket from so many hosts to one device are connected with their widths.
fn has_join_ports<N: Nets>(nets: &N, conns: &[Conn], links: u64) -> bool
    requires { links < 2 ^ 16 }
    ensures { result ≡ test.ports_connected (N.widths nets.now) (map connection_of conns.now) (join_ports links) }
{
    is_connected(nets, conns, "clk_i", 1)
        && (is_connected(nets, conns, "req_i", 70 * links)
            && (is_connected(nets, conns, "rsp_o", 33 * links)
                && (is_connected(nets, conns, "req_o", 70)
                    && is_connected(nets, conns, "rsp_i", 33))))
}
/// Whether the ports of an asynchronous FIFO are connected with their widths.
fn has_fifo_ports<N: Nets>(nets: &N, conns: &[Conn]) -> bool
    ensures { result ≡ test.ports_connected (N.widths nets.now) (map connection_of conns.now) fifo_ports }
{
    is_connected(nets, conns, "clk_h_i", 1)
        && (is_connected(nets, conns, "clk_d_i", 1)
            && (is_connected(nets, conns, "req_i", 70)
                && (is_connected(nets, conns, "rsp_o", 33)
                    && (is_connected(nets, conns, "req_o", 70)
                        && is_connected(nets, conns, "rsp_i", 33)))))
}
/// Whether what is connected at the name is a bare net.
fn is_bare(conns: &[Conn], name: &str) -> bool
    ensures { result ≡ test.is_bare (connection_at name.now (map connection_of conns.now)) }
{
    match connection_at(conns, name) {
        Some(value) => bare_net(value).is_some(),
        None => false,
    }
}
/// Whether an instance of `prim_flop` has its ports and parameters.
fn flop_fits<N: Nets>(nets: &N, params: &[Param], conns: &[Conn]) -> bool
    ensures { result ≡ test.flop_fits (N.widths nets.now) (map parameter_of params.now) (map connection_of conns.now) }
{
    if params.len() != 2 {
        return false;
    }
    match literal_at(params, "Width") {
        None => false,
        Some((plain, width)) => match literal_at(params, "ResetValue") {
            None => false,
            Some((bits, _)) => {
                (plain == 0 && bits as u64 == width)
                    && (are_connections(4, conns)
                        && (has_flop_ports(nets, conns, width) && is_bare(conns, "q_o")))
            }
        },
    }
}
/// Whether an instance of `tlul_socket_1n` has its ports and parameter.
fn split_fits<N: Nets>(nets: &N, params: &[Param], conns: &[Conn]) -> bool
    ensures { result ≡ test.split_fits (N.widths nets.now) (map parameter_of params.now) (map connection_of conns.now) }
{
    if params.len() != 1 {
        return false;
    }
    match literal_at(params, "N") {
        None => false,
        Some((plain, links)) => {
            (plain == 0 && links < 65536)
                && (are_connections(6, conns) && has_split_ports(nets, conns, links))
        }
    }
}
/// Whether an instance of `tlul_socket_m1` has its ports and parameter.
fn join_fits<N: Nets>(nets: &N, params: &[Param], conns: &[Conn]) -> bool
    ensures { result ≡ test.join_fits (N.widths nets.now) (map parameter_of params.now) (map connection_of conns.now) }
{
    if params.len() != 1 {
        return false;
    }
    match literal_at(params, "M") {
        None => false,
        Some((plain, links)) => {
            (plain == 0 && links < 65536)
                && (are_connections(5, conns) && has_join_ports(nets, conns, links))
        }
    }
}
/// Whether an instance of `tlul_fifo_async` has its ports, and no parameter.
fn fifo_fits<N: Nets>(nets: &N, params: &[Param], conns: &[Conn]) -> bool
    ensures { result ≡ test.fifo_fits (N.widths nets.now) (map parameter_of params.now) (map connection_of conns.now) }
{
    params.len() == 0 && (are_connections(6, conns) && has_fifo_ports(nets, conns))
}
/// Whether each connection has some width.
fn all_have_width<N: Nets>(nets: &N, conns: &[Conn]) -> bool
    ensures { result ≡ test.all_have_width (N.widths nets.now) (map connection_of conns.now) }
{
    for conn in conns {
        if width_of(nets, &conn.value).is_none() {
            return false;
        }
    }
    true
}
/// Whether an instance has the ports of its module, where those are known.
#[tactic(auto, unfolding(crate::specs::Fitting::part_fits))]
fn part_fits<N: Nets>(nets: &N, module: &str, params: &[Param], conns: &[Conn]) -> bool
    ensures { result ≡ test.part_fits (N.widths nets.now) «module».now (map parameter_of params.now) (map connection_of conns.now) }
{
    if module == "prim_flop" {
        flop_fits(nets, params, conns)
    } else if module == "tlul_socket_1n" {
        split_fits(nets, params, conns)
    } else if module == "tlul_socket_m1" {
        join_fits(nets, params, conns)
    } else if module == "tlul_fifo_async" {
        fifo_fits(nets, params, conns)
    } else {
        all_have_width(nets, conns)
    }
}
/// Whether both are one width.
fn same_width(first: Option<u32>, second: Option<u32>) -> bool
    ensures { result ≡ test.same_width first second }
{
    match first {
        Some(width) => is_of(width as u64, second),
        None => false,
    }
}
/// Whether an entry fits behind the entries above.
pub fn entry_fits<N: Nets>(nets: &N, entry: &Entry) -> bool
    ensures { result ≡ test.entry_fits (N.widths nets.now) (N.known nets.now) (entry_of entry.now) }
{
    match entry {
        Entry::Wire { value: None, .. } => true,
        Entry::Wire {
            width,
            value: Some(value),
            ..
        } => { is_of(*width as u64, width_of(nets, value)) && uses_only(nets, value) }
        Entry::Assign { name, value } => {
            same_width(nets.width(name.as_str()), width_of(nets, value)) && uses_only(nets, value)
        }
        Entry::Inst {
            module: instance,
            params,
            conns,
            ..
        } => {
            part_fits(nets, instance.as_str(), params.as_slice(), conns.as_slice())
                && connections_use_only(nets, conns.as_slice())
        }
    }
}
/// Whether each entry fits where it stands.
pub fn entries_fit(module: &Module) -> bool
    ensures { result ≡ test.entries_fit (module_of «module».now) [] (map entry_of «module».now.entries) }
{
    let entries = module.entries.as_slice();
    for place in 0..entries.len() {
        let (above, rest) = entries.split_at(place);
        match rest.split_first() {
            None => return true,
            Some((entry, _)) => {
                let nets = Scan { module, above };
                if !entry_fits(&nets, entry) {
                    return false;
                }
            }
        }
    }
    true
}
