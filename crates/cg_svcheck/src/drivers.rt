//! Which nets are driven, and how often.

ghost use Rattle.std.specs.Prelude.{◌≡◌, ◌≤◌, ◌+◌, [], ◌∷◌, min, map};
ghost use Rattle.std.specs.Str.{bytes_eq};
ghost use Rattle.cg_svspec.specs.Tree.{expressions};
ghost use Rattle.cg_svspec.specs.Names.{is_among};
ghost use Rattle.cg_svspec.specs.Value.{flop_name};
ghost use Rattle.cg_svspec.specs.WellFormed.{ends_with, begins_with, is_part, is_input, is_output, inputs_of, driven_nets, driven_by_connections, instance_driven, expression_driven};
ghost use Rattle.cg_sv.specs.Views.{expression_of, port_of, connection_of, entry_of, module_of};
ghost use Rattle.cg_svcheck.specs.Counting as test;
ghost use Rattle.cg_svcheck.specs.Plain as said;

use crate::forms::bare_net;
use cg_sv::{Conn, Entry, Expr, Module, Port};

/// Whether a text begins so.
fn begins_with(text: &str, start: &str) -> bool
    ensures { result ≡ begins_with text.now start.now }
{
    text.as_bytes().starts_with(start.as_bytes())
}

/// Whether a text ends so.
pub fn ends_with(text: &[u8], end: &[u8]) -> bool
    ensures { result ≡ ends_with text.now end.now }
{
    let mut rest = text;
    while let Some((_, behind)) = rest.split_first() {
        if rest == end {
            return true;
        }
        rest = behind;
    }
    end.is_empty()
}

/// Whether the module is one whose ports are known.
pub fn is_part(module: &str) -> bool
    ensures { result ≡ is_part «module».now }
{
    module == "prim_flop"
        || (module == "tlul_socket_1n"
            || (module == "tlul_socket_m1" || module == "tlul_fifo_async"))
}

/// Whether an input has the name.
pub fn is_input(ports: &[Port], name: &str) -> bool
    ensures { result ≡ is_among (inputs_of (map port_of ports.now)) name.now }
{
    for port in ports {
        if port.input && port.name.as_str() == name {
            return true;
        }
    }
    false
}

/// Whether an expression is an input.
fn is_input_value(ports: &[Port], expr: &Expr) -> bool
    ensures { result ≡ is_input (inputs_of (map port_of ports.now)) (expression_of expr.now) }
{
    match bare_net(expr) {
        Some(name) => is_input(ports, name),
        None => false,
    }
}

/// Whether the name of a connection is that of an output.
pub fn is_output_name(name: &str) -> bool
    ensures { result ≡ test.is_output_name name.now }
{
    ends_with(name.as_bytes(), "_o".as_bytes())
        || ((begins_with(name, "h_") && ends_with(name.as_bytes(), "_rsp".as_bytes()))
            || (begins_with(name, "d_") && ends_with(name.as_bytes(), "_req".as_bytes())))
}

/// Whether a connection of an instance is an output.
pub fn is_output(ports: &[Port], module: &str, conn: &Conn) -> bool
    ensures { result ≡ is_output (inputs_of (map port_of ports.now)) «module».now (connection_of conn.now) }
{
    if is_part(module) {
        ends_with(conn.name.as_str().as_bytes(), "_o".as_bytes())
    } else {
        !is_input_value(ports, &conn.value) && is_output_name(conn.name.as_str())
    }
}

/// 1 where the test holds.
pub fn one_if(holds: bool) -> u32
    ensures { result ≡ test.one_if holds }
{
    if holds { 1 } else { 0 }
}

/// Both counts together, or 2 where that is more.
pub fn few(first: u32, second: u32) -> u32
    requires first { first ≤ 2 }
    requires second { second ≤ 2 }
    ensures { result ≡ min 2 (first + second) }
{
    (first + second).min(2)
}

/// Whether each part is a bare net.
pub fn are_bare(parts: &[Expr]) -> bool
    ensures { result ≡ test.all_bare (expressions (map expression_of parts.now)) }
{
    for part in parts {
        if bare_net(part).is_none() {
            return false;
        }
    }
    true
}

/// 1 where the part is a bare net of the name.
fn bare_part(part: &Expr, name: &str) -> u32
    ensures { result ≡ test.names_it name.now (said.net_of (expression_of part.now)) }
{
    match bare_net(part) {
        Some(net) => one_if(net == name),
        None => 0,
    }
}

/// How often a bare part has the name, or 2 where that is more.
fn bare_count(parts: &[Expr], name: &str) -> u32
    ensures { result ≡ min 2 (test.bare_count name.now (expressions (map expression_of parts.now))) }
{
    let mut total = 0;
    for part in parts {
        total = few(total, bare_part(part, name));
    }
    total
}

/// How often an output that is connected so drives the net, or 2 where that is more.
#[tactic(auto, using(cg_sv::proofs::Views::views))]
fn driven_count(expr: &Expr, name: &str) -> u32
    ensures { result ≡ min 2 (test.driven_count name.now (expression_of expr.now)) }
{
    match expr {
        Expr::Net(net) => one_if(net.as_str() == name),
        Expr::Cat(parts) => {
            if are_bare(parts.as_slice()) {
                bare_count(parts.as_slice(), name)
            } else {
                0
            }
        }
        _ => 0,
    }
}

/// How often the outputs among the connections drive the net, or 2 where that is more.
fn connections_count(ports: &[Port], module: &str, conns: &[Conn], name: &str) -> u32
    ensures { result ≡ min 2 (test.connections_count (inputs_of (map port_of ports.now)) «module».now name.now (map connection_of conns.now)) }
{
    let mut total = 0;
    for conn in conns {
        if is_output(ports, module, conn) {
            total = few(total, driven_count(&conn.value, name));
        }
    }
    total
}

/// How often instances drive the net, or 2 where that is more.
pub fn instances_count(ports: &[Port], entries: &[Entry], name: &str) -> u32
    ensures { result ≡ min 2 (test.instances_count (inputs_of (map port_of ports.now)) name.now (map entry_of entries.now)) }
{
    let mut total = 0;
    for entry in entries {
        match entry {
            Entry::Inst { module, conns, .. } => {
                total = few(
                    total,
                    connections_count(ports, module.as_str(), conns.as_slice(), name),
                );
            }
            Entry::Wire { .. } => {}
            Entry::Assign { .. } => {}
        }
    }
    total
}

/// How often the entry's expression drives the net.
fn expression_count(entry: &Entry, name: &str) -> u32
    ensures { result ≡ test.expressions_count name.now (entry_of entry.now ∷ []) }
{
    match entry {
        Entry::Wire {
            name: net,
            value: Some(_),
            ..
        } => one_if(net.as_str() == name),
        Entry::Wire { value: None, .. } => 0,
        Entry::Assign { name: net, .. } => one_if(net.as_str() == name),
        Entry::Inst { .. } => 0,
    }
}

/// How often expressions drive the net, or 2 where that is more.
pub fn expressions_count(entries: &[Entry], name: &str) -> u32
    ensures { result ≡ min 2 (test.expressions_count name.now (map entry_of entries.now)) }
{
    let mut total = 0;
    for entry in entries {
        total = few(total, expression_count(entry, name));
    }
    total
}

/// How often the net is driven, or 2 where that is more.
#[tactic(auto, unfolding(crate::specs::Counting::drivers_count))]
fn drivers_count(module: &Module, name: &str) -> u32
    ensures { result ≡ min 2 (test.drivers_count (module_of «module».now) name.now) }
{
    few(
        expressions_count(module.entries.as_slice(), name),
        instances_count(module.ports.as_slice(), module.entries.as_slice(), name),
    )
}

/// Whether the net has at most one driver.
#[tactic(auto, unfolding(crate::specs::Counting::is_driven_once))]
pub fn is_driven_once(module: &Module, name: &str) -> bool
    ensures { result ≡ test.is_driven_once (module_of «module».now) name.now }
{
    drivers_count(module, name) < 2
}

/// Whether the net has a driver.
#[tactic(auto, unfolding(crate::specs::Counting::is_driven))]
pub fn is_driven(module: &Module, name: &str) -> bool
    ensures { result ≡ test.is_driven (module_of «module».now) name.now }
{
    0 < drivers_count(module, name)
}
