//! Whether each name is declared once, and each driven net has one driver.

ghost use Rattle.std.specs.Prelude.{◌≡◌, ◌≤◌, ◌+◌, [], ◌∷◌, min, map};
ghost use Rattle.std.specs.List.{list_all};
ghost use Rattle.cg_svspec.specs.Tree.{expressions};
ghost use Rattle.cg_svspec.specs.WellFormed.{inputs_of};
ghost use Rattle.cg_sv.specs.Views.{expression_of, port_of, connection_of, entry_of, module_of};
ghost use Rattle.cg_svcheck.specs.Counting as test;
ghost use Rattle.cg_svcheck.specs.Plain as said;

use crate::drivers::{are_bare, few, is_driven, is_driven_once, is_output, one_if};
use crate::forms::bare_net;
use cg_sv::{Conn, Entry, Expr, Module, Port};

/// How often ports have the name, or 2 where that is more.
fn ports_count(ports: &[Port], name: &str) -> u32
    ensures { result ≡ min 2 (test.ports_count name.now (map port_of ports.now)) }
{
    let mut total = 0;
    for port in ports {
        total = few(total, one_if(port.name.as_str() == name));
    }
    total
}

/// How often the entry declares the name.
fn entry_count(entry: &Entry, name: &str) -> u32
    ensures { result ≡ test.entries_count name.now (entry_of entry.now ∷ []) }
{
    match entry {
        Entry::Wire { name: declared, .. } => one_if(declared.as_str() == name),
        Entry::Assign { .. } => 0,
        Entry::Inst { name: declared, .. } => one_if(declared.as_str() == name),
    }
}

/// How often entries declare the name, or 2 where that is more.
fn entries_count(entries: &[Entry], name: &str) -> u32
    ensures { result ≡ min 2 (test.entries_count name.now (map entry_of entries.now)) }
{
    let mut total = 0;
    for entry in entries {
        total = few(total, entry_count(entry, name));
    }
    total
}

/// Whether the module declares the name at most once.
#[tactic(auto, unfolding(crate::specs::Counting::is_declared_once))]
fn is_declared_once(module: &Module, name: &str) -> bool
    ensures { result ≡ test.is_declared_once (module_of «module».now) name.now }
{
    few(
        ports_count(module.ports.as_slice(), name),
        entries_count(module.entries.as_slice(), name),
    ) < 2
}

/// Whether each of the ports has a name that is declared once.
fn are_ports_once(module: &Module, ports: &[Port]) -> bool
    ensures { result ≡ list_all (test.is_port_once (module_of «module».now)) (map port_of ports.now) }
{
    for port in ports {
        if !is_declared_once(module, port.name.as_str()) {
            return false;
        }
    }
    true
}

/// Whether the name that the entry declares, if any, is declared once.
fn is_entry_once(module: &Module, entry: &Entry) -> bool
    ensures { result ≡ test.is_entry_once (module_of «module».now) (entry_of entry.now) }
{
    match entry {
        Entry::Wire { name, .. } => is_declared_once(module, name.as_str()),
        Entry::Assign { .. } => true,
        Entry::Inst { name, .. } => is_declared_once(module, name.as_str()),
    }
}

/// Whether each of the entries has a name that is declared once.
fn are_entries_once(module: &Module, entries: &[Entry]) -> bool
    ensures { result ≡ list_all (test.is_entry_once (module_of «module».now)) (map entry_of entries.now) }
{
    for entry in entries {
        if !is_entry_once(module, entry) {
            return false;
        }
    }
    true
}

/// Whether no name is declared twice.
#[tactic(auto, unfolding(crate::specs::Counting::names_differ))]
pub fn names_differ(module: &Module) -> bool
    ensures { result ≡ test.names_differ (module_of «module».now) }
{
    are_ports_once(module, module.ports.as_slice())
        && are_entries_once(module, module.entries.as_slice())
}

/// Whether the part is no bare net, or one with at most one driver.
fn is_part_once(module: &Module, part: &Expr) -> bool
    ensures { result ≡ test.name_passes (test.is_driven_once (module_of «module».now)) (said.net_of (expression_of part.now)) }
{
    match bare_net(part) {
        Some(net) => is_driven_once(module, net),
        None => true,
    }
}

/// Whether each bare part has at most one driver.
fn are_parts_once(module: &Module, parts: &[Expr]) -> bool
    ensures { result ≡ test.bare_pass (test.is_driven_once (module_of «module».now)) (expressions (map expression_of parts.now)) }
{
    for part in parts {
        if !is_part_once(module, part) {
            return false;
        }
    }
    true
}

/// Whether each net that an output drives has at most one driver.
#[tactic(auto, using(cg_sv::proofs::Views::views))]
fn are_driven_once(module: &Module, expr: &Expr) -> bool
    ensures { result ≡ test.driven_pass (test.is_driven_once (module_of «module».now)) (expression_of expr.now) }
{
    match expr {
        Expr::Net(net) => is_driven_once(module, net.as_str()),
        Expr::Cat(parts) => {
            !are_bare(parts.as_slice()) || are_parts_once(module, parts.as_slice())
        }
        _ => true,
    }
}

/// Whether each net that the outputs among the connections drive has at most one driver.
fn are_connections_once(module: &Module, instance: &str, conns: &[Conn]) -> bool
    ensures { result ≡ test.connections_pass (inputs_of (map port_of «module».now.ports)) instance.now (test.is_driven_once (module_of «module».now)) (map connection_of conns.now) }
{
    for conn in conns {
        if is_output(module.ports.as_slice(), instance, conn)
            && !are_driven_once(module, &conn.value)
        {
            return false;
        }
    }
    true
}

/// Whether each net that the entry drives has at most one driver.
fn is_entry_driven_once(module: &Module, entry: &Entry) -> bool
    ensures { result ≡ test.entry_passes (inputs_of (map port_of «module».now.ports)) (test.is_driven_once (module_of «module».now)) (entry_of entry.now) }
{
    match entry {
        Entry::Wire { value: None, .. } => true,
        Entry::Wire {
            name,
            value: Some(_),
            ..
        } => is_driven_once(module, name.as_str()),
        Entry::Assign { name, .. } => is_driven_once(module, name.as_str()),
        Entry::Inst {
            module: instance,
            conns,
            ..
        } => are_connections_once(module, instance.as_str(), conns.as_slice()),
    }
}

/// Whether each net that one of the entries drives has at most one driver.
fn are_entries_driven_once(module: &Module, entries: &[Entry]) -> bool
    ensures { result ≡ list_all (test.entry_passes (inputs_of (map port_of «module».now.ports)) (test.is_driven_once (module_of «module».now))) (map entry_of entries.now) }
{
    for entry in entries {
        if !is_entry_driven_once(module, entry) {
            return false;
        }
    }
    true
}

/// Whether no net has two drivers.
#[tactic(auto, unfolding(crate::specs::Counting::drivers_differ))]
pub fn drivers_differ(module: &Module) -> bool
    ensures { result ≡ test.drivers_differ (module_of «module».now) }
{
    are_entries_driven_once(module, module.entries.as_slice())
}

/// Whether each of the ports is driven if it is an output, and not if it is an input.
pub fn are_ports_driven(module: &Module, ports: &[Port]) -> bool
    ensures { result ≡ list_all (test.is_port_driven (module_of «module».now)) (map port_of ports.now) }
{
    for port in ports {
        if port.input == is_driven(module, port.name.as_str()) {
            return false;
        }
    }
    true
}

/// Whether each wire among the entries is driven.
pub fn are_wires_driven(module: &Module, entries: &[Entry]) -> bool
    ensures { result ≡ list_all (test.is_wire_driven (module_of «module».now)) (map entry_of entries.now) }
{
    for entry in entries {
        match entry {
            Entry::Wire { name, .. } => {
                if !is_driven(module, name.as_str()) {
                    return false;
                }
            }
            Entry::Assign { .. } => {}
            Entry::Inst { .. } => {}
        }
    }
    true
}
