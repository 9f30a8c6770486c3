//! Whether a module is a register module.

ghost use Rattle.std.specs.Prelude.{◌≡◌, [], ◌∷◌, map};
ghost use Rattle.std.specs.Bool.{Decides};
ghost use Rattle.std.specs.List.{list_all};
ghost use Rattle.std.specs.Option.{option_map};
ghost use Rattle.cg_svspec.specs.Register.{IsRegister, access_ports};
ghost use Rattle.cg_sv.specs.Views.{port_of, entry_of, module_of};
ghost use Rattle.cg_svcheck.specs.RegisterTests as test;

use crate::forms::literal_at;
use cg_sv::{Entry, Module, Port};

/// The ports behind the first, where that has this direction, width and name.
#[tactic(auto, unfolding(crate::specs::RegisterTests::is_port))]
fn behind<'a>(ports: &'a [Port], input: bool, width: u32, name: &str) -> Option<&'a [Port]>
    ensures { option_map (λ rest. map port_of rest.now) result
        ≡ test.ports_behind (test.wanted input width name.now ∷ []) (map port_of ports.now) }
{
    match ports.split_first() {
        None => None,
        Some((port, rest)) => {
            if port.input == input && (port.width == width && port.name.as_str() == name) {
                Some(rest)
            } else {
                None
            }
        }
    }
}

/// The ports behind the nine by which every register module is reached, where those are the first.
fn other_ports(ports: &[Port]) -> Option<&[Port]>
    ensures { option_map (λ rest. map port_of rest.now) result ≡ test.ports_behind access_ports (map port_of ports.entry.now) }
{
    let rest = behind(ports, true, 1, "clk_i")?;
    let rest = behind(rest, true, 1, "rst_ni")?;
    let rest = behind(rest, true, 1, "reg_we")?;
    let rest = behind(rest, true, 1, "reg_re")?;
    let rest = behind(rest, true, 32, "reg_addr")?;
    let rest = behind(rest, true, 32, "reg_wdata")?;
    let rest = behind(rest, true, 4, "reg_be")?;
    let rest = behind(rest, false, 32, "reg_rdata")?;
    behind(rest, false, 1, "reg_error")
}

/// Whether each port has at most 32 bits.
fn are_narrow(ports: &[Port]) -> bool
    ensures { result ≡ list_all test.is_narrow_port (map port_of ports.now) }
{
    for port in ports {
        if port.width > 32 {
            return false;
        }
    }
    true
}

/// Whether the entry is no instance, or one of `prim_flop` with a state of at most 32 bits.
fn is_register_entry(entry: &Entry) -> bool
    ensures { result ≡ test.is_register_entry (entry_of entry.now) }
{
    match entry {
        Entry::Inst { module, params, .. } => {
            if module.as_str() != "prim_flop" {
                return false;
            }
            match literal_at(params.as_slice(), "Width") {
                Some((_, width)) => width <= 32,
                None => false,
            }
        }
        Entry::Wire { .. } => true,
        Entry::Assign { .. } => true,
    }
}

/// Whether each entry is one of a register module.
fn are_register_entries(entries: &[Entry]) -> bool
    ensures { result ≡ list_all test.is_register_entry (map entry_of entries.now) }
{
    for entry in entries {
        if !is_register_entry(entry) {
            return false;
        }
    }
    true
}

/// Whether the module passes each test of a register module.
#[tactic(auto, unfolding(crate::specs::RegisterTests::is_register))]
fn passes(module: &Module) -> bool
    ensures { result ≡ test.is_register (module_of «module».now) }
{
    match other_ports(module.ports.as_slice()) {
        Some(others) => are_narrow(others) && are_register_entries(module.entries.as_slice()),
        None => false,
    }
}

/// Whether the module is a register module: its first nine ports are those by which registers are read and written, every
/// other port and every state has at most 32 bits, and all its instances are of `prim_flop`.
///
/// It takes no memory.
pub fn is_reg(module: &Module) -> bool
    ensures { Decides result (IsRegister (module_of «module».now)) }
{
    passes(module)
}
