//! What is known at an entry of a module, in tables.

ghost use Rattle.std.specs.Prelude.{◌≡◌, ◌||◌, ℕ, List as Items, [], None, map, IfOk, OnOk};
ghost use Rattle.std.specs.Str.{bytes_eq};
ghost use Rattle.cg_svspec.specs.WellFormed.{port_nets};
ghost use Rattle.cg_sv.specs.Views.{entry_of, module_of, port_of};
ghost use Rattle.cg_svcheck.specs.Fitting as test;
ghost use Rattle.cg_svcheck.specs.Lookups.{HasEntry, HasNets, has, known_in, width_in, width_of_name};
ghost use Rattle.cg_svcheck.specs.Widths.{is_known, or_else, width_at};

use crate::fitting::entry_fits;
use crate::nets::Nets;
use crate::sets::Names;
use cg_base::Memory;
use cg_sv::{Entry, Module, Port};
use std::alloc::Global;
use std::collections::HashMap;

/// The widths of the nets that are declared so far, and the nets that may be used.
#[derive(Drop)]
pub struct Known<'a> {
    widths: HashMap<&'a str, u32>,
    known: Names<'a>,
}

impl<'a> Nets for Known<'a> {
    ghost widths = { λ s. width_in s };

    ghost known = { λ s. known_in s };

    fn width(&self, name: &str) -> Option<u32> {
        self.widths.get(name).copied()
    }

    fn is_known(&self, name: &str) -> bool {
        self.known.has(name)
    }
}

impl<'a> Known<'a> {
    /// No net is declared, and these may be used.
    fn new(alloc: Global, known: Names<'a>) -> Known<'a>
        ensures { HasNets result (λ n. None) (has known.entry) }
    {
        Known {
            widths: HashMap::new(alloc),
            known,
        }
    }

    /// Declares a net. Of several with one name, the first counts.
    fn declare(&mut self, name: &'a str, width: u32) -> Result<(), Memory>
        ensures { OnOk result (HasNets self.new (λ n. or_else (width_in self.old n) (width_of_name name.now width n)) (known_in self.old)) }
    {
        match self.width(name) {
            Some(_) => {}
            None => {
                self.widths.insert(name, width)?;
            }
        }
        Ok(())
    }

    /// Lets a net be used.
    fn drive(&mut self, name: &'a str) -> Result<(), Memory>
        ensures { OnOk result (HasNets self.new (width_in self.old) (λ n. bytes_eq name.now n || known_in self.old n)) }
    {
        self.known.add(name)
    }

    /// Declares the ports.
    fn add_ports(&mut self, ports: &'a [Port]) -> Result<(), Memory>
        ensures { OnOk result (HasNets self.new (λ n. or_else (width_in self.old n) (width_at (port_nets (map port_of ports.entry.now)) n)) (known_in self.old)) }
    {
        for port in ports {
            self.declare(port.name.as_str(), port.width)?;
        }
        Ok(())
    }

    /// Adds what an entry declares and drives by an expression.
    fn add_entry(&mut self, entry: &'a Entry) -> Result<(), Memory>
        ensures { OnOk result (HasEntry (entry_of entry.entry.now) self.old self.new) }
    {
        match entry {
            Entry::Wire {
                width,
                name,
                value: None,
            } => self.declare(name.as_str(), *width),
            Entry::Wire {
                width,
                name,
                value: Some(_),
            } => {
                self.declare(name.as_str(), *width)?;
                self.drive(name.as_str())
            }
            Entry::Assign { name, .. } => self.drive(name.as_str()),
            Entry::Inst { .. } => Ok(()),
        }
    }
}

/// Whether each entry fits where it stands, where these nets are inputs or driven by instances.
pub fn entries_fit_by<'a>(
    alloc: Global,
    module: &'a Module,
    known: Names<'a>,
) -> Result<bool, Memory>
    requires { (n : Items ℕ) → has known n ≡ is_known (module_of «module».now) [] n }
    ensures { IfOk result (λ fit. fit ≡ test.entries_fit (module_of «module».now) [] (map entry_of «module».now.entries)) }
{
    let mut nets = Known::new(alloc, known);
    nets.add_ports(module.ports.as_slice())?;
    for entry in module.entries.as_slice() {
        if !entry_fits(&nets, entry) {
            return Ok(false);
        }
        nets.add_entry(entry)?;
    }
    Ok(true)
}
