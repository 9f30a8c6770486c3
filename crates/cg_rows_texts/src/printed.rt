//! A module with each form of port, entry and expression: its text, and names that clash with its own.

ghost use Rattle.std.specs.Prelude.{◌≡◌, ◌++◌, ◌∷◌, [], IfOk, OnOk, map};
ghost use Rattle.cg_svspec.specs.Tree.{pick};
ghost use Rattle.cg_sv.specs.Views.{port_of, parameter_of, connection_of, entry_of, expression_of, module_of};
ghost use Rattle.cg_rows_texts.specs.EveryForm.{example, example_ports, example_some, example_condition, example_high, example_kept, example_connections, example_parameters, example_flop, example_plain, example_entries};

use cg_base::{List, Memory, Text};
use cg_sv::{Conn, Entry, Expr, Module, Param, Port, SvRegFault, make, names_differ, print};
use std::alloc::Global;

fn ports(alloc: Global) -> Result<List<Port>, Memory>
    ensures { IfOk result (λ ports. map port_of ports ≡ example_ports) }
{
    let mut ports = List::new(alloc);
    make::input(alloc, &mut ports, 1, "clk_i")?;
    make::input(alloc, &mut ports, 32, "data_i")?;
    make::output(alloc, &mut ports, 8, "out_o")?;
    Ok(ports)
}

fn some(alloc: Global) -> Result<Expr, Memory>
    ensures { IfOk result (λ x. expression_of x ≡ example_some) }
{
    let low = make::cut(alloc, "data_i", 7, 0)?;
    let turned = make::not(alloc, low)?;
    let some = make::any(alloc, turned)?;
    Ok(some)
}

fn condition(alloc: Global) -> Result<Expr, Memory>
    ensures { IfOk result (λ x. expression_of x ≡ example_condition) }
{
    let data = make::net(alloc, "data_i")?;
    let same = make::equal(alloc, data, make::lit(32, 255))?;
    let some = make::net(alloc, "some")?;
    let condition = make::and(alloc, some, same)?;
    Ok(condition)
}

fn high(alloc: Global) -> Result<Expr, Memory>
    ensures { IfOk result (λ x. expression_of x ≡ example_high) }
{
    let mut parts = List::new(alloc);
    parts.push(make::lit(4, 0))?;
    let high = make::cut(alloc, "data_i", 31, 28)?;
    parts.push(high)?;
    Ok(make::cat(parts))
}

fn next(alloc: Global) -> Result<Expr, Memory>
    ensures { IfOk result (λ x. expression_of x
        ≡ pick example_condition example_high example_kept) }
{
    let condition = condition(alloc)?;
    let high = high(alloc)?;
    let kept = make::net(alloc, "kept")?;
    let kept = make::or(alloc, kept, make::lit(8, 1))?;
    let next = make::pick(alloc, condition, high, kept)?;
    Ok(next)
}

fn connections(alloc: Global) -> Result<List<Conn>, Memory>
    ensures { IfOk result (λ conns. map connection_of conns ≡ example_connections) }
{
    let mut conns = List::new(alloc);
    let clock = make::net(alloc, "clk_i")?;
    make::connection(alloc, &mut conns, "clk_i", clock)?;
    let next = make::net(alloc, "next")?;
    make::connection(alloc, &mut conns, "d_i", next)?;
    let kept = make::net(alloc, "kept")?;
    make::connection(alloc, &mut conns, "q_o", kept)?;
    Ok(conns)
}

fn parameters(alloc: Global) -> Result<List<Param>, Memory>
    ensures { IfOk result (λ params. map parameter_of params ≡ example_parameters) }
{
    let mut params = List::new(alloc);
    make::parameter(alloc, &mut params, "Width", make::lit(0, 8))?;
    make::parameter(alloc, &mut params, "ResetValue", make::lit(8, 0))?;
    Ok(params)
}

fn add_flop(alloc: Global, entries: &mut List<Entry>) -> Result<(), Memory>
    ensures { OnOk result (map entry_of entries.new
        ≡ map entry_of entries.old ++ example_flop ∷ []) }
{
    let params = parameters(alloc)?;
    let conns = connections(alloc)?;
    make::instance(alloc, entries, "prim_flop", params, "u_kept", conns)?;
    Ok(())
}

fn add_plain(alloc: Global, entries: &mut List<Entry>) -> Result<(), Memory>
    ensures { OnOk result (map entry_of entries.new
        ≡ map entry_of entries.old ++ example_plain ∷ []) }
{
    let mut conns = List::new(alloc);
    let some = make::net(alloc, "some")?;
    make::connection(alloc, &mut conns, "a", some)?;
    make::instance(alloc, entries, "plain", List::new(alloc), "u_plain", conns)?;
    Ok(())
}

fn entries(alloc: Global) -> Result<List<Entry>, Memory>
    ensures { IfOk result (λ entries. map entry_of entries ≡ example_entries) }
{
    let mut entries = List::new(alloc);
    make::wire(alloc, &mut entries, 8, "kept")?;
    let some = some(alloc)?;
    make::drive(alloc, &mut entries, 1, "some", some)?;
    let next = next(alloc)?;
    make::drive(alloc, &mut entries, 8, "next", next)?;
    let kept = make::net(alloc, "kept")?;
    make::assign(alloc, &mut entries, "out_o", kept)?;
    add_flop(alloc, &mut entries)?;
    add_plain(alloc, &mut entries)?;
    Ok(entries)
}

fn every_form(alloc: Global) -> Result<Module, Memory>
    ensures { IfOk result (λ m. module_of m ≡ example) }
{
    let name = Text::of(alloc, "every_form")?;
    let ports = ports(alloc)?;
    let entries = entries(alloc)?;
    Ok(Module {
        name,
        ports,
        entries,
    })
}

/// The text of the module of this name.
pub fn answer(alloc: Global, given: &str) -> Result<String, Memory> {
    if given != "every_form" {
        return Ok(String::from_str(alloc, "no example")?);
    }
    let module = every_form(alloc)?;
    let text = print(alloc, &module)?;
    Ok(text.into_string())
}

/// The first name that is declared twice, where wires of these names stand behind the entries of `every_form`.
pub fn repeat(alloc: Global, given: &str) -> Result<String, Memory> {
    let mut module = every_form(alloc)?;
    for name in given.split(' ') {
        if !name.is_empty() {
            make::wire(alloc, &mut module.entries, 1, name)?;
        }
    }
    match names_differ(alloc, &module) {
        Ok(()) => Ok(String::from_str(alloc, "none")?),
        Err(SvRegFault::Clash { name }) => Ok(name.into_string()),
        Err(SvRegFault::Memory) => Err(Memory),
    }
}
