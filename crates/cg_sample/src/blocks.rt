//! The descriptions of the types of blocks.

ghost use Rattle.std.specs.Prelude.{◌≡◌, ◌+◌, ◌*◌, ◌<◌, IfOk, codes, string_bytes};
ghost use Rattle.cg_sample.specs.Sample.{block_file, block_lines, block_name, cpu_lines, ctrl_line, en_line, mem_line};

use crate::file::{SampleFile, file_of};
use crate::lines::{add_all, name_line, named};
use cg_base::{List, Memory, Text};
use std::alloc::Global;

const CLOCKING: &str = "  clocking: [{clock: 'clk_i', reset: 'rst_ni'}]";

const HOST: &str = "  bus_interfaces: [{protocol: 'tlul', direction: 'host'}]";

const DEVICE: &str = "  bus_interfaces: [{protocol: 'tlul', direction: 'device'}]";

/// The lines of the type `cpu`.
#[tactic(auto, unfolding(crate::specs::Sample::cpu_lines))]
fn cpu_lines(alloc: Global) -> Result<List<Text>, Memory>
    ensures { IfOk result (λ lines. lines ≡ cpu_lines) }
{
    let mut lines = List::new(alloc);
    let name = name_line(alloc, "cpu")?;
    add_all(
        &mut lines,
        &["{", &name, CLOCKING, HOST, "  registers: []", "}"],
    )?;
    Ok(lines)
}

/// The line of the register of type `number`.
fn ctrl_line(alloc: Global, number: u32) -> Result<String, Memory>
    ensures { IfOk result (λ line. string_bytes line ≡ ctrl_line number) }
{
    Ok(format!(in alloc;
        "    {{name: 'CTRL', swaccess: 'rw', fields: [{{bits: '7:0', name: 'A', resval: {number}}}, {{bits: '8', name: 'B'}}]}}"
    )?)
}

/// The line of the copied register of type `number`.
fn en_line(alloc: Global, number: u32) -> Result<String, Memory>
    requires { number < 16 }
    ensures { IfOk result (λ line. string_bytes line ≡ en_line number) }
{
    let count = 8 * (number + 1);
    Ok(format!(in alloc;
        "    {{multireg: {{name: 'EN', swaccess: 'rw', count: {count}, fields: [{{bits: '0', name: 'F'}}]}}}}"
    )?)
}

/// The line of the window of type `number`.
fn mem_line(alloc: Global, number: u32) -> Result<String, Memory>
    requires { number < 16 }
    ensures { IfOk result (λ line. string_bytes line ≡ mem_line number) }
{
    let items = number + 1;
    Ok(format!(in alloc; "    {{window: {{name: 'MEM', items: {items}}}}}")?)
}

/// The lines of the type with this name and number.
#[tactic(auto, unfolding(crate::specs::Sample::block_lines))]
fn block_lines(alloc: Global, name: &str, number: u32) -> Result<List<Text>, Memory>
    requires number { number < 16 }
    requires name { name.now ≡ block_name number }
    ensures { IfOk result (λ lines. lines ≡ block_lines number) }
{
    let mut lines = List::new(alloc);
    let name = name_line(alloc, name)?;
    let ctrl = ctrl_line(alloc, number)?;
    let en = en_line(alloc, number)?;
    let mem = mem_line(alloc, number)?;
    add_all(
        &mut lines,
        &[
            "{",
            &name,
            CLOCKING,
            DEVICE,
            "  interrupt_list: [{name: 'irq'}]",
            "  registers: [",
            &ctrl,
            &en,
            &mem,
            "  ]",
            "}",
        ],
    )?;
    Ok(lines)
}

/// The file of a block of this name.
fn block_file(alloc: Global, name: &str, lines: &[Text]) -> Result<SampleFile, Memory>
    ensures { IfOk result (λ file. file ≡ block_file name.now lines.now) }
{
    let name = format!(in alloc; "{name}.hjson")?;
    file_of(Text::from_string(name), lines)
}

/// The file of the type `cpu`.
pub fn cpu_file(alloc: Global) -> Result<SampleFile, Memory>
    ensures { IfOk result (λ file. file ≡ block_file (codes "cpu") cpu_lines) }
{
    let lines = cpu_lines(alloc)?;
    block_file(alloc, "cpu", lines.as_slice())
}

/// The file of type `number`.
pub fn type_file(alloc: Global, number: u32) -> Result<SampleFile, Memory>
    requires { number < 16 }
    ensures { IfOk result (λ file. file ≡ block_file (block_name number) (block_lines number)) }
{
    let name = named(alloc, "b", number)?;
    let lines = block_lines(alloc, name.as_str(), number)?;
    block_file(alloc, name.as_str(), lines.as_slice())
}
