//! The description of the top.

ghost use Rattle.std.specs.Prelude.{◌≡◌, ◌≤◌, ◌<◌, ◌++◌, ◌∷◌, [], IfOk, OnOk, map, string_bytes};
ghost use Rattle.std.specs.List.{range_with_len};
ghost use Rattle.cg_sample.specs.Sample.{base_text, crossbar_count, crossbar_name, inst_line, instance_line, listed_line, top_file, top_lines, type_count};

use crate::crossbars::crossbar_count;
use crate::file::{SampleFile, file_of};
use crate::lines::{add, add_all, name_line, named};
use cg_base::{List, Memory, Text};
use std::alloc::Global;

const FIRST_BASE: u32 = 0x4000_0000;

const SIZE: u32 = 0x1000;

/// How many types of blocks there are beside `cpu`.
pub fn type_count(number: u32) -> u32
    ensures { result ≡ type_count number }
{
    number.min(16)
}

/// The line of an instance.
fn inst_line(alloc: Global, name: &str, kind: &str, more: &str) -> Result<String, Memory>
    ensures { IfOk result (λ line. string_bytes line ≡ inst_line name.now kind.now more.now) }
{
    Ok(format!(in alloc;
        "    {{name: '{name}', type: '{kind}', clock_srcs: {{clk_i: 'main'}}, reset_connections: {{rst_ni: 'sys'}}{more}}}"
    )?)
}

/// The end of the line of an instance that has a base.
fn base_text(alloc: Global, base: u32) -> Result<String, Memory>
    ensures { IfOk result (λ text. string_bytes text ≡ base_text base) }
{
    Ok(format!(in alloc; ", base_addr: '0x{base:x}'")?)
}

/// The line of instance `place` of `number`.
fn instance_line(alloc: Global, number: u32, place: u32) -> Result<String, Memory>
    requires number { number ≤ 200 }
    requires place { place < number }
    ensures { IfOk result (λ line. string_bytes line ≡ instance_line number place) }
{
    let name = named(alloc, "i", place)?;
    let kind = named(alloc, "b", place % type_count(number))?;
    let base = base_text(alloc, FIRST_BASE + SIZE * place)?;
    inst_line(alloc, name.as_str(), kind.as_str(), &base)
}

/// Adds the lines of the instances that have a number.
fn add_instances(alloc: Global, lines: &mut List<Text>, number: u32) -> Result<(), Memory>
    requires { number ≤ 200 }
    ensures { OnOk result (lines.new ≡ lines.old ++ map (instance_line number) (range_with_len 0 number)) }
{
    for place in 0..number {
        let line = instance_line(alloc, number, place)?;
        add(lines, &line)?;
    }
    Ok(())
}

/// The line of a listed crossbar.
fn listed_line(alloc: Global, crossbar: &str) -> Result<String, Memory>
    ensures { IfOk result (λ line. string_bytes line ≡ listed_line crossbar.now) }
{
    Ok(format!(in alloc; "    {{name: '{crossbar}', clock_srcs: {{clk_i: 'main'}}}}")?)
}

/// Adds the lines of the crossbars below `main`.
fn add_crossbars(alloc: Global, lines: &mut List<Text>, number: u32) -> Result<(), Memory>
    requires { number ≤ 200 }
    ensures { OnOk result (lines.new ≡ lines.old ++ map (λ c. listed_line (crossbar_name c)) (range_with_len 0 (crossbar_count number))) }
{
    for crossbar in 0..crossbar_count(number) {
        let name = named(alloc, "p", crossbar)?;
        let line = listed_line(alloc, name.as_str())?;
        add(lines, &line)?;
    }
    Ok(())
}

/// The lines of the top with this number of instances.
#[tactic(auto, unfolding(crate::specs::Sample::top_lines))]
fn top_lines(alloc: Global, number: u32) -> Result<List<Text>, Memory>
    requires { number ≤ 200 }
    ensures { IfOk result (λ lines. lines ≡ top_lines number) }
{
    let mut lines = List::new(alloc);
    let name = name_line(alloc, "sample")?;
    let cpu = inst_line(alloc, "cpu", "cpu", "")?;
    let main = listed_line(alloc, "main")?;
    add_all(
        &mut lines,
        &[
            "{",
            &name,
            "  clocks: {srcs: [{name: 'main'}]}",
            "  resets: {nodes: [{name: 'sys'}]}",
            "  module: [",
            &cpu,
        ],
    )?;
    add_instances(alloc, &mut lines, number)?;
    add_all(&mut lines, &["  ]", "  xbar: [", &main])?;
    add_crossbars(alloc, &mut lines, number)?;
    add_all(&mut lines, &["  ]", "}"])?;
    Ok(lines)
}

/// The file of the top with this number of instances.
pub fn top_file(alloc: Global, number: u32) -> Result<SampleFile, Memory>
    requires { number ≤ 200 }
    ensures { IfOk result (λ file. file ≡ top_file number) }
{
    let lines = top_lines(alloc, number)?;
    let name = Text::of(alloc, "sample.hjson")?;
    file_of(name, lines.as_slice())
}
