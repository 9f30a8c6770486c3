//! What is asked of a top without a fault: lines `rows`, `ranges`, `ends`, `bases`, and `find main/cpu 0x1000 0x1004 ..`, or `numbers`,
//! `number counts`, `ties`, `pins` or `pin counts` alone.

ghost use Rattle.cg_desc.specs.Merged.{IsMerged};
ghost use Rattle.cg_space.specs.Rows.{AreRows};

use crate::build::{Build, number_of};
use crate::given::Given;
use crate::pins::{pin_counts, show_pins};
use crate::shown::{crossbar, node, show_end, show_place, show_ranges, show_row};
use crate::sources::{all_numbers, all_ties, number_counts};
use cg_base::{Memory, parse_int};
use cg_desc::{DescFault, Fault, MergedTop, Place, fault_text};
use cg_space::{HostId, Row, check, find, ranges, rows};
use std::alloc::{AllocError, Global};

/// What stands at an address for a host.
fn place_at(top: &MergedTop, rows: &[Row], host: HostId, address: u32) -> Place
    requires { AreRows top.now rows.now }
{
    find(rows, host, address)
}

/// The node `X/H`: node H of crossbar X.
fn host_named(top: &MergedTop, name: &str) -> Option<HostId> {
    let (outer, name) = name.split_once('/')?;
    for (x, xbar) in top.xbars.as_slice().iter().enumerate() {
        if xbar.name.as_str() == outer {
            for (n, node) in xbar.nodes.as_slice().iter().enumerate() {
                if node.name.as_str() == name {
                    return Some(HostId {
                        xbar: number_of(x),
                        node: number_of(n),
                    });
                }
            }
        }
    }
    None
}

/// An address, or none.
fn address_of(word: &str) -> Option<u32> {
    match parse_int(word) {
        Ok(number) => u32::try_from(number).ok(),
        Err(_) => None,
    }
}

fn show_found(
    top: &MergedTop,
    rows: &[Row],
    host: HostId,
    word: &str,
    out: &mut String,
) -> Result<(), AllocError>
    requires { AreRows top.now rows.now }
{
    match address_of(word) {
        Some(address) => show_place(top, place_at(top, rows, host, address), out),
        None => write!(out, "no address"),
    }
}

/// What stands in front of the first place, and between two.
fn write_between(is_first: bool, out: &mut String) -> Result<(), AllocError> {
    if is_first {
        return write!(out, "\n");
    }
    write!(out, "; ")
}

/// What stands at addresses for a host: `main/cpu 0x1000 0x1004 ..`.
fn show_all_found(
    top: &MergedTop,
    rows: &[Row],
    asked: &str,
    out: &mut String,
) -> Result<(), AllocError>
    requires { AreRows top.now rows.now }
{
    let Some((name, words)) = asked.split_once(' ') else {
        return write!(out, "\nno host");
    };
    let Some(host) = host_named(top, name) else {
        return write!(out, "\nno host");
    };
    let mut is_first = true;
    for word in words.split(' ') {
        write_between(is_first, out)?;
        show_found(top, rows, host, word, out)?;
        is_first = false;
    }
    Ok(())
}

/// A line for each crossbar, with what each of its nodes stands for.
fn show_ends(top: &MergedTop, out: &mut String) -> Result<(), AllocError> {
    for (x, ends) in top.ends.as_slice().iter().enumerate() {
        let x = number_of(x);
        let outer = crossbar(top, x);
        write!(out, "\n{outer}:")?;
        let mut before = " ";
        for (n, end) in ends.ends.as_slice().iter().enumerate() {
            let name = node(top, x, number_of(n));
            write!(out, "{before}{name} is ")?;
            show_end(top, *end, out)?;
            before = ", ";
        }
    }
    Ok(())
}

/// A line for each instance with device interfaces, with their bases.
fn show_bases(top: &MergedTop, out: &mut String) -> Result<(), AllocError>
    requires { IsMerged top.now }
{
    for (number, inst) in top.top.insts.as_slice().iter().enumerate() {
        let number = number_of(number);
        let name = &inst.name;
        let count = match top.block_of(number) {
            Some(block) => number_of(block.faces.len()),
            None => 0,
        };
        if count > 0 {
            write!(out, "\n{name}")?;
        }
        for face in 0..count {
            match top.find_base(number, face) {
                Some(base) => write!(out, " {base:x}")?,
                None => write!(out, " none")?,
            }
        }
    }
    Ok(())
}

/// A line for each node of a crossbar that has ranges.
fn show_ranges_of(top: &MergedTop, xbar: u32, alloc: Global, out: &mut String) -> Result<(), Memory>
    requires { IsMerged top.now }
{
    if check(alloc, top).is_err() {
        return Err(Memory);
    }
    if xbar as usize >= top.xbars.len() {
        return Ok(());
    }
    let ranges = ranges(alloc, top, xbar)?;
    let outer = crossbar(top, xbar);
    for (n, ranges) in ranges.as_slice().iter().enumerate() {
        if !ranges.ranges.is_empty() {
            let name = node(top, xbar, number_of(n));
            write!(out, "\n{outer}/{name}")?;
            show_ranges(ranges.ranges.as_slice(), out)?;
        }
    }
    Ok(())
}

/// The ranges of the devices of all crossbars.
fn show_all_ranges(alloc: Global, top: &MergedTop, out: &mut String) -> Result<(), Memory>
    requires { IsMerged top.now }
{
    for xbar in 0..top.xbars.len() {
        show_ranges_of(top, number_of(xbar), alloc, out)?;
    }
    Ok(())
}

fn show_rows(top: &MergedTop, rows: &[Row], out: &mut String) -> Result<(), AllocError> {
    if rows.is_empty() {
        return write!(out, "\nno rows");
    }
    for row in rows {
        show_row(top, row, out)?;
    }
    Ok(())
}

/// Adds the answer to a line that asks for something.
fn show_asked(
    alloc: Global,
    top: &MergedTop,
    rows: &[Row],
    asked: &str,
    out: &mut String,
) -> Result<(), Memory>
    requires merged { IsMerged top.now }
    requires rows { AreRows top.now rows.now }
{
    match asked {
        "rows" => show_rows(top, rows, out)?,
        "count" => write!(out, "\n{}", rows.len())?,
        "ends" => show_ends(top, out)?,
        "bases" => show_bases(top, out)?,
        "ranges" => show_all_ranges(alloc, top, out)?,
        other => match other.strip_prefix("find ") {
            Some(asked) => show_all_found(top, rows, asked, out)?,
            None => write!(out, "\nnot asked well")?,
        },
    }
    Ok(())
}

/// The answers to all lines that ask for something.
fn all_shown(alloc: Global, top: &MergedTop, rows: &[Row], asked: &str) -> Result<String, Memory>
    requires merged { IsMerged top.now }
    requires rows { AreRows top.now rows.now }
{
    let mut out = String::new(alloc);
    for line in asked.split('\n') {
        show_asked(alloc, top, rows, line, &mut out)?;
    }
    Ok(out)
}

/// What is said of a top of which nothing but its check is asked.
fn good(alloc: Global) -> Result<String, Memory> {
    Ok(String::from_str(alloc, "\ngood")?)
}

/// Whether numbers, ties or pins are asked for.
fn is_of_sources(asked: &str) -> bool {
    asked == "numbers"
        || asked == "number counts"
        || asked == "ties"
        || asked == "pins"
        || asked == "pin counts"
}

/// The numbers, ties or pins, or the first fault of these.
fn of_sources(alloc: Global, top: &MergedTop, asked: &str) -> Result<String, DescFault>
    requires { IsMerged top.now }
{
    match asked {
        "numbers" => all_numbers(alloc, top),
        "number counts" => number_counts(alloc, top),
        "ties" => all_ties(alloc, top),
        "pins" => show_pins(alloc, top),
        _ => pin_counts(alloc, top),
    }
}

/// The answers to all lines that ask for something, or the first fault of the address space. Where `check` alone is asked no row is made.
fn answers(alloc: Global, top: &MergedTop, asked: &str) -> Result<String, DescFault>
    requires { IsMerged top.now }
{
    if asked == "check" {
        check(alloc, top)?;
        return Ok(good(alloc)?);
    }
    if is_of_sources(asked) {
        check(alloc, top)?;
        return of_sources(alloc, top, asked);
    }
    let rows = rows(alloc, top)?;
    Ok(all_shown(alloc, top, rows.as_slice(), asked)?)
}

/// The line of a fault.
fn line_of(alloc: Global, build: &Build, fault: &Fault) -> Result<String, Memory> {
    let file = build.name_of(fault.file);
    let line = fault_text(alloc, fault, file)?;
    Ok(String::from_str(alloc, line.as_str())?)
}

/// The answers, or the first fault of the files or of the address space.
fn all_answers(alloc: Global, build: &mut Build, given: &Given) -> Result<String, DescFault> {
    let top = build.merged(alloc, given)?;
    answers(alloc, &top, given.asked)
}

/// The lines without the line feed that each of them begins with.
fn lines_of(alloc: Global, shown: &str) -> Result<String, Memory> {
    Ok(String::from_str(alloc, shown.strip_prefix("\n").unwrap_or(shown))?)
}

/// The line of the first fault of a top with its files, or a line for each thing that is asked.
pub fn answer(alloc: Global, text: &str) -> Result<String, Memory> {
    let given = Given::of(alloc, text)?;
    let mut build = Build::new(alloc);
    match all_answers(alloc, &mut build, &given) {
        Ok(shown) => lines_of(alloc, shown.as_str()),
        Err(DescFault::Fault(fault)) => line_of(alloc, &build, &fault),
        Err(DescFault::Memory) => Err(Memory),
    }
}
