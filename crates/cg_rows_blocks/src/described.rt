//! What the descriptions of blocks have.

use crate::stages::described;
use cg_base::{List, Memory, Text};
use cg_desc::{BlockDesc, FieldDesc, IoDir, RegDesc, Written};
use cg_table::with_entries;
use std::alloc::{AllocError, Global};

/// A word where a fact holds.
fn flag(holds: bool, word: &'static str) -> &'static str {
    if holds { word } else { "" }
}

fn show_field(field: &FieldDesc, out: &mut String) -> Result<(), AllocError> {
    let name = &field.name;
    let msb = field.msb;
    let lsb = field.lsb;
    let sw = field.sw;
    let hw = field.hw;
    let resval = field.resval;
    let mubi = flag(field.mubi, " mubi");
    write!(
        out,
        "\nfield {name} {msb}:{lsb} {sw:?} {hw:?} {resval}{mubi}"
    )
}

fn show_register(register: &RegDesc, out: &mut String) -> Result<(), AllocError> {
    let name = &register.name;
    write!(out, "\nreg {name}")?;
    if let Some(gate) = &register.regwen {
        write!(out, " gate {gate}")?;
    }
    let ext = flag(register.hwext, " ext");
    let qe = flag(register.hwqe, " qe");
    let re = flag(register.hwre, " re");
    let shadowed = flag(register.shadowed, " shadowed");
    write!(out, "{ext}{qe}{re}{shadowed}")?;
    for field in register.fields.as_slice() {
        show_field(field, out)?;
    }
    Ok(())
}

fn show_entry(entry: &Written, out: &mut String) -> Result<(), AllocError> {
    match entry {
        Written::Reg(register) => show_register(register, out),
        Written::Multi(multi) => {
            let count = multi.count;
            let compact = flag(multi.compact, " compact");
            let gates = flag(multi.regwen_multi, " gates");
            write!(out, "\nmulti {count}{compact}{gates}")?;
            show_register(&multi.reg, out)
        }
        Written::Window(window) => {
            let name = &window.name;
            let items = window.items;
            let sw = window.sw;
            let bytes = flag(window.byte_write, " bytes");
            write!(out, "\nwindow {name} {items} {sw:?}{bytes}")
        }
        Written::SkipTo { to, .. } => write!(out, "\nskip {to}"),
        Written::Reserved { words, .. } => write!(out, "\nreserved {words}"),
    }
}

fn show_entries(entries: &List<Written>, out: &mut String) -> Result<(), AllocError> {
    for entry in entries.as_slice() {
        show_entry(entry, out)?;
    }
    Ok(())
}

fn show_line(word: &str, name: &Option<Text>, out: &mut String) -> Result<(), AllocError> {
    match name {
        Some(name) => write!(out, "\n{word} {name}"),
        None => write!(out, "\n{word}"),
    }
}

fn show_clocks(block: &BlockDesc, out: &mut String) -> Result<(), AllocError> {
    for clock in block.clocking.as_slice() {
        let name = &clock.clock;
        match &clock.reset {
            Some(reset) => write!(out, "\nclock {name} {reset}")?,
            None => write!(out, "\nclock {name}")?,
        }
    }
    Ok(())
}

fn show_interrupts(block: &BlockDesc, out: &mut String) -> Result<(), AllocError> {
    for interrupt in block.intrs.as_slice() {
        let name = &interrupt.name;
        let width = interrupt.width;
        let status = flag(interrupt.status, " status");
        write!(out, "\nintr {name} {width}{status}")?;
    }
    Ok(())
}

fn show_alerts(block: &BlockDesc, out: &mut String) -> Result<(), AllocError> {
    for alert in block.alerts.as_slice() {
        let name = &alert.name;
        write!(out, "\nalert {name}")?;
    }
    Ok(())
}

fn show_pins(block: &BlockDesc, out: &mut String) -> Result<(), AllocError> {
    for pin in block.ios.as_slice() {
        let word = match pin.dir {
            IoDir::In => "in",
            IoDir::Out => "out",
            IoDir::InOut => "inout",
        };
        let name = &pin.name;
        let width = pin.width;
        write!(out, "\n{word} {name} {width}")?;
    }
    Ok(())
}

fn show_interfaces(block: &BlockDesc, out: &mut String) -> Result<(), AllocError> {
    for host in block.hosts.as_slice() {
        show_line("host", &host.name, out)?;
    }
    for device in block.faces.as_slice() {
        show_line("device", &device.name, out)?;
        show_entries(&device.entries, out)?;
    }
    Ok(())
}

fn show_block(block: &BlockDesc, out: &mut String) -> Result<(), AllocError> {
    let name = &block.name;
    write!(out, "\nblock {name}")?;
    show_clocks(block, out)?;
    show_interrupts(block, out)?;
    show_alerts(block, out)?;
    show_pins(block, out)?;
    show_interfaces(block, out)?;
    if block.auto_intr {
        write!(out, "\nauto interrupts")?;
    }
    if block.auto_alert {
        write!(out, "\nauto alerts")?;
    }
    Ok(())
}

/// The lines without the line feed that each of them begins with.
fn lines_of(alloc: Global, shown: &str) -> Result<String, Memory> {
    Ok(String::from_str(alloc, shown.strip_prefix("\n").unwrap_or(shown))?)
}

/// A line for each part of a block, or the line of its first fault.
pub fn answer(alloc: Global, document: &str) -> Result<String, Memory> {
    match described(alloc, document) {
        Ok(block) => {
            let mut shown = String::new(alloc);
            show_block(&block, &mut shown)?;
            lines_of(alloc, shown.as_str())
        }
        Err(stop) => stop.line(alloc),
    }
}

/// A line for each of these entries of a block and each of their fields, or the line of the block's first fault.
pub fn answer_for_entries(alloc: Global, entries: &str) -> Result<String, Memory> {
    let document = with_entries(alloc, entries)?;
    match described(alloc, document.as_str()) {
        Ok(block) => {
            let mut shown = String::new(alloc);
            for device in block.faces.as_slice() {
                show_entries(&device.entries, &mut shown)?;
            }
            lines_of(alloc, shown.as_str())
        }
        Err(stop) => stop.line(alloc),
    }
}
