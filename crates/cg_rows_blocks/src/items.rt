//! The items that blocks stand for.

use crate::stages::expanded;
use cg_base::Memory;
use cg_desc::{FaceItems, FieldDesc, Item, RegDesc};
use cg_table::{with_entries_in_line_3, with_keys};
use std::alloc::{AllocError, Global};

fn show_field(out: &mut String, field: &FieldDesc) -> Result<(), AllocError> {
    let (name, msb, lsb) = (&field.name, field.msb, field.lsb);
    let (sw, hw) = (field.sw, field.hw);
    write!(out, " {name} {msb}:{lsb} {sw:?} {hw:?}")
}

fn show_register(out: &mut String, register: &RegDesc) -> Result<(), AllocError> {
    let name = &register.name;
    write!(out, "{name}")?;
    if let Some(gate) = &register.regwen {
        write!(out, " by {gate}")?;
    }
    if register.hwext {
        write!(out, " external")?;
    }
    if register.shadowed {
        write!(out, " shadowed")?;
    }
    for field in register.fields.as_slice() {
        show_field(out, field)?;
    }
    Ok(())
}

/// A line for each item, and one for the end of each interface.
fn show(alloc: Global, faces: &[FaceItems]) -> Result<String, AllocError> {
    let mut out = String::new(alloc);
    for face in faces {
        for item in face.items.as_slice() {
            match item {
                Item::Reg(register) => show_register(&mut out, register)?,
                Item::Window(window) => write!(&mut out, "{}", window.name)?,
                Item::SkipTo { to, .. } => write!(&mut out, "skip to {to}")?,
                Item::Reserved { words, .. } => write!(&mut out, "{words} reserved")?,
            }
            writeln!(&mut out)?;
        }
        writeln!(&mut out, "end")?;
    }
    out.pop();
    Ok(out)
}

/// The items of each device interface, or the line of the block's first fault up to them.
fn answer(alloc: Global, document: &str) -> Result<String, Memory> {
    match expanded(alloc, document) {
        Ok(faces) => Ok(show(alloc, faces.as_slice())?),
        Err(stop) => stop.line(alloc),
    }
}

/// The same of a block with these entries.
pub fn answer_for_entries(alloc: Global, entries: &str) -> Result<String, Memory> {
    answer(alloc, with_entries_in_line_3(alloc, entries)?.as_str())
}

/// The same of a block with these keys.
pub fn answer_for_keys(alloc: Global, keys: &str) -> Result<String, Memory> {
    answer(alloc, with_keys(alloc, keys)?.as_str())
}
