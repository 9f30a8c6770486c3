//! Blocks that are laid out.

use crate::stages::laid;
use cg_base::Memory;
use cg_desc::{Item, LaidBlock, LaidFace, LaidRow};
use cg_table::{with_entries_in_line_3, with_keys};
use std::alloc::{AllocError, Global};

/// What is shown of each interface.
#[derive(Clone, Copy)]
enum Shown {
    Rows,
    Fields,
}

/// A register as `R@4`, and a window with its bytes as `W@10+c`.
fn spell_row(row: &LaidRow, out: &mut String) -> Result<(), AllocError> {
    let first = row.first;
    match &row.item {
        Item::Reg(register) => {
            let name = &register.name;
            write!(out, "{name}@{first:x} ")
        }
        Item::Window(window) => {
            let name = &window.name;
            let bytes = 4 * u64::from(row.words);
            write!(out, "{name}@{first:x}+{bytes:x} ")
        }
        Item::SkipTo { .. } | Item::Reserved { .. } => write!(out, "no row "),
    }
}

/// Where a row ends, behind the words that a window takes beyond its items.
fn end_of(row: &LaidRow) -> u64 {
    u64::from(row.first) + (4 * u64::from(row.words)).next_power_of_two()
}

/// The rows of an interface, the end of the last and the interface's size.
fn spell_rows(face: &LaidFace, out: &mut String) -> Result<(), AllocError> {
    let mut end = 0;
    for row in face.rows.as_slice() {
        spell_row(row, out)?;
        end = end_of(row);
    }
    let size = face.size;
    write!(out, "end {end:x} size {size:x}")
}

/// A register as `R[F 7:4 G 31:31]`.
fn spell_fields(row: &LaidRow, out: &mut String) -> Result<(), AllocError> {
    let Item::Reg(register) = &row.item else {
        return Ok(());
    };
    let name = &register.name;
    let mut before = "[";
    write!(out, "{name}")?;
    for field in register.fields.as_slice() {
        let name = &field.name;
        let msb = field.msb;
        let lsb = field.lsb;
        write!(out, "{before}{name} {msb}:{lsb}")?;
        before = " ";
    }
    write!(out, "]")
}

/// The fields of the registers of an interface.
fn spell_registers(face: &LaidFace, out: &mut String) -> Result<(), AllocError> {
    let mut before = "";
    for row in face.rows.as_slice() {
        write!(out, "{before}")?;
        spell_fields(row, out)?;
        before = " ";
    }
    Ok(())
}

fn spell_face(shown: Shown, face: &LaidFace, out: &mut String) -> Result<(), AllocError> {
    if let Some(name) = &face.name {
        write!(out, "{name}: ")?;
    }
    match shown {
        Shown::Rows => spell_rows(face, out),
        Shown::Fields => spell_registers(face, out),
    }
}

/// The interfaces of a block, each with its name if it has one.
fn spelled(alloc: Global, shown: Shown, block: &LaidBlock) -> Result<String, AllocError> {
    if block.faces.is_empty() {
        return String::from_str(alloc, "none");
    }
    let mut out = String::new(alloc);
    let mut before = "";
    for face in block.faces.as_slice() {
        write!(&mut out, "{before}")?;
        spell_face(shown, face, &mut out)?;
        before = " | ";
    }
    Ok(out)
}

/// What is shown of a block, or the line of its first fault up to the layout.
fn answer(alloc: Global, shown: Shown, document: &str) -> Result<String, Memory> {
    match laid(alloc, document) {
        Ok(block) => Ok(spelled(alloc, shown, &block)?),
        Err(stop) => stop.line(alloc),
    }
}

/// The rows of each interface at their offsets, of a block with these entries.
pub fn rows_of_entries(alloc: Global, entries: &str) -> Result<String, Memory> {
    answer(
        alloc,
        Shown::Rows,
        with_entries_in_line_3(alloc, entries)?.as_str(),
    )
}

/// The rows of each interface at their offsets, of a block with these keys.
pub fn rows_of_keys(alloc: Global, keys: &str) -> Result<String, Memory> {
    answer(alloc, Shown::Rows, with_keys(alloc, keys)?.as_str())
}

/// The fields of the registers of each interface, of a block with these entries.
pub fn fields_of_entries(alloc: Global, entries: &str) -> Result<String, Memory> {
    answer(
        alloc,
        Shown::Fields,
        with_entries_in_line_3(alloc, entries)?.as_str(),
    )
}

/// The fields of the registers of each interface, of a block with these keys.
pub fn fields_of_keys(alloc: Global, keys: &str) -> Result<String, Memory> {
    answer(alloc, Shown::Fields, with_keys(alloc, keys)?.as_str())
}
