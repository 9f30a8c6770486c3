//! How places, rows, ranges, ends and bases are shown.

use cg_desc::{MergedTop, NodeEnd, Place, Range};
use cg_space::{HostId, Row};
use std::alloc::AllocError;

/// The name of an instance.
pub fn instance(top: &MergedTop, inst: u32) -> &str {
    match top.top.insts.as_slice().get(inst as usize) {
        Some(inst) => inst.name.as_str(),
        None => "",
    }
}

/// The name of a crossbar.
pub fn crossbar(top: &MergedTop, xbar: u32) -> &str {
    match top.xbars.as_slice().get(xbar as usize) {
        Some(xbar) => xbar.name.as_str(),
        None => "",
    }
}

/// The name of a node of a crossbar.
pub fn node(top: &MergedTop, xbar: u32, node: u32) -> &str {
    match top.xbars.as_slice().get(xbar as usize) {
        Some(xbar) => match xbar.nodes.as_slice().get(node as usize) {
            Some(node) => node.name.as_str(),
            None => "",
        },
        None => "",
    }
}

/// The device interface of this number of an instance, as `uart` or `uart:1`.
fn show_face(top: &MergedTop, inst: u32, face: u32, out: &mut String) -> Result<(), AllocError> {
    let name = instance(top, inst);
    if face == 0 {
        return write!(out, "{name}");
    }
    write!(out, "{name}:{face}")
}

/// What stands at an address: `register uart 2`, `word ram 0 3`, `outside main/flash`, `error`.
pub fn show_place(top: &MergedTop, place: Place, out: &mut String) -> Result<(), AllocError> {
    match place {
        Place::Reg { inst, face, row } => {
            write!(out, "register ")?;
            show_face(top, inst, face, out)?;
            write!(out, " {row}")
        }
        Place::Word {
            inst,
            face,
            row,
            index,
        } => {
            write!(out, "word ")?;
            show_face(top, inst, face, out)?;
            write!(out, " {row} {index}")
        }
        Place::Outside { xbar, node: device } => {
            let outer = crossbar(top, xbar);
            let name = node(top, xbar, device);
            write!(out, "outside {outer}/{name}")
        }
        Place::Error => write!(out, "error"),
    }
}

/// A row of the map: `main/cpu 40000000-40000003 register uart 0`.
pub fn show_row(top: &MergedTop, row: &Row, out: &mut String) -> Result<(), AllocError> {
    let HostId { xbar, node: host } = row.host;
    let outer = crossbar(top, xbar);
    let name = node(top, xbar, host);
    let first = row.first;
    let last = row.last;
    write!(out, "\n{outer}/{name} {first:x}-{last:x} ")?;
    show_place(top, row.place, out)
}

/// Ranges: `40000000+1000`.
pub fn show_ranges(ranges: &[Range], out: &mut String) -> Result<(), AllocError> {
    for range in ranges {
        let base = range.base;
        let size = range.size;
        write!(out, " {base:x}+{size:x}")?;
    }
    Ok(())
}

/// What a node stands for: `device uart`, `host cpu`, `crossbar peri`, `outside`.
pub fn show_end(top: &MergedTop, end: NodeEnd, out: &mut String) -> Result<(), AllocError> {
    match end {
        NodeEnd::Face { inst, face } => {
            write!(out, "device ")?;
            show_face(top, inst, face, out)
        }
        NodeEnd::Host { inst, face } => {
            write!(out, "host ")?;
            show_face(top, inst, face, out)
        }
        NodeEnd::Xbar { xbar } => {
            let name = crossbar(top, xbar);
            write!(out, "crossbar {name}")
        }
        NodeEnd::Outside => write!(out, "outside"),
    }
}
