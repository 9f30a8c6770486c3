//! What is read of a top: its description, or its first fault.

use crate::stages::top;
use cg_base::Memory;
use cg_desc::{At, FaceBase, InstDesc, Joint, NamePair, SignalDesc, SpaceBase, TopDesc, XbarUse};
use std::alloc::{AllocError, Global};

fn show_place(at: At, out: &mut String) -> Result<(), AllocError> {
    let line = at.line;
    let column = at.column;
    write!(out, " {line}:{column}")
}

fn show_pairs(title: &str, pairs: &[NamePair], out: &mut String) -> Result<(), AllocError> {
    if pairs.is_empty() {
        return Ok(());
    }
    write!(out, "; {title}")?;
    for pair in pairs {
        let port = &pair.port;
        let source = &pair.source;
        write!(out, " {port}={source}")?;
    }
    Ok(())
}

fn show_bases(bases: &[SpaceBase], out: &mut String) -> Result<(), AllocError> {
    if bases.is_empty() {
        return Ok(());
    }
    write!(out, "; base")?;
    for base in bases {
        let space = &base.space;
        let number = base.base;
        write!(out, " {space}={number}")?;
    }
    Ok(())
}

fn show_faces(bases: &[FaceBase], out: &mut String) -> Result<(), AllocError> {
    if bases.is_empty() {
        return Ok(());
    }
    write!(out, "; bases")?;
    for base in bases {
        let face = &base.face;
        let space = &base.space;
        let number = base.base;
        write!(out, " {face}/{space}={number}")?;
    }
    Ok(())
}

fn show_instance(inst: &InstDesc, out: &mut String) -> Result<(), AllocError> {
    let name = &inst.name;
    let kind = &inst.kind;
    write!(out, "\ninstance {name} {kind}")?;
    show_place(inst.at, out)?;
    show_pairs("clocks", inst.clocks.as_slice(), out)?;
    show_pairs("resets", inst.resets.as_slice(), out)?;
    show_bases(inst.base.as_slice(), out)?;
    show_faces(inst.bases.as_slice(), out)
}

fn show_crossbar(xbar: &XbarUse, out: &mut String) -> Result<(), AllocError> {
    let name = &xbar.name;
    let space = &xbar.space;
    write!(out, "\ncrossbar {name} {space}")?;
    show_place(xbar.at, out)?;
    show_pairs("clocks", xbar.clocks.as_slice(), out)
}

fn show_signal(signal: &SignalDesc, out: &mut String) -> Result<(), AllocError> {
    let inst = &signal.inst;
    let port = &signal.port;
    let joint = match signal.joint {
        Joint::Muxed => "muxed",
        Joint::Direct => "direct",
        Joint::Manual => "manual",
    };
    write!(out, "\nsignal \"{inst}\" \"{port}\" {joint}")?;
    if let Some(pad) = &signal.pad {
        write!(out, " \"{pad}\"")?;
    }
    show_place(signal.at, out)
}

fn show_top(top: &TopDesc, out: &mut String) -> Result<(), AllocError> {
    let name = &top.name;
    write!(out, "top {name}\nsources:")?;
    for source in top.sources.as_slice() {
        write!(out, " {source}")?;
    }
    write!(out, "\nresets:")?;
    for reset in top.resets.as_slice() {
        write!(out, " {reset}")?;
    }
    for space in top.spaces.as_slice() {
        let name = &space.name;
        write!(out, "\nspace {name}")?;
        show_place(space.at, out)?;
    }
    for inst in top.insts.as_slice() {
        show_instance(inst, out)?;
    }
    for xbar in top.xbars.as_slice() {
        show_crossbar(xbar, out)?;
    }
    if !top.pads.is_empty() {
        write!(out, "\npads:")?;
    }
    for pad in top.pads.as_slice() {
        write!(out, " {pad}")?;
    }
    for signal in top.signals.as_slice() {
        show_signal(signal, out)?;
    }
    Ok(())
}

/// The description of a top, or the line of its first fault.
pub fn answer(alloc: Global, document: &str) -> Result<String, Memory> {
    match top(alloc, document) {
        Ok(top) => {
            let mut out = String::new(alloc);
            show_top(&top, &mut out)?;
            Ok(out)
        }
        Err(stop) => stop.line(alloc),
    }
}
