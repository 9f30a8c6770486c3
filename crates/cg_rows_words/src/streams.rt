//! What sources and sinks answer, call by call.
//!
//! The first line names the stream and, of a source, its bytes. Each further line is a call: how many bytes a source is asked for at
//! most, or what a sink is given. `memory` fails at its second call; `reader` and `writer` are the system's, over bytes in memory;
//! `broken` always fails, and `stuck` where bytes are to be passed on.

use cg_base::{
    CalmSink, CalmSource, List, MemSink, MemSource, Memory, Sink, SinkFault, Source, StdSink,
    StdSource,
};
use std::alloc::Global;
use std::io;
use std::io::{Cursor, ErrorKind, Read, Write};

/// A reader and writer that always fails.
#[derive(Drop)]
struct Broken;

impl Read for Broken {
    fn read(&mut self, _buf: &mut [u8]) -> io::Result<usize> {
        Err(io::Error::from(ErrorKind::BrokenPipe))
    }
}

impl Write for Broken {
    fn write(&mut self, _buf: &[u8]) -> io::Result<usize> {
        Err(io::Error::from(ErrorKind::BrokenPipe))
    }

    fn flush(&mut self) -> io::Result<()> {
        Ok(())
    }
}

/// A writer that takes all bytes, and fails where they are to be passed on.
#[derive(Drop)]
struct Stuck;

impl Write for Stuck {
    fn write(&mut self, buf: &[u8]) -> io::Result<usize> {
        Ok(buf.len())
    }

    fn flush(&mut self) -> io::Result<()> {
        Err(io::Error::from(ErrorKind::BrokenPipe))
    }
}

fn fill<S: Source>(source: &mut S, most: &str, out: &mut String) -> Result<(), Memory> {
    let mut buf = [0; 8];
    let most: usize = most.parse().unwrap_or(0);
    match source.fill(&mut buf[..most.min(8)]) {
        Ok(count) => {
            let bytes = str::from_utf8(&buf[..count]).unwrap_or("?");
            writeln!(out, "{count} {bytes}")?;
        }
        Err(_) => writeln!(out, "failed")?,
    }
    Ok(())
}

fn fills<S: Source + Drop>(alloc: Global, mut source: S, script: &str) -> Result<String, Memory> {
    let mut out = String::new(alloc);
    for line in script.lines() {
        fill(&mut source, line, &mut out)?;
    }
    Ok(out)
}

fn puts<S: Sink>(sink: &mut S, script: &str, out: &mut String) -> Result<(), Memory> {
    for line in script.lines() {
        match sink.put(line.as_bytes()) {
            Ok(()) => writeln!(out, "taken")?,
            Err(SinkFault::Failed) => writeln!(out, "failed")?,
            Err(SinkFault::Memory) => return Err(Memory),
        }
    }
    Ok(())
}

fn add_held(bytes: &[u8], out: &mut String) -> Result<(), Memory> {
    let held = str::from_utf8(bytes).unwrap_or("?");
    write!(out, "holds {held}")?;
    Ok(())
}

fn source_answer(alloc: Global, kind: &str, bytes: &str, script: &str) -> Result<String, Memory> {
    let held = List::of(alloc, bytes.as_bytes())?;
    match kind {
        "memory" => fills(alloc, MemSource::new(held, List::of(alloc, &[2])?), script),
        "calm" => fills(alloc, CalmSource::new(held), script),
        "reader" => fills(alloc, StdSource::new(Cursor::new(bytes.as_bytes())), script),
        _ => fills(alloc, StdSource::new(Broken), script),
    }
}

fn sink_answer(alloc: Global, kind: &str, script: &str) -> Result<String, Memory> {
    let mut out = String::new(alloc);
    match kind {
        "memory" => {
            let mut sink = MemSink::new(alloc, List::of(alloc, &[2])?);
            puts(&mut sink, script, &mut out)?;
            add_held(sink.bytes(), &mut out)?;
        }
        "calm" => {
            let mut sink = CalmSink::new(alloc);
            puts(&mut sink, script, &mut out)?;
            add_held(sink.bytes(), &mut out)?;
        }
        "writer" => {
            let mut held = Vec::new(alloc);
            puts(&mut StdSink::new(&mut held), script, &mut out)?;
            add_held(&held, &mut out)?;
        }
        "stuck" => puts(&mut StdSink::new(Stuck), script, &mut out)?,
        _ => puts(&mut StdSink::new(Broken), script, &mut out)?,
    }
    Ok(out)
}

/// What each call answers, and what a sink that shows it holds at the end.
pub fn answer(alloc: Global, given: &str) -> Result<String, Memory> {
    let (head, script) = given.split_once('\n').unwrap_or((given, ""));
    let (kind, stream) = head.split_once(' ').unwrap_or((head, ""));
    match stream.strip_prefix("source ") {
        Some(bytes) => source_answer(alloc, kind, bytes, script),
        None => sink_answer(alloc, kind, script),
    }
}
