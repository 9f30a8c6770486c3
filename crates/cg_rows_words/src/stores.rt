//! What stores answer, call by call.
//!
//! The first line names the store: `memory`, whose second read and second change fail; `calm`; or `system`, the files of the folder
//! that the program runs in. Each further line is a call, `write a text`, `read a 3` or `remove a`.

use cg_base::{CalmStore, FileStore, Found, List, MemStore, Memory, Store, StoreFault};
use std::alloc::Global;
use std::fs::Files;

fn spell_done(done: Result<(), StoreFault>) -> Result<&'static str, Memory> {
    match done {
        Ok(()) => Ok("done"),
        Err(StoreFault::Failed) => Ok("failed"),
        Err(StoreFault::Memory) => Err(Memory),
    }
}

fn spell_found(found: Result<Found, StoreFault>) -> Result<&'static str, Memory> {
    match found {
        Ok(Found::Yes) => Ok("found"),
        Ok(Found::Absent) => Ok("absent"),
        Ok(Found::Large) => Ok("large"),
        Err(StoreFault::Failed) => Ok("failed"),
        Err(StoreFault::Memory) => Err(Memory),
    }
}

/// Reads behind what was read before, and says all of it.
fn read<S: Store>(
    store: &mut S,
    name: &str,
    limit: &str,
    bytes: &mut Vec<u8>,
    out: &mut String,
) -> Result<(), Memory> {
    let found = store.read(name, limit.parse().unwrap_or(0), bytes);
    out.push_str(spell_found(found)?)?;
    let all = str::from_utf8(bytes).unwrap_or("?");
    writeln!(out, " {all}")?;
    Ok(())
}

fn call<S: Store>(
    store: &mut S,
    line: &str,
    bytes: &mut Vec<u8>,
    out: &mut String,
) -> Result<(), Memory> {
    let Some((verb, rest)) = line.split_once(' ') else {
        return Ok(());
    };
    let (name, more) = rest.split_once(' ').unwrap_or((rest, ""));
    let done = match verb {
        "write" => spell_done(store.write(name, more.as_bytes()))?,
        "remove" => spell_done(store.remove(name))?,
        _ => return read(store, name, more, bytes, out),
    };
    writeln!(out, "{done}")?;
    Ok(())
}

fn calls<S: Store>(alloc: Global, store: &mut S, script: &str) -> Result<String, Memory> {
    let mut out = String::new(alloc);
    let mut bytes = Vec::new(alloc);
    for line in script.lines() {
        call(store, line, &mut bytes, &mut out)?;
    }
    Ok(out)
}

/// A store whose second read and second change fail, with the file `a` in it, which says `old`.
fn memory_store(alloc: Global) -> Result<MemStore, Memory> {
    let mut store = MemStore::new(alloc, List::of(alloc, &[2])?, List::of(alloc, &[2])?);
    store.add("a", b"old")?;
    Ok(store)
}

/// What each call answers; behind a read, all bytes that were read so far.
pub fn answer<R: Files + Copy + Drop>(
    rt: &R,
    alloc: Global,
    given: &str,
) -> Result<String, Memory> {
    let Some((kind, script)) = given.split_once('\n') else {
        return Ok(String::new(alloc));
    };
    match kind {
        "memory" => calls(alloc, &mut memory_store(alloc)?, script),
        "calm" => calls(alloc, &mut CalmStore::new(alloc), script),
        _ => calls(alloc, &mut FileStore::new(*rt), script),
    }
}
