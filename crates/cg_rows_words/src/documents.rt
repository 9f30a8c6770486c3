//! The trees of documents, or their first faults.

use cg_base::Memory;
use cg_desc::At;
use cg_hjson::{HjsonFault, Kind, Tree, read};
use std::alloc::Global;

/// Adds a tree: `{key:value key:value }`, `[value value ]`, strings in double quotes as they are.
/// With places, each key and value is followed by `@` and its line, column and byte place.
fn add_tree(out: &mut String, tree: &Tree, places: bool) -> Result<(), Memory> {
    match &tree.kind {
        Kind::Null => out.push_str("null")?,
        Kind::Bool(truth) => write!(out, "{truth}")?,
        Kind::Int(number) => write!(out, "{number}")?,
        Kind::Str(text) => write!(out, "\"{text}\"")?,
        Kind::Array(items) => {
            out.push('[')?;
            for item in items.as_slice() {
                add_tree(out, item, places)?;
                out.push(' ')?;
            }
            out.push(']')?;
        }
        Kind::Object(members) => {
            out.push('{')?;
            for member in members.as_slice() {
                out.push_str(member.key.as_str())?;
                add_place(out, member.key_at, places)?;
                out.push(':')?;
                add_tree(out, &member.value, places)?;
                out.push(' ')?;
            }
            out.push('}')?;
        }
    }
    add_place(out, tree.at, places)
}

fn add_place(out: &mut String, at: At, places: bool) -> Result<(), Memory> {
    if places {
        write!(out, "@{}.{}.{}", at.line, at.column, at.byte)?;
    }
    Ok(())
}

fn spelled(alloc: Global, given: &str, places: bool) -> Result<String, Memory> {
    if given.len() > 100_000 {
        return Ok(String::from_str(alloc, "a long text")?);
    }
    match read(alloc, given) {
        Ok(tree) => {
            let mut out = String::new(alloc);
            add_tree(&mut out, &tree, places)?;
            Ok(out)
        }
        Err(HjsonFault::NotDocument { at }) => {
            Ok(format!(in alloc; "no document {} {} {}", at.byte, at.line, at.column)?)
        }
        Err(HjsonFault::TooDeep { at }) => {
            Ok(format!(in alloc; "too deep {} {} {}", at.byte, at.line, at.column)?)
        }
        Err(HjsonFault::Memory) => Err(Memory),
    }
}

/// The tree in one line, or the first fault with its byte place, line and column.
pub fn answer(alloc: Global, given: &str) -> Result<String, Memory> {
    spelled(alloc, given, false)
}

/// The tree with its places in one line.
pub fn answer_with_places(alloc: Global, given: &str) -> Result<String, Memory> {
    spelled(alloc, given, true)
}
