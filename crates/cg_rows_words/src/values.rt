//! What the values of objects are.

use crate::trees::{no_document, read_tree};
use cg_base::Memory;
use cg_hjson::{Member, START};
use cg_keys::{
    Form, Words, array, bool_of, boolean_at, elements, hardware_at, int, is_fit_at, members,
    number_at, object_at, place_at, software_at, text_at, value_at, window_access_at,
};
use std::alloc::Global;

/// Adds the kind of the value at a key, and the value.
fn add_kind(out: &mut String, members: &[Member], key: &str) -> Result<(), Memory> {
    let Some(value) = value_at(members, key) else {
        return Ok(out.push_str("absent")?);
    };
    if let Some(number) = int(value) {
        write!(out, "integer {number}")?;
    } else if let Some(truth) = bool_of(value) {
        write!(out, "bool {truth}")?;
    } else if let Some(text) = text_at(members, key) {
        write!(out, "text \"{text}\"")?;
    } else if array(value).is_some() {
        let count = elements(members, key).len();
        write!(out, "list of {count}")?;
    } else if let Some(inner) = object_at(members, key) {
        let count = inner.len();
        write!(out, "object of {count}")?;
    } else {
        out.push_str("null")?;
    }
    Ok(())
}

/// Adds the number, the boolean and the accesses that the value at a key says.
fn add_meanings(out: &mut String, members: &[Member], key: &str) -> Result<(), Memory> {
    if let Some(number) = number_at(0, 0xffff_ffff, members, key) {
        write!(out, ", number {number}")?;
    }
    if let Some(truth) = boolean_at(members, key) {
        write!(out, ", boolean {truth}")?;
    }
    if let Some(access) = software_at(members, key) {
        write!(out, ", software {access:?}")?;
    }
    if let Some(access) = hardware_at(members, key) {
        write!(out, ", hardware {access:?}")?;
    }
    if let Some(access) = window_access_at(members, key) {
        write!(out, ", window {access:?}")?;
    }
    Ok(())
}

/// Adds the lists of words that a key may have here: those with the value's word, and all where the key is absent.
fn add_lists(out: &mut String, members: &[Member], key: &str) -> Result<(), Memory> {
    for words in [
        Words::Direction,
        Words::InterruptType,
        Words::NodeType,
        Words::Joint,
        Words::Unknown,
    ] {
        if is_fit_at(&[Form::Word(words)], members, key) {
            write!(out, ", {words:?}")?;
        }
    }
    Ok(())
}

fn add_value(out: &mut String, members: &[Member], key: &str) -> Result<(), Memory> {
    add_kind(out, members, key)?;
    add_meanings(out, members, key)?;
    add_lists(out, members, key)
}

/// What a value is, as it would stand at a key.
pub fn answer(alloc: Global, given: &str) -> Result<String, Memory> {
    let text = format!(in alloc; "{{k: {given}\n}}")?;
    let Some(tree) = read_tree(alloc, text.as_str())? else {
        return no_document(alloc);
    };
    let mut out = String::new(alloc);
    add_value(&mut out, members(&tree), "k")?;
    Ok(out)
}

fn add_line(out: &mut String, members: &[Member], key: &str) -> Result<(), Memory> {
    let place = place_at(members, key, START);
    write!(out, "{key} at {}: ", place.byte)?;
    add_value(out, members, key)?;
    out.push('\n')?;
    Ok(())
}

/// What stands at each key of an object, and at the key `z`, a line each.
pub fn answer_for_each(alloc: Global, given: &str) -> Result<String, Memory> {
    let Some(tree) = read_tree(alloc, given)? else {
        return no_document(alloc);
    };
    let mut out = String::new(alloc);
    for member in members(&tree) {
        add_line(&mut out, members(&tree), member.key.as_str())?;
    }
    add_line(&mut out, members(&tree), "z")?;
    out.pop();
    Ok(out)
}
