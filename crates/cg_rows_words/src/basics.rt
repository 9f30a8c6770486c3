//! Masks, multiples, lists and texts.

use cg_base::{FileMap, List, Memory, Text, align_up, mask};
use std::alloc::Global;

fn aligned(alloc: Global, text: &str) -> Result<String, Memory> {
    let (number, to) = text.split_once(' ').unwrap_or((text, ""));
    let number = number.parse().unwrap_or(0);
    let least = if to == "8" {
        align_up(number, 8)
    } else {
        align_up(number, 4)
    };
    match least {
        Some(multiple) => Ok(format!(in alloc; "{multiple}")?),
        None => Ok(String::from_str(alloc, "none")?),
    }
}

fn masked(alloc: Global, width: &str) -> Result<String, Memory> {
    let width: u32 = width.parse().unwrap_or(0);
    let mask = mask(width.min(64));
    Ok(format!(in alloc; "{mask:x}")?)
}

fn add_bytes(list: &List<u8>, out: &mut String) -> Result<(), Memory> {
    let text = str::from_utf8(list.as_slice()).unwrap_or("?");
    let length = list.len();
    writeln!(out, "{length} {text}")?;
    Ok(())
}

/// A list of the text's bytes: as it is, without its last item, with `x` before that, and with `yz` behind.
fn listed(alloc: Global, text: &str) -> Result<String, Memory> {
    let mut out = String::new(alloc);
    let mut list = List::of(alloc, text.as_bytes())?;
    add_bytes(&list, &mut out)?;
    let copy = list.copy()?;
    list.pop();
    add_bytes(&list, &mut out)?;
    let last = list.len().saturating_sub(1);
    list.insert(last, b'x')?;
    list.add(b"yz")?;
    add_bytes(&list, &mut out)?;
    let is_same = list.same(&copy);
    let is_equal = copy == List::of(list.alloc(), text.as_bytes())?;
    write!(&mut out, "same {is_same}, equal {is_equal}")?;
    Ok(out)
}

/// A text: its length in bytes, with `!` behind, its copy, and whether it stands before `b`.
fn texted(alloc: Global, text: &str) -> Result<String, Memory> {
    let mut changed = Text::of(alloc, text)?;
    let copy = changed.copy()?;
    changed.add("!")?;
    let length = copy.len();
    let is_before = copy < Text::of(changed.alloc(), "b")?;
    let whole = Text::from_string(changed.into_string());
    Ok(format!(in alloc; "{length} {whole} {copy} before b: {is_before}")?)
}

/// A map of files: one inserted, one written, and the first removed.
fn filed(alloc: Global, name: &str) -> Result<String, Memory> {
    let mut files = FileMap::new(alloc);
    files.insert("a", List::of(alloc, b"one")?)?;
    files.write("b", b"two")?;
    files.remove("a");
    let text = str::from_utf8(files.get(name).unwrap_or(b"none")).unwrap_or("?");
    Ok(String::from_str(alloc, text)?)
}

/// What comes of the value behind the first word.
pub fn answer(alloc: Global, given: &str) -> Result<String, Memory> {
    let (verb, text) = given.split_once(' ').unwrap_or((given, ""));
    match verb {
        "align" => aligned(alloc, text),
        "mask" => masked(alloc, text),
        "list" => listed(alloc, text),
        "files" => filed(alloc, text),
        _ => texted(alloc, text),
    }
}
