//! The faults of lists.

use crate::keys::ROWS;
use crate::trees::{no_document, read_tree};
use cg_base::Memory;
use cg_finding::Found;
use cg_hjson::Member;
use cg_keys::{
    Form, elements, first_in_each, first_in_elements, first_in_items, first_in_length, members,
};
use std::alloc::Global;

fn add_found(out: &mut String, wanted: &str, found: Option<Found>) -> Result<(), Memory> {
    if let Some(found) = found {
        let name = found.name;
        writeln!(out, "{wanted}: {} {} {name}", found.rule, found.at.byte)?;
    }
    Ok(())
}

/// Adds what is wrong with the list at a key, for each thing that could be wanted of it.
fn add_faults(out: &mut String, members: &[Member], key: &str) -> Result<(), Memory> {
    add_found(out, "objects", first_in_elements(members, key))?;
    add_found(out, "texts", first_in_items(Form::Text, members, key))?;
    add_found(out, "1 to 2", first_in_length(1, 2, members, key))?;
    add_found(out, "1 to 3", first_in_length(1, 3, members, key))?;
    add_found(out, "2 to 3", first_in_length(2, 3, members, key))?;
    add_found(out, "keys", first_in_each(elements(members, key), &ROWS))
}

/// For each key its faults, a line each: what is wanted, the rule, the byte place and the name.
pub fn answer(alloc: Global, given: &str) -> Result<String, Memory> {
    let Some(tree) = read_tree(alloc, given)? else {
        return no_document(alloc);
    };
    let mut out = String::new(alloc);
    for member in members(&tree) {
        add_faults(&mut out, members(&tree), member.key.as_str())?;
    }
    out.pop();
    Ok(out)
}
