//! Lists at a key, and the first that is wrong in their elements.

ghost use Rattle.std.specs.Prelude.{◌≡◌, map};
ghost use Rattle.std.specs.List.{list_all};
ghost use Rattle.cg_finding.specs.Finding.{first_of};
ghost use Rattle.cg_finding.specs.Found.{sees};
ghost use Rattle.cg_keys.specs.Forms.{fits};
ghost use Rattle.cg_keys.specs.Table.{key_of};
ghost use Rattle.cg_keys.specs.Elements.{each_faults, element_faults, elements, item_faults, length_faults, list_faults, object_faults};

use crate::forms::{Form, fits};
use crate::table::{Row, first_in_table, value_at};
use crate::values::{array, items, object};
use cg_finding::{Found, earlier_of};
use cg_hjson::{Member, Tree};

/// The elements of the list at a key; none where there is no list.
#[tactic(auto, unfolding(crate::specs::Elements::elements))]
pub fn elements<'a>(members: &'a [Member], key: &str) -> &'a [Tree]
    ensures { result.now ≡ elements key.now members.now }
{
    match value_at(members, key) {
        Some(tree) => items(tree),
        None => &[],
    }
}

fn all_fit(form: Form, items: &[Tree]) -> bool
    ensures { result ≡ list_all (fits form) items.now }
{
    items.iter().all(|item| fits(form, item))
}

/// Rule 22 at a list that is the value of a key, where one of its elements has not the form.
#[tactic(auto, unfolding(crate::specs::Elements::list_faults), using(cg_finding::proofs::Firsts::firsts))]
pub fn first_in_list<'a>(form: Form, key: &'a str, tree: &Tree) -> Option<Found<'a>>
    ensures { sees result ≡ first_of (list_faults form key.now tree.now) }
{
    if all_fit(form, items(tree)) {
        None
    } else {
        Some(Found::wrong_kind(tree.at, key))
    }
}

/// Rule 22 at the list at a key, where one of its elements has not the form.
#[tactic(auto, unfolding(crate::specs::Elements::item_faults), using(cg_finding::proofs::Firsts::firsts))]
pub fn first_in_items<'a>(form: Form, members: &[Member], key: &'a str) -> Option<Found<'a>>
    ensures { sees result ≡ first_of (item_faults form key.now members.now) }
{
    first_in_list(form, key, value_at(members, key)?)
}

/// Rule 22 at the list at a key, where one of its elements is no object.
pub fn first_in_elements<'a>(members: &[Member], key: &'a str) -> Option<Found<'a>>
    ensures { sees result ≡ first_of (element_faults key.now members.now) }
{
    first_in_items(Form::Object, members, key)
}

/// Rule 22 at the list at a key, where it has fewer than `least` or more than `most` elements.
#[tactic(auto, unfolding(crate::specs::Elements::length_faults), using(cg_finding::proofs::Firsts::firsts))]
pub fn first_in_length<'a>(
    least: usize,
    most: usize,
    members: &[Member],
    key: &'a str,
) -> Option<Found<'a>>
    ensures { sees result ≡ first_of (length_faults least most key.now members.now) }
{
    let tree = value_at(members, key)?;
    let count = array(tree)?.len();
    if least <= count && count <= most {
        None
    } else {
        Some(Found::wrong_kind(tree.at, key))
    }
}

/// The first that is wrong in a value by a table of keys, where it is an object.
#[tactic(auto, unfolding(crate::specs::Elements::object_faults), using(cg_finding::proofs::Firsts::firsts))]
pub fn first_in_object<'a>(tree: &Tree, rows: &[Row]) -> Option<Found<'a>>
    ensures { sees result ≡ first_of (object_faults (map key_of rows.now) tree.now) }
{
    first_in_table(tree.at, object(tree)?, rows)
}

/// The first that is wrong in any of the values by a table of keys.
#[tactic(auto, using(cg_finding::proofs::Firsts::firsts))]
pub fn first_in_each<'a>(items: &[Tree], rows: &[Row]) -> Option<Found<'a>>
    ensures { sees result ≡ first_of (each_faults (map key_of rows.now) items.now) }
{
    let mut first = None;
    for item in items {
        first = earlier_of(first, first_in_object(item, rows));
    }
    first
}
