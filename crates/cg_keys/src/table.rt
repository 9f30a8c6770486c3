//! Tables of keys, and the first that is wrong in an object by one.

ghost use Rattle.std.specs.Prelude.{◌≡◌, map, option_map};
ghost use Rattle.cg_finding.specs.Finding.{first_of};
ghost use Rattle.cg_finding.specs.Found.{sees};
ghost use Rattle.cg_keys.specs.Table.{key_faults, key_of, table_faults, value_at, value_faults};

use crate::forms::{Form, fits_one, rule_broken};
use cg_desc::At;
use cg_finding::{Found, earlier_of};
use cg_hjson::{Member, Tree};

/// A row of a table of keys: a key, the forms that its value may have, and whether it must be there.
#[derive(Clone, Copy, Debug)]
pub struct Row {
    pub key: &'static str,
    pub forms: &'static [Form],
    pub needed: bool,
}

/// The value at a key: that of the first member that has the key.
#[tactic(auto, unfolding(crate::specs::Table::value_at))]
pub fn value_at<'a>(members: &'a [Member], key: &str) -> Option<&'a Tree>
    ensures { option_map (λ value. value.now) result ≡ value_at key.now members.now }
{
    for member in members {
        if member.key.as_str() == key {
            return Some(&member.value);
        }
    }
    None
}

/// What is wrong with the value of a key that is to have one of the forms.
#[tactic(auto, unfolding(crate::specs::Table::value_faults), using(cg_finding::proofs::Firsts::firsts))]
pub fn first_in_value<'a>(key: &'a str, forms: &[Form], tree: &Tree) -> Option<Found<'a>>
    ensures { sees result ≡ first_of (value_faults key.now forms.now tree.now) }
{
    if fits_one(forms, tree) {
        None
    } else {
        Some(Found {
            phase: 2,
            rule: rule_broken(forms, tree),
            at: tree.at,
            name: key,
        })
    }
}

/// What is wrong at one key of an object that opens at `opener`.
#[tactic(auto, unfolding(crate::specs::Table::key_faults), using(cg_finding::proofs::Firsts::firsts))]
fn first_at_key<'a>(opener: At, members: &[Member], row: &Row) -> Option<Found<'a>>
    ensures { sees result ≡ first_of (key_faults opener members.now (key_of row.now)) }
{
    match value_at(members, row.key) {
        Some(tree) => first_in_value(row.key, row.forms, tree),
        None => {
            if row.needed {
                Some(Found::missing_key(opener, row.key))
            } else {
                None
            }
        }
    }
}

/// The first that is wrong in an object that opens at `opener`, by its table of keys.
#[tactic(auto, using(cg_finding::proofs::Firsts::firsts))]
pub fn first_in_table<'a>(opener: At, members: &[Member], rows: &[Row]) -> Option<Found<'a>>
    ensures { sees result ≡ first_of (table_faults opener members.now (map key_of rows.now)) }
{
    let mut first = None;
    for row in rows {
        first = earlier_of(first, first_at_key(opener, members, row));
    }
    first
}
