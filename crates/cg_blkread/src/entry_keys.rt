//! The first rule on keys, kinds and the profile that an entry breaks.

ghost use Rattle.std.specs.Prelude.{◌≡◌, ◌++◌, [], ◌∷◌, map};
ghost use Rattle.std.specs.List.{flat_map};
ghost use Rattle.cg_finding.specs.Finding.{first_of};
ghost use Rattle.cg_finding.specs.Found.{sees};
ghost use Rattle.cg_keys.specs.Elements.{object_faults};
ghost use Rattle.cg_keys.specs.Table.{key_of, value_faults};
ghost use Rattle.cg_blkread.specs.Keys.{entry_faults, entry_kind_faults, entry_list_faults, field_faults, multireg_faults, register_faults, window_faults};
ghost use Rattle.cg_blkread.specs.Tables.{register_keys, word_number};

use crate::profile::{compact_outside, mubi_outside, outside_key, register_outside};
use crate::tables::{copy_rows, field_rows, register_rows, window_rows};
use cg_finding::{Found, Rule, earlier_of, first_in_all};
use cg_hjson::{Member, Tree};
use cg_keys::{
    Form, Row, elements, first_in_elements, first_in_list, first_in_object, first_in_value, fits,
    items, members, value_at,
};

/// What is asked of a field of the register with these members.
#[derive(Drop)]
struct FieldOf<'r> {
    register: &'r [Member],
}

impl<'r> Rule<'r, Tree> for FieldOf<'r> {
    ghost use Rattle.cg_blkread.specs.Keys.{field_faults};

    ghost faults = { λ rule tree. field_faults rule.register.now tree };

    #[tactic(auto, unfolding(crate::specs::Keys::field_faults), using(cg_finding::proofs::Firsts::firsts))]
    fn first(&self, item: &'r Tree) -> Option<Found<'r>> {
        earlier_of(
            first_in_object(item, field_rows()),
            mubi_outside(self.register, members(item)),
        )
    }
}

#[tactic(auto, using(cg_finding::proofs::Firsts::firsts))]
fn first_in_fields<'a>(register: &'a [Member], fields: &'a [Tree]) -> Option<Found<'a>>
    ensures { sees result ≡ first_of (flat_map (field_faults register.now) fields.now) }
{
    first_in_all(&FieldOf { register }, fields)
}

/// What is asked of the keys of two tables.
#[tactic(auto, using(cg_finding::proofs::Firsts::firsts, crate::proofs::MoreKeys::object_faults_append))]
fn first_in_both(tree: &Tree, rows: &[Row], more: &[Row]) -> Option<Found<'static>>
    ensures { sees result ≡ first_of (object_faults (map key_of rows.now ++ map key_of more.now) tree.now) }
{
    earlier_of(first_in_object(tree, rows), first_in_object(tree, more))
}

/// What is asked of the members of a register, and of these keys beside its own.
#[tactic(auto, unfolding(crate::specs::Keys::register_faults), using(cg_finding::proofs::Firsts::firsts))]
fn first_in_register<'a>(tree: &'a Tree, more: &[Row]) -> Option<Found<'a>>
    ensures { sees result ≡ first_of (register_faults (register_keys ++ map key_of more.now) tree.now) }
{
    let register = members(tree);
    let keys = first_in_both(tree, register_rows(), more);
    let outside = register_outside(register);
    let shape = first_in_elements(register, "fields");
    let fields = first_in_fields(register, elements(register, "fields"));
    earlier_of(keys, earlier_of(outside, earlier_of(shape, fields)))
}

#[tactic(auto, unfolding(crate::specs::Keys::multireg_faults), using(cg_finding::proofs::Firsts::firsts))]
fn first_in_multireg(tree: &Tree) -> Option<Found<'_>>
    ensures { sees result ≡ first_of (multireg_faults tree.now) }
{
    let kind = first_in_value("multireg", &[Form::Object], tree);
    let register = first_in_register(tree, copy_rows());
    let compact = compact_outside(members(tree));
    earlier_of(kind, earlier_of(register, compact))
}

#[tactic(auto, unfolding(crate::specs::Keys::window_faults), using(cg_finding::proofs::Firsts::firsts))]
fn first_in_window(tree: &Tree) -> Option<Found<'static>>
    ensures { sees result ≡ first_of (window_faults tree.now) }
{
    earlier_of(
        first_in_value("window", &[Form::Object], tree),
        first_in_object(tree, window_rows()),
    )
}

fn first_in_word<'a>(key: &'a str, tree: &Tree) -> Option<Found<'a>>
    ensures { sees result ≡ first_of (value_faults key.now (word_number ∷ []) tree.now) }
{
    first_in_value(key, &[Form::Number(0, u64::from(u32::MAX))], tree)
}

/// What is asked of an entry of its kind: it is known by its key, of which the first in this order counts.
#[tactic(auto, unfolding(crate::specs::Keys::entry_kind_faults), using(cg_finding::proofs::Firsts::firsts))]
fn first_in_kind<'a>(entry: &'a [Member], tree: &'a Tree) -> Option<Found<'a>>
    ensures { sees result ≡ first_of (entry_kind_faults entry.now tree.now) }
{
    if let Some(multireg) = value_at(entry, "multireg") {
        return first_in_multireg(multireg);
    }
    if let Some(window) = value_at(entry, "window") {
        return first_in_window(window);
    }
    if let Some(skip) = value_at(entry, "skipto") {
        return first_in_word("skipto", skip);
    }
    if let Some(reserved) = value_at(entry, "reserved") {
        return first_in_word("reserved", reserved);
    }
    first_in_register(tree, &[])
}

/// What is asked of an entry, where it is an object.
#[tactic(auto, unfolding(crate::specs::Keys::entry_faults), using(cg_finding::proofs::Firsts::firsts))]
fn first_in_entry(tree: &Tree) -> Option<Found<'_>>
    ensures { sees result ≡ first_of (entry_faults tree.now) }
{
    if fits(Form::Object, tree) {
        let entry = members(tree);
        earlier_of(first_in_kind(entry, tree), outside_key(entry, "sameaddr"))
    } else {
        None
    }
}

/// What is asked of any entry.
#[derive(Drop)]
struct Entry;

impl<'r> Rule<'r, Tree> for Entry {
    ghost use Rattle.cg_blkread.specs.Keys.{entry_faults};

    ghost faults = { λ _ tree. entry_faults tree };

    fn first(&self, item: &'r Tree) -> Option<Found<'r>> {
        first_in_entry(item)
    }
}

#[tactic(auto, using(cg_finding::proofs::Firsts::firsts))]
fn first_in_entries(entries: &[Tree]) -> Option<Found<'_>>
    ensures { sees result ≡ first_of (flat_map entry_faults entries.now) }
{
    first_in_all(&Entry, entries)
}

/// What is asked of a list of entries: that it is a list of objects, and of each what its kind asks.
#[tactic(auto, unfolding(crate::specs::Keys::entry_list_faults), using(cg_finding::proofs::Firsts::firsts))]
pub(crate) fn first_in_entry_list<'a>(key: &'a str, value: &'a Tree) -> Option<Found<'a>>
    ensures { sees result ≡ first_of (entry_list_faults (record { key = key.now; value = value.now })) }
{
    let kind = first_in_value(key, &[Form::Items], value);
    let shape = first_in_list(Form::Object, key, value);
    let entries = first_in_entries(items(value));
    earlier_of(kind, earlier_of(shape, entries))
}
