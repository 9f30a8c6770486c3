//! What a value is, one level at a time.

ghost use Rattle.std.specs.Prelude.{◌≡◌, option_map};
ghost use Rattle.cg_keys.specs.Values.{array_in, bool_in, int_in, items_of, members_of, object_in, text_in};

use cg_hjson::{Kind, Member, Tree};

/// The members of a value, where it is an object.
pub fn object(tree: &Tree) -> Option<&[Member]>
    ensures { option_map (λ members. members.now) result ≡ object_in tree.now }
{
    match &tree.kind {
        Kind::Object(members) => Some(members.as_slice()),
        _ => None,
    }
}

/// The elements of a value, where it is a list.
pub fn array(tree: &Tree) -> Option<&[Tree]>
    ensures { option_map (λ items. items.now) result ≡ array_in tree.now }
{
    match &tree.kind {
        Kind::Array(items) => Some(items.as_slice()),
        _ => None,
    }
}

/// The string that a value is.
pub fn text(tree: &Tree) -> Option<&str>
    ensures { option_map (λ text. text.now) result ≡ text_in tree.now }
{
    match &tree.kind {
        Kind::Str(text) => Some(text.as_str()),
        _ => None,
    }
}

/// The integer that a value is. A string of a number is none.
pub fn int(tree: &Tree) -> Option<i128>
    ensures { result ≡ int_in tree.now }
{
    match &tree.kind {
        Kind::Int(number) => Some(*number),
        _ => None,
    }
}

/// The boolean that a value is, written without quotes.
pub fn bool_of(tree: &Tree) -> Option<bool>
    ensures { result ≡ bool_in tree.now }
{
    match &tree.kind {
        Kind::Bool(truth) => Some(*truth),
        _ => None,
    }
}

/// The members of an object; any other value has none.
pub fn members(tree: &Tree) -> &[Member]
    ensures { result.now ≡ members_of tree.now }
{
    object(tree).unwrap_or(&[])
}

/// The elements of a list; any other value has none.
pub fn items(tree: &Tree) -> &[Tree]
    ensures { result.now ≡ items_of tree.now }
{
    array(tree).unwrap_or(&[])
}
