//! What an item is, where it is written and how it is called.

ghost use Rattle.std.specs.Prelude.{◌≡◌};
ghost use Rattle.cg_desc.specs.Offsets.{words_of};
ghost use Rattle.cg_layout.specs.Inner.Gates.{has_row};
ghost use Rattle.cg_layout.specs.Violations.{is_row, own_name, place_of};

use cg_desc::{At, Item};

/// Whether the item is a register or a window, which addresses reach.
pub fn is_row(item: &Item) -> bool
    ensures { result ≡ is_row item.now }
{
    match item {
        Item::Reg(_) | Item::Window(_) => true,
        Item::SkipTo { .. } | Item::Reserved { .. } => false,
    }
}

/// Whether one of the items is a row.
pub fn has_row(items: &[Item]) -> bool
    ensures { result ≡ has_row items.now }
{
    for item in items {
        if is_row(item) {
            return true;
        }
    }
    false
}

/// How many words addresses reach of the item.
pub fn words_of(item: &Item) -> u32
    ensures { result ≡ words_of item.now }
{
    match item {
        Item::Reg(_) => 1,
        Item::Window(window) => window.items,
        Item::SkipTo { .. } | Item::Reserved { .. } => 0,
    }
}

/// The name of a register or a window, and none of a skip or a reservation.
pub fn own_name(item: &Item) -> &str
    ensures { result.now ≡ own_name item.now }
{
    match item {
        Item::Reg(register) => register.name.as_str(),
        Item::Window(window) => window.name.as_str(),
        Item::SkipTo { .. } | Item::Reserved { .. } => "",
    }
}

/// Where the item is written.
pub fn place_of(item: &Item) -> At
    ensures { result ≡ place_of item.now }
{
    match item {
        Item::Reg(register) => register.at,
        Item::Window(window) => window.at,
        Item::SkipTo { at, .. } | Item::Reserved { at, .. } => *at,
    }
}
