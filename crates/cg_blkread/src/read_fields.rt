//! Fields as they are written.

ghost use Rattle.std.specs.Prelude.{◌≡◌, IfOk, codes, false, option_and_then, option_map};
ghost use Rattle.std.specs.Option.{option_map_or};
ghost use Rattle.std.specs.Str.{bytes_eq};
ghost use Rattle.cg_keys.specs.Lookups.{text_at};
ghost use Rattle.cg_keys.specs.Table.{value_at};
ghost use Rattle.cg_blkread.specs.Bits.{bits_in};
ghost use Rattle.cg_blkread.specs.Raw.{boolean_or_number, boolean_reset, field_reset, filled_name, is_true, raw_field, raw_fields, register_reset, shared_of};
ghost use Rattle.cg_blkread.specs.Shared.{shared_view};

use crate::bits::bits;
use crate::parameters::word_at;
use crate::raw::{Bits, RawField};
use cg_base::{List, Memory, Text};
use cg_desc::{HwAccess, SwAccess};
use cg_hjson::{Member, Tree};
use cg_keys::{
    boolean_at, elements, hardware_at, members, place_at, software_at, text_at, value_at,
};
use std::alloc::Global;

/// What a field takes from its register: its name where the field is the only one, and its kinds.
#[derive(Clone, Copy)]
pub struct Shared<'a> {
    pub name: &'a str,
    pub sw: SwAccess,
    pub hw: HwAccess,
    pub sole: bool,
}

/// Whether a key is there and true.
pub fn is_true(members: &[Member], key: &str) -> bool
    ensures { result ≡ is_true key.now members.now }
{
    boolean_at(members, key).unwrap_or(false)
}

/// What the register with these members has for its fields.
#[tactic(auto, unfolding(crate::specs::Raw::shared_of))]
pub fn shared_of(members: &[Member]) -> Shared<'_>
    ensures { shared_view result ≡ shared_of members.now }
{
    Shared {
        name: text_at(members, "name").unwrap_or(""),
        sw: software_at(members, "swaccess").unwrap_or(SwAccess::Nothing),
        hw: hardware_at(members, "hwaccess").unwrap_or(HwAccess::Hro),
        sole: elements(members, "fields").len() == 1,
    }
}

fn field_name(
    alloc: Global,
    written: Option<&str>,
    register: &str,
    sole: bool,
    number: usize,
) -> Result<Text, Memory>
    ensures { IfOk result (λ name. name ≡ filled_name (option_map (λ s. s.now) written.entry) register.now sole number) }
{
    match written {
        Some(name) => Text::of(alloc, name),
        None => {
            if sole {
                Text::of(alloc, register)
            } else {
                let name = format!(in alloc; "field{number}")?;
                Ok(Text::from_string(name))
            }
        }
    }
}

fn boolean_reset(mubi: bool, truth: bool) -> u32
    ensures { result ≡ boolean_reset mubi truth }
{
    match (mubi, truth) {
        (true, true) => 6,
        (true, false) => 9,
        (false, true) => 1,
        (false, false) => 0,
    }
}

fn boolean_or_number(mubi: bool, truth: Option<bool>, number: Option<u32>) -> Option<u32>
    ensures { result ≡ boolean_or_number mubi truth number }
{
    match truth {
        Some(truth) => Some(boolean_reset(mubi, truth)),
        None => number,
    }
}

/// The reset value of a register: a number, or 1 for true and 0 for false.
#[tactic(auto, unfolding(crate::specs::Raw::register_reset))]
pub fn register_reset(members: &[Member]) -> Option<u32>
    ensures { result ≡ register_reset members.now }
{
    boolean_or_number(
        false,
        boolean_at(members, "resval"),
        word_at(members, "resval"),
    )
}

fn is_unknown(members: &[Member]) -> bool
    ensures { result ≡ option_map_or (bytes_eq (codes "x")) (text_at (codes "resval") members.now) false }
{
    match text_at(members, "resval") {
        Some(word) => "x" == word,
        None => false,
    }
}

#[tactic(auto, unfolding(crate::specs::Raw::field_reset))]
fn field_reset(mubi: bool, members: &[Member]) -> Option<u32>
    ensures { result ≡ field_reset mubi members.now }
{
    if is_unknown(members) {
        Some(0)
    } else {
        boolean_or_number(
            mubi,
            boolean_at(members, "resval"),
            word_at(members, "resval"),
        )
    }
}

fn bits_at(members: &[Member]) -> Option<Bits>
    ensures { result ≡ option_and_then bits_in (value_at (codes "bits") members.now) }
{
    bits(value_at(members, "bits")?)
}

/// The field at this place of its register's list, from 1.
#[tactic(auto, unfolding(crate::specs::Raw::raw_field))]
fn read_field(
    alloc: Global,
    shared: &Shared,
    number: usize,
    tree: &Tree,
) -> Result<RawField, Memory>
    ensures { IfOk result (λ field. field ≡ raw_field (shared_view shared.now) number tree.now) }
{
    let members = members(tree);
    let written = text_at(members, "name");
    let name = field_name(alloc, written, shared.name, shared.sole, number)?;
    let mubi = is_true(members, "mubi");
    let bits_place = place_at(members, "bits", tree.at);
    Ok(RawField {
        name,
        bits: bits_at(members),
        bits_at: bits_place,
        sw: software_at(members, "swaccess").unwrap_or(shared.sw),
        hw: hardware_at(members, "hwaccess").unwrap_or(shared.hw),
        resval: field_reset(mubi, members),
        resval_at: place_at(members, "resval", tree.at),
        mubi,
        at: place_at(members, "name", bits_place),
    })
}

/// The fields of a list, in written order.
pub fn written_fields(
    alloc: Global,
    shared: &Shared,
    items: &[Tree],
) -> Result<List<RawField>, Memory>
    ensures { IfOk result (λ fields. fields ≡ raw_fields (shared_view shared.now) 1 items.now) }
{
    let mut fields = List::new(alloc);
    for (place, item) in items.iter().enumerate() {
        fields.push(read_field(alloc, shared, place + 1, item)?)?;
    }
    Ok(fields)
}
