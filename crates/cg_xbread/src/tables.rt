//! The keys of a crossbar's objects, with the forms of their values.

ghost use Rattle.std.specs.Prelude.{◌≡◌, ◌&&◌, codes, is_some, map, not};
ghost use Rattle.cg_keys.specs.Table.{key_of, value_at};
ghost use Rattle.cg_xbread.specs.Tables.{clock_key, crossbar_keys, node_keys, range_keys};

use cg_hjson::Member;
use cg_keys::{Form, Row, Words, value_at};

/// The largest number of 32 bits.
const WORD: u64 = 0xffff_ffff;

const NAME: Row = Row {
    key: "name",
    forms: &[Form::Name],
    needed: true,
};

const NODES: Row = Row {
    key: "nodes",
    forms: &[Form::Items],
    needed: true,
};

const CONNECTIONS: Row = Row {
    key: "connections",
    forms: &[Form::Object],
    needed: true,
};

const CROSSBAR: [Row; 4] = [
    NAME,
    Row {
        key: "clock",
        forms: &[Form::Name],
        needed: true,
    },
    NODES,
    CONNECTIONS,
];

const CROSSBAR_WITH_PRIMARY: [Row; 4] = [
    NAME,
    Row {
        key: "clock_primary",
        forms: &[Form::Name],
        needed: true,
    },
    NODES,
    CONNECTIONS,
];

const NODE: [Row; 5] = [
    Row {
        key: "name",
        forms: &[Form::Text],
        needed: true,
    },
    Row {
        key: "type",
        forms: &[Form::Word(Words::NodeType)],
        needed: true,
    },
    Row {
        key: "clock",
        forms: &[Form::Name],
        needed: false,
    },
    Row {
        key: "xbar",
        forms: &[Form::Boolean],
        needed: false,
    },
    Row {
        key: "addr_range",
        forms: &[Form::Items],
        needed: false,
    },
];

const RANGE: [Row; 2] = [
    Row {
        key: "base_addr",
        forms: &[Form::Number(0, WORD)],
        needed: true,
    },
    Row {
        key: "size_byte",
        forms: &[Form::Number(0, WORD + 1)],
        needed: true,
    },
];

/// Whether `clock_primary` stands and `clock` does not.
fn has_primary_alone(members: &[Member]) -> bool
    ensures { result ≡ (not (is_some (value_at (codes "clock") members.now)) && is_some (value_at (codes "clock_primary") members.now)) }
{
    value_at(members, "clock").is_none() && value_at(members, "clock_primary").is_some()
}

/// The key that tells a crossbar's clock.
#[tactic(auto, unfolding(crate::specs::Tables::clock_key))]
pub(crate) fn clock_key(members: &[Member]) -> &'static str
    ensures { result.now ≡ clock_key members.now }
{
    if has_primary_alone(members) {
        "clock_primary"
    } else {
        "clock"
    }
}

/// The keys of a crossbar with these members.
#[tactic(auto, unfolding(crate::specs::Tables::clock_key))]
pub(crate) fn crossbar_rows(members: &[Member]) -> &'static [Row]
    ensures { map key_of result.now ≡ crossbar_keys members.now }
{
    if has_primary_alone(members) {
        &CROSSBAR_WITH_PRIMARY
    } else {
        &CROSSBAR
    }
}

/// The keys of a node.
pub(crate) fn node_rows() -> &'static [Row]
    ensures { map key_of result.now ≡ node_keys }
{
    &NODE
}

/// The keys of a range of addresses.
pub(crate) fn range_rows() -> &'static [Row]
    ensures { map key_of result.now ≡ range_keys }
{
    &RANGE
}
