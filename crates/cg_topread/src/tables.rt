//! The keys of a top's objects, with the forms of their values.

ghost use Rattle.std.specs.Prelude.{◌≡◌, map};
ghost use Rattle.cg_keys.specs.Table.{key_of};
ghost use Rattle.cg_topread.specs.Tables.{base_forms, bases_forms, clock_source_keys, clocks_keys, instance_keys, named_keys, pinmux_keys, pinout_keys, reset_source_keys, resets_keys, signal_keys, source_forms, top_keys, use_keys};

use cg_keys::{Form, Row, Words};

/// The largest number of 32 bits.
pub(crate) const WORD: u64 = 0xffff_ffff;

const NAME: Row = Row {
    key: "name",
    forms: &[Form::Name],
    needed: true,
};

const CLOCK_SOURCES: Row = Row {
    key: "clock_srcs",
    forms: &[Form::Object],
    needed: false,
};

const NAMED: [Row; 1] = [NAME];

const TOP: [Row; 8] = [
    NAME,
    Row {
        key: "clocks",
        forms: &[Form::Object],
        needed: true,
    },
    Row {
        key: "resets",
        forms: &[Form::Object],
        needed: true,
    },
    Row {
        key: "addr_spaces",
        forms: &[Form::Items],
        needed: false,
    },
    Row {
        key: "module",
        forms: &[Form::Items],
        needed: true,
    },
    Row {
        key: "xbar",
        forms: &[Form::Items],
        needed: true,
    },
    Row {
        key: "pinout",
        forms: &[Form::Object],
        needed: false,
    },
    Row {
        key: "pinmux",
        forms: &[Form::Object],
        needed: false,
    },
];

const CLOCKS: [Row; 2] = [
    Row {
        key: "srcs",
        forms: &[Form::Items],
        needed: true,
    },
    Row {
        key: "derived_srcs",
        forms: &[Form::Items],
        needed: false,
    },
];

const RESETS: [Row; 1] = [Row {
    key: "nodes",
    forms: &[Form::Items],
    needed: true,
}];

const PINOUT: [Row; 1] = [Row {
    key: "pads",
    forms: &[Form::Items],
    needed: false,
}];

const PINMUX: [Row; 1] = [Row {
    key: "signals",
    forms: &[Form::Items],
    needed: false,
}];

const INSTANCE: [Row; 6] = [
    NAME,
    Row {
        key: "type",
        forms: &[Form::Name],
        needed: true,
    },
    CLOCK_SOURCES,
    Row {
        key: "reset_connections",
        forms: &[Form::Object],
        needed: false,
    },
    Row {
        key: "base_addr",
        forms: &[Form::Number(0, WORD), Form::Object],
        needed: false,
    },
    Row {
        key: "base_addrs",
        forms: &[Form::Object],
        needed: false,
    },
];

const USE: [Row; 3] = [
    NAME,
    Row {
        key: "addr_space",
        forms: &[Form::Name],
        needed: false,
    },
    CLOCK_SOURCES,
];

const SIGNAL: [Row; 4] = [
    Row {
        key: "instance",
        forms: &[Form::Text],
        needed: true,
    },
    Row {
        key: "port",
        forms: &[Form::Text],
        needed: false,
    },
    Row {
        key: "connection",
        forms: &[Form::Word(Words::Joint)],
        needed: true,
    },
    Row {
        key: "pad",
        forms: &[Form::Text],
        needed: false,
    },
];

const CLOCK_SOURCE: [Row; 1] = [Row {
    key: "clock",
    forms: &[Form::Text],
    needed: true,
}];

const RESET_SOURCE: [Row; 1] = [Row {
    key: "name",
    forms: &[Form::Text],
    needed: true,
}];

/// The keys of a top.
pub(crate) fn top_rows() -> &'static [Row]
    ensures { map key_of result.now ≡ top_keys }
{
    &TOP
}

/// The keys of an object that has a name.
pub(crate) fn named_rows() -> &'static [Row]
    ensures { map key_of result.now ≡ named_keys }
{
    &NAMED
}

pub(crate) fn clocks_rows() -> &'static [Row]
    ensures { map key_of result.now ≡ clocks_keys }
{
    &CLOCKS
}

pub(crate) fn resets_rows() -> &'static [Row]
    ensures { map key_of result.now ≡ resets_keys }
{
    &RESETS
}

pub(crate) fn pinout_rows() -> &'static [Row]
    ensures { map key_of result.now ≡ pinout_keys }
{
    &PINOUT
}

pub(crate) fn pinmux_rows() -> &'static [Row]
    ensures { map key_of result.now ≡ pinmux_keys }
{
    &PINMUX
}

/// The keys of an instance.
pub(crate) fn instance_rows() -> &'static [Row]
    ensures { map key_of result.now ≡ instance_keys }
{
    &INSTANCE
}

/// The keys of a crossbar that a top lists.
pub(crate) fn use_rows() -> &'static [Row]
    ensures { map key_of result.now ≡ use_keys }
{
    &USE
}

/// The keys of a signal.
pub(crate) fn signal_rows() -> &'static [Row]
    ensures { map key_of result.now ≡ signal_keys }
{
    &SIGNAL
}

/// The keys of an object that stands for the source of a clock.
pub(crate) fn clock_source_rows() -> &'static [Row]
    ensures { map key_of result.now ≡ clock_source_keys }
{
    &CLOCK_SOURCE
}

/// The keys of an object that stands for the source of a reset.
pub(crate) fn reset_source_rows() -> &'static [Row]
    ensures { map key_of result.now ≡ reset_source_keys }
{
    &RESET_SOURCE
}

/// The forms of a base address.
pub(crate) fn base_forms() -> &'static [Form]
    ensures { result.now ≡ base_forms }
{
    &[Form::Number(0, WORD)]
}

/// The forms of base addresses, one of them or an object.
pub(crate) fn bases_forms() -> &'static [Form]
    ensures { result.now ≡ bases_forms }
{
    &[Form::Number(0, WORD), Form::Object]
}

/// The forms of a source.
pub(crate) fn source_forms() -> &'static [Form]
    ensures { result.now ≡ source_forms }
{
    &[Form::Text, Form::Object]
}
