//! The first fault of an object by a table of keys.

use crate::trees::{no_document, read_tree, shown};
use cg_base::Memory;
use cg_keys::{Form, Row, Words, first_in_object};
use std::alloc::Global;

/// The table of keys, with each kind of form, alone and among others.
pub const ROWS: [Row; 11] = [
    Row {
        key: "name",
        forms: &[Form::Name],
        needed: true,
    },
    Row {
        key: "fields",
        forms: &[Form::Items],
        needed: true,
    },
    Row {
        key: "swaccess",
        forms: &[Form::Word(Words::Software)],
        needed: false,
    },
    Row {
        key: "resval",
        forms: &[
            Form::Number(0, 0xffff_ffff),
            Form::Boolean,
            Form::Word(Words::Unknown),
        ],
        needed: false,
    },
    Row {
        key: "count",
        forms: &[Form::Number(0, 0xffff_ffff), Form::ParameterName],
        needed: false,
    },
    Row {
        key: "width",
        forms: &[Form::Number(1, 32)],
        needed: false,
    },
    Row {
        key: "below",
        forms: &[Form::Number(1, 31)],
        needed: false,
    },
    Row {
        key: "above",
        forms: &[Form::Number(33, 64)],
        needed: false,
    },
    Row {
        key: "part",
        forms: &[Form::Object],
        needed: false,
    },
    Row {
        key: "label",
        forms: &[Form::Text, Form::Name],
        needed: false,
    },
    Row {
        key: "size",
        forms: &[Form::Object, Form::Number(0, 1)],
        needed: false,
    },
];

/// The first fault: its rule, its byte place and the key.
pub fn answer(alloc: Global, given: &str) -> Result<String, Memory> {
    let Some(tree) = read_tree(alloc, given)? else {
        return no_document(alloc);
    };
    shown(alloc, first_in_object(&tree, &ROWS))
}
