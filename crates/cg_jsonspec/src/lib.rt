//! The layout of JSON texts as mathematics: this crate has no code that runs.
//!
//! Its definitions are in `specs/`: the text of a JSON value with a line for each item and member (`Layout`), the document that a
//! value says and documents but for places (`Said`), and what it means that a text reads back as a value (`ReadsBack`). The laws are
//! the functions below, whose bodies do nothing. They say that this layout is the one that `serde_json` writes, and that the grammar
//! of documents in `cg_docspec` reads an object's text back as the object; and that documents have strings which are UTF-8.
//!
//! Not promised: anything of values with fractions, or nested more than 64 deep.
#![tactic(auto)]

ghost use Rattle.cg_jsonspec.specs.Laws.{DocumentsAreSayable, LayoutIsPretty, LayoutReadsBack};

/// The layout by cases is the one of the tokens of a value.
pub fn layout_is_pretty()
    ensures { LayoutIsPretty }
{}

/// The text of an object, at most 64 deep, is a document that says the object.
pub fn layout_reads_back()
    ensures { LayoutReadsBack }
{}

/// The tree of a text that is UTF-8 has integers of 64 bits, and strings and keys that are UTF-8.
pub fn documents_are_sayable()
    ensures { DocumentsAreSayable }
{}
