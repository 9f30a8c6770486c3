ghost use Rattle.std.specs.Prelude.{◌≡◌, ◌==◌, [], IfOk, find, map, string_bytes, unwrap_or};
ghost use Rattle.std.specs.Option.{option_copied};
ghost use Rattle.cg_desc.specs.FaultText.{fault_line, line_head, phrase_of, phrases};

use crate::{At, Fault};
use cg_base::{Memory, Text};
use std::alloc::{AllocError, Global};

// The rules and their phrases.
const PHRASES: [(u8, &str); 40] = [
    (10, "file absent"),
    (11, "too large"),
    (12, "not UTF-8"),
    (15, "not a document"),
    (16, "too deep"),
    (20, "duplicate key"),
    (21, "missing key"),
    (22, "wrong kind"),
    (24, "not a number"),
    (25, "bad name"),
    (26, "outside the profile"),
    (27, "not built yet"),
    (30, "bad bits"),
    (31, "fields overlap"),
    (32, "reset value too wide"),
    (33, "no fields or items"),
    (34, "name twice"),
    (35, "unknown regwen"),
    (36, "bad regwen"),
    (37, "bad count"),
    (38, "too many"),
    (39, "skip back"),
    (40, "bad window"),
    (41, "past the end"),
    (42, "too many interrupt bits"),
    (50, "node twice"),
    (51, "unknown node"),
    (52, "host without device"),
    (53, "device without host"),
    (54, "bad range"),
    (55, "ranges overlap"),
    (56, "crossbars in a circle"),
    (57, "bad space"),
    (60, "name twice"),
    (62, "base missing"),
    (63, "bad clock"),
    (64, "bad reset"),
    (65, "bad pin"),
    (66, "too many sources"),
    (70, "generated names clash"),
];

fn all_phrases() -> &'static [(u8, &'static str)]
    ensures { map (λ row. (row.0, row.1.now)) result.now ≡ phrases }
{
    &PHRASES
}

fn row_of<'a>(rows: &'a [(u8, &'static str)], rule: u8) -> Option<&'a (u8, &'static str)>
    ensures { option_copied result ≡ find (λ row. row.0 == rule) rows.now }
{
    rows.iter().find(|row| row.0 == rule)
}

pub(crate) fn phrase(rule: u8) -> &'static str
    ensures { result.now ≡ unwrap_or (phrase_of rule) [] }
{
    match row_of(all_phrases(), rule) {
        Some(row) => row.1,
        None => "",
    }
}

fn head(alloc: Global, file: &str, at: At, rule: u8, phrase: &str) -> Result<String, AllocError>
    ensures { IfOk result (λ text. string_bytes text ≡ line_head file.now at rule phrase.now) }
{
    let line = at.line;
    let column = at.column;
    format!(in alloc; "{file}:{line}:{column}: fault {rule}: {phrase}")
}

/// The line of a fault without its line feed: `<file>:<line>:<column>: fault <rule>: <phrase>`, and
/// then `: <name>` where the name is not empty. `file` is the name of the fault's file. The phrase of a
/// number that is no rule's is empty.
pub fn fault_text(alloc: Global, fault: &Fault, file: &str) -> Result<Text, Memory>
    ensures { IfOk result (λ text. text ≡ fault_line file.now fault.now) }
{
    let head = head(alloc, file, fault.at, fault.rule, phrase(fault.rule))?;
    let mut text = Text::from_string(head);
    if fault.name.is_empty() {
        return Ok(text);
    }
    text.add(": ")?;
    text.add(fault.name.as_str())?;
    Ok(text)
}
