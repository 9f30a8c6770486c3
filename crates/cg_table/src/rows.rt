//! Tables of rows: what is given, and what is wanted of it.
//!
//! A file has rows of one line, `given ⇒ wanted`, and rows of several lines:
//!
//! ```text
//! === name
//! what is given
//! ---
//! what is wanted
//! ===
//! ```
//!
//! A text that ends in a line feed ends in an empty line there. Between rows, every other line says nothing. In what is given and
//! what is wanted a picture of a control character, as `␍`, stands for that character, `␠` for a space, `⟪0xFEFF⟫` for the
//! character with that number, and `⟪text×3⟫` for three texts, each with its number, from 0, in place of each `№`.

use cg_base::{Memory, parse_int};
use std::alloc::Global;

/// One row of a table.
#[derive(Drop)]
pub struct Row {
    pub name: String,
    pub given: String,
    pub wanted: String,
}

/// The part of a row of several lines in which a line stands.
#[derive(Clone, Copy, PartialEq, Eq)]
enum Part {
    Between,
    Given,
    Wanted,
}

/// The rows of a text so far, and the row that is begun.
#[derive(Drop)]
struct Reader {
    rows: Vec<Row>,
    part: Part,
    row: Row,
}

fn empty_row(alloc: Global) -> Row {
    Row {
        name: String::new(alloc),
        given: String::new(alloc),
        wanted: String::new(alloc),
    }
}

impl Reader {
    fn end_row(&mut self, alloc: Global) -> Result<(), Memory> {
        let row = std::mem::replace(&mut self.row, empty_row(alloc));
        self.rows.push(row)?;
        self.part = Part::Between;
        Ok(())
    }

    fn line_between(&mut self, alloc: Global, line: &str) -> Result<(), Memory> {
        if let Some(name) = line.strip_prefix("=== ") {
            self.row.name.push_str(name)?;
            self.part = Part::Given;
        } else if let Some((given, wanted)) = line.split_once(" ⇒ ") {
            self.row.name.push_str(given)?;
            self.row.given.push_str(given)?;
            self.row.wanted.push_str(wanted)?;
            self.end_row(alloc)?;
        }
        Ok(())
    }

    fn line(&mut self, alloc: Global, line: &str) -> Result<(), Memory> {
        match self.part {
            Part::Between => self.line_between(alloc, line)?,
            Part::Given if line == "---" => {
                self.row.given.pop();
                self.part = Part::Wanted;
            }
            Part::Given => add_line(&mut self.row.given, line)?,
            Part::Wanted if line == "===" => {
                self.row.wanted.pop();
                self.end_row(alloc)?;
            }
            Part::Wanted => add_line(&mut self.row.wanted, line)?,
        }
        Ok(())
    }
}

// The line feed behind the last line is taken away again.
fn add_line(text: &mut String, line: &str) -> Result<(), Memory> {
    text.push_str(line)?;
    text.push('\n')?;
    Ok(())
}

/// The rows of a table, in order.
pub fn rows(alloc: Global, table: &str) -> Result<Vec<Row>, Memory> {
    let mut reader = Reader {
        rows: Vec::new(alloc),
        part: Part::Between,
        row: empty_row(alloc),
    };
    for line in table.lines() {
        reader.line(alloc, line)?;
    }
    Ok(reader.rows)
}

/// The control character or space that a picture shows (Unicode, block 2400), or the character itself.
fn shown(picture: char) -> char {
    match picture {
        '␀' => '\0',
        '␁' => '\u{1}',
        '␈' => '\u{8}',
        '␉' => '\t',
        '␊' => '\n',
        '␋' => '\u{b}',
        '␌' => '\u{c}',
        '␍' => '\r',
        '␛' => '\u{1b}',
        '␟' => '\u{1f}',
        '␠' => ' ',
        '␡' => '\u{7f}',
        other => other,
    }
}

fn add_shown(out: &mut String, text: &str) -> Result<(), Memory> {
    for c in text.chars() {
        out.push(shown(c))?;
    }
    Ok(())
}

/// Adds the text so many times, each with its number in place of `№`.
fn add_times(out: &mut String, text: &str, count: u32) -> Result<(), Memory> {
    for number in 0..count {
        for c in text.chars() {
            if c == '№' {
                write!(out, "{number}")?;
            } else {
                out.push(shown(c))?;
            }
        }
    }
    Ok(())
}

/// Adds the character with that number.
fn add_numbered(out: &mut String, number: &str) -> Result<(), Memory> {
    let number = parse_int(number).ok().and_then(|n| u32::try_from(n).ok());
    if let Some(c) = number.and_then(|n| char::from_u32(n)) {
        out.push(c)?;
    }
    Ok(())
}

/// A text as it stands in a row, with its pictures, numbers and repeats written out.
pub fn written_out(alloc: Global, text: &str) -> Result<String, Memory> {
    let mut out = String::new(alloc);
    for piece in text.split('⟪') {
        let Some((repeat, rest)) = piece.split_once('⟫') else {
            add_shown(&mut out, piece)?;
            continue;
        };
        if let Some((what, count)) = repeat.split_once('×') {
            add_times(&mut out, what, count.parse().unwrap_or(0))?;
        } else {
            add_numbered(&mut out, repeat)?;
        }
        add_shown(&mut out, rest)?;
    }
    Ok(out)
}
