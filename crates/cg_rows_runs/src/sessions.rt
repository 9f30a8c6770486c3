//! Whole sessions.

use crate::noted::NotedStore;
use crate::pieces::PiecedSource;
use crate::running::{ran_with, spelled};
use crate::runs::bad_calls;
use cg_base::{List, Memory};
use std::alloc::Global;
use std::thread::Threads;

/// Adds the put of a file.
fn add_put(alloc: Global, input: &mut Vec<u8>, name: &str, bytes: &[u8]) -> Result<(), Memory> {
    let count = bytes.len();
    let line = format!(in alloc; "put {name} {count}\n")?;
    input.extend_from_slice(line.as_bytes())?;
    input.extend_from_slice(bytes)?;
    Ok(())
}

/// The input of a row: its lines, each with a line feed behind it. Those behind `file NAME`, up to a line `.`, are put under that name.
fn input_of(alloc: Global, lines: &str) -> Result<Vec<u8>, Memory> {
    let mut input = Vec::new(alloc);
    let mut name = None;
    let mut bytes = Vec::new(alloc);
    for line in lines.lines() {
        match name {
            Some(file) => {
                if line == "." {
                    add_put(alloc, &mut input, file, &bytes)?;
                    bytes.clear();
                    name = None;
                } else {
                    bytes.extend_from_slice(line.as_bytes())?;
                    bytes.push(b'\n')?;
                }
            }
            None => match line.strip_prefix("file ") {
                Some(next) => name = Some(next),
                None => {
                    input.extend_from_slice(line.as_bytes())?;
                    input.push(b'\n')?;
                }
            },
        }
    }
    Ok(input)
}

/// The number behind this mark; `absent` where the mark is not there.
fn marked(marks: &str, mark: &str, absent: usize) -> usize {
    for word in marks.split(' ') {
        if let Some(number) = word.strip_prefix(mark) {
            return number.parse().unwrap_or(absent);
        }
    }
    absent
}

/// Whether a line has marks, and is none of the input.
fn has_marks(line: &str) -> bool {
    line.starts_with("bad_") || line.starts_with("cut=") || line.starts_with("piece=")
}

/// A row gives the words in its first line; behind it, where something is special, a line of marks; and then the input.
pub fn answer<R: Threads + Sync>(rt: &R, alloc: Global, given: &str) -> Result<String, Memory> {
    let (words, rest) = given.split_once('\n').unwrap_or((given, ""));
    let (first, behind) = rest.split_once('\n').unwrap_or((rest, ""));
    let (marks, lines) = if has_marks(first) {
        (first, behind)
    } else {
        ("", rest)
    };
    let mut bytes = input_of(alloc, lines)?;
    bytes.truncate(marked(marks, "cut=", usize::MAX));
    let most = marked(marks, "piece=", usize::MAX);
    let bad_inputs = bad_calls(alloc, marks, "bad_input=")?;
    let mut input = PiecedSource::new(List::from_vec(bytes), bad_inputs, most);
    let bad_changes = bad_calls(alloc, marks, "bad_change=")?;
    let store = NotedStore::new(alloc, List::new(alloc), bad_changes);
    let bad_outputs = bad_calls(alloc, marks, "bad_output=")?;
    let bad_errors = bad_calls(alloc, marks, "bad_error=")?;
    let ran = ran_with(rt, alloc, words, store, &mut input, bad_outputs, bad_errors)?;
    spelled(alloc, &ran)
}
