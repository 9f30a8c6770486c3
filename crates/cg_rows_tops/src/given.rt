//! What is given of a row: what is asked, and a top with its files.
//!
//! ```text
//! find main/cpu 0x1000
//! @ t.hjson
//! {name: "t", ..}
//! @ xbar_main.hjson
//! {name: "main", ..}
//! ```
//!
//! In front of the first file each line asks for something. A file begins behind its line `@ name` and ends before the line feed that is
//! in front of the next such line, or at the end. The first file is the top's; of several with one name the first counts.

use cg_base::Memory;
use std::alloc::Global;

/// A file by its name.
#[derive(Clone, Copy)]
pub struct Named<'a> {
    pub name: &'a str,
    pub text: &'a str,
}

/// What is asked, and the files.
#[derive(Drop)]
pub struct Given<'a> {
    pub asked: &'a str,
    pub files: Vec<Named<'a>>,
}

/// A file with its name in its first line.
fn file_of<'a>(piece: &'a str) -> Named<'a> {
    match piece.split_once('\n') {
        Some((name, text)) => Named { name, text },
        None => Named {
            name: piece,
            text: "",
        },
    }
}

/// What stands in front of the first file, and what stands from its name on.
fn in_front<'a>(text: &'a str) -> (&'a str, &'a str) {
    if let Some(files) = text.strip_prefix("@ ") {
        return ("", files);
    }
    match text.split_once("\n@ ") {
        Some((asked, files)) => (asked, files),
        None => (text, ""),
    }
}

impl<'a> Given<'a> {
    /// What a row's text gives.
    pub fn of(alloc: Global, text: &'a str) -> Result<Given<'a>, Memory> {
        let (asked, rest) = in_front(text);
        let mut files = Vec::new(alloc);
        for piece in rest.split("\n@ ") {
            files.push(file_of(piece))?;
        }
        Ok(Given { asked, files })
    }

    /// The name of the top's file.
    pub fn top(&self) -> &'a str {
        match self.files.first() {
            Some(file) => file.name,
            None => "",
        }
    }

    /// The text of the file of this name, where there is one.
    pub fn text_of(&self, name: &str) -> Option<&'a str> {
        for file in &self.files {
            if file.name == name {
                return Some(file.text);
            }
        }
        None
    }
}
