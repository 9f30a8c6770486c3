//! What a line of a header gives.

ghost use Rattle.std.specs.Prelude.{◌≡◌};
ghost use Rattle.cg_hdrspec.specs.Reading.{cut, valued, defined, said, is_guard, is_end, nothing_if, given};
ghost use Rattle.cg_blkhdr.specs.Contents.{gives};

use crate::numeral::{is_word, number_of};
use crate::pieces::{behind, cut};

/// What a line gives in its place.
#[derive(Clone, Copy)]
pub enum Content<'a> {
    /// The line has no form there.
    Formless,
    /// The line has a form, and gives no constant.
    Nothing,
    /// The line gives a constant.
    Named { name: &'a str, value: u64 },
}

fn valued<'a>(name: &'a str, value: Option<u64>) -> Content<'a>
    ensures { gives result ≡ valued name.now value }
{
    match value {
        Some(value) => Content::Named { name, value },
        None => Content::Formless,
    }
}

/// A definition, behind `#define `.
fn defined(text: &str) -> Content<'_>
    ensures { gives result ≡ defined text.now (cut 32 text.now) }
{
    match cut(' ', text) {
        Some((name, value)) => {
            if !is_word(name) {
                return Content::Formless;
            }
            valued(name, number_of(value))
        }
        None => nothing_if(is_word(text)),
    }
}

/// A line that is neither the guard's nor the last.
#[tactic(auto, unfolding(cg_hdrspec::specs::Reading::said))]
fn said(line: &str) -> Content<'_>
    ensures { gives result ≡ said line.now }
{
    if line.is_empty() || behind("//", line).is_some() {
        return Content::Nothing;
    }
    match behind("#define ", line) {
        Some(text) => defined(text),
        None => Content::Formless,
    }
}

#[tactic(auto, unfolding(cg_hdrspec::specs::Reading::is_guard))]
fn is_guard(line: &str) -> bool
    ensures { result ≡ is_guard line.now }
{
    match behind("#ifndef ", line) {
        Some(name) => is_word(name),
        None => false,
    }
}

#[tactic(auto, unfolding(cg_hdrspec::specs::Reading::is_end))]
fn is_end(line: &str) -> bool
    ensures { result ≡ is_end line.now }
{
    line == "#endif"
}

fn nothing_if<'a>(has_form: bool) -> Content<'a>
    ensures { gives result ≡ nothing_if has_form }
{
    if has_form {
        Content::Nothing
    } else {
        Content::Formless
    }
}

/// What a line gives as line 2 or not, and as the last line or not.
pub fn given(is_second: bool, is_last: bool, line: &str) -> Content<'_>
    ensures { gives result ≡ given is_second is_last line.now }
{
    match (is_second, is_last) {
        (true, true) => Content::Formless,
        (true, false) => nothing_if(is_guard(line)),
        (false, true) => nothing_if(is_end(line)),
        (false, false) => said(line),
    }
}
