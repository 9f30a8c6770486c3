//! What a line of a session says.

ghost use Rattle.std.specs.Prelude.{◌≡◌, option_map, true, codes};
ghost use Rattle.cg_inputs.specs.Reading.{without, cut};
ghost use Rattle.std.specs.List.{list_all};
ghost use Rattle.std.specs.Str.Parse.{digits_value};
ghost use Rattle.cg_svspec.specs.Characters.{is_digit};
ghost use Rattle.cg_inputs.specs.Lines.{is_file_character, is_file_name, is_length};
ghost use Rattle.cg_inputs.specs.Reading.{named, sized, with_put, with_del, line_of};
ghost use Rattle.cg_session.specs.Lines.{seen};

use crate::pieces::{behind, cut};

/// What a line of a session says.
#[derive(Clone, Copy)]
pub enum Line<'a> {
    Put { name: &'a str, count: u32 },
    Del { name: &'a str },
    Build,
    Finish,
}

fn is_file_character(c: u8) -> bool
    ensures { result ≡ is_file_character c }
{
    c >= b'a' && c <= b'z'
        || c >= b'A' && c <= b'Z'
        || c == b'_'
        || c >= b'0' && c <= b'9'
        || c == b'-'
        || c == b'.'
}

fn are_file_characters(text: &[u8]) -> bool
    ensures { result ≡ list_all is_file_character text.now }
{
    text.iter().all(|c| is_file_character(*c))
}

#[tactic(auto, unfolding(cg_inputs::specs::Lines::is_file_name))]
fn is_file_name(name: &str) -> bool
    ensures { result ≡ is_file_name name.now }
{
    are_file_characters(name.as_bytes()) && 1 <= name.len() && name.len() <= 64
}

fn are_digits(text: &[u8]) -> bool
    ensures { result ≡ list_all is_digit text.now }
{
    text.iter().all(|c| *c >= b'0' && *c <= b'9')
}

#[tactic(auto, unfolding(cg_inputs::specs::Lines::is_length))]
fn is_length(digits: &str) -> bool
    ensures { result ≡ is_length digits.now }
{
    are_digits(digits.as_bytes()) && 1 <= digits.len() && digits.len() <= 8
}

/// The value of a length.
fn value(digits: &str) -> u32
    requires { is_length digits.now ≡ true }
    ensures { result ≡ digits_value 10 digits.now }
{
    match digits.parse::<u32>() {
        Ok(number) => number,
        Err(_) => 0,
    }
}

fn named(name: &str) -> Option<Line<'_>>
    ensures { option_map seen result ≡ named name.now }
{
    if is_file_name(name) {
        Some(Line::Del { name })
    } else {
        None
    }
}

fn sized(rest: &str) -> Option<Line<'_>>
    ensures { option_map seen result ≡ sized (cut 32 rest.now) }
{
    match cut(' ', rest) {
        Some((name, digits)) => {
            if !is_file_name(name) || !is_length(digits) {
                return None;
            }
            Some(Line::Put {
                name,
                count: value(digits),
            })
        }
        None => None,
    }
}

fn with_put(text: &str) -> Option<Line<'_>>
    ensures { option_map seen result ≡ with_put (without (codes "put ") text.now) }
{
    match behind("put ", text) {
        Some(rest) => sized(rest),
        None => None,
    }
}

fn with_del(text: &str) -> Option<Line<'_>>
    ensures { option_map seen result ≡ with_del (without (codes "del ") text.now) text.now }
{
    match behind("del ", text) {
        Some(name) => named(name),
        None => with_put(text),
    }
}

/// What a text says, as a line.
#[tactic(auto, unfolding(cg_inputs::specs::Reading::line_of))]
fn said(text: &str) -> Option<Line<'_>>
    ensures { option_map seen result ≡ line_of text.now }
{
    if text == "build" {
        return Some(Line::Build);
    }
    if text == "end" {
        return Some(Line::Finish);
    }
    with_del(text)
}

/// What bytes say, as a line without its line feed.
#[tactic(auto, using(crate::proofs::LineBytes::unread))]
pub fn read_line(text: &[u8]) -> Option<Line<'_>>
    ensures { option_map seen result ≡ line_of text.now }
{
    match str::from_utf8(text) {
        Ok(text) => said(text),
        Err(_) => None,
    }
}
