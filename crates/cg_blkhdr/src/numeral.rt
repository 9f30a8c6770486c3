//! Names and numbers of a header.

ghost use Rattle.std.specs.Prelude.{◌≡◌, ◌≤◌};
ghost use Rattle.std.specs.List.{list_all};
ghost use Rattle.cg_svspec.specs.Characters.{is_first, is_name_character};
ghost use Rattle.cg_hdrspec.specs.Reading.{is_word, is_digit_in, are_digits, number_in, number_of};

use crate::pieces::behind;

/// A letter or an underscore.
fn is_first(c: u8) -> bool
    ensures { result ≡ is_first c }
{
    c >= b'a' && c <= b'z' || c >= b'A' && c <= b'Z' || c == b'_'
}

/// A letter, an underscore or a digit.
fn is_name_character(c: u8) -> bool
    ensures { result ≡ is_name_character c }
{
    is_first(c) || c >= b'0' && c <= b'9'
}

fn are_name_characters(text: &[u8]) -> bool
    ensures { result ≡ list_all is_name_character text.now }
{
    text.iter().all(|c| is_name_character(*c))
}

/// A letter or an underscore, then letters, digits and underscores.
pub fn is_word(text: &str) -> bool
    ensures { result ≡ is_word text.now }
{
    match text.as_bytes() {
        [c, rest @ ..] => is_first(*c) && are_name_characters(rest),
        [] => false,
    }
}

/// A decimal digit, or in base 16 a hexadecimal one in lower case.
fn is_digit_in(base: u32, c: u8) -> bool
    ensures { result ≡ is_digit_in base c }
{
    c >= b'0' && c <= b'9' || base == 16 && c >= b'a' && c <= b'f'
}

fn are_all_digits(base: u32, text: &[u8]) -> bool
    ensures { result ≡ list_all (is_digit_in base) text.now }
{
    text.iter().all(|c| is_digit_in(base, *c))
}

/// Digits of the base, without leading zeros.
fn are_digits(base: u32, text: &[u8]) -> bool
    ensures { result ≡ are_digits base text.now }
{
    match text {
        [] => false,
        [c] => is_digit_in(base, *c),
        [c, ..] => *c != b'0' && are_all_digits(base, text),
    }
}

/// The value of such digits, where it is below 2^64.
#[tactic(auto, unfolding(cg_hdrspec::specs::Reading::number_in))]
fn number_in(base: u32, digits: &str) -> Option<u64>
    requires low { 10 ≤ base }
    requires high { base ≤ 36 }
    ensures { result ≡ number_in base digits.now }
{
    if !are_digits(base, digits.as_bytes()) {
        return None;
    }
    match u64::from_str_radix(digits, base) {
        Ok(value) => Some(value),
        Err(_) => None,
    }
}

/// The number that a text spells: in hexadecimal behind `0x`, else in decimal.
#[tactic(auto, unfolding(cg_hdrspec::specs::Reading::number_of))]
pub fn number_of(text: &str) -> Option<u64>
    ensures { result ≡ number_of text.now }
{
    match behind("0x", text) {
        Some(digits) => number_in(16, digits),
        None => number_in(10, text),
    }
}
