//! Which texts are literals, and which values they are.

ghost use Rattle.std.specs.Prelude.{◌≡◌, IsTrue, string_bytes};
ghost use Rattle.cg_docspec.specs.Characters.{is_digit};
ghost use Rattle.cg_docspec.specs.Literal.{is_e, is_sign};
ghost use Rattle.cg_docspec.specs.Machine.Numeral.{integer_value, is_decimals, is_exponent, is_fraction, is_literal, is_number, is_unsigned, number_kind, plain_kind, plain_tree, signed_digits, skip_digits, some_digits};
ghost use Rattle.cg_hjson.specs.Integers.{in_range};
ghost use Rattle.cg_hjson.specs.Views.{kind_of, place_of, tree_of};

use crate::tree::{Kind, Tree};
use cg_base::Text;
use cg_desc::At;

fn is_digit(c: u8) -> bool
    ensures { result ≡ is_digit c }
{
    c >= b'0' && c <= b'9'
}

fn is_e(c: u8) -> bool
    ensures { result ≡ is_e c }
{
    c == b'e' || c == b'E'
}

fn is_sign(c: u8) -> bool
    ensures { result ≡ is_sign c }
{
    c == b'+' || c == b'-'
}

/// What is left behind the digits.
#[tactic(auto, unfolding(cg_docspec::specs::Machine::Numeral::skip_digits))]
fn skip_digits(text: &[u8]) -> &[u8]
    ensures { result.now ≡ skip_digits text.now }
{
    let mut rest = text;
    while let [c, more @ ..] = rest {
        if !is_digit(*c) {
            return rest;
        }
        rest = more;
    }
    rest
}

/// At least one digit, and nothing else.
fn some_digits(text: &[u8]) -> bool
    ensures { result ≡ some_digits text.now }
{
    match text {
        [c, rest @ ..] => is_digit(*c) && skip_digits(rest).is_empty(),
        [] => false,
    }
}

/// A sign or none, and digits.
fn signed_digits(text: &[u8]) -> bool
    ensures { result ≡ signed_digits text.now }
{
    match text {
        [c, rest @ ..] => {
            if is_sign(*c) {
                some_digits(rest)
            } else {
                some_digits(text)
            }
        }
        [] => false,
    }
}

/// Nothing, or an exponent.
fn is_exponent(text: &[u8]) -> bool
    ensures { result ≡ is_exponent text.now }
{
    match text {
        [c, rest @ ..] => is_e(*c) && signed_digits(rest),
        [] => true,
    }
}

/// At least one digit, and nothing or an exponent.
fn is_decimals(text: &[u8]) -> bool
    ensures { result ≡ is_decimals text.now }
{
    match text {
        [c, rest @ ..] => is_digit(*c) && is_exponent(skip_digits(rest)),
        [] => false,
    }
}

/// Nothing, or a fraction, an exponent, or both.
fn is_fraction(text: &[u8]) -> bool
    ensures { result ≡ is_fraction text.now }
{
    match text {
        [c, rest @ ..] => {
            if *c == b'.' {
                is_decimals(rest)
            } else {
                is_exponent(text)
            }
        }
        [] => true,
    }
}

/// A number without a sign.
fn is_unsigned(text: &[u8]) -> bool
    ensures { result ≡ is_unsigned text.now }
{
    match text {
        [c, rest @ ..] => {
            if *c == b'0' {
                is_fraction(rest)
            } else {
                is_digit(*c) && is_fraction(skip_digits(rest))
            }
        }
        [] => false,
    }
}

/// A number.
fn is_number(text: &[u8]) -> bool
    ensures { result ≡ is_number text.now }
{
    match text {
        [c, rest @ ..] => {
            if *c == b'-' {
                is_unsigned(rest)
            } else {
                is_unsigned(text)
            }
        }
        [] => false,
    }
}

/// Whether a text is a literal.
#[tactic(auto, unfolding(cg_docspec::specs::Machine::Numeral::is_literal))]
pub fn is_literal(text: &str) -> bool
    ensures { result ≡ is_literal text.now }
{
    text == "true" || text == "false" || text == "null" || is_number(text.as_bytes())
}

/// The integer, if it is from -2^63 to 2^64 - 1.
fn in_range(value: i128) -> Option<i128>
    ensures { result ≡ in_range value }
{
    if value < -0x8000_0000_0000_0000 || value > 0xffff_ffff_ffff_ffff {
        None
    } else {
        Some(value)
    }
}

/// The integer that a number's spelling is, if it is one in that range.
fn integer_value(number: &str) -> Option<i128>
    requires { IsTrue (is_number number.now) }
    ensures { result ≡ integer_value number.now }
{
    match number.parse::<i128>() {
        Ok(value) => in_range(value),
        Err(_) => None,
    }
}

/// What a number is: an integer, or the string of its spelling.
#[tactic(auto, using(crate::proofs::Views::views))]
fn number_kind(number: String) -> Kind
    requires { IsTrue (is_number (string_bytes number)) }
    ensures { kind_of result ≡ number_kind (integer_value (string_bytes number)) (string_bytes number) }
{
    match integer_value(number.as_str()) {
        Some(n) => Kind::Int(n),
        None => Kind::Str(Text::from_string(number)),
    }
}

/// What a value without quotes is: a literal, or a string.
#[tactic(auto, using(crate::proofs::Views::views), unfolding(cg_docspec::specs::Machine::Numeral::plain_kind))]
fn plain_kind(text: String) -> Kind
    ensures { kind_of result ≡ plain_kind (string_bytes text) }
{
    let spelled = text.as_str();
    if spelled == "true" {
        Kind::Bool(true)
    } else if spelled == "false" {
        Kind::Bool(false)
    } else if spelled == "null" {
        Kind::Null
    } else if is_number(spelled.as_bytes()) {
        number_kind(text)
    } else {
        Kind::Str(Text::from_string(text))
    }
}

/// A value without quotes, which stands there.
#[tactic(auto, using(crate::proofs::Views::views))]
pub fn plain_tree(text: String, at: At) -> Tree
    ensures { tree_of result ≡ plain_tree (string_bytes text) (place_of at) }
{
    Tree {
        kind: plain_kind(text),
        at,
    }
}
