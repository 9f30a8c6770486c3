//! Quoted strings.

ghost use Rattle.std.specs.Prelude.{◌≡◌, string_bytes};
ghost use Rattle.cg_docspec.specs.Quoted.{escaped, hex, is_high, paired};
ghost use Rattle.cg_docspec.specs.Machine.Now as now;
ghost use Rattle.cg_docspec.specs.Machine.State.{reading};
ghost use Rattle.cg_docspec.specs.Machine.Quote.{behind_backslash, escape_more, in_quoted, in_unit, may_stand, outside_escape, quoted_more, scalar_or_none, unit_digit, unit_end};
ghost use Rattle.cg_hjson.specs.Views.{place_of};
ghost use Rattle.cg_hjson.specs.Reading.{Gives, escape_of, frames_of, state_of};

use crate::stack::Stack;
use crate::state::{Awaited, Escape, Frame, Now, Quoted, State, Stop, reading};
use crate::turning;

/// The character that a backslash and this one stand for.
fn escaped(c: char) -> Option<char>
    ensures { result ≡ escaped c }
{
    match c {
        '"' | '\'' | '\\' | '/' => Some(c),
        'b' => Some('\u{8}'),
        'f' => Some('\u{c}'),
        'n' => Some('\n'),
        'r' => Some('\r'),
        't' => Some('\t'),
        _ => None,
    }
}

/// A hexadecimal digit's value, in both cases.
fn hex(c: char) -> Option<u32>
    ensures { result ≡ hex c }
{
    match c {
        '0'..='9' => Some(c as u32 - 48),
        'a'..='f' => Some(c as u32 - 87),
        'A'..='F' => Some(c as u32 - 55),
        _ => None,
    }
}

/// The string goes on there.
fn quoted_on(stack: Stack<Frame>, quoted: Quoted, escape: Escape) -> State
    ensures { state_of result ≡ reading (frames_of stack) (now.quoted quoted.key quoted.quote (string_bytes quoted.text) (place_of quoted.at) (escape_of escape)) }
{
    reading(stack, Now::Quoted(quoted, escape))
}

/// One character more.
fn quoted_more(stack: Stack<Frame>, mut quoted: Quoted, c: char) -> Result<State, Stop>
    ensures { Gives result (quoted_more (frames_of stack) quoted.key quoted.quote (string_bytes quoted.text) (place_of quoted.at) c) }
{
    quoted.text.push(c)?;
    Ok(quoted_on(stack, quoted, Escape::Outside))
}

/// The character of an escape, if there is one.
fn escape_more(stack: Stack<Frame>, quoted: Quoted, c: Option<char>) -> Result<State, Stop>
    ensures { Gives result (escape_more (frames_of stack) quoted.key quoted.quote (string_bytes quoted.text) (place_of quoted.at) c) }
{
    match c {
        Some(c) => quoted_more(stack, quoted, c),
        None => Err(Stop::NoDocument),
    }
}

/// In no escape.
fn outside_escape(stack: Stack<Frame>, quoted: Quoted, c: char) -> Result<State, Stop>
    ensures { Gives result (outside_escape (frames_of stack) quoted.key quoted.quote (string_bytes quoted.text) (place_of quoted.at) c) }
{
    let mut state = reading(stack, Now::Gap(Awaited::Value));
    turning::outside_escape(&mut state, quoted, c)?;
    Ok(state)
}

/// Behind a backslash.
#[tactic(auto, unfolding(cg_docspec::specs::Machine::Quote::behind_backslash))]
fn behind_backslash(stack: Stack<Frame>, quoted: Quoted, c: char) -> Result<State, Stop>
    ensures { Gives result (behind_backslash (frames_of stack) quoted.key quoted.quote (string_bytes quoted.text) (place_of quoted.at) c) }
{
    if c == 'u' {
        Ok(quoted_on(stack, quoted, Escape::Unit(None, 0, 0)))
    } else {
        escape_more(stack, quoted, escaped(c))
    }
}

/// Whether the first digits of a unit may stand: a low surrogate stands behind a high one, and
/// nothing else does.
fn may_stand(behind_high: bool, digits: u8, value: u32) -> bool
    ensures { result ≡ may_stand behind_high digits value }
{
    if digits == 1 {
        !behind_high || value == 0xd
    } else if digits == 2 {
        if behind_high {
            value >= 0xdc
        } else {
            value < 0xdc || value > 0xdf
        }
    } else {
        true
    }
}

fn is_high(unit: u32) -> bool
    ensures { result ≡ is_high unit }
{
    unit >= 0xd800 && unit < 0xdc00
}

/// The character of a surrogate pair.
fn paired(high: u32, low: u32) -> u32
    ensures { result ≡ paired high low }
{
    0x1_0000 + high % 0x400 * 0x400 + low % 0x400
}

/// The character of this number, if it is one.
fn scalar_or_none(value: u32) -> Option<char>
    ensures { result ≡ scalar_or_none value }
{
    char::from_u32(value)
}

/// A unit of four digits.
fn unit_end(
    stack: Stack<Frame>,
    quoted: Quoted,
    high: Option<u32>,
    unit: u32,
) -> Result<State, Stop>
    ensures { Gives result (unit_end (frames_of stack) quoted.key quoted.quote (string_bytes quoted.text) (place_of quoted.at) high unit) }
{
    match high {
        None => {
            if is_high(unit) {
                Ok(quoted_on(stack, quoted, Escape::High(unit)))
            } else {
                escape_more(stack, quoted, scalar_or_none(unit))
            }
        }
        Some(high) => escape_more(stack, quoted, scalar_or_none(paired(high, unit))),
    }
}

/// One digit more: so many are read now.
fn unit_digit(
    stack: Stack<Frame>,
    quoted: Quoted,
    high: Option<u32>,
    digits: u8,
    value: u32,
) -> Result<State, Stop>
    ensures { Gives result (unit_digit (frames_of stack) quoted.key quoted.quote (string_bytes quoted.text) (place_of quoted.at) high digits value) }
{
    if !may_stand(high.is_some(), digits, value) {
        Err(Stop::NoDocument)
    } else if digits < 4 {
        Ok(quoted_on(stack, quoted, Escape::Unit(high, digits, value)))
    } else {
        unit_end(stack, quoted, high, value)
    }
}

/// In the digits of a unit.
#[tactic(auto, unfolding(cg_docspec::specs::Machine::Quote::in_unit))]
fn in_unit(
    stack: Stack<Frame>,
    quoted: Quoted,
    high: Option<u32>,
    digits: u8,
    value: u32,
    c: char,
) -> Result<State, Stop>
    ensures { Gives result (in_unit (frames_of stack) quoted.key quoted.quote (string_bytes quoted.text) (place_of quoted.at) high digits value c) }
{
    if digits < 4 && value < 0x1000 {
        match hex(c) {
            Some(digit) => unit_digit(stack, quoted, high, digits + 1, value * 16 + digit),
            None => Err(Stop::NoDocument),
        }
    } else {
        Err(Stop::NoDocument)
    }
}

/// In a quoted string.
#[tactic(auto, unfolding(cg_docspec::specs::Machine::Quote::in_quoted))]
pub fn in_quoted(
    stack: Stack<Frame>,
    quoted: Quoted,
    escape: Escape,
    c: char,
) -> Result<State, Stop>
    ensures { Gives result (in_quoted (frames_of stack) quoted.key quoted.quote (string_bytes quoted.text) (place_of quoted.at) (escape_of escape) c) }
{
    match escape {
        Escape::Outside => outside_escape(stack, quoted, c),
        Escape::Backslash => behind_backslash(stack, quoted, c),
        Escape::Unit(high, digits, value) => in_unit(stack, quoted, high, digits, value, c),
        Escape::High(high) => {
            if c == '\\' {
                Ok(quoted_on(stack, quoted, Escape::HighBackslash(high)))
            } else {
                Err(Stop::NoDocument)
            }
        }
        Escape::HighBackslash(high) => {
            if c == 'u' {
                Ok(quoted_on(stack, quoted, Escape::Unit(Some(high), 0, 0)))
            } else {
                Err(Stop::NoDocument)
            }
        }
    }
}
