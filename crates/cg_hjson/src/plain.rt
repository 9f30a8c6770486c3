//! Literals and unquoted strings.

ghost use Rattle.std.specs.Prelude.{◌≡◌, Some, string_bytes};
ghost use Rattle.cg_docspec.specs.Machine.Plain.{begun_comment, in_plain, in_plain_return, in_plain_slash, then_comment};
ghost use Rattle.cg_hjson.specs.Views.{place_of};
ghost use Rattle.cg_hjson.specs.Reading.{Gives, awaited_of, frames_of, gap_of, now_of, state_of};

use crate::closing::delivered;
use crate::numeral::plain_tree;
use crate::stack::Stack;
use crate::state::{Awaited, Frame, Gap, Now, Plain, State, Stop, gap_state, reading};
use crate::turning;
use cg_desc::At;
use std::alloc::Global;

/// In a value without quotes.
pub fn in_plain(
    alloc: Global,
    here: At,
    stack: Stack<Frame>,
    plain: Plain,
    c: char,
) -> Result<State, Stop>
    ensures { Gives result (in_plain (place_of here) (frames_of stack) (string_bytes plain.text) (string_bytes plain.blanks) plain.hope (place_of plain.at) c) }
{
    let mut state = reading(stack, Now::Gap(Awaited::Value));
    turning::in_plain(alloc, here, &mut state, plain, c)?;
    Ok(state)
}

/// Behind a carriage return.
#[tactic(auto, unfolding(cg_docspec::specs::Machine::Plain::in_plain_return))]
pub fn in_plain_return(stack: Stack<Frame>, text: String, at: At, c: char) -> Result<State, Stop>
    ensures { Gives result (in_plain_return (frames_of stack) (string_bytes text) (place_of at) c) }
{
    if c == '\n' {
        let gap = delivered(stack, plain_tree(text, at))?;
        Ok(gap_state(gap))
    } else {
        Err(Stop::NoDocument)
    }
}

/// The comment that a second slash or a star begins.
pub fn begun_comment(c: char, next: Awaited) -> Now
    ensures { now_of result ≡ begun_comment c (awaited_of next) }
{
    if c == '/' {
        Now::Comment(next)
    } else {
        Now::Block(next, false)
    }
}

/// Behind a value a comment begins.
pub fn commented(c: char, gap: Gap) -> State
    ensures { Some (state_of result) ≡ then_comment c (Some (gap_of gap)) }
{
    let Gap { stack, next, found } = gap;
    State {
        stack,
        now: begun_comment(c, next),
        found,
    }
}

/// Behind a literal, the blanks behind it and a slash.
#[tactic(auto, unfolding(cg_docspec::specs::Machine::Plain::in_plain_slash))]
pub fn in_plain_slash(
    alloc: Global,
    here: At,
    stack: Stack<Frame>,
    mut text: String,
    blanks: String,
    at: At,
    c: char,
) -> Result<State, Stop>
    ensures { Gives result (in_plain_slash (place_of here) (frames_of stack) (string_bytes text) (string_bytes blanks) (place_of at) c) }
{
    if c == '/' || c == '*' {
        let gap = delivered(stack, plain_tree(text, at))?;
        return Ok(commented(c, gap));
    }
    text.push_str(blanks.as_str())?;
    text.push('/')?;
    let plain = Plain {
        text,
        blanks: String::new(alloc),
        hope: false,
        at,
    };
    in_plain(alloc, here, stack, plain, c)
}
