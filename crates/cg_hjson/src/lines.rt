//! Multi-line strings.

ghost use Rattle.std.specs.Prelude.{◌≡◌, ◌++◌, OnOk, Some, encode_utf8, false, string_bytes};
ghost use Rattle.cg_docspec.specs.Tree.{string_of};
ghost use Rattle.cg_docspec.specs.Machine.Spot as spot;
ghost use Rattle.cg_docspec.specs.Machine.Closing.{delivered};
ghost use Rattle.cg_docspec.specs.Machine.MultiLine.{flushed, in_lines, in_two_quotes, inside_line, line_ends, lines_on, quotes};
ghost use Rattle.cg_hjson.specs.Views.{place_of};
ghost use Rattle.cg_hjson.specs.Reading.{Gives, frames_of, spot_of, state_of};

use crate::characters::{is_control, is_space};
use crate::closing::{delivered, string_of};
use crate::stack::Stack;
use crate::state::{Frame, Lines, Now, Spot, State, Stop, gap_state, reading};
use crate::token::in_gap;
use cg_desc::At;
use std::alloc::{AllocError, Global};

/// Behind two single quotes, where a value stands.
#[tactic(auto, unfolding(cg_docspec::specs::Machine::MultiLine::in_two_quotes))]
pub fn in_two_quotes(
    alloc: Global,
    here: At,
    stack: Stack<Frame>,
    at: At,
    c: char,
) -> Result<State, Stop>
    ensures { Gives result (in_two_quotes (place_of here) (frames_of stack) (place_of at) c) }
{
    let text = String::new(alloc);
    if c == '\'' {
        let lines = Lines {
            text,
            ended: false,
            before: at.column.saturating_sub(1),
            at,
        };
        return Ok(reading(stack, Now::Lines(lines, Spot::Opening)));
    }
    let gap = delivered(stack, string_of(text, at))?;
    in_gap(alloc, here, gap, c)
}

/// The string goes on at this spot.
fn lines_on(stack: Stack<Frame>, lines: Lines, spot: Spot) -> State
    ensures { lines_on (frames_of stack) (string_bytes lines.text) lines.ended lines.before (spot_of spot) (place_of lines.at) ≡ Some (state_of result) }
{
    reading(stack, Now::Lines(lines, spot))
}

/// Appends quotes that were held back.
fn push_quotes(text: &mut String, held: u8) -> Result<(), AllocError>
    ensures { OnOk result (string_bytes text.new ≡ string_bytes text.old ++ quotes held) }
{
    if held == 0 {
        return Ok(());
    }
    if held != 1 {
        text.push('\'')?;
    }
    text.push('\'')?;
    Ok(())
}

/// Appends the line end and the quotes that were held back.
fn flush(text: &mut String, ended: bool, held: u8) -> Result<(), AllocError>
    ensures { OnOk result (string_bytes text.new ≡ flushed (string_bytes text.old) ended ++ quotes held) }
{
    if ended {
        text.push('\n')?;
    }
    push_quotes(text, held)?;
    Ok(())
}

/// A line ends behind so many quotes.
fn line_ends(stack: Stack<Frame>, mut lines: Lines, held: u8) -> Result<State, Stop>
    ensures { Gives result (line_ends (frames_of stack) (string_bytes lines.text) lines.ended lines.before held (place_of lines.at)) }
{
    flush(&mut lines.text, lines.ended, held)?;
    lines.ended = true;
    let before = lines.before;
    Ok(lines_on(stack, lines, Spot::Indent(before)))
}

/// One character more, behind so many quotes.
fn inside_more(stack: Stack<Frame>, mut lines: Lines, held: u8, c: char) -> Result<State, Stop>
    ensures { Gives result (lines_on (frames_of stack) (flushed (string_bytes lines.text) lines.ended ++ quotes held ++ encode_utf8 c) false lines.before spot.inside (place_of lines.at)) }
{
    flush(&mut lines.text, lines.ended, held)?;
    lines.text.push(c)?;
    lines.ended = false;
    Ok(lines_on(stack, lines, Spot::Inside))
}

/// Three quotes end the string.
fn closed(stack: Stack<Frame>, lines: Lines) -> Result<State, Stop>
    ensures { Gives result (delivered (frames_of stack) (string_of (string_bytes lines.text) (place_of lines.at))) }
{
    let gap = delivered(stack, string_of(lines.text, lines.at))?;
    Ok(gap_state(gap))
}

/// A character inside a line, behind so many quotes.
#[tactic(auto, unfolding(cg_docspec::specs::Machine::MultiLine::inside_line))]
fn inside_line(stack: Stack<Frame>, lines: Lines, quotes: u8, c: char) -> Result<State, Stop>
    ensures { Gives result (inside_line (frames_of stack) (string_bytes lines.text) lines.ended lines.before quotes (place_of lines.at) c) }
{
    if c == '\'' {
        if quotes < 2 {
            Ok(lines_on(stack, lines, Spot::Quotes(quotes + 1)))
        } else {
            closed(stack, lines)
        }
    } else if c == '\n' {
        line_ends(stack, lines, quotes)
    } else if c == '\r' {
        Ok(lines_on(stack, lines, Spot::LineReturn(quotes)))
    } else if is_control(c) {
        Err(Stop::NoDocument)
    } else {
        inside_more(stack, lines, quotes, c)
    }
}

/// On the opening's line, before any text.
#[tactic(auto, unfolding(cg_docspec::specs::Machine::MultiLine::in_lines))]
fn behind_opening(stack: Stack<Frame>, lines: Lines, c: char) -> Result<State, Stop>
    ensures { Gives result (in_lines (frames_of stack) (string_bytes lines.text) lines.ended lines.before (place_of lines.at) spot.opening c) }
{
    if is_space(c) {
        Ok(lines_on(stack, lines, Spot::Opening))
    } else if c == '\n' {
        let before = lines.before;
        Ok(lines_on(stack, lines, Spot::Indent(before)))
    } else if c == '\r' {
        Ok(lines_on(stack, lines, Spot::OpeningReturn))
    } else {
        inside_line(stack, lines, 0, c)
    }
}

/// In a multi-line string.
#[tactic(auto, unfolding(cg_docspec::specs::Machine::MultiLine::in_lines))]
pub fn in_lines(stack: Stack<Frame>, lines: Lines, spot: Spot, c: char) -> Result<State, Stop>
    ensures { Gives result (in_lines (frames_of stack) (string_bytes lines.text) lines.ended lines.before (place_of lines.at) (spot_of spot) c) }
{
    match spot {
        Spot::Opening => behind_opening(stack, lines, c),
        Spot::OpeningReturn => {
            if c == '\n' {
                let before = lines.before;
                Ok(lines_on(stack, lines, Spot::Indent(before)))
            } else {
                Err(Stop::NoDocument)
            }
        }
        Spot::Indent(left) => {
            if is_space(c) && left > 0 {
                Ok(lines_on(stack, lines, Spot::Indent(left - 1)))
            } else {
                inside_line(stack, lines, 0, c)
            }
        }
        Spot::Inside => inside_line(stack, lines, 0, c),
        Spot::Quotes(quotes) => inside_line(stack, lines, quotes, c),
        Spot::LineReturn(quotes) => {
            if c == '\n' {
                line_ends(stack, lines, quotes)
            } else {
                Err(Stop::NoDocument)
            }
        }
    }
}
