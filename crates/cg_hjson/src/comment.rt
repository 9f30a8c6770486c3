//! Comments.

ghost use Rattle.cg_docspec.specs.Machine.Comment.{begun_step, in_block, in_block_return, in_comment, in_slash};
ghost use Rattle.cg_hjson.specs.Views.{place_of};
ghost use Rattle.cg_hjson.specs.Reading.{Gives, awaited_of, found_of, frames_of, state_of};

use crate::characters::is_control;
use crate::plain::{begun_comment, commented, in_plain};
use crate::state::{Gap, Now, State, Stop, gap_state};
use crate::token::{begin_token, in_key};
use cg_desc::At;
use std::alloc::Global;

/// In a comment up to the line's end.
#[tactic(auto, unfolding(cg_docspec::specs::Machine::Comment::in_comment))]
pub fn in_comment(gap: Gap, c: char) -> Result<State, Stop>
    ensures { Gives result (in_comment (frames_of gap.stack) (found_of gap.found) (awaited_of gap.next) c) }
{
    let Gap { stack, next, found } = gap;
    let now = if c == '\n' {
        Now::Gap(next)
    } else if c == '\r' {
        Now::GapReturn(next)
    } else if is_control(c) {
        return Err(Stop::NoDocument);
    } else {
        Now::Comment(next)
    };
    Ok(State { stack, now, found })
}

/// A key or an unquoted value that began with a slash goes on.
fn begun_step(alloc: Global, here: At, begun: State, c: char) -> Result<State, Stop>
    ensures { Gives result (begun_step (place_of here) (state_of begun) (state_of begun).now c) }
{
    let State {
        stack,
        now,
        found: _,
    } = begun;
    match now {
        Now::Key(key, key_at) => in_key(alloc, here, stack, key, key_at, c),
        Now::Plain(plain) => in_plain(alloc, here, stack, plain, c),
        _ => Err(Stop::NoDocument),
    }
}

/// Behind a slash in a gap, which stands at `at`.
#[tactic(auto, unfolding(cg_docspec::specs::Machine::Comment::in_slash))]
pub fn in_slash(alloc: Global, here: At, gap: Gap, at: At, c: char) -> Result<State, Stop>
    ensures { Gives result (in_slash (place_of here) (frames_of gap.stack) (found_of gap.found) (awaited_of gap.next) (place_of at) c) }
{
    if c == '/' || c == '*' {
        return Ok(commented(c, gap));
    }
    let begun = begin_token(alloc, at, gap.stack, gap.next, '/')?;
    begun_step(alloc, here, begun, c)
}

/// In a comment up to `*/`.
#[tactic(auto, unfolding(cg_docspec::specs::Machine::Comment::in_block))]
pub fn in_block(gap: Gap, after_star: bool, c: char) -> Result<State, Stop>
    ensures { Gives result (in_block (frames_of gap.stack) (found_of gap.found) (awaited_of gap.next) after_star c) }
{
    let Gap { stack, next, found } = gap;
    let now = if c == '/' && after_star {
        Now::Gap(next)
    } else if c == '\r' {
        Now::BlockReturn(next)
    } else if is_control(c) && c != '\n' {
        return Err(Stop::NoDocument);
    } else {
        Now::Block(next, c == '*')
    };
    Ok(State { stack, now, found })
}

/// Behind a carriage return in such a comment.
#[tactic(auto, unfolding(cg_docspec::specs::Machine::Comment::in_block_return))]
pub fn in_block_return(gap: Gap, c: char) -> Result<State, Stop>
    ensures { Gives result (in_block_return (frames_of gap.stack) (found_of gap.found) (awaited_of gap.next) c) }
{
    let Gap { stack, next, found } = gap;
    if c == '\n' {
        Ok(State {
            stack,
            now: Now::Block(next, false),
            found,
        })
    } else {
        Err(Stop::NoDocument)
    }
}
