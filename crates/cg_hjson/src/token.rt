//! Gaps and keys, and the first characters of what stands behind a gap, for a state that is given away.

ghost use Rattle.std.specs.Prelude.{string_bytes};
ghost use Rattle.cg_docspec.specs.Machine.Token.{begin_token, in_gap, in_gap_return, in_key};
ghost use Rattle.cg_hjson.specs.Views.{place_of};
ghost use Rattle.cg_hjson.specs.Reading.{Gives, awaited_of, found_of, frames_of};

use crate::stack::Stack;
use crate::state::{Awaited, Frame, Gap, Now, State, Stop, gap_state, reading};
use crate::turning;
use cg_desc::At;
use std::alloc::Global;

/// The first character behind a gap.
pub fn begin_token(
    alloc: Global,
    here: At,
    stack: Stack<Frame>,
    next: Awaited,
    c: char,
) -> Result<State, Stop>
    ensures { Gives result (begin_token (place_of here) (frames_of stack) (awaited_of next) c) }
{
    let mut state = reading(stack, Now::Gap(next));
    turning::begin_token(alloc, here, &mut state, next, c)?;
    Ok(state)
}

/// In a gap.
pub fn in_gap(alloc: Global, here: At, gap: Gap, c: char) -> Result<State, Stop>
    ensures { Gives result (in_gap (place_of here) (frames_of gap.stack) (found_of gap.found) (awaited_of gap.next) c) }
{
    let next = gap.next;
    let mut state = gap_state(gap);
    turning::in_gap(alloc, here, &mut state, next, c)?;
    Ok(state)
}

/// Behind a carriage return in a gap.
#[tactic(auto, unfolding(cg_docspec::specs::Machine::Token::in_gap_return))]
pub fn in_gap_return(gap: Gap, c: char) -> Result<State, Stop>
    ensures { Gives result (in_gap_return (frames_of gap.stack) (found_of gap.found) (awaited_of gap.next) c) }
{
    if c == '\n' {
        Ok(gap_state(gap))
    } else {
        Err(Stop::NoDocument)
    }
}

/// In a key without quotes.
pub fn in_key(
    alloc: Global,
    here: At,
    stack: Stack<Frame>,
    key: String,
    key_at: At,
    c: char,
) -> Result<State, Stop>
    ensures { Gives result (in_key (place_of here) (frames_of stack) (string_bytes key) (place_of key_at) c) }
{
    let mut state = reading(stack, Now::Gap(Awaited::Colon));
    turning::in_key(alloc, here, &mut state, key, key_at, c)?;
    Ok(state)
}
