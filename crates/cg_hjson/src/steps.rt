//! One step of the reader.

ghost use Rattle.cg_docspec.specs.Machine.Run.{step};
ghost use Rattle.cg_hjson.specs.Views.{place_of};
ghost use Rattle.cg_hjson.specs.Reading.{Gives, state_of};

use crate::comment::{in_block, in_block_return, in_comment, in_slash};
use crate::lines::{in_lines, in_two_quotes};
use crate::plain::{in_plain, in_plain_return, in_plain_slash};
use crate::quoted::in_quoted;
use crate::state::{Gap, Now, State, Stop};
use crate::token::{in_gap, in_gap_return, in_key};
use cg_desc::At;
use std::alloc::Global;

/// Takes one character, which stands at `here`.
#[tactic(auto, unfolding(cg_docspec::specs::Machine::Run::step))]
pub fn step(alloc: Global, here: At, state: State, c: char) -> Result<State, Stop>
    ensures { Gives result (step (place_of here) (state_of state) c) }
{
    let State { stack, now, found } = state;
    match now {
        Now::Gap(next) => in_gap(alloc, here, Gap { stack, next, found }, c),
        Now::GapReturn(next) => in_gap_return(Gap { stack, next, found }, c),
        Now::Comment(next) => in_comment(Gap { stack, next, found }, c),
        Now::Slash(next, at) => in_slash(alloc, here, Gap { stack, next, found }, at, c),
        Now::Block(next, after_star) => in_block(Gap { stack, next, found }, after_star, c),
        Now::BlockReturn(next) => in_block_return(Gap { stack, next, found }, c),
        Now::Key(key, key_at) => in_key(alloc, here, stack, key, key_at, c),
        Now::Plain(plain) => in_plain(alloc, here, stack, plain, c),
        Now::PlainReturn(text, at) => in_plain_return(stack, text, at, c),
        Now::PlainSlash(text, blanks, at) => in_plain_slash(
            alloc, here, stack, text, blanks, at, c,
        ),
        Now::Quoted(quoted, escape) => in_quoted(stack, quoted, escape, c),
        Now::TwoQuotes(at) => in_two_quotes(alloc, here, stack, at, c),
        Now::Lines(lines, spot) => in_lines(stack, lines, spot, c),
    }
}
