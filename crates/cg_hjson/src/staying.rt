//! Characters at which the reader only goes on with what it is reading. They are taken where the state lies, since most of a text is
//! such characters.

ghost use Rattle.std.specs.Prelude.{IfOk};
ghost use Rattle.cg_docspec.specs.Machine.Now as now;
ghost use Rattle.cg_docspec.specs.Machine.Run.{step};
ghost use Rattle.cg_hjson.specs.Views.{place_of};
ghost use Rattle.cg_hjson.specs.Reading.{awaited_of, now_of, plain_of, state_of};
ghost use Rattle.cg_hjson.specs.Staying.{Stays, Turns};

use crate::characters::{ends_literal, is_blank, is_control, is_key, is_space};
use crate::stack::Stack;
use crate::state::{Awaited, Escape, Frame, Now, Plain, State, Stop};
use crate::steps::step;
use crate::turning::{in_gap, in_key, in_plain, outside_escape};
use cg_base::Memory;
use cg_desc::At;
use std::alloc::Global;

/// Takes a blank of a gap, and the comma or the colon for which it waits.
#[tactic(auto, unfolding(cg_docspec::specs::Machine::Run::step, cg_docspec::specs::Machine::Token::in_gap, cg_docspec::specs::Machine::Token::begin_token))]
fn gap_stays(next: &mut Awaited, c: char) -> bool
    ensures { Stays result (now.gap (awaited_of next.old)) c (now.gap (awaited_of next.new)) }
{
    if is_blank(c) {
        return true;
    }
    match *next {
        Awaited::Colon => if c == ':' {
            *next = Awaited::Value;
            return true;
        },
        Awaited::Item(true) => if c == ',' {
            *next = Awaited::Item(false);
            return true;
        },
        _ => {}
    }
    false
}

/// Takes the character if what is being read goes on with it.
#[tactic(auto, unfolding(cg_docspec::specs::Machine::Run::step, cg_docspec::specs::Machine::Token::in_key, cg_docspec::specs::Machine::Comment::in_comment, cg_docspec::specs::Machine::Comment::in_block, cg_docspec::specs::Machine::Quote::in_quoted, cg_docspec::specs::Machine::Quote::outside_escape))]
fn stays(now: &mut Now, c: char) -> Result<bool, Memory>
    ensures { IfOk result (λ taken. Stays taken (now_of now.old) c (now_of now.new)) }
{
    match now {
        Now::Gap(next) => Ok(gap_stays(next, c)),
        Now::Comment(next) => {
            if c == '\n' {
                let next = *next;
                *now = Now::Gap(next);
                return Ok(true);
            }
            if is_control(c) {
                return Ok(false);
            }
            Ok(true)
        }
        Now::Key(key, _) => {
            if !is_key(c) {
                return Ok(false);
            }
            key.push(c)?;
            Ok(true)
        }
        Now::Quoted(quoted, Escape::Outside) => {
            if c == quoted.quote || c == '\\' || is_control(c) {
                return Ok(false);
            }
            quoted.text.push(c)?;
            Ok(true)
        }
        Now::Plain(plain) => plain_stays(plain, c),
        Now::Block(_, after_star) => {
            if c == '/' || c == '*' || (is_control(c) && c != '\n') {
                return Ok(false);
            }
            *after_star = false;
            Ok(true)
        }
        _ => Ok(false),
    }
}

/// Takes the character if a value without quotes goes on with it.
#[tactic(auto, unfolding(cg_docspec::specs::Machine::Run::step, cg_docspec::specs::Machine::Plain::in_plain))]
fn plain_stays(plain: &mut Plain, c: char) -> Result<bool, Memory>
    ensures { IfOk result (λ taken. Stays taken (plain_of plain.old) c (plain_of plain.new)) }
{
    if is_control(c) || ends_literal(c) || c == '/' {
        return Ok(false);
    }
    if is_space(c) {
        plain.blanks.push(c)?;
        return Ok(true);
    }
    if !plain.blanks.as_str().is_empty() {
        return Ok(false);
    }
    plain.text.push(c)?;
    Ok(true)
}

/// Takes one character, which stands at `here`.
#[tactic(auto, unfolding(cg_docspec::specs::Machine::Run::step, cg_docspec::specs::Machine::Quote::in_quoted))]
pub fn advance(alloc: Global, here: At, state: &mut State, c: char) -> Result<(), Stop>
    ensures { Turns result (step (place_of here) (state_of state.old) c) (state_of state.new) }
{
    if state.found.is_none() && stays(&mut state.now, c)? {
        return Ok(());
    }
    match std::mem::replace(&mut state.now, Now::Gap(Awaited::Root)) {
        Now::Gap(next) => in_gap(alloc, here, state, next, c),
        Now::Key(key, at) => in_key(alloc, here, state, key, at, c),
        Now::Quoted(quoted, Escape::Outside) => outside_escape(state, quoted, c),
        Now::Plain(plain) => in_plain(alloc, here, state, plain, c),
        now => {
            state.now = now;
            advance_any(alloc, here, state, c)
        }
    }
}

/// Takes one character, which stands at `here`, whatever is being read.
fn advance_any(alloc: Global, here: At, state: &mut State, c: char) -> Result<(), Stop>
    ensures { Turns result (step (place_of here) (state_of state.old) c) (state_of state.new) }
{
    let before = std::mem::replace(
        state,
        State {
            stack: Stack::new(alloc),
            now: Now::Gap(Awaited::Root),
            found: None,
        },
    );
    *state = step(alloc, here, before, c)?;
    Ok(())
}
