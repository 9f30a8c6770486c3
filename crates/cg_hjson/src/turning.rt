//! Steps in place: the machine's most frequent steps change the state where it lies.

ghost use Rattle.std.specs.Prelude.{◌≡◌, ◌==◌, ◌∷◌, IsFalse, Some, false, string_bytes};
ghost use Rattle.cg_docspec.specs.Machine.Awaited as awaited;
ghost use Rattle.cg_docspec.specs.Machine.Now as now;
ghost use Rattle.cg_docspec.specs.Machine.State.{reading};
ghost use Rattle.cg_docspec.specs.Machine.Closing.{delivered, keyed};
ghost use Rattle.cg_docspec.specs.Characters.{close_brace, close_bracket};
ghost use Rattle.cg_docspec.specs.Machine.Plain.{in_plain};
ghost use Rattle.cg_docspec.specs.Machine.Quote.{outside_escape, quoted_end};
ghost use Rattle.cg_docspec.specs.Machine.Token.{begin_item, begin_token, begin_value, gap_step, in_gap, in_key};
ghost use Rattle.cg_hjson.specs.Views.{place_of, tree_of};
ghost use Rattle.cg_hjson.specs.Reading.{awaited_of, begin_key, found_of, frame_of, frames_of, now_of, plain_more, state_of};
ghost use Rattle.cg_hjson.specs.Staying.{Turns};

use crate::characters::{ends_literal, is_blank, is_control, is_key, is_mark, is_quote, is_space};
use crate::closing::{list_of, member_of, object_of, string_of};
use crate::numeral::{is_literal, plain_tree};
use crate::state::{Awaited, Escape, Frame, Now, Plain, Quoted, State, Stop};
use crate::tree::Tree;
use cg_base::{List, Text};
use cg_desc::At;
use std::alloc::Global;

/// Goes on so, where no tree was found yet.
fn goes_on(state: &mut State, now: Now)
    ensures { state_of state.new ≡ reading (frames_of state.old.stack) (now_of now) }
{
    state.now = now;
    if state.found.is_some() {
        state.found = None;
    }
}

/// A value is closed: it joins what is open around it, or it is the document's tree.
#[tactic(auto, unfolding(cg_docspec::specs::Machine::Closing::delivered))]
pub fn delivered(state: &mut State, tree: Tree) -> Result<(), Stop>
    ensures { Turns result (delivered (frames_of state.old.stack) (tree_of tree)) (state_of state.new) }
{
    match state.stack.pop() {
        None => {
            state.now = Now::Gap(Awaited::End);
            state.found = Some(tree);
            return Ok(());
        }
        Some(Frame::InList(at, mut items)) => {
            items.push(tree)?;
            state.stack.push(Frame::InList(at, items))?;
        }
        Some(Frame::InMember(at, mut members, key, key_at)) => {
            members.push(member_of(key, key_at, tree))?;
            state.stack.push(Frame::InObject(at, members))?;
        }
        Some(Frame::InObject(..)) => return Err(Stop::NoDocument),
    }
    goes_on(state, Now::Gap(Awaited::Item(true)));
    Ok(())
}

/// A key is read: its colon comes next.
#[tactic(auto, unfolding(cg_docspec::specs::Machine::Closing::keyed))]
pub fn keyed(state: &mut State, key: String, key_at: At) -> Result<(), Stop>
    ensures { Turns result (keyed (frames_of state.old.stack) (string_bytes key) (place_of key_at)) (state_of state.new) }
{
    match state.stack.pop() {
        Some(Frame::InObject(at, members)) => {
            state.stack.push(Frame::InMember(at, members, Text::from_string(key), key_at))?;
            goes_on(state, Now::Gap(Awaited::Colon));
            Ok(())
        }
        Some(Frame::InList(..) | Frame::InMember(..)) => Err(Stop::NoDocument),
        None => Err(Stop::NoDocument),
    }
}

/// An object or a list opens.
fn opened(state: &mut State, frame: Frame) -> Result<(), Stop>
    ensures { Turns result (Some (reading (frame_of frame ∷ frames_of state.old.stack) (now.gap (awaited.item false)))) (state_of state.new) }
{
    state.stack.push(frame)?;
    goes_on(state, Now::Gap(Awaited::Item(false)));
    Ok(())
}

/// The first character of a value.
#[tactic(auto, unfolding(cg_docspec::specs::Machine::Token::begin_value))]
fn begin_value(alloc: Global, here: At, state: &mut State, c: char) -> Result<(), Stop>
    ensures { Turns result (begin_value (place_of here) (frames_of state.old.stack) c) (state_of state.new) }
{
    if c == '{' {
        return opened(state, Frame::InObject(here, List::new(alloc)));
    }
    if c == '[' {
        return opened(state, Frame::InList(here, List::new(alloc)));
    }
    if is_mark(c) || is_control(c) {
        return Err(Stop::NoDocument);
    }
    let mut text = String::new(alloc);
    if is_quote(c) {
        let quoted = Quoted {
            key: false,
            quote: c,
            text,
            at: here,
        };
        goes_on(state, Now::Quoted(quoted, Escape::Outside));
        return Ok(());
    }
    text.push(c)?;
    let plain = Plain {
        text,
        blanks: String::new(alloc),
        hope: true,
        at: here,
    };
    goes_on(state, Now::Plain(plain));
    Ok(())
}

/// The first character of a key, in an object.
fn begin_key(alloc: Global, here: At, state: &mut State, c: char) -> Result<(), Stop>
    ensures { Turns result (begin_key (place_of here) (frames_of state.old.stack) c) (state_of state.new) }
{
    let mut key = String::new(alloc);
    if is_quote(c) {
        let quoted = Quoted {
            key: true,
            quote: c,
            text: key,
            at: here,
        };
        goes_on(state, Now::Quoted(quoted, Escape::Outside));
        return Ok(());
    }
    if is_key(c) {
        key.push(c)?;
        goes_on(state, Now::Key(key, here));
        return Ok(());
    }
    Err(Stop::NoDocument)
}

/// The first character of a value of a list or a member of an object, which closes nothing.
#[tactic(auto, unfolding(cg_docspec::specs::Machine::Token::begin_item))]
fn begin_part(alloc: Global, here: At, state: &mut State, c: char) -> Result<(), Stop>
    requires bracket { IsFalse (c == close_bracket) }
    requires brace { IsFalse (c == close_brace) }
    ensures { Turns result (begin_item (place_of here) (frames_of state.old.stack) c) (state_of state.new) }
{
    match state.stack.top() {
        Some(Frame::InList(..)) => begin_value(alloc, here, state, c),
        Some(Frame::InObject(..)) => begin_key(alloc, here, state, c),
        Some(Frame::InMember(..)) => Err(Stop::NoDocument),
        None => Err(Stop::NoDocument),
    }
}

/// The first character of a value of a list or a member of an object, or what closes it.
#[tactic(auto, unfolding(cg_docspec::specs::Machine::Token::begin_item, cg_docspec::specs::Machine::Token::begin_value))]
fn begin_item(alloc: Global, here: At, state: &mut State, c: char) -> Result<(), Stop>
    ensures { Turns result (begin_item (place_of here) (frames_of state.old.stack) c) (state_of state.new) }
{
    if c != ']' && c != '}' {
        return begin_part(alloc, here, state, c);
    }
    match state.stack.pop() {
        Some(Frame::InList(at, items)) => {
            if c == ']' {
                return delivered(state, list_of(items, at));
            }
            Err(Stop::NoDocument)
        }
        Some(Frame::InObject(at, members)) => {
            if c == '}' {
                return delivered(state, object_of(members, at));
            }
            Err(Stop::NoDocument)
        }
        Some(Frame::InMember(..)) => Err(Stop::NoDocument),
        None => Err(Stop::NoDocument),
    }
}

/// The first character behind a gap.
#[tactic(auto, unfolding(cg_docspec::specs::Machine::Token::begin_token))]
pub fn begin_token(
    alloc: Global,
    here: At,
    state: &mut State,
    next: Awaited,
    c: char,
) -> Result<(), Stop>
    ensures { Turns result (begin_token (place_of here) (frames_of state.old.stack) (awaited_of next) c) (state_of state.new) }
{
    match next {
        Awaited::Root => {
            if c == '{' {
                opened(state, Frame::InObject(here, List::new(alloc)))
            } else {
                Err(Stop::NoDocument)
            }
        }
        Awaited::Item(may_comma) => {
            if may_comma && c == ',' {
                goes_on(state, Now::Gap(Awaited::Item(false)));
                Ok(())
            } else {
                begin_item(alloc, here, state, c)
            }
        }
        Awaited::Colon => {
            if c == ':' {
                goes_on(state, Now::Gap(Awaited::Value));
                Ok(())
            } else {
                Err(Stop::NoDocument)
            }
        }
        Awaited::Value => begin_value(alloc, here, state, c),
        Awaited::End => Err(Stop::NoDocument),
    }
}

/// In a gap.
#[tactic(auto, unfolding(cg_docspec::specs::Machine::Token::in_gap))]
pub fn in_gap(
    alloc: Global,
    here: At,
    state: &mut State,
    next: Awaited,
    c: char,
) -> Result<(), Stop>
    ensures { Turns result (in_gap (place_of here) (frames_of state.old.stack) (found_of state.old.found) (awaited_of next) c) (state_of state.new) }
{
    state.now = if is_blank(c) {
        Now::Gap(next)
    } else if c == '\r' {
        Now::GapReturn(next)
    } else if c == '#' {
        Now::Comment(next)
    } else if c == '/' {
        Now::Slash(next, here)
    } else {
        return begin_token(alloc, here, state, next, c);
    };
    Ok(())
}

/// In a key without quotes.
#[tactic(auto, unfolding(cg_docspec::specs::Machine::Token::in_key))]
pub fn in_key(
    alloc: Global,
    here: At,
    state: &mut State,
    mut key: String,
    key_at: At,
    c: char,
) -> Result<(), Stop>
    ensures { Turns result (in_key (place_of here) (frames_of state.old.stack) (string_bytes key) (place_of key_at) c) (state_of state.new) }
{
    if is_key(c) {
        key.push(c)?;
        goes_on(state, Now::Key(key, key_at));
        return Ok(());
    }
    keyed(state, key, key_at)?;
    gap_step(alloc, here, state, c)
}

/// The character behind a key whose end shows by it: it is the first of the gap.
fn gap_step(alloc: Global, here: At, state: &mut State, c: char) -> Result<(), Stop>
    ensures { Turns result (gap_step (place_of here) (state_of state.old) (state_of state.old).now c) (state_of state.new) }
{
    match state.now {
        Now::Gap(next) => in_gap(alloc, here, state, next, c),
        _ => Err(Stop::NoDocument),
    }
}

/// The closing quote. Two single ones of a value may begin a multi-line string.
#[tactic(auto, unfolding(cg_docspec::specs::Machine::Quote::quoted_end))]
fn quoted_end(state: &mut State, quoted: Quoted) -> Result<(), Stop>
    ensures { Turns result (quoted_end (frames_of state.old.stack) quoted.key quoted.quote (string_bytes quoted.text) (place_of quoted.at)) (state_of state.new) }
{
    let Quoted {
        key,
        quote,
        text,
        at,
    } = quoted;
    if key {
        keyed(state, text, at)
    } else if quote == '\'' && text.as_str().is_empty() {
        goes_on(state, Now::TwoQuotes(at));
        Ok(())
    } else {
        delivered(state, string_of(text, at))
    }
}

/// In a quoted string, in no escape.
#[tactic(auto, unfolding(cg_docspec::specs::Machine::Quote::outside_escape))]
pub fn outside_escape(state: &mut State, mut quoted: Quoted, c: char) -> Result<(), Stop>
    ensures { Turns result (outside_escape (frames_of state.old.stack) quoted.key quoted.quote (string_bytes quoted.text) (place_of quoted.at) c) (state_of state.new) }
{
    if c == quoted.quote {
        return quoted_end(state, quoted);
    }
    if c == '\\' {
        goes_on(state, Now::Quoted(quoted, Escape::Backslash));
        return Ok(());
    }
    if is_control(c) {
        return Err(Stop::NoDocument);
    }
    quoted.text.push(c)?;
    goes_on(state, Now::Quoted(quoted, Escape::Outside));
    Ok(())
}

/// In a value without quotes.
#[tactic(auto, unfolding(cg_docspec::specs::Machine::Plain::in_plain))]
pub fn in_plain(
    alloc: Global,
    here: At,
    state: &mut State,
    mut plain: Plain,
    c: char,
) -> Result<(), Stop>
    ensures { Turns result (in_plain (place_of here) (frames_of state.old.stack) (string_bytes plain.text) (string_bytes plain.blanks) plain.hope (place_of plain.at) c) (state_of state.new) }
{
    if c == '\n' {
        delivered(state, plain_tree(plain.text, plain.at))
    } else if c == '\r' {
        goes_on(state, Now::PlainReturn(plain.text, plain.at));
        Ok(())
    } else if ends_literal(c) && plain.hope && is_literal(plain.text.as_str()) {
        delivered(state, plain_tree(plain.text, plain.at))?;
        gap_step(alloc, here, state, c)
    } else if c == '/' && plain.hope && is_literal(plain.text.as_str()) {
        goes_on(state, Now::PlainSlash(plain.text, plain.blanks, plain.at));
        Ok(())
    } else if is_space(c) {
        plain.blanks.push(c)?;
        goes_on(state, Now::Plain(plain));
        Ok(())
    } else if is_control(c) {
        Err(Stop::NoDocument)
    } else {
        plain_more(alloc, state, plain, c)
    }
}

/// The value goes on: the blanks behind its text were a part of it.
fn plain_more(alloc: Global, state: &mut State, plain: Plain, c: char) -> Result<(), Stop>
    ensures { Turns result (plain_more (frames_of state.old.stack) (string_bytes plain.text) (string_bytes plain.blanks) plain.hope (place_of plain.at) c) (state_of state.new) }
{
    let Plain {
        mut text,
        blanks,
        hope,
        at,
    } = plain;
    text.push_str(blanks.as_str())?;
    text.push(c)?;
    let plain = Plain {
        text,
        blanks: String::new(alloc),
        hope: hope && !(ends_literal(c) || c == '/'),
        at,
    };
    goes_on(state, Now::Plain(plain));
    Ok(())
}
