//! What the reader keeps while it reads: the states of the machine of `cg_docspec`.

ghost use Rattle.std.specs.Prelude.{◌≡◌};
ghost use Rattle.cg_docspec.specs.Machine.State.{reading};
ghost use Rattle.cg_hjson.specs.Reading.{frames_of, gap_of, now_of, state_of};

use crate::stack::Stack;
use crate::tree::{Member, Tree};
use cg_base::{List, Memory, Text};
use cg_desc::At;
use std::alloc::AllocError;

/// What is open, the innermost on top, what is being read, and the document's tree, once closed.
#[derive(Drop)]
pub struct State {
    pub stack: Stack<Frame>,
    pub now: Now,
    pub found: Option<Tree>,
}

/// A state in a gap: what is open, what may come next, and the document's tree, once closed.
#[derive(Drop)]
pub struct Gap {
    pub stack: Stack<Frame>,
    pub next: Awaited,
    pub found: Option<Tree>,
}

/// What is open: its place, and what was read of it.
#[derive(Drop)]
pub enum Frame {
    InList(At, List<Tree>),
    InObject(At, List<Member>),
    /// An object, behind the key of a member and the key's place.
    InMember(At, List<Member>, Text, At),
}

/// What may come next, behind a gap.
#[derive(Clone, Copy)]
pub enum Awaited {
    /// The document's object.
    Root,
    /// An item of what is open, or what closes it; whether a comma may come before it.
    Item(bool),
    Colon,
    Value,
    /// The text's end.
    End,
}

/// What is being read.
#[derive(Drop)]
pub enum Now {
    Gap(Awaited),
    /// A gap, behind a carriage return.
    GapReturn(Awaited),
    /// A comment up to the line's end.
    Comment(Awaited),
    /// Behind a slash, which stands there and may begin a comment.
    Slash(Awaited, At),
    /// A comment up to `*/`: whether a star stands before.
    Block(Awaited, bool),
    /// Such a comment, behind a carriage return.
    BlockReturn(Awaited),
    /// A key without quotes, and its place.
    Key(String, At),
    Plain(Plain),
    /// Such a value, behind a carriage return.
    PlainReturn(String, At),
    /// A literal and the blanks behind it, behind a slash.
    PlainSlash(String, String, At),
    Quoted(Quoted, Escape),
    /// Behind the two single quotes of a value.
    TwoQuotes(At),
    Lines(Lines, Spot),
}

/// A literal or an unquoted string: its text, the spaces and tabs behind it, its place.
#[derive(Drop)]
pub struct Plain {
    pub text: String,
    pub blanks: String,
    /// Whether the text may still be a literal.
    pub hope: bool,
    pub at: At,
}

/// A quoted string: whether it is a key, its quote, its text, its place.
#[derive(Drop)]
pub struct Quoted {
    pub key: bool,
    pub quote: char,
    pub text: String,
    pub at: At,
}

/// Where in a quoted string.
#[derive(Clone, Copy)]
pub enum Escape {
    /// In no escape.
    Outside,
    Backslash,
    /// The high surrogate before it, the number of digits of `\uXXXX` so far, and their value.
    Unit(Option<u32>, u8, u32),
    High(u32),
    HighBackslash(u32),
}

/// A multi-line string: its text, whether a line end follows it, how many characters stand before
/// the opening on its line, its place.
#[derive(Drop)]
pub struct Lines {
    pub text: String,
    pub ended: bool,
    pub before: u32,
    pub at: At,
}

/// Where in a multi-line string.
#[derive(Clone, Copy)]
pub enum Spot {
    /// On the opening's line, before any text.
    Opening,
    OpeningReturn,
    /// At a line's begin, where so many blanks may still be dropped.
    Indent(u32),
    Inside,
    /// Behind so many quotes.
    Quotes(u8),
    /// Behind so many quotes and a carriage return.
    LineReturn(u8),
}

/// Why a character is not taken.
#[derive(Clone, Copy, Debug)]
pub enum Stop {
    /// No document goes on so.
    NoDocument,
    /// Memory was not found.
    Memory,
}

impl From<Memory> for Stop {
    ghost use Rattle.std.specs.Prelude.{◌≡◌};
    ghost use Rattle.cg_hjson.specs.declared.state.Stop.TheVariants.{Memory as OutOfMemory};

    ghost from_gives = { λ _ e. e ≡ OutOfMemory };

    fn from(_: Memory) -> Self {
        Stop::Memory
    }
}

impl From<AllocError> for Stop {
    ghost use Rattle.std.specs.Prelude.{◌≡◌};
    ghost use Rattle.cg_hjson.specs.declared.state.Stop.TheVariants.{Memory as OutOfMemory};

    ghost from_gives = { λ _ e. e ≡ OutOfMemory };

    fn from(_: AllocError) -> Self {
        Stop::Memory
    }
}

/// A state in which no tree was found yet.
pub fn reading(stack: Stack<Frame>, now: Now) -> State
    ensures { state_of result ≡ reading (frames_of stack) (now_of now) }
{
    State {
        stack,
        now,
        found: None,
    }
}

/// The state in a gap.
pub fn gap_state(gap: Gap) -> State
    ensures { state_of result ≡ gap_of gap }
{
    let Gap { stack, next, found } = gap;
    State {
        stack,
        now: Now::Gap(next),
        found,
    }
}
