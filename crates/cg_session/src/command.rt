//! The next command of an input, and no byte behind it.

ghost use Rattle.std.specs.Prelude.{◌≡◌, ◌≤◌, ◌<◌, ◌+◌, ◌++◌, ◌∷◌, [], length, Option, List, ℕ};
ghost use Rattle.cg_base.specs.Outside.{Taken};
ghost use Rattle.cg_inputs.specs.Lines.{HasNoFeed};
ghost use Rattle.cg_inputs.specs.Lines.{Says, put};
ghost use Rattle.cg_session.specs.Taking.{TakesCommand};

use crate::line::{Line, read_line};
use crate::reader::{BytesRead, TextRead, read_bytes, read_text};
use cg_base::{List, Memory, Source, Text};
use std::alloc::Global;

/// A command of the input, or why there is none.
#[derive(Drop)]
pub enum Got {
    Put { name: Text, bytes: List<u8> },
    Del { name: Text },
    Build,
    Finish,
    /// What begins here is no command.
    NoCommand,
    /// The input ended in a command.
    Ended,
    /// The limit was reached in a command, and one more byte came.
    Full,
    /// The source failed in a command.
    Failed,
}

/// Behind the line of a put: its bytes.
fn put_bytes<I: Source>(
    alloc: Global,
    input: &mut I,
    text: &[u8],
    name: &str,
    count: u32,
    room: &mut usize,
) -> Result<Got, Memory>
    requires { Says text.now (put name.now count) }
    ensures { (first : Option (List ℕ)) (f : ℕ) → Taken first (I.left input.old) (text.now ++ 10 ∷ []) → f ≤ I.faults input.old
        → TakesCommand result (length text.now + 1 + room.old) room.new first (I.left input.new) f (I.faults input.new) }
{
    let mut bytes = Vec::new(alloc);
    let name = Text::of(alloc, name)?;
    match read_bytes(input, count as usize, *room, &mut bytes)? {
        BytesRead::Whole => {
            *room -= bytes.len();
            Ok(Got::Put {
                name,
                bytes: List::from_vec(bytes),
            })
        }
        BytesRead::Ended => Ok(Got::Ended),
        BytesRead::Full => Ok(Got::Full),
        BytesRead::Failed => Ok(Got::Failed),
    }
}

/// Behind a whole line.
fn behind_line<I: Source>(
    alloc: Global,
    input: &mut I,
    text: &[u8],
    room: &mut usize,
) -> Result<Got, Memory>
    requires { HasNoFeed text.now }
    ensures { (first : Option (List ℕ)) (f : ℕ) → Taken first (I.left input.old) (text.now ++ 10 ∷ []) → f ≤ I.faults input.old
        → TakesCommand result (length text.now + 1 + room.old) room.new first (I.left input.new) f (I.faults input.new) }
{
    match read_line(text) {
        Some(Line::Put { name, count }) => put_bytes(alloc, input, text, name, count, room),
        Some(Line::Del { name }) => {
            let name = Text::of(alloc, name)?;
            Ok(Got::Del { name })
        }
        Some(Line::Build) => Ok(Got::Build),
        Some(Line::Finish) => Ok(Got::Finish),
        None => Ok(Got::NoCommand),
    }
}

/// The next command, of at most `room` bytes. It takes no byte behind it.
pub fn next_command<I: Source>(
    alloc: Global,
    input: &mut I,
    room: &mut usize,
) -> Result<Got, Memory>
    ensures { TakesCommand result room.old room.new (I.left input.old) (I.left input.new) (I.faults input.old) (I.faults input.new) }
{
    let mut text = Vec::new(alloc);
    match read_text(input, *room, &mut text)? {
        TextRead::Whole => {
            *room -= text.len() + 1;
            behind_line(alloc, input, &text, room)
        }
        TextRead::False => Ok(Got::NoCommand),
        TextRead::Long => Ok(Got::NoCommand),
        TextRead::Ended => Ok(Got::Ended),
        TextRead::Full => Ok(Got::Full),
        TextRead::Failed => Ok(Got::Failed),
    }
}
