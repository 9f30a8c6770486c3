ghost use Rattle.std.specs.Prelude.{◌≡◌, ◌≤◌, ◌<◌, ◌^◌, IfOk, length};
ghost use Rattle.std.specs.Str.{chars};
ghost use Rattle.cg_docspec.specs.Place.{next_place};
ghost use Rattle.cg_docspec.specs.SyntaxFault.{Answer, IsAnswer};
ghost use Rattle.cg_docspec.specs.Machine.Run.{answer, whole};
ghost use Rattle.cg_docspec.specs.Machine.State.{start};
ghost use Rattle.cg_hjson.specs.Json.{IntegersFit};
ghost use Rattle.cg_hjson.specs.Views.{tree_of};
ghost use Rattle.cg_hjson.specs.Reading.{found_of, state_of};
ghost use Rattle.cg_hjson.specs.Answers.{IsRight, Tells};

use crate::place::{START, next_place};
use crate::stack::Stack;
use crate::state::{Awaited, Now, State, Stop};
use crate::staying::advance;
use crate::tree::Tree;
use cg_desc::At;
use std::alloc::Global;
use thiserror::Error;

/// Why a text gives no tree.
#[derive(Clone, Copy, Debug, PartialEq, Eq, Error)]
pub enum HjsonFault {
    /// The text is no document: the longest prefix that begins one ends there.
    #[error("no document goes on so at line {}, column {}", .at.line, .at.column)]
    NotDocument { at: At },
    /// An object or a list opens there at depth 65, the first one; the root has depth 1.
    #[error("too deep at line {}, column {}", .at.line, .at.column)]
    TooDeep { at: At },
    /// Memory was not found; it says nothing about the text.
    #[error("out of memory")]
    Memory,
}

/// Reads a document: an object of Hjson with comments, quoted and unquoted strings, multi-line
/// strings and literals, as `cg_docspec` spells its grammar. It takes each character once.
///
/// The text has at most 2^31 bytes. An integer from -2^63 to 2^64 - 1 is an `Int`, any other
/// number the `Str` of its spelling. The first fault is told: an opener of depth 65 where it stands
/// before the end of the longest prefix that begins a document, else that end.
pub fn read(alloc: Global, text: &str) -> Result<Tree, HjsonFault>
    requires { length text.now ≤ 2 ^ 31 }
    ensures right { IsRight (chars text.now) result }
    ensures exact { (a : Answer) → IsAnswer (chars text.now) a → Tells a result }
    ensures integers { IfOk result (λ tree. IntegersFit (tree_of tree)) }
{
    run(alloc, text)
}

/// Takes the text's characters, one after another.
fn run(alloc: Global, text: &str) -> Result<Tree, HjsonFault>
    requires { length text.now ≤ 2 ^ 31 }
    ensures { Tells (answer (chars text.now)) result }
{
    let mut at = START;
    let mut state = start(alloc);
    for c in text.chars() {
        match advance(alloc, at, &mut state, c) {
            Ok(()) => {}
            Err(Stop::NoDocument) => return Err(HjsonFault::NotDocument { at }),
            Err(Stop::Memory) => return Err(HjsonFault::Memory),
        }
        if state.stack.len() > 64 {
            return Err(HjsonFault::TooDeep { at });
        }
        at = next_place(at, c);
    }
    match whole(state) {
        Some(tree) => Ok(tree),
        None => Err(HjsonFault::NotDocument { at }),
    }
}

/// The state before a text.
fn start(alloc: Global) -> State
    ensures { state_of result ≡ start }
{
    State {
        stack: Stack::new(alloc),
        now: Now::Gap(Awaited::Root),
        found: None,
    }
}

/// The document's tree, where the text may end.
fn whole(state: State) -> Option<Tree>
    ensures { found_of result ≡ whole (state_of state) }
{
    let State {
        stack: _,
        now,
        found,
    } = state;
    match now {
        Now::Gap(Awaited::End) | Now::Comment(Awaited::End) => found,
        _ => None,
    }
}
