//! What becomes of a value or a key that was read.

ghost use Rattle.std.specs.Prelude.{◌≡◌, string_bytes};
ghost use Rattle.cg_docspec.specs.Tree.{list_of, object_of, string_of};
ghost use Rattle.cg_docspec.specs.Machine.Closing.{delivered};
ghost use Rattle.cg_hjson.specs.Views.{member, member_of, members_of, place_of, tree_of, trees_of};
ghost use Rattle.cg_hjson.specs.Reading.{GivesGap, frames_of};

use crate::stack::Stack;
use crate::state::{Awaited, Frame, Gap, Stop};
use crate::tree::{Kind, Member, Tree};
use cg_base::{List, Text};
use cg_desc::At;

/// A value is closed: it joins what is open around it, or it is the document's tree.
#[tactic(auto, unfolding(cg_docspec::specs::Machine::Closing::delivered))]
pub fn delivered(mut stack: Stack<Frame>, tree: Tree) -> Result<Gap, Stop>
    ensures { GivesGap result (delivered (frames_of stack) (tree_of tree)) }
{
    match stack.pop() {
        None => Ok(Gap {
            stack,
            next: Awaited::End,
            found: Some(tree),
        }),
        Some(Frame::InList(at, mut items)) => {
            items.push(tree)?;
            stack.push(Frame::InList(at, items))?;
            Ok(Gap {
                stack,
                next: Awaited::Item(true),
                found: None,
            })
        }
        Some(Frame::InMember(at, mut members, key, key_at)) => {
            members.push(member_of(key, key_at, tree))?;
            stack.push(Frame::InObject(at, members))?;
            Ok(Gap {
                stack,
                next: Awaited::Item(true),
                found: None,
            })
        }
        Some(Frame::InObject(..)) => Err(Stop::NoDocument),
    }
}

/// The list of these values.
#[tactic(auto, using(crate::proofs::Views::views))]
pub fn list_of(items: List<Tree>, at: At) -> Tree
    ensures { tree_of result ≡ list_of (trees_of items) (place_of at) }
{
    Tree {
        kind: Kind::Array(items),
        at,
    }
}

/// The object of these members.
#[tactic(auto, using(crate::proofs::Views::views))]
pub fn object_of(members: List<Member>, at: At) -> Tree
    ensures { tree_of result ≡ object_of (members_of members) (place_of at) }
{
    Tree {
        kind: Kind::Object(members),
        at,
    }
}

/// A string.
#[tactic(auto, using(crate::proofs::Views::views))]
pub fn string_of(text: String, at: At) -> Tree
    ensures { tree_of result ≡ string_of (string_bytes text) (place_of at) }
{
    Tree {
        kind: Kind::Str(Text::from_string(text)),
        at,
    }
}

/// A member of these parts.
#[tactic(auto, using(crate::proofs::Views::views))]
pub fn member_of(key: Text, key_at: At, value: Tree) -> Member
    ensures { member_of result ≡ member key (place_of key_at) (tree_of value) }
{
    Member { key, key_at, value }
}
