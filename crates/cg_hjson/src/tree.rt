use cg_base::{List, Text};
use cg_desc::At;

/// A value of a document, and the place of its first character.
#[derive(Debug, Drop)]
#[cycle(tree)]
pub struct Tree {
    pub kind: Kind,
    pub at: At,
}

/// What a value is.
#[derive(Debug, Drop)]
#[cycle(tree)]
pub enum Kind {
    Null,
    Bool(bool),
    /// An integer from -2^63 to 2^64 - 1.
    Int(i128),
    /// A string, or the spelling of any other number.
    Str(Text),
    /// The values of a list, in order.
    Array(List<Tree>),
    /// The members of an object, in order.
    Object(List<Member>),
}

/// A member of an object: a key, the place of the key's first character, and a value.
#[derive(Debug, Drop)]
#[cycle(tree)]
pub struct Member {
    pub key: Text,
    pub key_at: At,
    pub value: Tree,
}
