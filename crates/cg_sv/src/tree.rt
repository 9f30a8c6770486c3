//! The trees of the subset of SystemVerilog.

use cg_base::{List, Text};

/// A module: a name, its ports and its entries, in the order of the text.
#[derive(Drop)]
pub struct Module {
    pub name: Text,
    /// At least one in a printable module.
    pub ports: List<Port>,
    pub entries: List<Entry>,
}

/// A port of a module.
#[derive(Drop)]
pub struct Port {
    /// Whether the port is an input; an output otherwise.
    pub input: bool,
    /// How many bits it has, from 1 to 2^16 in a printable module. A width of 1 has no range in the text.
    pub width: u32,
    pub name: Text,
}

/// A parameter of an instance, as `.Width(32)`.
#[derive(Drop)]
pub struct Param {
    pub name: Text,
    /// A literal. One of width 0 is a plain number, below 2^16 in a printable module.
    pub value: Expr,
}

/// A connection of an instance, as `.d_i(data_n)`.
#[derive(Drop)]
pub struct Conn {
    /// The port of the instance's module.
    pub name: Text,
    /// What the port is connected to.
    pub value: Expr,
}

/// An entry of a module.
#[derive(Drop)]
pub enum Entry {
    /// The declaration of a wire, with or without an expression that drives it.
    Wire {
        width: u32,
        name: Text,
        value: Option<Expr>,
    },
    /// The assignment of a net that is declared elsewhere.
    Assign {
        name: Text,
        value: Expr,
    },
    /// An instance of the module `module`.
    Inst {
        module: Text,
        /// None are allowed.
        params: List<Param>,
        name: Text,
        /// At least one in a printable module.
        conns: List<Conn>,
    },
}

/// An expression over nets. Values are unsigned lists of bits.
#[derive(Drop)]
pub enum Expr {
    /// A net, all its bits.
    Net(Text),
    /// The bits `msb` down to `lsb` of a net.
    Cut { net: Text, msb: u32, lsb: u32 },
    /// A number of `width` bits, from 1 to 32 in a printable module.
    Lit { width: u32, value: u64 },
    /// The parts side by side, the first in the high bits.
    Cat(List<Expr>),
    /// Each bit turned.
    Not(Box<Expr>),
    /// The or of all bits, which is one bit.
    Any(Box<Expr>),
    /// The and of each two bits.
    And(Box<Expr>, Box<Expr>),
    /// The or of each two bits.
    Or(Box<Expr>, Box<Expr>),
    /// One bit: whether the two values are equal.
    Equal(Box<Expr>, Box<Expr>),
    /// The second value where the condition, one bit, is 1; the third where it is 0.
    Pick(Box<Expr>, Box<Expr>, Box<Expr>),
}
