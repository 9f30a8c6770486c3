//! Entries as they are written, with the names, kinds and numbers that count, before their values are judged.

use cg_base::{List, Text};
use cg_desc::{At, HwAccess, SwAccess};

/// The bits from `msb` down to `lsb`, at most 31.
#[derive(Clone, Copy, Debug, PartialEq, Eq)]
pub struct Bits {
    pub msb: u8,
    pub lsb: u8,
}

/// A field. `bits` are there where they are good, and `resval` where the field has a reset value of its own.
#[derive(Drop)]
pub struct RawField {
    pub name: Text,
    pub bits: Option<Bits>,
    pub bits_at: At,
    pub sw: SwAccess,
    pub hw: HwAccess,
    pub resval: Option<u32>,
    pub resval_at: At,
    pub mubi: bool,
    pub at: At,
}

/// A register, its fields in written order.
#[derive(Drop)]
pub struct RawRegister {
    pub name: Text,
    pub fields: List<RawField>,
    pub fields_at: At,
    pub resval: Option<u32>,
    pub resval_at: At,
    pub regwen: Option<Text>,
    pub regwen_at: At,
    pub hwext: bool,
    pub hwqe: bool,
    pub hwre: bool,
    pub shadowed: bool,
    pub at: At,
}

/// Copies of a register. `count` is there where it is a number or names a parameter with one.
#[derive(Drop)]
pub struct RawMultireg {
    pub register: RawRegister,
    pub count: Option<u32>,
    pub count_at: At,
    pub compact: bool,
    pub regwen_multi: bool,
}

/// A window. `items` is there where it is a number or names a parameter with one.
#[derive(Drop)]
pub struct RawWindow {
    pub name: Text,
    pub items: Option<u32>,
    pub items_at: At,
    pub byte_write: bool,
    pub sw: SwAccess,
    pub at: At,
}

/// An entry.
#[derive(Drop)]
pub enum RawEntry {
    Register(RawRegister),
    Multireg(RawMultireg),
    Window(RawWindow),
    SkipTo { to: u32, at: At },
    Reserved { words: u32, at: At },
}
