//! What a crossbar's description says: its nodes, and which devices each host connects to (OpenTitan Crossbar Tool).

use crate::At;
use cg_base::{List, Text};

/// The addresses from `base` on, `size` of them; `size` is at most 2^32.
#[derive(Clone, Copy, Debug, PartialEq, Eq)]
pub struct Range {
    pub base: u32,
    pub size: u64,
}

/// A node: a host, or a device.
///
/// `name` is a name, or two names joined by a dot: an instance and its interface. `xbar` tells that the node stands for another
/// crossbar. `ranges` are the addresses that are written for the node; those of a host are read and not used. `to` has the numbers of
/// the devices that a host connects to, in the order in which they are written; a device has none. `at` is its name's value.
#[derive(Drop)]
pub struct NodeDesc {
    pub name: Text,
    pub host: bool,
    pub xbar: bool,
    pub clock: Text,
    pub ranges: List<Range>,
    pub to: List<u32>,
    pub at: At,
}

/// A crossbar, its nodes numbered from 0 in the order in which they are written. `at` is the root's opener.
#[derive(Drop)]
pub struct XbarDesc {
    pub file: u32,
    pub name: Text,
    pub clock: Text,
    pub nodes: List<NodeDesc>,
    pub at: At,
}

/// The ranges of a node that count for its crossbar.
#[derive(Drop)]
pub struct NodeRanges {
    pub ranges: List<Range>,
}
