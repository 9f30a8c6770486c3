//! What a top's description says, and a top joined with its blocks and crossbars (OpenTitan Top Generation Tool).

use crate::At;
use crate::block::LaidBlock;
use crate::crossbar::XbarDesc;
use cg_base::{List, Text};

/// An address space that a top lists; `at` is its name's value.
#[derive(Drop)]
pub struct SpaceDesc {
    pub name: Text,
    pub at: At,
}

/// A port, and the name of the clock or reset that it is given.
#[derive(Drop)]
pub struct NamePair {
    pub port: Text,
    pub source: Text,
}

/// A base address in an address space.
#[derive(Drop)]
pub struct SpaceBase {
    pub space: Text,
    pub base: u32,
}

/// A base address, in an address space, of the device interface that is meant by this key.
#[derive(Drop)]
pub struct FaceBase {
    pub face: Text,
    pub space: Text,
    pub base: u32,
}

/// An instance of the block of type `kind`.
///
/// `clocks` and `resets` have a source for each port that is named, in the order of the ports' bytes. `base` has the bases that are
/// written for the instance, in the order of the spaces' bytes, and `bases` those written for its interfaces, in the order of the
/// interfaces' bytes and then the spaces'. `at` is its name's value.
#[derive(Drop)]
pub struct InstDesc {
    pub name: Text,
    pub kind: Text,
    pub clocks: List<NamePair>,
    pub resets: List<NamePair>,
    pub base: List<SpaceBase>,
    pub bases: List<FaceBase>,
    pub at: At,
}

/// A crossbar that a top lists, with its address space and the sources of its clocks; `at` is its name's value.
#[derive(Drop)]
pub struct XbarUse {
    pub name: Text,
    pub space: Text,
    pub clocks: List<NamePair>,
    pub at: At,
}

/// How a port goes to pins: by the next free number, to a pad of its own, or not by the top.
#[derive(Clone, Copy, Debug, PartialEq, Eq)]
pub enum Joint {
    Muxed,
    Direct,
    Manual,
}

/// A port of an instance that goes to pins. `port` is a port, one of its bits, or empty for all ports; `at` is the signal's opener.
#[derive(Drop)]
pub struct SignalDesc {
    pub inst: Text,
    pub port: Text,
    pub joint: Joint,
    pub pad: Option<Text>,
    pub at: At,
}

/// A top, as its description says it. `sources` are the clocks that are given, then those that are made of them; `at` is the
/// root's opener.
#[derive(Drop)]
pub struct TopDesc {
    pub file: u32,
    pub name: Text,
    pub sources: List<Text>,
    pub resets: List<Text>,
    pub spaces: List<SpaceDesc>,
    pub insts: List<InstDesc>,
    pub xbars: List<XbarUse>,
    pub pads: List<Text>,
    pub signals: List<SignalDesc>,
    pub at: At,
}

/// What a node of a crossbar stands for in its top: a device interface or a host interface of an instance, a crossbar, or nothing.
///
/// `inst` and `xbar` number the instances and the crossbars as the top lists them, `face` the device interfaces or the host
/// interfaces of the instance's block, each from 0.
#[derive(Clone, Copy, Debug, PartialEq, Eq)]
pub enum NodeEnd {
    Face { inst: u32, face: u32 },
    Host { inst: u32, face: u32 },
    Xbar { xbar: u32 },
    Outside,
}

/// What each node of a crossbar stands for.
#[derive(Drop)]
pub struct XbarEnds {
    pub ends: List<NodeEnd>,
}

/// A top with its crossbars, in the order in which it lists them, and its blocks, one for each type in the order of first use.
///
/// `kinds` has the number of each instance's block, and `ends` what the nodes of each crossbar stand for.
#[derive(Drop)]
pub struct MergedTop {
    pub top: TopDesc,
    pub xbars: List<XbarDesc>,
    pub blocks: List<LaidBlock>,
    pub kinds: List<u32>,
    pub ends: List<XbarEnds>,
}
