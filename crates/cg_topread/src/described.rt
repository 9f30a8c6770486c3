//! The description of a top that breaks no rule.

ghost use Rattle.std.specs.Prelude.{◌≡◌, ◌++◌, IfOk, codes, map, option_map};
ghost use Rattle.cg_keys.specs.Table.{value_at};
ghost use Rattle.cg_topread.specs.Described.{joint_of, name_in, names_at, signal_in, space_in, spaces_in, text_or_empty, top_of};

use crate::described_instances::{instances_in, uses_in};
use crate::lists::members_at;
use cg_base::{List, Memory, Text};
use cg_desc::{At, Joint, SignalDesc, SpaceDesc, TopDesc};
use cg_hjson::{Member, Tree};
use cg_keys::{elements, items, members, place_at, text_at, value_at};
use std::alloc::Global;

/// The address space that is meant where none is named.
pub(crate) const HART: &str = "hart";

/// The string at a key, or else nothing.
#[tactic(auto, unfolding(crate::specs::Described::text_or_empty))]
pub(crate) fn text_or_empty<'a>(members: &'a [Member], key: &str) -> &'a str
    ensures { result.now ≡ text_or_empty key.now members.now }
{
    text_at(members, key).unwrap_or("")
}

/// The name of an object.
#[tactic(auto, unfolding(crate::specs::Described::name_in))]
pub(crate) fn name_in(tree: &Tree) -> &str
    ensures { result.now ≡ name_in tree.now }
{
    text_or_empty(members(tree), "name")
}

/// A list with the names of these objects behind it.
fn add_names(alloc: Global, mut names: List<Text>, items: &[Tree]) -> Result<List<Text>, Memory>
    ensures { IfOk result (λ more. more ≡ names ++ map name_in items.now) }
{
    for item in items {
        names.push(Text::of(alloc, name_in(item))?)?;
    }
    Ok(names)
}

/// The names of the objects of the list at a key.
#[tactic(auto, unfolding(crate::specs::Described::names_at))]
fn names_at(alloc: Global, members: &[Member], key: &str) -> Result<List<Text>, Memory>
    ensures { IfOk result (λ names. names ≡ names_at key.now members.now) }
{
    Ok(add_names(alloc, List::new(alloc), elements(members, key))?)
}

/// The names of the clocks: of those that are given, then of those that are made of them.
#[tactic(auto, unfolding(crate::specs::Described::names_at))]
fn sources_in(alloc: Global, clocks: &[Member]) -> Result<List<Text>, Memory>
    ensures { IfOk result (λ names. names ≡ names_at (codes "srcs") clocks.now ++ names_at (codes "derived_srcs") clocks.now) }
{
    let given = names_at(alloc, clocks, "srcs")?;
    Ok(add_names(alloc, given, elements(clocks, "derived_srcs"))?)
}

#[tactic(auto, unfolding(crate::specs::Described::space_in))]
fn space_in(alloc: Global, tree: &Tree) -> Result<SpaceDesc, Memory>
    ensures { IfOk result (λ space. space ≡ space_in tree.now) }
{
    Ok(SpaceDesc {
        name: Text::of(alloc, name_in(tree))?,
        at: place_at(members(tree), "name", tree.at),
    })
}

fn listed_spaces(alloc: Global, items: &[Tree]) -> Result<List<SpaceDesc>, Memory>
    ensures { IfOk result (λ spaces. spaces ≡ map space_in items.now) }
{
    let mut spaces = List::new(alloc);
    for item in items {
        spaces.push(space_in(alloc, item)?)?;
    }
    Ok(spaces)
}

/// The address spaces that are listed, or else `hart` alone, at the root's opener.
fn spaces_in(alloc: Global, opener: At, top: &[Member]) -> Result<List<SpaceDesc>, Memory>
    ensures { IfOk result (λ spaces. spaces ≡ spaces_in opener (value_at (codes "addr_spaces") top.now)) }
{
    match value_at(top, "addr_spaces") {
        Some(list) => Ok(listed_spaces(alloc, items(list))?),
        None => {
            let mut spaces = List::new(alloc);
            spaces.push(SpaceDesc {
                name: Text::of(alloc, HART)?,
                at: opener,
            })?;
            Ok(spaces)
        }
    }
}

/// How a port goes to pins, by its word.
fn joint_of(word: &str) -> Joint
    ensures { result ≡ joint_of word.now }
{
    if word == "direct" {
        Joint::Direct
    } else if word == "manual" {
        Joint::Manual
    } else {
        Joint::Muxed
    }
}

fn text_if_any(alloc: Global, text: Option<&str>) -> Result<Option<Text>, Memory>
    ensures { IfOk result (λ copy. copy ≡ option_map (λ s. s.now) text.entry) }
{
    match text {
        Some(text) => Ok(Some(Text::of(alloc, text)?)),
        None => Ok(None),
    }
}

#[tactic(auto, unfolding(crate::specs::Described::signal_in))]
fn signal_in(alloc: Global, tree: &Tree) -> Result<SignalDesc, Memory>
    ensures { IfOk result (λ signal. signal ≡ signal_in tree.now) }
{
    let signal = members(tree);
    Ok(SignalDesc {
        inst: Text::of(alloc, text_or_empty(signal, "instance"))?,
        port: Text::of(alloc, text_or_empty(signal, "port"))?,
        joint: joint_of(text_or_empty(signal, "connection")),
        pad: text_if_any(alloc, text_at(signal, "pad"))?,
        at: tree.at,
    })
}

fn signals_in(alloc: Global, items: &[Tree]) -> Result<List<SignalDesc>, Memory>
    ensures { IfOk result (λ signals. signals ≡ map signal_in items.now) }
{
    let mut signals = List::new(alloc);
    for item in items {
        signals.push(signal_in(alloc, item)?)?;
    }
    Ok(signals)
}

/// The description of the top whose file has this number.
#[tactic(auto, unfolding(crate::specs::Described::top_of))]
pub(crate) fn describe_top(alloc: Global, tree: &Tree, file: u32) -> Result<TopDesc, Memory>
    ensures { IfOk result (λ top. top ≡ top_of file tree.now) }
{
    let top = members(tree);
    Ok(TopDesc {
        file,
        name: Text::of(alloc, text_or_empty(top, "name"))?,
        sources: sources_in(alloc, members_at(top, "clocks"))?,
        resets: names_at(alloc, members_at(top, "resets"), "nodes")?,
        spaces: spaces_in(alloc, tree.at, top)?,
        insts: instances_in(alloc, elements(top, "module"))?,
        xbars: uses_in(alloc, elements(top, "xbar"))?,
        pads: names_at(alloc, members_at(top, "pinout"), "pads")?,
        signals: signals_in(alloc, elements(members_at(top, "pinmux"), "signals"))?,
        at: tree.at,
    })
}
