//! The instances and crossbars of a top that breaks no rule, with their sources and base addresses.

ghost use Rattle.std.specs.Prelude.{◌≡◌, ◌++◌, ◌<◌, ◌^◌, [], IfOk, codes, map};
ghost use Rattle.std.specs.Option.{option_map_or};
ghost use Rattle.cg_keys.specs.Table.{value_at};
ghost use Rattle.cg_topread.specs.Described.{base_in, bases_in, face_base, faces_bases, instance_in, object_bases, pairs_of, source_in, use_in};

use crate::described::{HART, name_in, text_or_empty};
use crate::in_order::by_keys;
use crate::lists::members_at;
use crate::tables::WORD;
use cg_base::{List, Memory, Text};
use cg_desc::{FaceBase, InstDesc, NamePair, SpaceBase, XbarUse};
use cg_hjson::{Member, Tree};
use cg_keys::{members, number_within, object, place_at, text, text_at, value_at};
use std::alloc::Global;

/// The source that a member stands for: a string, or the string at `key` of an object.
#[tactic(auto, unfolding(crate::specs::Described::source_in))]
fn source_in<'a>(key: &str, tree: &'a Tree) -> &'a str
    ensures { result.now ≡ source_in key.now tree.now }
{
    match text(tree) {
        Some(source) => source,
        None => text_at(members(tree), key).unwrap_or(""),
    }
}

/// The ports with their sources, in the order of the ports' bytes.
fn pairs_of(alloc: Global, key: &str, sources: &[Member]) -> Result<List<NamePair>, Memory>
    ensures { IfOk result (λ pairs. pairs ≡ pairs_of key.now sources.now) }
{
    let mut left = by_keys(alloc, sources)?;
    let mut pairs = List::new(alloc);
    while let Some((port, tree)) = left.pop_first() {
        pairs.push(NamePair {
            port: Text::of(alloc, port)?,
            source: Text::of(alloc, source_in(key, tree))?,
        })?;
    }
    Ok(pairs)
}

#[tactic(auto, unfolding(crate::specs::Described::base_in))]
fn base_in(tree: &Tree) -> u32
    ensures { result ≡ base_in tree.now }
{
    match number_within(0, WORD, tree) {
        Some(base) => base as u32,
        None => 0,
    }
}

/// The bases of an object, in the order of the spaces' bytes.
fn object_bases(alloc: Global, bases: &[Member]) -> Result<List<SpaceBase>, Memory>
    ensures { IfOk result (λ listed. listed ≡ object_bases bases.now) }
{
    let mut left = by_keys(alloc, bases)?;
    let mut listed = List::new(alloc);
    while let Some((space, tree)) = left.pop_first() {
        listed.push(SpaceBase {
            space: Text::of(alloc, space)?,
            base: base_in(tree),
        })?;
    }
    Ok(listed)
}

/// The bases that a value says: a number is for `hart`, and an object has one for each space.
#[tactic(auto, unfolding(crate::specs::Described::bases_in))]
fn bases_in(alloc: Global, tree: &Tree) -> Result<List<SpaceBase>, Memory>
    ensures { IfOk result (λ bases. bases ≡ bases_in tree.now) }
{
    match object(tree) {
        Some(bases) => Ok(object_bases(alloc, bases)?),
        None => {
            let mut bases = List::new(alloc);
            bases.push(SpaceBase {
                space: Text::of(alloc, HART)?,
                base: base_in(tree),
            })?;
            Ok(bases)
        }
    }
}

fn bases_at(alloc: Global, instance: &[Member]) -> Result<List<SpaceBase>, Memory>
    ensures { IfOk result (λ bases. bases ≡ option_map_or bases_in (value_at (codes "base_addr") instance.now) []) }
{
    match value_at(instance, "base_addr") {
        Some(tree) => Ok(bases_in(alloc, tree)?),
        None => Ok(List::new(alloc)),
    }
}

/// A list with these bases of an interface behind it.
fn add_face(
    alloc: Global,
    mut faces: List<FaceBase>,
    face: &str,
    bases: &[SpaceBase],
) -> Result<List<FaceBase>, Memory>
    ensures { IfOk result (λ more. more ≡ faces ++ map (face_base face.now) bases.now) }
{
    for base in bases {
        faces.push(FaceBase {
            face: Text::of(alloc, face)?,
            space: base.space.copy()?,
            base: base.base,
        })?;
    }
    Ok(faces)
}

/// The bases of interfaces, in the order of the interfaces' bytes and then of the spaces'.
fn faces_bases(alloc: Global, bases: &[Member]) -> Result<List<FaceBase>, Memory>
    ensures { IfOk result (λ faces. faces ≡ faces_bases bases.now) }
{
    let mut left = by_keys(alloc, bases)?;
    let mut faces = List::new(alloc);
    while let Some((face, tree)) = left.pop_first() {
        let bases = bases_in(alloc, tree)?;
        faces = add_face(alloc, faces, face, bases.as_slice())?;
    }
    Ok(faces)
}

#[tactic(auto, unfolding(crate::specs::Described::instance_in))]
fn instance_in(alloc: Global, tree: &Tree) -> Result<InstDesc, Memory>
    ensures { IfOk result (λ instance. instance ≡ instance_in tree.now) }
{
    let instance = members(tree);
    Ok(InstDesc {
        name: Text::of(alloc, name_in(tree))?,
        kind: Text::of(alloc, text_or_empty(instance, "type"))?,
        clocks: pairs_of(alloc, "clock", members_at(instance, "clock_srcs"))?,
        resets: pairs_of(alloc, "name", members_at(instance, "reset_connections"))?,
        base: bases_at(alloc, instance)?,
        bases: faces_bases(alloc, members_at(instance, "base_addrs"))?,
        at: place_at(instance, "name", tree.at),
    })
}

/// The instances, in the order in which they are written.
pub(crate) fn instances_in(alloc: Global, items: &[Tree]) -> Result<List<InstDesc>, Memory>
    ensures { IfOk result (λ instances. instances ≡ map instance_in items.now) }
{
    let mut instances = List::new(alloc);
    for item in items {
        instances.push(instance_in(alloc, item)?)?;
    }
    Ok(instances)
}

#[tactic(auto, unfolding(crate::specs::Described::use_in))]
fn use_in(alloc: Global, tree: &Tree) -> Result<XbarUse, Memory>
    ensures { IfOk result (λ crossbar. crossbar ≡ use_in tree.now) }
{
    let crossbar = members(tree);
    Ok(XbarUse {
        name: Text::of(alloc, name_in(tree))?,
        space: Text::of(alloc, text_at(crossbar, "addr_space").unwrap_or(HART))?,
        clocks: pairs_of(alloc, "clock", members_at(crossbar, "clock_srcs"))?,
        at: place_at(crossbar, "name", tree.at),
    })
}

/// The crossbars, in the order in which they are written.
pub(crate) fn uses_in(alloc: Global, items: &[Tree]) -> Result<List<XbarUse>, Memory>
    ensures { IfOk result (λ crossbars. crossbars ≡ map use_in items.now) }
{
    let mut crossbars = List::new(alloc);
    for item in items {
        crossbars.push(use_in(alloc, item)?)?;
    }
    Ok(crossbars)
}
