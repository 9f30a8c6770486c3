//! The base of a device interface in a top (OpenTitan Top Generation Tool).

ghost use Rattle.std.specs.Prelude.{◌≡◌, ◌↔◌, ◌++◌, ◌∷◌, ℕ, Some, codes, position};
ghost use Rattle.std.specs.Option.{option_copied};
ghost use Rattle.std.specs.Str.{bytes_eq};
ghost use Rattle.cg_desc.specs.Bases.{base_in, has_one_face, or_else, own_base, written_base, written_face_base};
ghost use Rattle.cg_desc.specs.FoundBase.{base_at, block_of, found_base, found_in, has_device_for, is_device_for, is_meant, space_at, space_for};
ghost use Rattle.cg_desc.specs.Merged.{AreKinds, BaseIs, FaceAt, IsMerged, design_of};
ghost use Rattle.cg_desc.specs.Top.{AreItsFiles};
ghost use Rattle.cg_desc.specs.declared.block.LaidFace.{LaidFace};

use crate::block::{LaidBlock, LaidFace};
use crate::crossbar::{NodeDesc, XbarDesc};
use crate::top::{FaceBase, InstDesc, MergedTop, SpaceBase, TopDesc};
use cg_base::Text;

/// Whether a text is an instance's name, a dot and an interface's name.
fn is_dotted(name: &str, instance: &str, interface: &str) -> bool
    ensures { result ≡ bytes_eq name.now (instance.now ++ (46 ∷ interface.now)) }
{
    let Some(rest) = name.as_bytes().strip_prefix(instance.as_bytes()) else {
        return false;
    };
    let Some(rest) = rest.strip_prefix(b".") else {
        return false;
    };
    rest == interface.as_bytes()
}

/// Whether a node's name means an interface of an instance.
///
/// `interface` is the interface's name, if it has one, and `is_sole` tells that the instance's block has no other of its direction.
#[tactic(auto, unfolding(crate::specs::FoundBase::is_meant))]
pub fn is_meant(name: &str, instance: &str, is_sole: bool, interface: &Option<Text>) -> bool
    ensures { result ≡ is_meant name.now instance.now is_sole interface.now }
{
    match interface {
        None => name == instance,
        Some(interface) => {
            if is_sole && name == instance {
                return true;
            }
            is_dotted(name, instance, interface.as_str())
        }
    }
}

#[tactic(auto, unfolding(crate::specs::FoundBase::is_device_for))]
fn is_device_for(instance: &str, is_sole: bool, interface: &Option<Text>, node: &NodeDesc) -> bool
    ensures { result ≡ is_device_for instance.now is_sole interface.now node.now }
{
    if node.host || node.xbar {
        return false;
    }
    is_meant(node.name.as_str(), instance, is_sole, interface)
}

#[tactic(auto, unfolding(crate::specs::FoundBase::has_device_for))]
fn has_device_for(instance: &str, is_sole: bool, interface: &Option<Text>, xbar: &XbarDesc) -> bool
    ensures { result ≡ has_device_for instance.now is_sole interface.now xbar.now }
{
    xbar.nodes
        .as_slice()
        .iter()
        .any(|node| is_device_for(instance, is_sole, interface, node))
}

/// The space of the crossbar of this number, or the first space.
#[tactic(auto, unfolding(crate::specs::FoundBase::space_at, crate::specs::FoundBase::space_of_use, crate::specs::FoundBase::name_of_space))]
fn space_at(top: &TopDesc, xbar: Option<usize>) -> Option<&str>
    ensures { option_copied result ≡ space_at top.now xbar }
{
    match xbar {
        Some(xbar) => match top.xbars.as_slice().get(xbar) {
            Some(listed) => Some(listed.space.as_str()),
            None => None,
        },
        None => match top.spaces.as_slice().get(0) {
            Some(space) => Some(space.name.as_str()),
            None => None,
        },
    }
}

/// The number of the first crossbar that has a device for an interface.
fn place_of(
    xbars: &[XbarDesc],
    instance: &str,
    is_sole: bool,
    interface: &Option<Text>,
) -> Option<usize>
    ensures { result ≡ position (has_device_for instance.now is_sole interface.now) xbars.now }
{
    xbars
        .iter()
        .position(|xbar| has_device_for(instance, is_sole, interface, xbar))
}

/// The space of an interface: that of the first crossbar that has a device for it.
#[tactic(auto, unfolding(crate::specs::FoundBase::space_for))]
fn space_for<'a>(
    top: &'a MergedTop,
    inst: &InstDesc,
    is_sole: bool,
    interface: &Option<Text>,
) -> Option<&'a str>
    ensures { option_copied result ≡ space_for top.now inst.now is_sole interface.now }
{
    let place = place_of(top.xbars.as_slice(), inst.name.as_str(), is_sole, interface);
    space_at(&top.top, place)
}

fn written_base(bases: &[SpaceBase], space: &str) -> Option<u32>
    ensures { result ≡ written_base bases.now space.now }
{
    for base in bases {
        if base.space.as_str() == space {
            return Some(base.base);
        }
    }
    None
}

fn written_face_base(bases: &[FaceBase], face: &str, space: &str) -> Option<u32>
    ensures { result ≡ written_face_base bases.now face.now space.now }
{
    for base in bases {
        if base.face.as_str() == face && base.space.as_str() == space {
            return Some(base.base);
        }
    }
    None
}

/// The base that is written under the interface's own name.
fn own_base(inst: &InstDesc, interface: &Option<Text>, space: &str) -> Option<u32>
    ensures { result ≡ own_base inst.now interface.now space.now }
{
    match interface {
        Some(name) => written_face_base(inst.bases.as_slice(), name.as_str(), space),
        None => None,
    }
}

/// The base of an instance's only interface, or the one under `null`.
fn sole_base(inst: &InstDesc, space: &str) -> Option<u32>
    ensures { result ≡ or_else (written_base inst.now.base space.now) (written_face_base inst.now.bases (codes "null") space.now) }
{
    match written_base(inst.base.as_slice(), space) {
        Some(base) => Some(base),
        None => written_face_base(inst.bases.as_slice(), "null", space),
    }
}

fn base_in(inst: &InstDesc, is_sole: bool, interface: &Option<Text>, space: &str) -> Option<u32>
    ensures { result ≡ base_in inst.now is_sole interface.now space.now }
{
    match own_base(inst, interface, space) {
        Some(base) => Some(base),
        None => {
            if is_sole {
                sole_base(inst, space)
            } else {
                None
            }
        }
    }
}

impl MergedTop {
    /// The block of an instance, or `None` where there is no such instance.
    #[tactic(auto, unfolding(crate::specs::FoundBase::block_of, crate::specs::FoundBase::block_at))]
    pub fn block_of(&self, inst: u32) -> Option<&LaidBlock>
        ensures { option_copied result ≡ block_of self.now inst }
    {
        match self.kinds.as_slice().get(inst as usize) {
            Some(kind) => self.blocks.as_slice().get(*kind as usize),
            None => None,
        }
    }

    /// The base of an interface of an instance of a block.
    #[tactic(auto, unfolding(crate::specs::FoundBase::base_at, crate::specs::FoundBase::found_in))]
    fn base_of_face(&self, inst: &InstDesc, block: &LaidBlock, face: &LaidFace) -> Option<u32>
        ensures { result ≡ found_in self.now (Some inst.now) block.now (Some face.now) }
    {
        let is_sole = block.faces.len() == 1;
        match space_for(self, inst, is_sole, &face.name) {
            Some(space) => base_in(inst, is_sole, &face.name, space),
            None => None,
        }
    }

    #[tactic(auto, unfolding(crate::specs::FoundBase::found_base, crate::specs::FoundBase::found_of, crate::specs::FoundBase::found_in))]
    fn found_base(&self, inst: u32, face: u32) -> Option<u32>
        ensures { result ≡ found_base self.now inst face }
    {
        let Some(block) = self.block_of(inst) else {
            return None;
        };
        let Some(instance) = self.top.insts.as_slice().get(inst as usize) else {
            return None;
        };
        match block.faces.as_slice().get(face as usize) {
            Some(face) => self.base_of_face(instance, block, face),
            None => None,
        }
    }

    /// The base of a device interface of an instance in its address space, or `None` where it has none.
    ///
    /// An interface is in the space of the first crossbar that has a node for it, or in the first space that is listed where none has
    /// one. Its base there is the one under its own name; else, where it is the only one, the one of its instance, or the one under
    /// `null`. It takes no memory. The top's files may break rules on one another.
    pub fn find_base(&self, inst: u32, face: u32) -> Option<u32>
        requires files { AreItsFiles (design_of self.now) }
        requires kinds { AreKinds self.now }
        ensures { (base : ℕ) → (result ≡ Some base) ↔ BaseIs self.now inst face base }
    {
        self.found_base(inst, face)
    }

    /// The base of a device interface of an instance in its address space.
    ///
    /// `inst` and `face` name an interface that is there; in a merged top it has one base, which `find_base` says. It takes no memory.
    pub fn base(&self, inst: u32, face: u32) -> u32
        requires merged { IsMerged self.now }
        requires interface { (f : LaidFace) × FaceAt self.now inst face f }
        ensures { BaseIs self.now inst face result }
    {
        match self.find_base(inst, face) {
            Some(base) => base,
            // It is there.
            None => 0,
        }
    }
}
