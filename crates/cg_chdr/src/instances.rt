//! The instances of a top by their numbers, and what their bits are of.

ghost use Rattle.std.specs.Prelude.{◌≡◌, IfSome, IfNone, get_or, unwrap_or};
ghost use Rattle.cg_desc.specs.FoundBase.{found_base};
ghost use Rattle.cg_desc.specs.Merged.{AreKinds, design_of};
ghost use Rattle.cg_desc.specs.Top.{AreItsFiles};
ghost use Rattle.cg_topspec.specs.Nets.{no_alert, no_interrupt, port_of};
ghost use Rattle.cg_topspec.specs.Top.{block_of, instance_of, no_block};

use cg_desc::{AlertDesc, IntrDesc, IoDesc, LaidBlock, LaidFace, MergedTop};
use cg_irq::Bit;

/// What a bit is of: its name, and how many bits it has.
#[derive(Clone, Copy)]
pub struct Item<'a> {
    pub name: &'a str,
    pub width: u32,
}

/// The name of an instance; empty where there is none of this number.
#[tactic(auto, using(crate::proofs::Lookups::lookups))]
pub fn instance_name(top: &MergedTop, inst: u32) -> &str
    ensures { result.now ≡ (instance_of top.entry.now inst).name }
{
    match top.top.insts.as_slice().get(inst as usize) {
        None => "",
        Some(instance) => instance.name.as_str(),
    }
}

/// The block of an instance, if it has one.
#[tactic(auto, using(crate::proofs::Lookups::blocks))]
fn block(top: &MergedTop, inst: u32) -> Option<&LaidBlock>
    ensures some { IfSome result (λ b. b.now ≡ block_of top.entry.now inst) }
    ensures none { IfNone result (block_of top.entry.now inst ≡ no_block) }
{
    top.block_of(inst)
}

/// Its device interfaces.
pub fn faces(top: &MergedTop, inst: u32) -> &[LaidFace]
    ensures { result.now ≡ (block_of top.entry.now inst).faces }
{
    match block(top, inst) {
        None => &[],
        Some(block) => block.faces.as_slice(),
    }
}

/// The base of a device interface; 0 where it has none.
pub fn base(top: &MergedTop, inst: u32, face: u32) -> u32
    requires files { AreItsFiles (design_of top.now) }
    requires kinds { AreKinds top.now }
    ensures { result ≡ unwrap_or (found_base top.now inst face) 0 }
{
    match top.find_base(inst, face) {
        None => 0,
        Some(base) => base,
    }
}

fn interrupts(top: &MergedTop, inst: u32) -> &[IntrDesc]
    ensures { result.now ≡ (block_of top.entry.now inst).desc.intrs }
{
    match block(top, inst) {
        None => &[],
        Some(block) => block.desc.intrs.as_slice(),
    }
}

fn alerts(top: &MergedTop, inst: u32) -> &[AlertDesc]
    ensures { result.now ≡ (block_of top.entry.now inst).desc.alerts }
{
    match block(top, inst) {
        None => &[],
        Some(block) => block.desc.alerts.as_slice(),
    }
}

fn ports(top: &MergedTop, inst: u32) -> &[IoDesc]
    ensures { result.now ≡ (block_of top.entry.now inst).desc.ios }
{
    match block(top, inst) {
        None => &[],
        Some(block) => block.desc.ios.as_slice(),
    }
}

/// The interrupt of a bit.
#[tactic(auto, using(crate::proofs::Lookups::lookups))]
pub fn interrupt(top: &MergedTop, bit: Bit) -> Item<'_>
    ensures name { result.name.now ≡ (get_or (block_of top.entry.now bit.inst).desc.intrs bit.item no_interrupt).name }
    ensures width { result.width ≡ (get_or (block_of top.entry.now bit.inst).desc.intrs bit.item no_interrupt).width }
{
    match interrupts(top, bit.inst).get(bit.item as usize) {
        None => Item { name: "", width: 1 },
        Some(interrupt) => Item {
            name: interrupt.name.as_str(),
            width: interrupt.width,
        },
    }
}

/// The alert of a bit, which has one bit.
#[tactic(auto, using(crate::proofs::Lookups::lookups))]
pub fn alert(top: &MergedTop, bit: Bit) -> Item<'_>
    ensures name { result.name.now ≡ (get_or (block_of top.entry.now bit.inst).desc.alerts bit.item no_alert).name }
    ensures width { result.width ≡ 1 }
{
    match alerts(top, bit.inst).get(bit.item as usize) {
        None => Item { name: "", width: 1 },
        Some(alert) => Item {
            name: alert.name.as_str(),
            width: 1,
        },
    }
}

/// The port of a bit.
#[tactic(auto, using(crate::proofs::Lookups::lookups))]
pub fn port(top: &MergedTop, bit: Bit) -> Item<'_>
    ensures name { result.name.now ≡ (port_of top.entry.now bit).name }
    ensures width { result.width ≡ (port_of top.entry.now bit).width }
{
    match ports(top, bit.inst).get(bit.item as usize) {
        None => Item { name: "", width: 1 },
        Some(port) => Item {
            name: port.name.as_str(),
            width: port.width,
        },
    }
}
