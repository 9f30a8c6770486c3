//! The instances of a top by their numbers: their names, and the lists of their blocks.

ghost use Rattle.std.specs.Prelude.{◌≡◌, IfSome, IfNone, IfOk};
ghost use Rattle.cg_svbus.specs.TopViewed.{interrupt_of};
ghost use Rattle.cg_topspec.specs.Nets.{port_of, no_port, no_interrupt, takes_in, gives_out};
ghost use Rattle.cg_topspec.specs.Top.{instance_of, block_of, no_block};
ghost use Rattle.cg_topspec.specs.TopModule.{is_bit, port_bit};

use crate::top_ports::width_of;
use cg_base::Memory;
use cg_desc::{AlertDesc, HostFace, IntrDesc, IoDesc, IoDir, LaidBlock, LaidFace, MergedTop};
use cg_irq::Bit;

/// The name of an instance; empty where there is none of this number.
#[tactic(auto, using(crate::proofs::Countings::lookups))]
pub fn instance_name(top: &MergedTop, inst: usize) -> &str
    ensures { result.now ≡ (instance_of top.entry.now inst).name }
{
    match top.top.insts.as_slice().get(inst) {
        None => "",
        Some(instance) => instance.name.as_str(),
    }
}

/// The block of an instance, if it has one.
#[tactic(auto, using(crate::proofs::Countings::lookups))]
fn block(top: &MergedTop, inst: usize) -> Option<&LaidBlock>
    ensures some { IfSome result (λ b. b.now ≡ block_of top.entry.now inst) }
    ensures none { IfNone result (block_of top.entry.now inst ≡ no_block) }
{
    match top.kinds.as_slice().get(inst) {
        None => None,
        Some(kind) => top.blocks.as_slice().get(*kind as usize),
    }
}

/// The name of its type.
pub fn block_name(top: &MergedTop, inst: usize) -> &str
    ensures { result.now ≡ (block_of top.entry.now inst).desc.name }
{
    match block(top, inst) {
        None => "",
        Some(block) => block.desc.name.as_str(),
    }
}

/// Its device interfaces.
pub fn faces(top: &MergedTop, inst: usize) -> &[LaidFace]
    ensures { result.now ≡ (block_of top.entry.now inst).faces }
{
    match block(top, inst) {
        None => &[],
        Some(block) => block.faces.as_slice(),
    }
}

/// Its host interfaces.
pub fn host_faces(top: &MergedTop, inst: usize) -> &[HostFace]
    ensures { result.now ≡ (block_of top.entry.now inst).desc.hosts }
{
    match block(top, inst) {
        None => &[],
        Some(block) => block.desc.hosts.as_slice(),
    }
}

/// Its interrupts.
pub fn interrupts(top: &MergedTop, inst: usize) -> &[IntrDesc]
    ensures { result.now ≡ (block_of top.entry.now inst).desc.intrs }
{
    match block(top, inst) {
        None => &[],
        Some(block) => block.desc.intrs.as_slice(),
    }
}

/// Its alerts.
pub fn alerts(top: &MergedTop, inst: usize) -> &[AlertDesc]
    ensures { result.now ≡ (block_of top.entry.now inst).desc.alerts }
{
    match block(top, inst) {
        None => &[],
        Some(block) => block.desc.alerts.as_slice(),
    }
}

/// Its ports that go to pins.
pub fn pin_ports(top: &MergedTop, inst: usize) -> &[IoDesc]
    ensures { result.now ≡ (block_of top.entry.now inst).desc.ios }
{
    match block(top, inst) {
        None => &[],
        Some(block) => block.desc.ios.as_slice(),
    }
}

/// The interrupt of a bit, if there is one.
#[tactic(auto, using(crate::proofs::Countings::lookups))]
fn interrupt(top: &MergedTop, bit: Bit) -> Option<&IntrDesc>
    ensures some { IfSome result (λ i. i.now ≡ interrupt_of top.entry.now bit) }
    ensures none { IfNone result (interrupt_of top.entry.now bit ≡ no_interrupt) }
{
    interrupts(top, bit.inst as usize).get(bit.item as usize)
}

/// Its name.
pub fn interrupt_name(top: &MergedTop, bit: Bit) -> &str
    ensures { result.now ≡ (interrupt_of top.entry.now bit).name }
{
    match interrupt(top, bit) {
        None => "",
        Some(interrupt) => interrupt.name.as_str(),
    }
}

/// How many bits it has.
pub fn interrupt_width(top: &MergedTop, bit: Bit) -> u32
    ensures { result ≡ (interrupt_of top.now bit).width }
{
    match interrupt(top, bit) {
        None => 1,
        Some(interrupt) => interrupt.width,
    }
}

/// The port of a bit, if there is one.
#[tactic(auto, using(crate::proofs::Countings::lookups))]
fn port(top: &MergedTop, bit: Bit) -> Option<&IoDesc>
    ensures some { IfSome result (λ p. p.now ≡ port_of top.entry.now bit) }
    ensures none { IfNone result (port_of top.entry.now bit ≡ no_port) }
{
    pin_ports(top, bit.inst as usize).get(bit.item as usize)
}

/// Its name.
pub fn port_name(top: &MergedTop, bit: Bit) -> &str
    ensures { result.now ≡ (port_of top.entry.now bit).name }
{
    match port(top, bit) {
        None => "",
        Some(port) => port.name.as_str(),
    }
}

/// How many bits it has.
pub fn port_width(top: &MergedTop, bit: Bit) -> u32
    ensures { result ≡ (port_of top.now bit).width }
{
    match port(top, bit) {
        None => 1,
        Some(port) => port.width,
    }
}

/// Whether it gives bits out.
pub fn port_gives_out(top: &MergedTop, bit: Bit) -> bool
    ensures { result ≡ gives_out (port_of top.now bit).dir }
{
    match port(top, bit) {
        None => false,
        Some(port) => gives_out(port.dir),
    }
}

/// Whether a port of this direction takes bits in.
pub fn takes_in(direction: IoDir) -> bool
    ensures { result ≡ takes_in direction }
{
    match direction {
        IoDir::In | IoDir::InOut => true,
        IoDir::Out => false,
    }
}

/// Whether a port of this direction gives bits out.
pub fn gives_out(direction: IoDir) -> bool
    ensures { result ≡ gives_out direction }
{
    match direction {
        IoDir::Out | IoDir::InOut => true,
        IoDir::In => false,
    }
}

/// Whether two bits are one.
pub fn is_bit(one: Bit, other: Bit) -> bool
    ensures { result ≡ is_bit one other }
{
    one.inst == other.inst && one.item == other.item && one.bit == other.bit
}

/// A bit of an instance's port.
pub fn port_bit(inst: usize, port: usize, bit: usize) -> Result<Bit, Memory>
    ensures { IfOk result (λ b. b ≡ port_bit inst port bit) }
{
    Ok(Bit {
        inst: width_of(inst)?,
        item: width_of(port)?,
        bit: width_of(bit)?,
    })
}
