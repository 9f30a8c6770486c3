//! The constants of a top's header, in their order.

ghost use Rattle.std.specs.Prelude.{◌≡◌, ◌<◌, ◌^◌, [], ◌∷◌, ◌++◌, IfOk, OnOk, IsTrue, codes, flat_map, length, map};
ghost use Rattle.cg_blkhdr.specs.Views.{definition_of};
ghost use Rattle.cg_desc.specs.Merged.{AreKinds, design_of};
ghost use Rattle.cg_desc.specs.Top.{AreItsFiles};
ghost use Rattle.cg_hdrspec.specs.BlockHeader.{in_decimal};
ghost use Rattle.cg_tophdr.specs.Laws.{NumbersFit};
ghost use Rattle.cg_tophdr.specs.TopHeader.{interface_definitions, instance_definitions, numbered_from, interrupt_definition, alert_definition, pin_definition, top_definitions};
ghost use Rattle.cg_topspec.specs.Top.{instance_numbers};

use crate::instances::{alert, base, faces, instance_name, interrupt, port};
use crate::names::{bit_name, interface_name};
use cg_base::{List, Memory, Text};
use cg_blkhdr::{Definition, add_hexadecimal};
use cg_desc::{LaidFace, MergedTop};
use cg_irq::{Bit, IrqMap};
use cg_pinmux::PinMap;
use std::alloc::Global;

/// An index as a number of 32 bits. `Memory` where it is larger: that many things with their names are not held in memory.
fn number_of(index: usize) -> Result<u32, Memory>
    ensures { IfOk result (λ number. number ≡ index) }
{
    match u32::try_from(index) {
        Ok(number) => Ok(number),
        Err(_) => Err(Memory),
    }
}

/// Adds the base and the size of a device interface.
#[tactic(auto, unfolding(cg_tophdr::specs::TopHeader::interface_definitions))]
fn add_interface(
    alloc: Global,
    definitions: &mut List<Definition>,
    top: &MergedTop,
    inst: u32,
    number: u32,
    face: &LaidFace,
) -> Result<(), Memory>
    requires files { AreItsFiles (design_of top.now) }
    requires kinds { AreKinds top.now }
    ensures { OnOk result (map definition_of definitions.new ≡ map definition_of definitions.old ++ interface_definitions top.now inst number face.now) }
{
    let inst_name = instance_name(top, inst);
    let name = interface_name(alloc, top.top.name.as_str(), inst_name, &face.name)?;
    let base = base(top, inst, number);
    add_hexadecimal(alloc, definitions, name.as_str(), "_BASE_ADDR", base)?;
    add_hexadecimal(alloc, definitions, name.as_str(), "_SIZE_BYTES", face.size)?;
    Ok(())
}

/// Adds those of an instance's interfaces.
fn add_instance(
    alloc: Global,
    definitions: &mut List<Definition>,
    top: &MergedTop,
    inst: u32,
) -> Result<(), Memory>
    requires files { AreItsFiles (design_of top.now) }
    requires kinds { AreKinds top.now }
    ensures { OnOk result (map definition_of definitions.new ≡ map definition_of definitions.old ++ instance_definitions top.now inst) }
{
    for (index, face) in faces(top, inst).iter().enumerate() {
        add_interface(alloc, definitions, top, inst, number_of(index)?, face)?;
    }
    Ok(())
}

/// Adds those of all instances.
fn add_instances(
    alloc: Global,
    definitions: &mut List<Definition>,
    top: &MergedTop,
) -> Result<(), Memory>
    requires files { AreItsFiles (design_of top.now) }
    requires kinds { AreKinds top.now }
    ensures { OnOk result (map definition_of definitions.new ≡ map definition_of definitions.old
        ++ flat_map (instance_definitions top.now) (instance_numbers top.now)) }
{
    for index in 0..top.top.insts.len() {
        add_instance(alloc, definitions, top, number_of(index)?)?;
    }
    Ok(())
}

/// Adds a number under its name.
fn add_number(definitions: &mut List<Definition>, name: Text, number: u32) -> Result<(), Memory>
    ensures { OnOk result (map definition_of definitions.new ≡ map definition_of definitions.old ++ in_decimal name number ∷ []) }
{
    definitions.push(Definition {
        name,
        hexadecimal: false,
        value: number,
    })?;
    Ok(())
}

/// Adds the number of a bit of an interrupt.
#[tactic(auto, unfolding(cg_tophdr::specs::TopHeader::interrupt_definition))]
fn add_interrupt(
    alloc: Global,
    definitions: &mut List<Definition>,
    top: &MergedTop,
    number: u32,
    bit: Bit,
) -> Result<(), Memory>
    ensures { OnOk result (map definition_of definitions.new ≡ map definition_of definitions.old ++ interrupt_definition top.now number bit ∷ []) }
{
    let inst = instance_name(top, bit.inst);
    let item = interrupt(top, bit);
    let name = bit_name(alloc, top.top.name.as_str(), "IRQ", inst, item, bit.bit)?;
    add_number(definitions, name, number)?;
    Ok(())
}

/// Adds the number of an alert.
#[tactic(auto, unfolding(cg_tophdr::specs::TopHeader::alert_definition))]
fn add_alert(
    alloc: Global,
    definitions: &mut List<Definition>,
    top: &MergedTop,
    number: u32,
    bit: Bit,
) -> Result<(), Memory>
    ensures { OnOk result (map definition_of definitions.new ≡ map definition_of definitions.old ++ alert_definition top.now number bit ∷ []) }
{
    let inst = instance_name(top, bit.inst);
    let item = alert(top, bit);
    let name = bit_name(alloc, top.top.name.as_str(), "ALERT", inst, item, bit.bit)?;
    add_number(definitions, name, number)?;
    Ok(())
}

/// Adds the number of a bit of a port, behind the word for its direction.
#[tactic(auto, unfolding(cg_tophdr::specs::TopHeader::pin_definition))]
fn add_pin(
    alloc: Global,
    definitions: &mut List<Definition>,
    top: &MergedTop,
    kind: &str,
    number: u32,
    bit: Bit,
) -> Result<(), Memory>
    ensures { OnOk result (map definition_of definitions.new ≡ map definition_of definitions.old ++ pin_definition kind.now top.now number bit ∷ []) }
{
    let inst = instance_name(top, bit.inst);
    let item = port(top, bit);
    let name = bit_name(alloc, top.top.name.as_str(), kind, inst, item, bit.bit)?;
    add_number(definitions, name, number)?;
    Ok(())
}

/// Adds the numbers of the interrupts, from 1 on.
fn add_interrupts(
    alloc: Global,
    definitions: &mut List<Definition>,
    top: &MergedTop,
    bits: &[Bit],
) -> Result<(), Memory>
    requires { length bits.now < 2 ^ 32 }
    ensures { OnOk result (map definition_of definitions.new ≡ map definition_of definitions.old ++ numbered_from (interrupt_definition top.now) 1 bits.now) }
{
    for (index, bit) in bits.iter().enumerate() {
        add_interrupt(alloc, definitions, top, (index + 1) as u32, *bit)?;
    }
    Ok(())
}

/// Adds the numbers of the alerts, from 0 on.
fn add_alerts(
    alloc: Global,
    definitions: &mut List<Definition>,
    top: &MergedTop,
    bits: &[Bit],
) -> Result<(), Memory>
    requires { length bits.now < 2 ^ 32 }
    ensures { OnOk result (map definition_of definitions.new ≡ map definition_of definitions.old ++ numbered_from (alert_definition top.now) 0 bits.now) }
{
    for (index, bit) in bits.iter().enumerate() {
        add_alert(alloc, definitions, top, index as u32, *bit)?;
    }
    Ok(())
}

/// Adds the numbers of the bits of ports in one direction, from 0 on.
fn add_pins(
    alloc: Global,
    definitions: &mut List<Definition>,
    top: &MergedTop,
    kind: &str,
    bits: &[Bit],
) -> Result<(), Memory>
    requires { length bits.now < 2 ^ 32 }
    ensures { OnOk result (map definition_of definitions.new ≡ map definition_of definitions.old ++ numbered_from (pin_definition kind.now top.now) 0 bits.now) }
{
    for (index, bit) in bits.iter().enumerate() {
        add_pin(alloc, definitions, top, kind, index as u32, *bit)?;
    }
    Ok(())
}

/// Whether each bit has a number of 32 bits: there are fewer than 2^32 of each kind.
fn numbers_fit(irq: &IrqMap, pins: &PinMap) -> bool
    ensures { IsTrue result → NumbersFit irq.now pins.now }
{
    let limit = 1 << 32;
    irq.intr.len() < limit
        && irq.alert.len() < limit
        && pins.ins.len() < limit
        && pins.outs.len() < limit
}

/// The constants of a top: its interfaces, then the numbers of interrupts, alerts, and inputs and outputs at pins.
///
/// `Memory` where there are 2^32 bits of a kind or more: that many names are not held in memory.
#[tactic(auto, unfolding(cg_tophdr::specs::TopHeader::top_definitions))]
pub fn definitions_of(
    alloc: Global,
    top: &MergedTop,
    irq: &IrqMap,
    pins: &PinMap,
) -> Result<List<Definition>, Memory>
    requires files { AreItsFiles (design_of top.now) }
    requires kinds { AreKinds top.now }
    ensures all { IfOk result (λ ds. map definition_of ds ≡ top_definitions top.now irq.now pins.now) }
    ensures few { OnOk result (NumbersFit irq.now pins.now) }
{
    if !numbers_fit(irq, pins) {
        return Err(Memory);
    }
    let mut definitions = List::new(alloc);
    add_instances(alloc, &mut definitions, top)?;
    add_interrupts(alloc, &mut definitions, top, irq.intr.as_slice())?;
    add_alerts(alloc, &mut definitions, top, irq.alert.as_slice())?;
    add_pins(alloc, &mut definitions, top, "MIO_IN", pins.ins.as_slice())?;
    add_pins(
        alloc,
        &mut definitions,
        top,
        "MIO_OUT",
        pins.outs.as_slice(),
    )?;
    Ok(definitions)
}
