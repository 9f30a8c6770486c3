//! The descriptions of a block's clocks, interrupts, alerts and pins.

ghost use Rattle.std.specs.Prelude.{◌≡◌, ◌++◌, [], IfOk, OnOk, codes, false, map, unwrap_or};
ghost use Rattle.std.specs.Option.{option_map_or};
ghost use Rattle.std.specs.Str.{bytes_eq};
ghost use Rattle.cg_keys.specs.Lookups.{number_at, text_at};
ghost use Rattle.cg_blkread.specs.Described.{alert_desc, clock_desc, interrupt_desc, pin_desc, pins_of};

use crate::parameters::word_at;
use crate::read_entries::copy_of;
use cg_base::{List, Memory, Text};
use cg_desc::{AlertDesc, ClockDesc, IntrDesc, IoDesc, IoDir};
use cg_hjson::{Member, Tree};
use cg_keys::{elements, members, place_at, text_at};
use std::alloc::Global;

/// The text at a key, or an empty one.
pub(crate) fn text_copy(alloc: Global, members: &[Member], key: &str) -> Result<Text, Memory>
    ensures { IfOk result (λ text. text ≡ unwrap_or (text_at key.now members.now) []) }
{
    Text::of(alloc, text_at(members, key).unwrap_or(""))
}

fn width(members: &[Member]) -> u32
    ensures { result ≡ unwrap_or (number_at 0 4294967295 (codes "width") members.now) 1 }
{
    word_at(members, "width").unwrap_or(1)
}

fn is_status(members: &[Member]) -> bool
    ensures { result ≡ option_map_or (bytes_eq (codes "status")) (text_at (codes "type") members.now) false }
{
    match text_at(members, "type") {
        Some(word) => "status" == word,
        None => false,
    }
}

#[tactic(auto, unfolding(crate::specs::Described::clock_desc))]
fn describe_clock(alloc: Global, tree: &Tree) -> Result<ClockDesc, Memory>
    ensures { IfOk result (λ clock. clock ≡ clock_desc tree.now) }
{
    let members = members(tree);
    let clock = text_copy(alloc, members, "clock")?;
    let reset = copy_of(alloc, text_at(members, "reset"))?;
    Ok(ClockDesc { clock, reset })
}

#[tactic(auto, unfolding(crate::specs::Described::interrupt_desc))]
fn describe_interrupt(alloc: Global, tree: &Tree) -> Result<IntrDesc, Memory>
    ensures { IfOk result (λ interrupt. interrupt ≡ interrupt_desc tree.now) }
{
    let members = members(tree);
    let name = text_copy(alloc, members, "name")?;
    Ok(IntrDesc {
        name,
        width: width(members),
        status: is_status(members),
        at: place_at(members, "name", tree.at),
    })
}

#[tactic(auto, unfolding(crate::specs::Described::alert_desc))]
fn describe_alert(alloc: Global, tree: &Tree) -> Result<AlertDesc, Memory>
    ensures { IfOk result (λ alert. alert ≡ alert_desc tree.now) }
{
    let members = members(tree);
    let name = text_copy(alloc, members, "name")?;
    Ok(AlertDesc {
        name,
        at: place_at(members, "name", tree.at),
    })
}

#[tactic(auto, unfolding(crate::specs::Described::pin_desc))]
fn describe_pin(alloc: Global, dir: IoDir, tree: &Tree) -> Result<IoDesc, Memory>
    ensures { IfOk result (λ pin. pin ≡ pin_desc dir tree.now) }
{
    let members = members(tree);
    let name = text_copy(alloc, members, "name")?;
    Ok(IoDesc {
        name,
        width: width(members),
        dir,
    })
}

/// The clocks of a list.
pub(crate) fn describe_clocks(alloc: Global, items: &[Tree]) -> Result<List<ClockDesc>, Memory>
    ensures { IfOk result (λ clocks. clocks ≡ map clock_desc items.now) }
{
    let mut clocks = List::new(alloc);
    for item in items {
        clocks.push(describe_clock(alloc, item)?)?;
    }
    Ok(clocks)
}

/// The interrupts of a list.
pub(crate) fn describe_interrupts(alloc: Global, items: &[Tree]) -> Result<List<IntrDesc>, Memory>
    ensures { IfOk result (λ interrupts. interrupts ≡ map interrupt_desc items.now) }
{
    let mut interrupts = List::new(alloc);
    for item in items {
        interrupts.push(describe_interrupt(alloc, item)?)?;
    }
    Ok(interrupts)
}

/// The alerts of a list.
pub(crate) fn describe_alerts(alloc: Global, items: &[Tree]) -> Result<List<AlertDesc>, Memory>
    ensures { IfOk result (λ alerts. alerts ≡ map alert_desc items.now) }
{
    let mut alerts = List::new(alloc);
    for item in items {
        alerts.push(describe_alert(alloc, item)?)?;
    }
    Ok(alerts)
}

fn add_pins(
    alloc: Global,
    dir: IoDir,
    items: &[Tree],
    pins: &mut List<IoDesc>,
) -> Result<(), Memory>
    ensures { OnOk result (pins.new ≡ pins.old ++ map (pin_desc dir) items.now) }
{
    for item in items {
        pins.push(describe_pin(alloc, dir, item)?)?;
    }
    Ok(())
}

/// The pins of a block: inputs, then outputs, then those that are both.
#[tactic(auto, unfolding(crate::specs::Described::pins_of))]
pub(crate) fn describe_pins(alloc: Global, block: &[Member]) -> Result<List<IoDesc>, Memory>
    ensures { IfOk result (λ pins. pins ≡ pins_of block.now) }
{
    let mut pins = List::new(alloc);
    add_pins(
        alloc,
        IoDir::In,
        elements(block, "available_input_list"),
        &mut pins,
    )?;
    add_pins(
        alloc,
        IoDir::Out,
        elements(block, "available_output_list"),
        &mut pins,
    )?;
    add_pins(
        alloc,
        IoDir::InOut,
        elements(block, "available_inout_list"),
        &mut pins,
    )?;
    Ok(pins)
}
