//! The first rule on keys, kinds and the profile that a block breaks.

ghost use Rattle.std.specs.Prelude.{◌≡◌, ◌++◌, IfOk, codes, map};
ghost use Rattle.std.specs.List.{flat_map};
ghost use Rattle.cg_finding.specs.Finding.{first_of};
ghost use Rattle.cg_finding.specs.Found.{sees};
ghost use Rattle.cg_keys.specs.Table.{key_of};
ghost use Rattle.cg_blkread.specs.Interfaces.{entry_lists, interfaces};
ghost use Rattle.cg_blkread.specs.Keys.{entry_list_faults, key_faults, lengths_faults, lists_faults, objects_faults, protocol_outside};
ghost use Rattle.cg_blkread.specs.Tables.{alert_keys, clocking_keys, interface_keys, interrupt_keys, parameter_keys, pin_keys};
ghost use Rattle.cg_blkread.specs.Views.{list_of};

use crate::entry_keys::first_in_entry_list;
use crate::entry_lists::{EntryList, entry_lists};
use crate::interfaces::first_in_interfaces;
use crate::profile::{protocol_outside, width_outside};
use crate::tables::{
    alert_rows, block_rows, clocking_rows, interface_rows, interrupt_rows, parameter_rows, pin_rows,
};
use cg_base::Memory;
use cg_finding::{Found, Rule, earlier_of, first_in_all};
use cg_hjson::{Member, Tree};
use cg_keys::{
    Row, elements, first_duplicate, first_in_each, first_in_elements, first_in_length,
    first_in_table, members,
};
use std::alloc::Global;

/// What is asked of a list of objects with keys by a table.
#[tactic(auto, unfolding(crate::specs::Keys::objects_faults), using(cg_finding::proofs::Firsts::firsts))]
fn first_in_objects<'a>(block: &[Member], key: &'a str, rows: &[Row]) -> Option<Found<'a>>
    ensures { sees result ≡ first_of (objects_faults key.now (map key_of rows.now) block.now) }
{
    earlier_of(
        first_in_elements(block, key),
        first_in_each(elements(block, key), rows),
    )
}

/// What is asked of the lists of pins.
fn first_in_pins(block: &[Member]) -> Option<Found<'static>>
    ensures { sees result ≡ first_of (objects_faults (codes "available_input_list") pin_keys block.now
        ++ (objects_faults (codes "available_output_list") pin_keys block.now
        ++ objects_faults (codes "available_inout_list") pin_keys block.now)) }
{
    let inputs = first_in_objects(block, "available_input_list", pin_rows());
    let outputs = first_in_objects(block, "available_output_list", pin_rows());
    let both = first_in_objects(block, "available_inout_list", pin_rows());
    earlier_of(inputs, earlier_of(outputs, both))
}

/// What is asked of the lists of interrupts, alerts and parameters.
fn first_in_signals(block: &[Member]) -> Option<Found<'static>>
    ensures { sees result ≡ first_of (objects_faults (codes "interrupt_list") interrupt_keys block.now
        ++ (objects_faults (codes "alert_list") alert_keys block.now
        ++ objects_faults (codes "param_list") parameter_keys block.now)) }
{
    let interrupts = first_in_objects(block, "interrupt_list", interrupt_rows());
    let alerts = first_in_objects(block, "alert_list", alert_rows());
    let parameters = first_in_objects(block, "param_list", parameter_rows());
    earlier_of(interrupts, earlier_of(alerts, parameters))
}

/// What is asked of the lists of clocks and interfaces.
fn first_in_clocks_and_interfaces(block: &[Member]) -> Option<Found<'static>>
    ensures { sees result ≡ first_of (objects_faults (codes "clocking") clocking_keys block.now
        ++ objects_faults (codes "bus_interfaces") interface_keys block.now) }
{
    let clocking = first_in_objects(block, "clocking", clocking_rows());
    let interfaces = first_in_objects(block, "bus_interfaces", interface_rows());
    earlier_of(clocking, interfaces)
}

/// What is asked of the lists of a block but for `registers`.
#[tactic(auto, unfolding(crate::specs::Keys::lists_faults), using(cg_finding::proofs::Firsts::firsts))]
fn first_in_lists(block: &[Member]) -> Option<Found<'static>>
    ensures { sees result ≡ first_of (lists_faults block.now) }
{
    let clocks_and_interfaces = first_in_clocks_and_interfaces(block);
    let signals = first_in_signals(block);
    let pins = first_in_pins(block);
    earlier_of(clocks_and_interfaces, earlier_of(signals, pins))
}

/// What is asked of the lengths of a block's lists.
#[tactic(auto, unfolding(crate::specs::Keys::lengths_faults), using(cg_finding::proofs::Firsts::firsts))]
fn first_in_lengths(block: &[Member]) -> Option<Found<'static>>
    ensures { sees result ≡ first_of (lengths_faults block.now) }
{
    let clocking = first_in_length(1, 64, block, "clocking");
    let inputs = first_in_length(0, 64, block, "available_input_list");
    let outputs = first_in_length(0, 64, block, "available_output_list");
    let both = first_in_length(0, 64, block, "available_inout_list");
    earlier_of(clocking, earlier_of(inputs, earlier_of(outputs, both)))
}

/// The protocol that is asked of an interface.
#[derive(Drop)]
struct Protocol;

impl<'r> Rule<'r, Tree> for Protocol {
    ghost use Rattle.cg_blkread.specs.Keys.{protocol_outside};

    ghost faults = { λ _ tree. protocol_outside tree };

    fn first(&self, item: &'r Tree) -> Option<Found<'r>> {
        protocol_outside(item)
    }
}

#[tactic(auto, unfolding(crate::specs::Interfaces::interfaces), using(cg_finding::proofs::Firsts::firsts))]
fn first_in_protocols(block: &[Member]) -> Option<Found<'_>>
    ensures { sees result ≡ first_of (flat_map protocol_outside (interfaces block.now)) }
{
    first_in_all(&Protocol, elements(block, "bus_interfaces"))
}

#[tactic(auto, using(cg_finding::proofs::Firsts::firsts))]
fn first_in_each_list<'a>(lists: &[EntryList<'a>]) -> Option<Found<'a>>
    ensures { sees result ≡ first_of (flat_map entry_list_faults (map list_of lists.now)) }
{
    let mut first = None;
    for list in lists {
        first = earlier_of(first, first_in_entry_list(list.key, list.value));
    }
    first
}

#[tactic(auto, using(cg_finding::proofs::Firsts::firsts))]
fn first_in_registers(alloc: Global, block: &[Member]) -> Result<Option<Found<'_>>, Memory>
    ensures { IfOk result (λ found. sees found ≡ first_of (flat_map entry_list_faults (entry_lists block.now))) }
{
    let lists = entry_lists(alloc, block)?;
    Ok(first_in_each_list(lists.as_slice()))
}

/// The first rule on keys, kinds and the profile that a block breaks.
///
/// Keys and names of a list are kept in sets, so it takes memory.
#[tactic(auto, unfolding(crate::specs::Keys::key_faults), using(cg_finding::proofs::Firsts::firsts))]
pub(crate) fn first_in_keys(alloc: Global, tree: &Tree) -> Result<Option<Found<'_>>, Memory>
    ensures { IfOk result (λ found. sees found ≡ first_of (key_faults tree.now)) }
{
    let block = members(tree);
    let duplicate = first_duplicate(alloc, tree)?;
    let keys = first_in_table(tree.at, block, block_rows());
    let lengths = first_in_lengths(block);
    let lists = first_in_lists(block);
    let width = width_outside(block);
    let protocol = first_in_protocols(block);
    let interfaces = first_in_interfaces(alloc, block)?;
    let registers = first_in_registers(alloc, block)?;
    let together = earlier_of(protocol, earlier_of(interfaces, registers));
    let objects = earlier_of(lengths, earlier_of(lists, earlier_of(width, together)));
    Ok(earlier_of(duplicate, earlier_of(keys, objects)))
}
