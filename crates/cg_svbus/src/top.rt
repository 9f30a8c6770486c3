//! A whole top module, and the lists of names in which none may stand twice.

ghost use Rattle.std.specs.Prelude.{◌≡◌, List, ℕ, Some, None, Err, IfOk, OnOk, map};
ghost use Rattle.cg_sv.specs.Views.{module_of, entry_of};
ghost use Rattle.cg_sv.specs.declared.fault.SvRegFault.TheVariants as SvRegFault;
ghost use Rattle.cg_svbus.specs.TopViewed.{AreNumbersOf, names_of};
ghost use Rattle.cg_topspec.specs.Clashes.{clash_lists, first_clash};
ghost use Rattle.cg_topspec.specs.TopModule.{top_entries, top_module};

use crate::top_assigns::add_assigns;
use crate::top_instances::{add_crossbars, add_instances};
use crate::top_lists::{NameList, lists_differ, name_lists, top_module_name};
use crate::top_nodes::{TopNode, all_nodes, numbers, ordered};
use crate::top_ports::top_ports;
use crate::top_wires::{add_instances_wires, add_nodes_wires};
use cg_base::{List, Memory};
use cg_clkrst::Tie;
use cg_desc::MergedTop;
use cg_irq::IrqMap;
use cg_pinmux::PinMap;
use cg_sv::{Entry, Module, SvRegFault};
use std::alloc::Global;

/// The numbers of a top's instances and crossbars, and its nodes: as they are numbered, and in the order of the module.
#[derive(Drop)]
struct TopNumbers {
    insts: Vec<usize>,
    xbars: Vec<usize>,
    all: Vec<TopNode>,
    ordered: Vec<TopNode>,
}

/// The numbers and nodes of a top.
fn numbers_of(alloc: Global, top: &MergedTop) -> Result<TopNumbers, Memory>
    ensures { IfOk result (AreNumbersOf top.now) }
{
    let insts = numbers(alloc, top.top.insts.len())?;
    let xbars = numbers(alloc, top.xbars.len())?;
    let all = all_nodes(alloc, top)?;
    let ordered = ordered(alloc, top)?;
    Ok(TopNumbers {
        insts,
        xbars,
        all,
        ordered,
    })
}

/// The entries of a top's module.
fn entries_of(
    alloc: Global,
    top: &MergedTop,
    irq: &IrqMap,
    ties: &List<Tie>,
    pins: &PinMap,
    numbers: &TopNumbers,
) -> Result<List<Entry>, Memory>
    requires { AreNumbersOf top.now numbers.now }
    ensures { IfOk result (λ entries. map entry_of entries ≡ top_entries top.now irq.now ties.now pins.now) }
{
    let mut entries = List::new(alloc);
    add_nodes_wires(alloc, &mut entries, top, numbers.ordered.as_slice())?;
    let insts = numbers.insts.as_slice();
    add_instances_wires(alloc, &mut entries, top, pins, insts)?;
    add_assigns(alloc, &mut entries, top, irq, pins)?;
    let (nodes, ties) = (numbers.all.as_slice(), ties.as_slice());
    add_instances(alloc, &mut entries, top, nodes, ties, insts)?;
    add_crossbars(alloc, &mut entries, top, ties, numbers.xbars.as_slice())?;
    Ok(entries)
}

/// The module, whose names may clash.
#[tactic(auto, unfolding(cg_topspec::specs::TopModule::top_module))]
fn any_module(
    alloc: Global,
    top: &MergedTop,
    irq: &IrqMap,
    ties: &List<Tie>,
    pins: &PinMap,
    numbers: &TopNumbers,
) -> Result<Module, Memory>
    requires { AreNumbersOf top.now numbers.now }
    ensures { IfOk result (λ m. module_of m ≡ top_module top.now irq.now ties.now pins.now) }
{
    let name = top_module_name(alloc, top)?;
    let ports = top_ports(alloc, top, irq, pins, numbers.ordered.as_slice())?;
    let entries = entries_of(alloc, top, irq, ties, pins, numbers)?;
    Ok(Module {
        name,
        ports,
        entries,
    })
}

/// The lists of names of a top with this module.
#[tactic(auto, using(crate::proofs::TopParts::lists_made))]
fn names_of(
    alloc: Global,
    top: &MergedTop,
    irq: &IrqMap,
    ties: &List<Tie>,
    pins: &PinMap,
    numbers: &TopNumbers,
    module: &Module,
) -> Result<List<NameList>, Memory>
    requires numbers { AreNumbersOf top.now numbers.now }
    requires made { module_of «module».now ≡ top_module top.now irq.now ties.now pins.now }
    ensures { IfOk result (λ lists. map names_of lists ≡ clash_lists top.now irq.now ties.now pins.now) }
{
    let (nodes, insts) = (numbers.all.as_slice(), numbers.insts.as_slice());
    let lists = name_lists(alloc, top, nodes, ties.as_slice(), insts, module)?;
    Ok(lists)
}

/// The lists of names of a top's texts in each of which no name may stand twice: the modules, the files, the connected ports of
/// each instance in its order, and what the top's module declares. A header's list is not among them.
pub fn top_names(
    alloc: Global,
    top: &MergedTop,
    irq: &IrqMap,
    ties: &List<Tie>,
    pins: &PinMap,
) -> Result<List<NameList>, Memory>
    ensures { IfOk result (λ lists. map names_of lists ≡ clash_lists top.now irq.now ties.now pins.now) }
{
    let numbers = numbers_of(alloc, top)?;
    let made = any_module(alloc, top, irq, ties, pins, &numbers)?;
    let lists = names_of(alloc, top, irq, ties, pins, &numbers, &made)?;
    Ok(lists)
}

/// The module of a top, with its interrupts and alerts, its clocks and resets, and its pins.
///
/// Its entries stand in this order: the links of nodes in the top; the wires of each instance; what drives the outputs; the
/// instances of blocks; those of crossbars. `Clash` has the first name that stands twice in the first of the lists of `top_names`
/// that has one. `Memory` is also answered where there would be 2^32 or more bits of one kind. The top needs not be valid: what a
/// number does not name is an empty thing.
pub fn top_module(
    alloc: Global,
    top: &MergedTop,
    irq: &IrqMap,
    ties: &List<Tie>,
    pins: &PinMap,
) -> Result<Module, SvRegFault>
    ensures made { IfOk result (λ m. module_of m ≡ top_module top.now irq.now ties.now pins.now) }
    ensures apart { OnOk result (first_clash (clash_lists top.now irq.now ties.now pins.now) ≡ None) }
    ensures clash { (n : List ℕ) → result ≡ Err (SvRegFault.Clash n) → first_clash (clash_lists top.now irq.now ties.now pins.now) ≡ Some n }
{
    let numbers = numbers_of(alloc, top)?;
    let made = any_module(alloc, top, irq, ties, pins, &numbers)?;
    let lists = names_of(alloc, top, irq, ties, pins, &numbers, &made)?;
    lists_differ(alloc, lists.as_slice())?;
    Ok(made)
}
