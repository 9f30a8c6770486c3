//! The header of a top.

ghost use Rattle.std.specs.Prelude.{◌≡◌, ◌++◌, ℕ, List, Some, None, Err, IfOk, OnOk, map};
ghost use Rattle.cg_svspec.specs.Names.{first_repeat};
ghost use Rattle.cg_blkhdr.specs.Views.{definition_of};
ghost use Rattle.cg_blkhdr.specs.declared.header.HdrClash.TheVariants as HdrClash;
ghost use Rattle.cg_desc.specs.Merged.{AreKinds, IsMerged, design_of};
ghost use Rattle.cg_desc.specs.Top.{AreItsFiles};
ghost use Rattle.cg_irq.specs.Numbers.{AreNumbers};
ghost use Rattle.cg_pinmux.specs.Pins.{ArePins};
ghost use Rattle.cg_tophdr.specs.Meaning.{TopHeaderMeans};
ghost use Rattle.cg_tophdr.specs.TopHeader.{top_header_names, top_header_text};

use crate::definitions::definitions_of;
use crate::names::guard_of;
use cg_base::{List, Memory, Text};
use cg_blkhdr::{Definition, HdrClash, whole_header};
use cg_desc::MergedTop;
use cg_irq::IrqMap;
use cg_pinmux::PinMap;
use cg_tophdr::top_header_is_meant;
use std::alloc::Global;

/// Adds the names of the definitions.
fn add_names(
    alloc: Global,
    names: &mut List<Text>,
    definitions: &[Definition],
) -> Result<(), Memory>
    ensures { OnOk result (names.new ≡ names.old ++ map (λ d. d.name) (map definition_of definitions.now)) }
{
    for definition in definitions {
        let name = Text::of(alloc, definition.name.as_str())?;
        names.push(name)?;
    }
    Ok(())
}

/// The names that a top's header defines, in their order, its guard first.
#[tactic(auto, unfolding(cg_tophdr::specs::TopHeader::top_header_names))]
pub fn top_header_names(
    alloc: Global,
    top: &MergedTop,
    irq: &IrqMap,
    pins: &PinMap,
) -> Result<List<Text>, Memory>
    requires files { AreItsFiles (design_of top.now) }
    requires kinds { AreKinds top.now }
    ensures { IfOk result (λ names. names ≡ top_header_names top.now irq.now pins.now) }
{
    let guard = guard_of(alloc, top.top.name.as_str())?;
    let definitions = definitions_of(alloc, top, irq, pins)?;
    let mut names = List::new(alloc);
    names.push(guard)?;
    add_names(alloc, &mut names, definitions.as_slice())?;
    Ok(names)
}

/// The header of a top: for each instance and device interface its base and its size, then the numbers of interrupts, from 1, and of
/// alerts, and of the inputs and outputs that pins are chosen for, from 0.
///
/// Bases and sizes are hexadecimal, and the other numbers decimal. A name ends in the number of the bit where there is more than one.
/// `Clash` has the first name that would be defined twice.
#[tactic(auto, unfolding(cg_tophdr::specs::TopHeader::top_header_names, cg_tophdr::specs::TopHeader::top_header_text))]
pub fn top_header(
    alloc: Global,
    top: &MergedTop,
    irq: &IrqMap,
    pins: &PinMap,
) -> Result<Text, HdrClash>
    requires files { AreItsFiles (design_of top.now) }
    requires kinds { AreKinds top.now }
    ensures text { IfOk result (λ t. t ≡ top_header_text top.now irq.now pins.now) }
    ensures means { IsMerged top.now → AreNumbers top.now irq.now → ArePins top.now pins.now → IfOk result (λ t. TopHeaderMeans top.now irq.now pins.now t) }
    ensures apart { OnOk result (first_repeat (top_header_names top.now irq.now pins.now) ≡ None) }
    ensures clash { (n : List ℕ) → result ≡ Err (HdrClash.Clash n) → first_repeat (top_header_names top.now irq.now pins.now) ≡ Some n }
{
    top_header_is_meant();
    let guard = guard_of(alloc, top.top.name.as_str())?;
    let definitions = definitions_of(alloc, top, irq, pins)?;
    whole_header(alloc, guard.as_str(), definitions.as_slice())
}
