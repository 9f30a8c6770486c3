//! The texts of a top itself.

ghost use Rattle.std.specs.Prelude.{◌≡◌, ℕ, List, Some, None, Err, IfOk, OnOk};
ghost use Rattle.cg_done.specs.Completed.{IsReadTop};
ghost use Rattle.cg_desc.specs.Merged.{IsMerged};
ghost use Rattle.cg_sv.specs.declared.fault.SvRegFault.TheVariants as SvRegFault;
ghost use Rattle.cg_svspec.specs.Layout.{module_text};
ghost use Rattle.cg_svspec.specs.Names.{first_repeat};
ghost use Rattle.cg_tophdr.specs.TopHeader.{top_header_names, top_header_text};
ghost use Rattle.cg_topread.specs.Described.{top_of};
ghost use Rattle.cg_topspec.specs.Clashes.{clash_lists, first_clash};
ghost use Rattle.cg_topspec.specs.Fits.{FitsTop};
ghost use Rattle.cg_topspec.specs.TopModule.{top_module};
ghost use Rattle.cg_topspec.specs.WellFormed.{HasFewBits};
ghost use Rattle.cg_chip.specs.Outputs.{completed_top, top_clash, top_header, top_text};

use crate::chip::Chip;
use cg_base::Text;
use cg_chdr::{HdrClash, top_header};
use cg_done::done_top;
use cg_sv::{SvRegFault, print};
use cg_svbus::top_module;
use cg_topspec::top_module_is_printable;
use std::alloc::Global;

/// The texts of a top itself: its module, its header and its completed description.
#[derive(Drop)]
pub struct TopTexts {
    pub module: Text,
    pub header: Text,
    pub completed: Text,
}

/// The text of a top's module. `Clash` has the first name that comes twice in one of the lists of names of the top's texts, but for its header.
fn module_text(alloc: Global, chip: &Chip) -> Result<Text, SvRegFault>
    requires fits { FitsTop chip.now.source.merged chip.now.irq chip.now.ties chip.now.pins }
    requires few { HasFewBits chip.now.irq chip.now.pins }
    ensures made { IfOk result (λ t. t ≡ module_text (top_module chip.now.source.merged chip.now.irq chip.now.ties chip.now.pins)) }
    ensures apart { OnOk result (first_clash (clash_lists chip.now.source.merged chip.now.irq chip.now.ties chip.now.pins) ≡ None) }
    ensures clash { (n : List ℕ) → result ≡ Err (SvRegFault.Clash n) → first_clash (clash_lists chip.now.source.merged chip.now.irq chip.now.ties chip.now.pins) ≡ Some n }
{
    top_module_is_printable();
    match top_module(
        alloc,
        &chip.source.merged,
        &chip.irq,
        &chip.ties,
        &chip.pins,
    ) {
        Ok(module) => Ok(print(alloc, &module)?),
        Err(fault) => Err(fault),
    }
}

/// The text of a top's header. `Clash` has the first name that it would define twice.
fn header_text(alloc: Global, chip: &Chip) -> Result<Text, SvRegFault>
    requires merged { IsMerged chip.now.source.merged }
    ensures made { IfOk result (λ t. t ≡ top_header_text chip.now.source.merged chip.now.irq chip.now.pins) }
    ensures apart { OnOk result (first_repeat (top_header_names chip.now.source.merged chip.now.irq chip.now.pins) ≡ None) }
    ensures clash { (n : List ℕ) → result ≡ Err (SvRegFault.Clash n) → first_repeat (top_header_names chip.now.source.merged chip.now.irq chip.now.pins) ≡ Some n }
{
    match top_header(alloc, &chip.source.merged, &chip.irq, &chip.pins) {
        Ok(header) => Ok(header),
        Err(HdrClash::Clash { name }) => Err(SvRegFault::Clash { name }),
        Err(HdrClash::Memory) => Err(SvRegFault::Memory),
    }
}

/// The texts of a top itself. `Clash` has the first name that comes twice in one of the lists of names of the top's texts, or else in its
/// header.
pub fn top_texts(alloc: Global, chip: &Chip) -> Result<TopTexts, SvRegFault>
    requires fits { FitsTop chip.now.source.merged chip.now.irq chip.now.ties chip.now.pins }
    requires few { HasFewBits chip.now.irq chip.now.pins }
    requires read { IsReadTop chip.now.source.tree }
    requires described { chip.now.source.merged.top ≡ top_of chip.now.source.merged.top.file chip.now.source.tree }
    ensures module { IfOk result (λ t. t.module ≡ (top_text chip.now).bytes) }
    ensures header { IfOk result (λ t. t.header ≡ (top_header chip.now).bytes) }
    ensures completed { IfOk result (λ t. t.completed ≡ (completed_top chip.now).bytes) }
    ensures apart { OnOk result (top_clash chip.now ≡ None) }
    ensures clash { (n : List ℕ) → result ≡ Err (SvRegFault.Clash n) → top_clash chip.now ≡ Some n }
{
    let module = module_text(alloc, chip)?;
    let header = header_text(alloc, chip)?;
    let completed = done_top(alloc, &chip.source.tree, &chip.source.merged.top)?;
    Ok(TopTexts {
        module,
        header,
        completed,
    })
}
