//! The files that are written of a block.

ghost use Rattle.std.specs.Prelude.{◌≡◌, ◌++◌, [], map, IfOk, OnOk};
ghost use Rattle.cg_svspec.specs.Printable.{AllOf, IsPrintable};
ghost use Rattle.cg_sv.specs.Views.{module_of};
ghost use Rattle.cg_files.specs.Files.{File};
ghost use Rattle.cg_outputs.specs.Inner.{put_outputs};
ghost use Rattle.cg_outputs.specs.Outputs.{AreOutputs};
ghost use Rattle.cg_hdrspec.specs.BlockHeader.{header_text};
ghost use Rattle.cg_block.specs.Breaks.{IsGoodFile};
ghost use Rattle.cg_block.specs.Outputs.{IsRegisterOutput, block_files, header_output, completed_output};
ghost use Rattle.cg_block.specs.Unit.{IsUnitOf, module_output, unit_with};

use crate::texts::BlockTexts;
use crate::unit::BlockUnit;
use cg_base::{List, Memory, Text};
use cg_blkdone::done_block;
use cg_desc::LaidBlock;
use cg_hjson::Tree;
use cg_jsonspec::documents_are_sayable;
use cg_outputs::{OutFile, put_by_name};
use cg_regspec::register_module_means;
use cg_sv::{Module, print};
use std::alloc::Global;

/// A name with an ending.
fn ended(alloc: Global, name: &str, ending: &str) -> Result<Text, Memory>
    ensures { IfOk result (λ t. t ≡ name.now ++ ending.now) }
{
    let mut ended = Text::of(alloc, name)?;
    ended.add(ending)?;
    Ok(ended)
}

/// The text of a module, under its name.
fn module_output(alloc: Global, module: &Module) -> Result<OutFile, Memory>
    requires { IsPrintable (module_of «module».now) }
    ensures { IfOk result (λ o. o ≡ module_output (module_of «module».now)) }
{
    let name = ended(alloc, module.name.as_str(), ".sv")?;
    Ok(OutFile::of_text(name, print(alloc, module)?))
}

/// Puts the texts of modules among others, each in the place of its name.
#[tactic(auto, unfolding(cg_outputs::specs::Inner::put_outputs))]
fn put_modules(alloc: Global, outputs: &mut List<OutFile>, modules: &[Module]) -> Result<(), Memory>
    requires { AllOf IsPrintable (map module_of modules.now) }
    ensures { OnOk result (outputs.new ≡ put_outputs outputs.old (map module_output (map module_of modules.now))) }
{
    for module in modules {
        put_by_name(outputs, module_output(alloc, module)?)?;
    }
    Ok(())
}

/// The register text of each device interface of a block, in the order of their names: `<block>_reg_top.sv` for the unnamed interface,
/// and `<block>_<interface>_reg_top.sv`.
pub fn register_outputs(alloc: Global, unit: &BlockUnit) -> Result<List<OutFile>, Memory>
    requires { (file : File) × IsUnitOf file unit.now }
    ensures { IfOk result (λ os. AreOutputs (IsRegisterOutput unit.now.laid) os) }
{
    register_module_means();
    let mut outputs = List::new(alloc);
    put_modules(alloc, &mut outputs, unit.texts.modules.as_slice())?;
    Ok(outputs)
}

/// The header of a block that has these texts.
fn header_of(alloc: Global, laid: &LaidBlock, texts: &BlockTexts) -> Result<OutFile, Memory>
    requires { texts.now.header ≡ header_text laid.now }
    ensures { IfOk result (λ o. o ≡ header_output laid.now) }
{
    let name = ended(alloc, laid.desc.name.as_str(), "_regs.h")?;
    Ok(OutFile::of_text(name, texts.header.copy()?))
}

/// The C header of a block: `<block>_regs.h`.
pub fn header_output(alloc: Global, unit: &BlockUnit) -> Result<OutFile, Memory>
    requires { (file : File) × IsUnitOf file unit.now }
    ensures { IfOk result (λ o. o ≡ header_output unit.now.laid) }
{
    header_of(alloc, &unit.laid, &unit.texts)
}

/// The completed description of the block that this tree describes.
fn completed_of(alloc: Global, tree: &Tree, laid: &LaidBlock) -> Result<OutFile, Memory>
    requires { (file : File) × IsGoodFile file tree.now laid.now }
    ensures { IfOk result (λ o. o ≡ completed_output tree.now laid.now) }
{
    documents_are_sayable();
    let name = ended(alloc, laid.desc.name.as_str(), ".gen.hjson")?;
    let text = done_block(alloc, tree, &laid.desc)?;
    Ok(OutFile::of_text(name, text))
}

/// The completed description of a block: `<block>.gen.hjson`.
pub fn completed_output(alloc: Global, unit: &BlockUnit) -> Result<OutFile, Memory>
    requires { (file : File) × IsUnitOf file unit.now }
    ensures { IfOk result (λ o. o ≡ completed_output unit.now.tree unit.now.laid) }
{
    completed_of(alloc, &unit.tree, &unit.laid)
}

/// Puts all that is written of a block among other files, each in the place of its name: its header, its completed description, and the
/// register text of each device interface.
pub fn put_block_outputs(
    alloc: Global,
    outputs: &mut List<OutFile>,
    tree: &Tree,
    laid: &LaidBlock,
    texts: &BlockTexts,
) -> Result<(), Memory>
    requires { (file : File) × IsUnitOf file (unit_with tree.now laid.now texts.now) }
    ensures { OnOk result (outputs.new ≡ put_outputs outputs.old (block_files tree.now laid.now)) }
{
    register_module_means();
    put_by_name(outputs, header_of(alloc, laid, texts)?)?;
    put_by_name(outputs, completed_of(alloc, tree, laid)?)?;
    put_modules(alloc, outputs, texts.modules.as_slice())
}
