//! The modules and the header of a block.

ghost use Rattle.std.specs.Prelude.{◌≡◌, ◌<◌, map, length, Some, None, Err, IfOk, OnOk, ℕ, List};
ghost use Rattle.cg_svspec.specs.Printable.{AllOf};
ghost use Rattle.cg_desc.specs.Laid.{IsLaid};
ghost use Rattle.cg_hdrspec.specs.BlockHeader.{header_text};
ghost use Rattle.cg_hdrspec.specs.Laws.{IsNamed};
ghost use Rattle.cg_sv.specs.Views.{module_of};
ghost use Rattle.cg_sv.specs.declared.fault.SvRegFault.TheVariants as SvRegFault;
ghost use Rattle.cg_regspec.specs.RegisterModule.{modules_of};
ghost use Rattle.cg_block.specs.Outputs.{first_clash, clash_of};

use cg_base::{List, Text};
use cg_blkhdr::{HdrClash, block_header};
use cg_desc::LaidBlock;
use cg_sv::{Module, SvRegFault};
use cg_svreg::reg_module;
use std::alloc::Global;

/// The register modules and the header of a block.
#[derive(Drop)]
pub struct BlockTexts {
    pub modules: List<Module>,
    pub header: Text,
}

/// The register modules of the block, one for each device interface, in their order.
///
/// `Clash` has the first name that repeats in the first module in which one does.
fn modules(alloc: Global, laid: &LaidBlock) -> Result<List<Module>, SvRegFault>
    requires few { length laid.now.faces < 4294967296 }
    requires laid { AllOf IsLaid laid.now.faces }
    ensures made { IfOk result (λ ms. map module_of ms ≡ modules_of laid.now) }
    ensures apart { OnOk result (first_clash (modules_of laid.now) ≡ None) }
    ensures clash { (n : List ℕ) → result ≡ Err (SvRegFault.Clash n) → first_clash (modules_of laid.now) ≡ Some n }
{
    let mut modules = List::new(alloc);
    for face in 0..laid.faces.len() {
        match reg_module(alloc, laid, face as u32) {
            Ok(module) => modules.push(module)?,
            Err(fault) => return Err(fault),
        }
    }
    Ok(modules)
}

/// The register modules and the header of a block. `Clash` has the first name that comes twice in a module, or else in the header.
pub fn block_texts(alloc: Global, laid: &LaidBlock) -> Result<BlockTexts, SvRegFault>
    requires few { length laid.now.faces < 4294967296 }
    requires laid { AllOf IsLaid laid.now.faces }
    requires named { IsNamed laid.now }
    ensures modules { IfOk result (λ texts. map module_of texts.modules ≡ modules_of laid.now) }
    ensures header { IfOk result (λ texts. texts.header ≡ header_text laid.now) }
    ensures apart { OnOk result (clash_of laid.now ≡ None) }
    ensures clash { (n : List ℕ) → result ≡ Err (SvRegFault.Clash n) → clash_of laid.now ≡ Some n }
{
    let modules = match modules(alloc, laid) {
        Ok(modules) => modules,
        Err(fault) => return Err(fault),
    };
    match block_header(alloc, laid) {
        Ok(header) => Ok(BlockTexts { modules, header }),
        Err(HdrClash::Clash { name }) => Err(SvRegFault::Clash { name }),
        Err(HdrClash::Memory) => Err(SvRegFault::Memory),
    }
}
