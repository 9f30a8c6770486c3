//! The file that is written of a crossbar.

ghost use Rattle.std.specs.Prelude.{◌≡◌, Some, None, Err, IfOk, OnOk, ℕ, List};
ghost use Rattle.cg_desc.specs.Crossbar.{IsValidCrossbar};
ghost use Rattle.cg_desc.specs.Ranges.{AreRangesOf};
ghost use Rattle.cg_sv.specs.declared.fault.SvRegFault.TheVariants as SvRegFault;
ghost use Rattle.cg_crossbar.specs.Outputs.{clash_of, crossbar_output};

use cg_base::{List, Text};
use cg_desc::{NodeRanges, XbarDesc};
use cg_nodes::nodes;
use cg_outputs::OutFile;
use cg_sv::{SvRegFault, print};
use cg_svxbar::xbar_module;
use std::alloc::Global;

/// The text of a crossbar whose nodes have these ranges: `xbar_<name>.sv`. `Clash` has the first name that its module would declare twice.
#[tactic(auto, unfolding(cg_busspec::specs::CrossbarModule::crossbar_module))]
pub fn crossbar_output(
    alloc: Global,
    xbar: &XbarDesc,
    ranges: &List<NodeRanges>,
) -> Result<OutFile, SvRegFault>
    requires valid { IsValidCrossbar xbar.now }
    requires ranges { AreRangesOf xbar.now ranges.now }
    ensures made { IfOk result (λ o. o ≡ crossbar_output xbar.now ranges.now) }
    ensures apart { OnOk result (clash_of xbar.now ranges.now ≡ None) }
    ensures clash { (n : List ℕ) → result ≡ Err (SvRegFault.Clash n) → clash_of xbar.now ranges.now ≡ Some n }
{
    let graph = match nodes(alloc, xbar) {
        Ok(graph) => graph,
        Err(_) => return Err(SvRegFault::Memory),
    };
    let module = match xbar_module(alloc, &graph, ranges) {
        Ok(module) => module,
        Err(fault) => return Err(fault),
    };
    let mut name = Text::of(alloc, module.name.as_str())?;
    name.add(".sv")?;
    Ok(OutFile::of_text(name, print(alloc, &module)?))
}
