//! A name that comes twice, as a fault.

ghost use Rattle.cg_finding.specs.Refusal.{Names};
ghost use Rattle.cg_finding.specs.Rules as rules;

use cg_base::Text;
use cg_desc::{At, DescFault};
use cg_finding::{Found, refusal};
use std::alloc::Global;

/// Two names of what is written are the same; told at the opener of the root of this file.
pub(crate) fn clash(alloc: Global, file: u32, at: At, name: &Text) -> DescFault
    ensures { Names result file (rules.names_clash at name.now) }
{
    refusal(alloc, Found::names_clash(at, name.as_str()), file)
}
