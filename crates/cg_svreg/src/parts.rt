//! The parts of a concatenation, which is put together from its low end.

ghost use Rattle.std.specs.Prelude.{◌≡◌, OnOk};
ghost use Rattle.cg_svspec.specs.Tree.{cat, none, more};
ghost use Rattle.cg_sv.specs.Views.{expression_of};
ghost use Rattle.cg_regspec.specs.RegisterModule.{gap};
ghost use Rattle.cg_svreg.specs.Parts.{from_low};

use cg_base::{List, Memory};
use cg_sv::{Expr, make};
use std::alloc::Global;

/// No parts yet.
#[tactic(auto, unfolding(crate::specs::Parts::from_low))]
pub fn no_parts(alloc: Global) -> Vec<Expr>
    ensures { from_low result.items ≡ none }
{
    Vec::new(alloc)
}

/// Puts a part above those there are.
#[tactic(auto, using(crate::proofs::Lists::put_together))]
pub fn put_above(parts: &mut Vec<Expr>, part: Expr) -> Result<(), Memory>
    ensures { OnOk result (from_low parts.new.items ≡ more (expression_of part) (from_low parts.old.items)) }
{
    parts.push(part)?;
    Ok(())
}

/// Puts zeros above the parts, where there is at least one.
pub fn put_gap(parts: &mut Vec<Expr>, width: u32) -> Result<(), Memory>
    ensures { OnOk result (from_low parts.new.items ≡ gap width (from_low parts.old.items)) }
{
    if width > 0 {
        put_above(parts, make::lit(width, 0))?;
    }
    Ok(())
}

/// The concatenation of the parts.
#[tactic(auto, unfolding(crate::specs::Parts::from_low))]
pub fn concatenation(mut parts: Vec<Expr>) -> Expr
    ensures { expression_of result ≡ cat (from_low parts.items) }
{
    parts.reverse();
    make::cat(List::from_vec(parts))
}
