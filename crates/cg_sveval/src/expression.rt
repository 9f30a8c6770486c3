//! The values of expressions.

ghost use Rattle.std.specs.Prelude.{◌≡◌, cond, map, IfOk};
ghost use Rattle.cg_svspec.specs.Tree.{expressions};
ghost use Rattle.cg_svspec.specs.Value.{eval, eval_parts};
ghost use Rattle.cg_svspec.specs.Bits.{Bits, chosen};
ghost use Rattle.cg_sv.specs.Views.{expression_of};
ghost use Rattle.cg_sveval.specs.Lookups.{value_in};

use crate::bits::{and_of, any_of, are_same, bits_of, copy_of, cut_of, not_of, one_bit, or_of};
use crate::known::Known;
use cg_base::Memory;
use cg_sv::Expr;
use std::alloc::Global;

/// The value of an expression, where the nets have the values that are known.
#[cycle(evaluating)]
#[tactic(auto, using(cg_sv::proofs::Views::views))]
pub(crate) fn value_of(alloc: Global, known: &Known, expr: &Expr) -> Result<Vec<bool>, Memory>
    ensures { IfOk result (λ value. value.items ≡ eval (value_in known.now) (expression_of expr.now)) }
{
    match expr {
        Expr::Net(name) => copy_of(alloc, known.value(name.as_str())),
        Expr::Cut { net, msb, lsb } => cut_of(alloc, known.value(net.as_str()), *msb, *lsb),
        Expr::Lit { width, value } => bits_of(alloc, *width, *value),
        Expr::Cat(parts) => parts_value(alloc, known, parts.as_slice()),
        Expr::Not(part) => {
            let value = value_of(alloc, known, part)?;
            not_of(alloc, value.as_slice())
        }
        Expr::Any(part) => {
            let value = value_of(alloc, known, part)?;
            one_bit(alloc, any_of(value.as_slice()))
        }
        Expr::And(left, right) => {
            let left = value_of(alloc, known, left)?;
            let right = value_of(alloc, known, right)?;
            and_of(alloc, left.as_slice(), right.as_slice())
        }
        Expr::Or(left, right) => {
            let left = value_of(alloc, known, left)?;
            let right = value_of(alloc, known, right)?;
            or_of(alloc, left.as_slice(), right.as_slice())
        }
        Expr::Equal(left, right) => {
            let left = value_of(alloc, known, left)?;
            let right = value_of(alloc, known, right)?;
            one_bit(alloc, are_same(left.as_slice(), right.as_slice()))
        }
        Expr::Pick(condition, one, zero) => {
            let condition = value_of(alloc, known, condition)?;
            if first_bit(condition.as_slice()) {
                value_of(alloc, known, one)
            } else {
                value_of(alloc, known, zero)
            }
        }
    }
}

/// The lowest bit; 0 where there is none.
fn first_bit(value: &[bool]) -> bool
    ensures { (x y : Bits) → chosen value.now x y ≡ cond result x y }
{
    match value.first() {
        Some(bit) => *bit,
        None => false,
    }
}

/// The value of a concatenation of these parts.
#[cycle(evaluating)]
#[tactic(auto, using(cg_sv::proofs::Views::views))]
fn parts_value(alloc: Global, known: &Known, parts: &[Expr]) -> Result<Vec<bool>, Memory>
    ensures { IfOk result (λ value. value.items ≡ eval_parts (value_in known.now) (expressions (map expression_of parts.now))) }
{
    let mut found = Vec::new(alloc);
    for place in (0..parts.len()).rev() {
        let part = value_of(alloc, known, &parts[place])?;
        found.extend_from_slice(part.as_slice())?;
    }
    Ok(found)
}
