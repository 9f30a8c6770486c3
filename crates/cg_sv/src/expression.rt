//! Printing of expressions.

ghost use Rattle.std.specs.Prelude.{◌≡◌, ◌++◌, [], OnOk, false, map, codes};
ghost use Rattle.std.specs.Fmt.{decimal, digits};
ghost use Rattle.cg_svspec.specs.Tree.{expressions};
ghost use Rattle.cg_svspec.specs.Layout.{expression_text, parts_text, value_text};
ghost use Rattle.cg_sv.specs.Views.{expression_of};

use crate::tree::Expr;
use cg_base::{Memory, Text};
use std::alloc::Global;

/// Adds a number in decimal.
pub fn print_decimal(alloc: Global, out: &mut Text, number: u32) -> Result<(), Memory>
    ensures { OnOk result (out.new ≡ out.old ++ decimal number) }
{
    let digits = format!(in alloc; "{number}")?;
    out.add(&digits)
}

/// Adds a net with the first and the last of the bits that are meant.
#[tactic(auto, using(crate::proofs::Views::views))]
fn print_cut(alloc: Global, out: &mut Text, net: &str, msb: u32, lsb: u32) -> Result<(), Memory>
    ensures { OnOk result (out.new
        ≡ out.old ++ (net.now ++ (codes "[" ++ (decimal msb ++ (codes ":" ++ (decimal lsb
        ++ codes "]")))))) }
{
    let cut = format!(in alloc; "{net}[{msb}:{lsb}]")?;
    out.add(&cut)?;
    Ok(())
}

/// Adds a literal: its width in decimal, and its value in lower-case hexadecimal.
#[tactic(auto, using(crate::proofs::Views::views))]
fn print_literal(alloc: Global, out: &mut Text, width: u32, value: u64) -> Result<(), Memory>
    ensures { OnOk result (out.new
        ≡ out.old ++ (decimal width ++ (codes "'h" ++ digits 16 false value))) }
{
    let literal = format!(in alloc; "{width}'h{value:x}")?;
    out.add(&literal)?;
    Ok(())
}

/// Adds an expression, with all its parentheses.
#[cycle(printing)]
#[tactic(auto, using(crate::proofs::Views::views))]
pub fn print_expression(alloc: Global, out: &mut Text, expr: &Expr) -> Result<(), Memory>
    ensures { OnOk result (out.new ≡ out.old ++ expression_text (expression_of expr.now)) }
{
    match expr {
        Expr::Net(name) => {
            out.add(name.as_str())?;
            Ok(())
        }
        Expr::Cut { net, msb, lsb } => {
            print_cut(alloc, out, net.as_str(), *msb, *lsb)?;
            Ok(())
        }
        Expr::Lit { width, value } => {
            print_literal(alloc, out, *width, *value)?;
            Ok(())
        }
        Expr::Cat(parts) => {
            out.add("{")?;
            print_parts(alloc, out, parts.as_slice())?;
            out.add("}")?;
            Ok(())
        }
        Expr::Not(part) => {
            print_between(alloc, out, "(~", part, ")")?;
            Ok(())
        }
        Expr::Any(part) => {
            print_between(alloc, out, "(|", part, ")")?;
            Ok(())
        }
        Expr::And(left, right) => {
            print_between(alloc, out, "(", left, " & ")?;
            print_between(alloc, out, "", right, ")")?;
            Ok(())
        }
        Expr::Or(left, right) => {
            print_between(alloc, out, "(", left, " | ")?;
            print_between(alloc, out, "", right, ")")?;
            Ok(())
        }
        Expr::Equal(left, right) => {
            print_between(alloc, out, "(", left, " == ")?;
            print_between(alloc, out, "", right, ")")?;
            Ok(())
        }
        Expr::Pick(condition, one, zero) => {
            print_between(alloc, out, "(", condition, " ? ")?;
            print_between(alloc, out, "", one, " : ")?;
            print_between(alloc, out, "", zero, ")")?;
            Ok(())
        }
    }
}

/// Adds an expression with a text before it and one after it.
#[cycle(printing)]
#[tactic(auto, using(crate::proofs::Views::views))]
fn print_between(
    alloc: Global,
    out: &mut Text,
    before: &str,
    expr: &Expr,
    after: &str,
) -> Result<(), Memory>
    ensures { OnOk result (out.new
        ≡ out.old ++ (before.now ++ (expression_text (expression_of expr.now) ++ after.now))) }
{
    out.add(before)?;
    print_expression(alloc, out, expr)?;
    out.add(after)?;
    Ok(())
}

/// Adds the parts of a concatenation, with commas between.
#[cycle(printing)]
#[tactic(auto, using(crate::proofs::Views::views))]
fn print_parts(alloc: Global, out: &mut Text, parts: &[Expr]) -> Result<(), Memory>
    ensures { OnOk result (out.new
        ≡ out.old ++ parts_text [] (expressions (map expression_of parts.now))) }
{
    let mut first = true;
    for part in parts {
        if !first {
            out.add(", ")?;
        }
        print_expression(alloc, out, part)?;
        first = false;
    }
    Ok(())
}

/// Adds the value of a parameter: a plain number where it is a literal of width 0.
#[tactic(auto, using(crate::proofs::Views::views))]
pub fn print_value(alloc: Global, out: &mut Text, value: &Expr) -> Result<(), Memory>
    ensures { OnOk result (out.new ≡ out.old ++ value_text (expression_of value.now)) }
{
    match value {
        Expr::Lit { width, value } => {
            if *width == 0 {
                let number = format!(in alloc; "{value}")?;
                out.add(&number)?;
            } else {
                print_literal(alloc, out, *width, *value)?;
            }
            Ok(())
        }
        _ => {
            print_expression(alloc, out, value)?;
            Ok(())
        }
    }
}
