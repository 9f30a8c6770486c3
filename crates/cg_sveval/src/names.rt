//! Look-ups in an instance by name.

ghost use Rattle.std.specs.Prelude.{◌≡◌, map};
ghost use Rattle.std.specs.Option.{option_map};
ghost use Rattle.cg_svspec.specs.Value.{connection_at, parameter_at};
ghost use Rattle.cg_sv.specs.Views.{connection_of, expression_of, parameter_of};
ghost use Rattle.cg_sveval.specs.Tables.{cell_value, net_in, number_in};

use crate::Cell;
use cg_sv::{Conn, Expr, Param};

/// The value of the first connection of the name.
pub(crate) fn connection_at<'a>(conns: &'a [Conn], name: &str) -> Option<&'a Expr>
    ensures { option_map (λ x. expression_of x.now) result ≡ connection_at name.now (map connection_of conns.now) }
{
    for conn in conns {
        if conn.name.as_str() == name {
            return Some(&conn.value);
        }
    }
    None
}

/// The value of the first parameter of the name.
pub(crate) fn parameter_at<'a>(params: &'a [Param], name: &str) -> Option<&'a Expr>
    ensures { option_map (λ x. expression_of x.now) result ≡ parameter_at name.now (map parameter_of params.now) }
{
    for param in params {
        if param.name.as_str() == name {
            return Some(&param.value);
        }
    }
    None
}

/// The name of a bare net; else an empty text.
#[tactic(auto, using(cg_sv::proofs::Views::views))]
pub(crate) fn net_in<'a>(value: Option<&'a Expr>) -> &'a str
    ensures { result.now ≡ net_in (option_map (λ x. expression_of x.now) value.entry) }
{
    match value {
        Some(expr) => match expr {
            Expr::Net(name) => name.as_str(),
            Expr::Cut { .. } => "",
            Expr::Lit { .. } => "",
            Expr::Cat(_) => "",
            Expr::Not(_) => "",
            Expr::Any(_) => "",
            Expr::And(_, _) => "",
            Expr::Or(_, _) => "",
            Expr::Equal(_, _) => "",
            Expr::Pick(_, _, _) => "",
        },
        None => "",
    }
}

/// The value of a literal; else 0.
#[tactic(auto, using(cg_sv::proofs::Views::views))]
pub(crate) fn number_in(value: Option<&Expr>) -> u64
    ensures { result ≡ number_in (option_map (λ x. expression_of x.now) value.entry) }
{
    match value {
        Some(expr) => match expr {
            Expr::Lit { value, .. } => *value,
            Expr::Net(_) => 0,
            Expr::Cut { .. } => 0,
            Expr::Cat(_) => 0,
            Expr::Not(_) => 0,
            Expr::Any(_) => 0,
            Expr::And(_, _) => 0,
            Expr::Or(_, _) => 0,
            Expr::Equal(_, _) => 0,
            Expr::Pick(_, _, _) => 0,
        },
        None => 0,
    }
}

/// The value of the first cell of the name, or 0.
pub(crate) fn cell_value(cells: &[Cell], name: &str) -> u32
    ensures { result ≡ cell_value cells.now name.now }
{
    for cell in cells {
        if cell.name.as_str() == name {
            return cell.value;
        }
    }
    0
}
