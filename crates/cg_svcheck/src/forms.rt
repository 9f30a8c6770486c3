//! What a plain expression says, and what stands at a parameter or a connection.

ghost use Rattle.std.specs.Prelude.{◌≡◌, map};
ghost use Rattle.std.specs.Option.{option_copied, option_map};
ghost use Rattle.cg_svspec.specs.Value.{parameter_at, connection_at};
ghost use Rattle.cg_sv.specs.Views.{expression_of, parameter_of, connection_of};
ghost use Rattle.cg_svcheck.specs.Plain as said;

use cg_sv::{Conn, Expr, Param};

/// The width and the value of a literal.
#[tactic(auto, using(cg_sv::proofs::Views::views))]
pub fn literal(expr: &Expr) -> Option<(u32, u64)>
    ensures { option_map (λ p. said.literal p.0 p.1) result ≡ said.literal_of (expression_of expr.now) }
{
    match expr {
        Expr::Lit { width, value } => Some((*width, *value)),
        _ => None,
    }
}

/// The name of a bare net.
#[tactic(auto, using(cg_sv::proofs::Views::views))]
pub fn bare_net(expr: &Expr) -> Option<&str>
    ensures { option_copied result ≡ said.net_of (expression_of expr.now) }
{
    match expr {
        Expr::Net(name) => Some(name.as_str()),
        _ => None,
    }
}

/// The value of the first parameter with the name.
pub fn parameter_at<'a>(params: &'a [Param], name: &str) -> Option<&'a Expr>
    ensures { option_map (λ x. expression_of x.now) result ≡ parameter_at name.now (map parameter_of params.now) }
{
    for parameter in params {
        if parameter.name.as_str() == name {
            return Some(&parameter.value);
        }
    }
    None
}

/// What the first connection with the name is connected to.
pub fn connection_at<'a>(conns: &'a [Conn], name: &str) -> Option<&'a Expr>
    ensures { option_map (λ x. expression_of x.now) result ≡ connection_at name.now (map connection_of conns.now) }
{
    for connection in conns {
        if connection.name.as_str() == name {
            return Some(&connection.value);
        }
    }
    None
}

/// The literal at the first parameter with the name.
pub fn literal_at(params: &[Param], name: &str) -> Option<(u32, u64)>
    ensures { option_map (λ p. said.literal p.0 p.1) result ≡ said.literal_in (parameter_at name.now (map parameter_of params.now)) }
{
    match parameter_at(params, name) {
        Some(value) => literal(value),
        None => None,
    }
}
