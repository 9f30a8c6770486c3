//! The widths of expressions, over the nets that are declared above.

ghost use Rattle.std.specs.Prelude.{◌≡◌, map};
ghost use Rattle.cg_svspec.specs.Tree.{expressions};
ghost use Rattle.cg_svspec.specs.WellFormed.{port_nets};
ghost use Rattle.cg_sv.specs.Views.{expression_of, port_of, entry_of};
ghost use Rattle.cg_svcheck.specs.Widths as test;

use crate::nets::Nets;
use cg_sv::{Entry, Expr, Port};

/// The width of the first port with the name.
fn port_width(ports: &[Port], name: &str) -> Option<u32>
    ensures { result ≡ test.width_at (port_nets (map port_of ports.now)) name.now }
{
    for port in ports {
        if port.name.as_str() == name {
            return Some(port.width);
        }
    }
    None
}

/// The width of the first wire with the name.
fn wire_width(entries: &[Entry], name: &str) -> Option<u32>
    ensures { result ≡ test.width_at (test.wire_nets (map entry_of entries.now)) name.now }
{
    for entry in entries {
        match entry {
            Entry::Wire {
                width,
                name: declared,
                ..
            } => {
                if declared.as_str() == name {
                    return Some(*width);
                }
            }
            Entry::Assign { .. } => {}
            Entry::Inst { .. } => {}
        }
    }
    None
}

/// The width of the net that the ports, or else the entries above, declare by the name.
#[tactic(auto, unfolding(crate::specs::Widths::width_above))]
pub fn width_above(ports: &[Port], above: &[Entry], name: &str) -> Option<u32>
    ensures { result ≡ test.width_above (map port_of ports.now) (map entry_of above.now) name.now }
{
    match port_width(ports, name) {
        Some(width) => Some(width),
        None => wire_width(above, name),
    }
}

/// The width of a cut of a net, where the net has more than one bit and all that are cut out.
fn cut_width(net: Option<u32>, msb: u32, lsb: u32) -> Option<u32>
    ensures { result ≡ test.cut_width msb lsb net }
{
    match net {
        None => None,
        Some(width) => {
            if 1 < width && (msb < width && lsb <= msb) {
                Some(msb - lsb + 1)
            } else {
                None
            }
        }
    }
}

/// One bit, where the part has a width.
fn one_bit(part: Option<u32>) -> Option<u32>
    ensures { result ≡ test.one_bit part }
{
    match part {
        None => None,
        Some(_) => Some(1),
    }
}

/// The one width of both.
fn agreed(first: Option<u32>, second: Option<u32>) -> Option<u32>
    ensures { result ≡ test.agreed first second }
{
    match (first, second) {
        (Some(one), Some(other)) => { if one == other { Some(one) } else { None } }
        (None, _) => None,
        (Some(_), None) => None,
    }
}

/// The width of a choice, where the condition has one bit.
fn picked(condition: Option<u32>, choice: Option<u32>) -> Option<u32>
    ensures { result ≡ test.picked condition choice }
{
    match condition {
        None => None,
        Some(width) => { if width == 1 { choice } else { None } }
    }
}

/// The width of an expression, where it has one, over the ports and the wires above.
#[cycle(widths)]
#[tactic(auto, using(cg_sv::proofs::Views::views))]
pub fn width_of<N: Nets>(nets: &N, expr: &Expr) -> Option<u32>
    ensures { result ≡ test.width_of (N.widths nets.now) (expression_of expr.now) }
{
    match expr {
        Expr::Net(name) => nets.width(name.as_str()),
        Expr::Cut { net, msb, lsb } => { cut_width(nets.width(net.as_str()), *msb, *lsb) }
        Expr::Lit { width, .. } => Some(*width),
        Expr::Cat(parts) => sum_of_widths(nets, parts.as_slice()),
        Expr::Not(part) => width_of(nets, part),
        Expr::Any(part) => one_bit(width_of(nets, part)),
        Expr::And(first, second) => agreed(width_of(nets, first), width_of(nets, second)),
        Expr::Or(first, second) => agreed(width_of(nets, first), width_of(nets, second)),
        Expr::Equal(first, second) => one_bit(agreed(
            width_of(nets, first),
            width_of(nets, second),
        )),
        Expr::Pick(condition, one, zero) => picked(
            width_of(nets, condition),
            agreed(width_of(nets, one), width_of(nets, zero)),
        ),
    }
}
/// The widths of the parts of a concatenation together, where that is below 2^32.
#[cycle(widths)]
fn sum_of_widths<N: Nets>(nets: &N, parts: &[Expr]) -> Option<u32>
    ensures { result ≡ test.bounded (test.sum_of_widths (N.widths nets.now) (expressions (map expression_of parts.now))) }
{
    let mut total: u32 = 0;
    for part in parts {
        let width = width_of(nets, part)?;
        total = total.checked_add(width)?;
    }
    Some(total)
}
