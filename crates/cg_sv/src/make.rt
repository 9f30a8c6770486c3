//! Makers of expressions, ports and entries, for the writers of modules.
//!
//! Each has a contract over what its result stands for, so that a writer's proof is a sum of lists. Names are taken as
//! `&str` and copied. A maker that adds to a list adds at its end. Where memory is not found, the list stays as it was,
//! and what was passed by value is dropped.

ghost use Rattle.std.specs.Prelude.{◌≡◌, ◌++◌, [], ◌∷◌, IfOk, OnOk, OnErr, map};
ghost use Rattle.cg_svspec.specs.Tree.{net, cut, lit, cat, inv, any, and, or, equal, pick, expressions, wire, drive, assign, inst};
ghost use Rattle.cg_svspec.specs.Register.{input_port, output_port};
ghost use Rattle.cg_sv.specs.Views.{expression_of, port_of, parameter_of, connection_of, entry_of, parameter, connection};

use crate::tree::{Conn, Entry, Expr, Param, Port};
use cg_base::{List, Memory, Text};
use std::alloc::Global;

/// All bits of a net.
#[tactic(auto, using(crate::proofs::Views::views))]
pub fn net(alloc: Global, name: &str) -> Result<Expr, Memory>
    ensures { IfOk result (λ x. expression_of x ≡ net name.now) }
{
    let name = Text::of(alloc, name)?;
    Ok(Expr::Net(name))
}

/// The bits `msb` down to `lsb` of a net.
#[tactic(auto, using(crate::proofs::Views::views))]
pub fn cut(alloc: Global, name: &str, msb: u32, lsb: u32) -> Result<Expr, Memory>
    ensures { IfOk result (λ x. expression_of x ≡ cut name.now msb lsb) }
{
    let net = Text::of(alloc, name)?;
    Ok(Expr::Cut { net, msb, lsb })
}

/// A number of `width` bits; in a parameter, of width 0, a plain number.
#[tactic(auto, using(crate::proofs::Views::views))]
pub fn lit(width: u32, value: u64) -> Expr
    ensures { expression_of result ≡ lit width value }
{
    Expr::Lit { width, value }
}

/// The parts side by side, the first in the high bits.
#[tactic(auto, using(crate::proofs::Views::views))]
pub fn cat(parts: List<Expr>) -> Expr
    ensures { expression_of result ≡ cat (expressions (map expression_of parts)) }
{
    Expr::Cat(parts)
}

/// Each bit turned.
#[tactic(auto, using(crate::proofs::Views::views))]
pub fn not(alloc: Global, part: Expr) -> Result<Expr, Memory>
    ensures { IfOk result (λ x. expression_of x ≡ inv (expression_of part)) }
{
    let part = Box::new(alloc, part)?;
    Ok(Expr::Not(part))
}

/// The or of all bits.
#[tactic(auto, using(crate::proofs::Views::views))]
pub fn any(alloc: Global, part: Expr) -> Result<Expr, Memory>
    ensures { IfOk result (λ x. expression_of x ≡ any (expression_of part)) }
{
    let part = Box::new(alloc, part)?;
    Ok(Expr::Any(part))
}

/// The and of each two bits.
#[tactic(auto, using(crate::proofs::Views::views))]
pub fn and(alloc: Global, left: Expr, right: Expr) -> Result<Expr, Memory>
    ensures { IfOk result (λ x. expression_of x ≡ and (expression_of left) (expression_of right)) }
{
    let left = Box::new(alloc, left)?;
    let right = Box::new(alloc, right)?;
    Ok(Expr::And(left, right))
}

/// The or of each two bits.
#[tactic(auto, using(crate::proofs::Views::views))]
pub fn or(alloc: Global, left: Expr, right: Expr) -> Result<Expr, Memory>
    ensures { IfOk result (λ x. expression_of x ≡ or (expression_of left) (expression_of right)) }
{
    let left = Box::new(alloc, left)?;
    let right = Box::new(alloc, right)?;
    Ok(Expr::Or(left, right))
}

/// Whether two values are equal.
#[tactic(auto, using(crate::proofs::Views::views))]
pub fn equal(alloc: Global, left: Expr, right: Expr) -> Result<Expr, Memory>
    ensures { IfOk result (λ x. expression_of x
        ≡ equal (expression_of left) (expression_of right)) }
{
    let left = Box::new(alloc, left)?;
    let right = Box::new(alloc, right)?;
    Ok(Expr::Equal(left, right))
}

/// `one` where the condition is 1, and `zero` where it is 0.
#[tactic(auto, using(crate::proofs::Views::views))]
pub fn pick(alloc: Global, condition: Expr, one: Expr, zero: Expr) -> Result<Expr, Memory>
    ensures { IfOk result (λ x. expression_of x
        ≡ pick (expression_of condition) (expression_of one) (expression_of zero)) }
{
    let condition = Box::new(alloc, condition)?;
    let one = Box::new(alloc, one)?;
    let zero = Box::new(alloc, zero)?;
    Ok(Expr::Pick(condition, one, zero))
}

/// Adds an input of a module.
#[tactic(auto, using(crate::proofs::Views::views))]
pub fn input(alloc: Global, ports: &mut List<Port>, width: u32, name: &str) -> Result<(), Memory>
    ensures ok { OnOk result (map port_of ports.new
        ≡ map port_of ports.old ++ input_port width name.now ∷ []) }
    ensures err { OnErr result (ports.new ≡ ports.old) }
{
    let name = Text::of(alloc, name)?;
    ports.push(Port {
        input: true,
        width,
        name,
    })?;
    Ok(())
}

/// Adds an output of a module.
#[tactic(auto, using(crate::proofs::Views::views))]
pub fn output(alloc: Global, ports: &mut List<Port>, width: u32, name: &str) -> Result<(), Memory>
    ensures ok { OnOk result (map port_of ports.new
        ≡ map port_of ports.old ++ output_port width name.now ∷ []) }
    ensures err { OnErr result (ports.new ≡ ports.old) }
{
    let name = Text::of(alloc, name)?;
    ports.push(Port {
        input: false,
        width,
        name,
    })?;
    Ok(())
}

/// Adds a wire without an expression.
#[tactic(auto, using(crate::proofs::Views::views))]
pub fn wire(alloc: Global, entries: &mut List<Entry>, width: u32, name: &str) -> Result<(), Memory>
    ensures ok { OnOk result (map entry_of entries.new
        ≡ map entry_of entries.old ++ wire width name.now ∷ []) }
    ensures err { OnErr result (entries.new ≡ entries.old) }
{
    let name = Text::of(alloc, name)?;
    entries.push(Entry::Wire {
        width,
        name,
        value: None,
    })?;
    Ok(())
}

/// Adds a wire that an expression of its own drives.
#[tactic(auto, using(crate::proofs::Views::views))]
pub fn drive(
    alloc: Global,
    entries: &mut List<Entry>,
    width: u32,
    name: &str,
    value: Expr,
) -> Result<(), Memory>
    ensures ok { OnOk result (map entry_of entries.new
        ≡ map entry_of entries.old ++ drive width name.now (expression_of value) ∷ []) }
    ensures err { OnErr result (entries.new ≡ entries.old) }
{
    let name = Text::of(alloc, name)?;
    entries.push(Entry::Wire {
        width,
        name,
        value: Some(value),
    })?;
    Ok(())
}

/// Adds the assignment of a net.
#[tactic(auto, using(crate::proofs::Views::views))]
pub fn assign(
    alloc: Global,
    entries: &mut List<Entry>,
    name: &str,
    value: Expr,
) -> Result<(), Memory>
    ensures ok { OnOk result (map entry_of entries.new
        ≡ map entry_of entries.old ++ assign name.now (expression_of value) ∷ []) }
    ensures err { OnErr result (entries.new ≡ entries.old) }
{
    let name = Text::of(alloc, name)?;
    entries.push(Entry::Assign { name, value })?;
    Ok(())
}

/// Adds an instance of the module `module`.
#[tactic(auto, using(crate::proofs::Views::views))]
pub fn instance(
    alloc: Global,
    entries: &mut List<Entry>,
    module: &str,
    params: List<Param>,
    name: &str,
    conns: List<Conn>,
) -> Result<(), Memory>
    ensures ok { OnOk result (map entry_of entries.new
        ≡ map entry_of entries.old
        ++ inst «module».now (map parameter_of params) name.now (map connection_of conns) ∷ []) }
    ensures err { OnErr result (entries.new ≡ entries.old) }
{
    let module = Text::of(alloc, module)?;
    let name = Text::of(alloc, name)?;
    entries.push(Entry::Inst {
        module,
        params,
        name,
        conns,
    })?;
    Ok(())
}

/// Adds a parameter of an instance.
#[tactic(auto, using(crate::proofs::Views::views))]
pub fn parameter(
    alloc: Global,
    params: &mut List<Param>,
    name: &str,
    value: Expr,
) -> Result<(), Memory>
    ensures ok { OnOk result (map parameter_of params.new
        ≡ map parameter_of params.old ++ parameter name.now (expression_of value) ∷ []) }
    ensures err { OnErr result (params.new ≡ params.old) }
{
    let name = Text::of(alloc, name)?;
    params.push(Param { name, value })?;
    Ok(())
}

/// Adds a connection of an instance.
#[tactic(auto, using(crate::proofs::Views::views))]
pub fn connection(
    alloc: Global,
    conns: &mut List<Conn>,
    name: &str,
    value: Expr,
) -> Result<(), Memory>
    ensures ok { OnOk result (map connection_of conns.new
        ≡ map connection_of conns.old ++ connection name.now (expression_of value) ∷ []) }
    ensures err { OnErr result (conns.new ≡ conns.old) }
{
    let name = Text::of(alloc, name)?;
    conns.push(Conn { name, value })?;
    Ok(())
}
