//! The answer to an access, over all rows: an error, and the data of a read.

ghost use Rattle.std.specs.Prelude.{◌≡◌, ◌++◌, [], ◌∷◌, List, IfOk, OnOk, map};
ghost use Rattle.std.specs.Fmt.{decimal};
ghost use Rattle.cg_svspec.specs.Tree.{net, cat, none, and, or, any, pick, drive, assign};
ghost use Rattle.cg_sv.specs.Views.{expression_of, entry_of};
ghost use Rattle.cg_regspec.specs.NetNames.{reg_we, reg_re, reg_rdata, reg_error, hit_any, wbad_any, rbad_any};
ghost use Rattle.cg_regspec.specs.RegisterModule.{highest_first, last_rd, all_ones, refused, answer_entries};

use crate::nets;
use crate::parts::{concatenation, no_parts, put_above};
use crate::rows::read_before;
use crate::words::all_ones;
use cg_base::{List, Memory};
use cg_desc::LaidRow;
use cg_sv::{Entry, Expr, make};
use std::alloc::Global;

/// The nets of this stem of all rows, the highest row first.
fn highest_first(alloc: Global, stem: &str, rows: &[LaidRow]) -> Result<Expr, Memory>
    ensures { IfOk result (λ x. expression_of x ≡ cat (highest_first (λ i. stem.now ++ decimal i) 0 none rows.now)) }
{
    let mut parts = no_parts(alloc);
    for (number, _) in rows.iter().enumerate() {
        let net = nets::row(alloc, stem, number)?;
        put_above(&mut parts, net)?;
    }
    Ok(concatenation(parts))
}

/// Adds the wire that is 1 where the wire of this stem is 1 in some row.
fn add_any(
    alloc: Global,
    entries: &mut List<Entry>,
    name: &str,
    stem: &str,
    rows: &[LaidRow],
) -> Result<(), Memory>
    ensures { OnOk result (map entry_of entries.new ≡ map entry_of entries.old
        ++ drive 1 name.now (any (cat (highest_first (λ i. stem.now ++ decimal i) 0 none rows.now))) ∷ []) }
{
    let all = highest_first(alloc, stem, rows)?;
    let any = make::any(alloc, all)?;
    make::drive(alloc, entries, 1, name, any)?;
    Ok(())
}

/// An access of this kind, where no row is hit, or the one that is refuses it.
fn refused(alloc: Global, access: &str, refusal: &str) -> Result<Expr, Memory>
    ensures { IfOk result (λ x. expression_of x ≡ and (net access.now) (refused refusal.now)) }
{
    let hit = make::net(alloc, "hit_any")?;
    let missed = make::not(alloc, hit)?;
    let bad = make::net(alloc, refusal)?;
    let refused = make::or(alloc, missed, bad)?;
    let access = make::net(alloc, access)?;
    let refused = make::and(alloc, access, refused)?;
    Ok(refused)
}

/// Whether there is an access that is refused.
fn error(alloc: Global) -> Result<Expr, Memory>
    ensures { IfOk result (λ x. expression_of x
        ≡ or (and (net reg_we) (refused wbad_any)) (and (net reg_re) (refused rbad_any))) }
{
    let write = refused(alloc, "reg_we", "wbad_any")?;
    let read = refused(alloc, "reg_re", "rbad_any")?;
    let error = make::or(alloc, write, read)?;
    Ok(error)
}

/// What a read shows: all ones after an error.
#[tactic(auto, using(crate::proofs::ReadBefore::reads))]
fn read_data(alloc: Global, rows: &[LaidRow]) -> Result<Expr, Memory>
    ensures { IfOk result (λ x. expression_of x ≡ pick (net reg_error) all_ones (last_rd 0 all_ones rows.now)) }
{
    let error = make::net(alloc, "reg_error")?;
    let read = read_before(alloc, rows.len())?;
    let shown = make::pick(alloc, error, all_ones(), read)?;
    Ok(shown)
}

/// Adds what tells all rows together, and the assigns of the answer.
pub fn add_answer(alloc: Global, entries: &mut List<Entry>, rows: &[LaidRow]) -> Result<(), Memory>
    ensures { OnOk result (map entry_of entries.new ≡ map entry_of entries.old ++ answer_entries rows.now) }
{
    add_any(alloc, entries, "hit_any", "hit_", rows)?;
    add_any(alloc, entries, "wbad_any", "wbad_", rows)?;
    add_any(alloc, entries, "rbad_any", "rbad_", rows)?;
    let error = error(alloc)?;
    make::assign(alloc, entries, "reg_error", error)?;
    let data = read_data(alloc, rows)?;
    make::assign(alloc, entries, "reg_rdata", data)?;
    Ok(())
}
