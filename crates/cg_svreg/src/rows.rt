//! The wires of the rows: which row is hit, whether it takes the access, and what a read shows.

ghost use Rattle.std.specs.Prelude.{◌≡◌, ◌++◌, [], ◌∷◌, IfOk, OnOk, map};
ghost use Rattle.std.specs.Fmt.{decimal};
ghost use Rattle.cg_svspec.specs.Tree.{net, and, inv, pick, drive};
ghost use Rattle.cg_sv.specs.Views.{expression_of, entry_of};
ghost use Rattle.cg_regspec.specs.NetNames.{reg_we, reg_re, hit, wbad, rbad};
ghost use Rattle.cg_regspec.specs.RegisterModule.{hit_of, write_refused, read_refused, gated, item_gate, item_word_text, all_ones, row_entries, rows_entries};
ghost use Rattle.cg_svreg.specs.Parts.{read_before};

use crate::gates::{gated, item_gate};
use crate::hits::hit_of;
use crate::nets::{self, row_net};
use crate::refusals::{read_refused, write_refused};
use crate::words::{all_ones, item_word};
use cg_base::{List, Memory};
use cg_desc::{Item, LaidRow};
use cg_sv::{Entry, Expr, make};
use std::alloc::Global;

/// Adds a wire of a row.
fn add_wire(
    alloc: Global,
    entries: &mut List<Entry>,
    width: u32,
    stem: &str,
    number: usize,
    value: Expr,
) -> Result<(), Memory>
    ensures { OnOk result (map entry_of entries.new ≡ map entry_of entries.old ++ drive width (stem.now ++ decimal number) (expression_of value) ∷ []) }
{
    let name = row_net(alloc, stem, number)?;
    make::drive(alloc, entries, width, name.as_str(), value)?;
    Ok(())
}

/// Where the row is hit, whether this holds.
fn where_hit(alloc: Global, number: usize, value: Expr) -> Result<Expr, Memory>
    ensures { IfOk result (λ x. expression_of x ≡ and (net (hit number)) (expression_of value)) }
{
    let hit = nets::row(alloc, "hit_", number)?;
    let both = make::and(alloc, hit, value)?;
    Ok(both)
}

/// An access of this kind at the row, which does not refuse it.
fn accepted(alloc: Global, access: &str, refusal: &str, number: usize) -> Result<Expr, Memory>
    ensures { IfOk result (λ x. expression_of x ≡ and (and (net access.now) (net (hit number))) (inv (net (refusal.now ++ decimal number)))) }
{
    let access = make::net(alloc, access)?;
    let hit = nets::row(alloc, "hit_", number)?;
    let here = make::and(alloc, access, hit)?;
    let refused = nets::row(alloc, refusal, number)?;
    let takes = make::not(alloc, refused)?;
    let accepted = make::and(alloc, here, takes)?;
    Ok(accepted)
}

/// A write that the row accepts, and whose gate is open.
fn effective_write(
    alloc: Global,
    all: &[LaidRow],
    number: usize,
    item: &Item,
) -> Result<Expr, Memory>
    ensures { IfOk result (λ x. expression_of x
        ≡ gated (and (and (net reg_we) (net (hit number))) (inv (net (wbad number)))) (item_gate all.now item.now)) }
{
    let write = accepted(alloc, "reg_we", "wbad_", number)?;
    let gate = item_gate(alloc, all, item)?;
    let effective = gated(alloc, write, gate)?;
    Ok(effective)
}

/// What is read where no row from this number on is hit.
#[tactic(auto, unfolding(crate::specs::Parts::read_before))]
pub fn read_before(alloc: Global, number: usize) -> Result<Expr, Memory>
    ensures { IfOk result (λ x. expression_of x ≡ read_before number) }
{
    match number.checked_sub(1) {
        None => Ok(all_ones()),
        Some(before) => {
            let read = nets::row(alloc, "rd_", before)?;
            Ok(read)
        }
    }
}

/// What is read where no row above this number is hit.
fn read_here(alloc: Global, number: usize, item: &Item) -> Result<Expr, Memory>
    ensures { IfOk result (λ x. expression_of x ≡ pick (net (hit number)) (item_word_text item.now) (read_before number)) }
{
    let hit = nets::row(alloc, "hit_", number)?;
    let word = item_word(alloc, item)?;
    let before = read_before(alloc, number)?;
    let read = make::pick(alloc, hit, word, before)?;
    Ok(read)
}

/// Adds whether the row is hit, and what it refuses.
fn add_refusals(
    alloc: Global,
    entries: &mut List<Entry>,
    number: usize,
    row: &LaidRow,
) -> Result<(), Memory>
    ensures { OnOk result (map entry_of entries.new ≡ map entry_of entries.old
        ++ (drive 1 (hit number) (hit_of row.now row.now.item)
        ∷ drive 1 (wbad number) (and (net (hit number)) (write_refused row.now.item))
        ∷ drive 1 (rbad number) (and (net (hit number)) (read_refused row.now.item)) ∷ [])) }
{
    let hit = hit_of(alloc, row)?;
    add_wire(alloc, entries, 1, "hit_", number, hit)?;
    let write = write_refused(alloc, &row.item)?;
    let write = where_hit(alloc, number, write)?;
    add_wire(alloc, entries, 1, "wbad_", number, write)?;
    let read = where_hit(alloc, number, read_refused(&row.item))?;
    add_wire(alloc, entries, 1, "rbad_", number, read)?;
    Ok(())
}

/// Adds the six wires of a row among all rows.
fn add_row(
    alloc: Global,
    entries: &mut List<Entry>,
    all: &[LaidRow],
    number: usize,
    row: &LaidRow,
) -> Result<(), Memory>
    ensures { OnOk result (map entry_of entries.new ≡ map entry_of entries.old ++ row_entries all.now number (read_before number) row.now) }
{
    add_refusals(alloc, entries, number, row)?;
    let write = effective_write(alloc, all, number, &row.item)?;
    add_wire(alloc, entries, 1, "we_", number, write)?;
    let read = accepted(alloc, "reg_re", "rbad_", number)?;
    add_wire(alloc, entries, 1, "re_", number, read)?;
    let word = read_here(alloc, number, &row.item)?;
    add_wire(alloc, entries, 32, "rd_", number, word)?;
    Ok(())
}

/// Adds the wires of all rows.
#[tactic(auto, using(crate::proofs::ReadBefore::reads))]
pub fn add_rows(alloc: Global, entries: &mut List<Entry>, rows: &[LaidRow]) -> Result<(), Memory>
    ensures { OnOk result (map entry_of entries.new ≡ map entry_of entries.old ++ rows_entries rows.now 0 all_ones rows.now) }
{
    for (number, row) in rows.iter().enumerate() {
        add_row(alloc, entries, rows, number, row)?;
    }
    Ok(())
}
