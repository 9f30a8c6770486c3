//! Shadowed registers: whether a second write is equal, the phase, and what is staged (OpenTitan Register Tool, shadowed
//! registers).

ghost use Rattle.std.specs.Prelude.{◌≡◌, ◌++◌, IfOk, OnOk, map};
ghost use Rattle.cg_svspec.specs.Tree.{net, lit, inv, and, pick, drive};
ghost use Rattle.cg_sv.specs.Views.{expression_of, entry_of};
ghost use Rattle.cg_regspec.specs.NetNames.{phase_net, equal_net, we, re, next_staged_net};
ghost use Rattle.cg_regspec.specs.RegisterModule.{width_of, has_shadow, entry_if, write_net, stage_of, equals, equals_and, all_equal, second_write, shadow_entries};

use crate::access::{has_shadow, width_of};
use crate::nets::{self, field_net, next_phase_net, row_net, update_error_net, written_bits};
use cg_base::{List, Memory, Text};
use cg_desc::{FieldDesc, RegDesc};
use cg_sv::{Entry, Expr, make};
use std::alloc::Global;

/// The name of the net that tells of a write that changes the fields of the register in row `number`.
pub fn write_net(alloc: Global, number: usize, register: &RegDesc) -> Result<Text, Memory>
    ensures { IfOk result (λ name. name ≡ write_net number register.now) }
{
    if has_shadow(register) {
        let commit = row_net(alloc, "ok_", number)?;
        return Ok(commit);
    }
    let write = row_net(alloc, "we_", number)?;
    Ok(write)
}

/// Whether the field's written value equals its staged one.
fn equals(alloc: Global, register: &RegDesc, field: &FieldDesc) -> Result<Expr, Memory>
    ensures { IfOk result (λ x. expression_of x ≡ equals register.now field.now) }
{
    let staged = nets::field(alloc, register, field, "_t")?;
    let written = written_bits(alloc, field)?;
    let same = make::equal(alloc, staged, written)?;
    Ok(same)
}

/// The expression, and whether the written value of each of these fields equals its staged one.
fn equals_and(
    alloc: Global,
    first: Expr,
    register: &RegDesc,
    fields: &[FieldDesc],
) -> Result<Expr, Memory>
    ensures { IfOk result (λ x. expression_of x ≡ equals_and (expression_of first) register.now fields.now) }
{
    let mut equal = first;
    for field in fields {
        let same = equals(alloc, register, field)?;
        equal = make::and(alloc, equal, same)?;
    }
    Ok(equal)
}

/// Whether every field's written value equals its staged one.
fn all_equal(alloc: Global, register: &RegDesc, fields: &[FieldDesc]) -> Result<Expr, Memory>
    ensures { IfOk result (λ x. expression_of x ≡ all_equal register.now fields.now) }
{
    match fields {
        [] => Ok(make::lit(1, 1)),
        [field, others @ ..] => {
            let first = equals(alloc, register, field)?;
            let equal = equals_and(alloc, first, register, others)?;
            Ok(equal)
        }
    }
}

/// A write at phase 1.
fn second_write(alloc: Global, number: usize) -> Result<Expr, Memory>
    ensures { IfOk result (λ x. expression_of x ≡ second_write number) }
{
    let write = nets::row(alloc, "we_", number)?;
    let phase = nets::row(alloc, "ph_", number)?;
    let second = make::and(alloc, write, phase)?;
    Ok(second)
}

/// The phase where there is no write: a read clears it.
fn phase_unwritten(alloc: Global, number: usize) -> Result<Expr, Memory>
    ensures { IfOk result (λ x. expression_of x ≡ pick (net (re number)) (lit 1 0) (net (phase_net number))) }
{
    let read = nets::row(alloc, "re_", number)?;
    let phase = nets::row(alloc, "ph_", number)?;
    let next = make::pick(alloc, read, make::lit(1, 0), phase)?;
    Ok(next)
}

/// The next phase, which a write turns.
fn next_phase(alloc: Global, number: usize) -> Result<Expr, Memory>
    ensures { IfOk result (λ x. expression_of x
        ≡ pick (net (we number)) (inv (net (phase_net number))) (pick (net (re number)) (lit 1 0) (net (phase_net number)))) }
{
    let write = nets::row(alloc, "we_", number)?;
    let phase = nets::row(alloc, "ph_", number)?;
    let turned = make::not(alloc, phase)?;
    let kept = phase_unwritten(alloc, number)?;
    let next = make::pick(alloc, write, turned, kept)?;
    Ok(next)
}

/// A second write that commits: it is equal.
fn commit(alloc: Global, number: usize) -> Result<Expr, Memory>
    ensures { IfOk result (λ x. expression_of x ≡ and (second_write number) (net (equal_net number))) }
{
    let second = second_write(alloc, number)?;
    let equal = nets::row(alloc, "eq_", number)?;
    let commit = make::and(alloc, second, equal)?;
    Ok(commit)
}

/// A second write that fails: it differs.
fn failure(alloc: Global, number: usize) -> Result<Expr, Memory>
    ensures { IfOk result (λ x. expression_of x ≡ and (second_write number) (inv (net (equal_net number)))) }
{
    let second = second_write(alloc, number)?;
    let equal = nets::row(alloc, "eq_", number)?;
    let differs = make::not(alloc, equal)?;
    let failure = make::and(alloc, second, differs)?;
    Ok(failure)
}

/// Adds the entries of a shadowed register: whether a write is equal, whether it commits, the next phase, and the update
/// error.
pub fn add_shadow(
    alloc: Global,
    entries: &mut List<Entry>,
    number: usize,
    register: &RegDesc,
) -> Result<(), Memory>
    ensures { OnOk result (map entry_of entries.new ≡ map entry_of entries.old ++ shadow_entries number register.now) }
{
    let value = all_equal(alloc, register, register.fields.as_slice())?;
    let equal = row_net(alloc, "eq_", number)?;
    make::drive(alloc, entries, 1, equal.as_str(), value)?;
    let value = commit(alloc, number)?;
    let commit = row_net(alloc, "ok_", number)?;
    make::drive(alloc, entries, 1, commit.as_str(), value)?;
    let value = next_phase(alloc, number)?;
    let phase = next_phase_net(alloc, number)?;
    make::drive(alloc, entries, 1, phase.as_str(), value)?;
    let value = failure(alloc, number)?;
    let error = update_error_net(alloc, register)?;
    make::assign(alloc, entries, error.as_str(), value)?;
    Ok(())
}

/// What is staged next: in a write at phase 0 what is written.
fn stage_of(
    alloc: Global,
    number: usize,
    register: &RegDesc,
    field: &FieldDesc,
) -> Result<Expr, Memory>
    ensures { IfOk result (λ x. expression_of x ≡ stage_of number register.now field.now) }
{
    let write = nets::row(alloc, "we_", number)?;
    let phase = nets::row(alloc, "ph_", number)?;
    let first = make::not(alloc, phase)?;
    let stages = make::and(alloc, write, first)?;
    let written = written_bits(alloc, field)?;
    let staged = nets::field(alloc, register, field, "_t")?;
    let next = make::pick(alloc, stages, written, staged)?;
    Ok(next)
}

/// Adds what is staged next of a field of a shadowed register.
pub fn add_staged(
    alloc: Global,
    entries: &mut List<Entry>,
    number: usize,
    register: &RegDesc,
    field: &FieldDesc,
) -> Result<(), Memory>
    ensures { OnOk result (map entry_of entries.new ≡ map entry_of entries.old
        ++ entry_if (has_shadow register.now) (drive (width_of field.now) (next_staged_net register.now field.now) (stage_of number register.now field.now))) }
{
    if has_shadow(register) {
        let value = stage_of(alloc, number, register, field)?;
        let next = field_net(alloc, register, field, "_v")?;
        make::drive(alloc, entries, width_of(field), next.as_str(), value)?;
    }
    Ok(())
}
