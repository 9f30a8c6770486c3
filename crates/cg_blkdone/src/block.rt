//! The completed description of a block.

ghost use Rattle.std.specs.Prelude.{◌≡◌, [], ◌∷◌, ◌++◌, IfOk, string_bytes};
ghost use Rattle.serde_json.specs.View.{view};
ghost use Rattle.cg_blkread.specs.Described.{block_of};
ghost use Rattle.cg_jsonspec.specs.ReadsBack.{ReadsBack};
ghost use Rattle.cg_blkdone.specs.Completed.{IsReadBlock, completed_text};
ghost use Rattle.cg_blkdone.specs.Full.{full_block};
ghost use Rattle.cg_blkdone.specs.Parts.{IsKept};

use crate::completed_reads_back;
use crate::lists::{Part, with_list, with_registers};
use crate::plain::{number, truth};
use crate::putting::with;
use cg_base::{Memory, Text};
use cg_blkread::is_true;
use cg_desc::BlockDesc;
use cg_hjson::{Tree, to_json};
use cg_jsonspec::layout_is_pretty;
use cg_keys::members;
use serde_json::Value;
use std::alloc::Global;

#[tactic(auto, unfolding(crate::specs::Full::full_block, crate::specs::Full::block_pairs), using(crate::proofs::InTurn::with_more, crate::proofs::InTurn::with_then))]
fn full_block(alloc: Global, tree: &Tree) -> Result<Value, Memory>
    requires { IsKept tree.now }
    ensures { IfOk result (λ v. view v ≡ full_block tree.now) }
{
    let members = members(tree);
    let no_interrupts = truth(is_true(members, "no_auto_intr_regs"));
    let no_alerts = truth(is_true(members, "no_auto_alert_regs"));
    let value = to_json(alloc, tree)?;
    let value = with_list(alloc, value, Part::Interrupt, tree, "interrupt_list")?;
    let value = with_list(alloc, value, Part::Alert, tree, "alert_list")?;
    let value = with(alloc, value, "no_auto_intr_regs", no_interrupts)?;
    let value = with(alloc, value, "no_auto_alert_regs", no_alerts)?;
    let value = with_list(alloc, value, Part::Parameter, tree, "param_list")?;
    let value = with(alloc, value, "regwidth", number(32))?;
    let value = with_list(alloc, value, Part::Pin, tree, "available_input_list")?;
    let value = with_list(alloc, value, Part::Pin, tree, "available_output_list")?;
    let value = with_list(alloc, value, Part::Pin, tree, "available_inout_list")?;
    let value = with_registers(alloc, value, tree)?;
    Ok(value)
}

/// A text with a line feed at its end.
pub fn with_line_end(json: String) -> Result<Text, Memory>
    ensures { IfOk result (λ t. t ≡ string_bytes json ++ 10 ∷ []) }
{
    let mut text = Text::from_string(json);
    text.add("\n")?;
    Ok(text)
}

/// The completed description of a block, from its tree; `block` is the description that was read from it.
///
/// The text has a line for each member and element, indented by two spaces for each level, and ends in a line feed.
pub fn done_block(alloc: Global, tree: &Tree, block: &BlockDesc) -> Result<Text, Memory>
    requires read { IsReadBlock tree.now }
    requires described { block.now ≡ block_of block.now.file tree.now }
    ensures text { IfOk result (λ t. t ≡ completed_text tree.now) }
    ensures reads_back { IfOk result (λ t. ReadsBack t (full_block tree.now)) }
{
    layout_is_pretty();
    completed_reads_back();
    let value = full_block(alloc, tree)?;
    let json = value.to_string_pretty(alloc)?;
    let text = with_line_end(json)?;
    Ok(text)
}
