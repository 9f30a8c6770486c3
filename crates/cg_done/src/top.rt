//! The completed description of a top.

ghost use Rattle.std.specs.Prelude.{◌≡◌, IfOk};
ghost use Rattle.serde_json.specs.View.{view};
ghost use Rattle.cg_topread.specs.Described.{top_of};
ghost use Rattle.cg_jsonspec.specs.ReadsBack.{ReadsBack};
ghost use Rattle.cg_blkdone.specs.Parts.{IsKept};
ghost use Rattle.cg_done.specs.Completed.{IsReadTop, completed_top_text};
ghost use Rattle.cg_done.specs.FullTop.{full_top};

use crate::completed_top_reads_back;
use crate::lists::{Part, with_list};
use crate::sections::{Section, with_section};
use crate::values::{one_space, said_or};
use cg_base::{Memory, Text};
use cg_blkdone::{with, with_line_end};
use cg_desc::TopDesc;
use cg_hjson::{Tree, to_json};
use cg_jsonspec::layout_is_pretty;
use serde_json::Value;
use std::alloc::Global;

#[tactic(auto, unfolding(crate::specs::FullTop::full_top, crate::specs::FullTop::top_pairs))]
fn full_top(alloc: Global, tree: &Tree) -> Result<Value, Memory>
    requires { IsKept tree.now }
    ensures { IfOk result (λ v. view v ≡ full_top tree.now) }
{
    let spaces = said_or(alloc, tree, "addr_spaces", one_space(alloc)?)?;
    let value = to_json(alloc, tree)?;
    let value = with(alloc, value, "addr_spaces", spaces)?;
    let value = with_list(alloc, value, Part::Instance, tree, "module")?;
    let value = with_list(alloc, value, Part::Crossbar, tree, "xbar")?;
    let value = with_section(alloc, value, Section::Clocks, tree, "clocks")?;
    let value = with_section(alloc, value, Section::Pinout, tree, "pinout")?;
    let value = with_section(alloc, value, Section::Pinmux, tree, "pinmux")?;
    Ok(value)
}

/// The completed description of a top, from its tree; `top` is the description that was read from it.
///
/// The text has a line for each member and element, indented by two spaces for each level, and ends in a line feed.
pub fn done_top(alloc: Global, tree: &Tree, top: &TopDesc) -> Result<Text, Memory>
    requires read { IsReadTop tree.now }
    requires described { top.now ≡ top_of top.now.file tree.now }
    ensures text { IfOk result (λ t. t ≡ completed_top_text tree.now) }
    ensures reads_back { IfOk result (λ t. ReadsBack t (full_top tree.now)) }
{
    layout_is_pretty();
    completed_top_reads_back();
    let value = full_top(alloc, tree)?;
    let json = value.to_string_pretty(alloc)?;
    let text = with_line_end(json)?;
    Ok(text)
}
