//! What a window shows to hardware: the strobes of accesses to it, and the access.

ghost use Rattle.std.specs.Prelude.{◌≡◌, ◌++◌, [], ◌∷◌, OnOk, map};
ghost use Rattle.cg_svspec.specs.Tree.{net, assign};
ghost use Rattle.cg_sv.specs.Views.{entry_of, expression_of};
ghost use Rattle.cg_regspec.specs.NetNames.{window_base, window_we, window_re, we, re};
ghost use Rattle.cg_regspec.specs.RegisterModule.{item_windows, rows_windows};

use crate::nets::{self, window_net};
use cg_base::{List, Memory};
use cg_desc::{Item, LaidRow, WindowDesc};
use cg_sv::{Entry, Expr, make};
use std::alloc::Global;

/// Adds the assign of a window's port.
fn add_assign(
    alloc: Global,
    entries: &mut List<Entry>,
    window: &WindowDesc,
    suffix: &str,
    value: Expr,
) -> Result<(), Memory>
    ensures { OnOk result (map entry_of entries.new ≡ map entry_of entries.old ++ assign (window_base window.now ++ suffix.now) (expression_of value) ∷ []) }
{
    let name = window_net(alloc, window, suffix)?;
    make::assign(alloc, entries, name.as_str(), value)?;
    Ok(())
}

/// Adds the strobes of the accesses that a window in row `number` accepts.
fn add_strobes(
    alloc: Global,
    entries: &mut List<Entry>,
    number: usize,
    window: &WindowDesc,
) -> Result<(), Memory>
    ensures { OnOk result (map entry_of entries.new ≡ map entry_of entries.old
        ++ assign (window_we window.now) (net (we number)) ∷ assign (window_re window.now) (net (re number)) ∷ []) }
{
    let write = nets::row(alloc, "we_", number)?;
    add_assign(alloc, entries, window, "_we", write)?;
    let read = nets::row(alloc, "re_", number)?;
    add_assign(alloc, entries, window, "_re", read)?;
    Ok(())
}

/// Adds the assigns of a window in row `number`.
fn add_window(
    alloc: Global,
    entries: &mut List<Entry>,
    number: usize,
    window: &WindowDesc,
) -> Result<(), Memory>
    ensures { OnOk result (map entry_of entries.new ≡ map entry_of entries.old ++ item_windows number (Item.Window window.now)) }
{
    add_strobes(alloc, entries, number, window)?;
    let address = make::net(alloc, "reg_addr")?;
    add_assign(alloc, entries, window, "_addr", address)?;
    let data = make::net(alloc, "reg_wdata")?;
    add_assign(alloc, entries, window, "_wdata", data)?;
    let strobes = make::net(alloc, "reg_be")?;
    add_assign(alloc, entries, window, "_be", strobes)?;
    Ok(())
}

fn add_item_windows(
    alloc: Global,
    entries: &mut List<Entry>,
    number: usize,
    item: &Item,
) -> Result<(), Memory>
    ensures { OnOk result (map entry_of entries.new ≡ map entry_of entries.old ++ item_windows number item.now) }
{
    match item {
        Item::Window(window) => {
            add_window(alloc, entries, number, window)?;
            Ok(())
        }
        Item::Reg(_) | Item::SkipTo { .. } | Item::Reserved { .. } => Ok(()),
    }
}

/// Adds the assigns of all windows.
pub fn add_rows_windows(
    alloc: Global,
    entries: &mut List<Entry>,
    rows: &[LaidRow],
) -> Result<(), Memory>
    ensures { OnOk result (map entry_of entries.new ≡ map entry_of entries.old ++ rows_windows 0 rows.now) }
{
    for (number, row) in rows.iter().enumerate() {
        add_item_windows(alloc, entries, number, &row.item)?;
    }
    Ok(())
}
