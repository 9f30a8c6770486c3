//! The rows of devices that stand for no crossbar.

ghost use Rattle.std.specs.Prelude.{◌≡◌, ◌+◌, ◌<◌, ◌≤◌, ◌^◌, OnOk};
ghost use Rattle.cg_svspec.specs.Printable.{AllOf};
ghost use Rattle.cg_desc.specs.Merged.{FaceAt, IsMerged};
ghost use Rattle.cg_desc.specs.Ranges.{IsRange};
ghost use Rattle.cg_desc.specs.Target.{row_end};
ghost use Rattle.cg_desc.specs.declared.block.LaidFace.{LaidFace as AFace};
ghost use Rattle.cg_space.specs.Inner.Leaves.{Adds, FaceFits, IsFaceRow, IsRangeRow, face_row, range_row, row_place};

use crate::nodes::face_at;
use crate::row::{HostId, Row};
use cg_base::{List, Memory};
use cg_desc::{Item, LaidRow, MergedTop, Place, Range};

/// What a row of an interface is: a window's place has index 0.
fn row_place(inst: u32, face: u32, number: u32, item: &Item) -> Place
    ensures { result ≡ row_place inst face number item.now }
{
    match item {
        Item::Reg(_) => Place::Reg {
            inst,
            face,
            row: number,
        },
        Item::Window(_) => Place::Word {
            inst,
            face,
            row: number,
            index: 0,
        },
        Item::SkipTo { .. } | Item::Reserved { .. } => Place::Error,
    }
}

/// The row of the map for a row of an interface with this base: the words that it has, and not what is spare behind them.
fn face_row(host: HostId, inst: u32, face: u32, base: u32, number: u32, row: &LaidRow) -> Row
    requires some { 0 < row.now.words }
    requires few { row_end row.now ≤ 2 ^ 24 }
    requires ends { base + row_end row.now ≤ 2 ^ 32 }
    ensures { result ≡ face_row host inst face base number row.now }
{
    let first = base + row.first;
    Row {
        host,
        first,
        last: first + (4 * row.words - 1),
        place: row_place(inst, face, number, &row.item),
    }
}

/// Appends the rows of a device interface.
pub fn add_face(
    top: &MergedTop,
    host: HostId,
    inst: u32,
    face: u32,
    rows: &mut List<Row>,
) -> Result<(), Memory>
    requires merged { IsMerged top.now }
    requires there { (laid : AFace) × FaceAt top.now inst face laid }
    requires fits { FaceFits top.now inst face }
    ensures { OnOk result (Adds rows.old rows.new (IsFaceRow top.now host inst face)) }
{
    let base = top.base(inst, face);
    let laid = face_at(top, inst, face);
    for (number, row) in laid.rows.as_slice().iter().enumerate() {
        rows.push(face_row(host, inst, face, base, number as u32, row))?;
    }
    Ok(())
}

/// The row of a range of a device outside.
fn range_row(host: HostId, xbar: u32, node: u32, range: Range) -> Row
    requires { IsRange range }
    ensures { result ≡ range_row host xbar node range }
{
    let spare = (range.size - 1) as u32;
    Row {
        host,
        first: range.base,
        last: range.base + spare,
        place: Place::Outside { xbar, node },
    }
}

/// Appends the rows of the ranges of a device outside.
pub fn add_ranges(
    host: HostId,
    xbar: u32,
    node: u32,
    ranges: &[Range],
    rows: &mut List<Row>,
) -> Result<(), Memory>
    requires { AllOf IsRange ranges.now }
    ensures { OnOk result (Adds rows.old rows.new (IsRangeRow host xbar node ranges.now)) }
{
    for range in ranges {
        rows.push(range_row(host, xbar, node, *range))?;
    }
    Ok(())
}
