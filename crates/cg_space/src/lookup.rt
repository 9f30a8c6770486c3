//! What an address is, by the rows of a map.

ghost use Rattle.std.specs.Prelude.{◌≡◌, ◌≢◌, ◌↔◌, ◌≤◌, IsTrue, ℕ, Some, slice_get};
ghost use Rattle.cg_svspec.specs.Names.{Among};
ghost use Rattle.cg_desc.specs.Target.{aligned};
ghost use Rattle.cg_desc.specs.declared.address.Place.TheVariants.{Error as nothing};
ghost use Rattle.cg_space.specs.Rows.{IsFound, RowHolds, with_index};
ghost use Rattle.cg_space.specs.declared.row.Row.{Row as ARow};

use crate::row::{HostId, Row};
use cg_desc::Place;

/// A place with the index of its word, where it is a window's.
fn with_index(place: Place, index: u32) -> Place
    ensures { result ≡ with_index place index }
{
    match place {
        Place::Word {
            inst,
            face,
            row,
            ..
        } => Place::Word {
            inst,
            face,
            row,
            index,
        },
        other => other,
    }
}

/// An address with its low two bits cleared.
fn aligned(address: u32) -> u32
    ensures { result ≡ aligned address }
{
    address / 4 * 4
}

/// Whether the row is the host's and holds the address.
fn holds(row: &Row, host: HostId, addr: u32) -> bool
    ensures { IsTrue result ↔ RowHolds row.now host addr }
{
    let word = aligned(addr);
    row.host == host && row.first <= word && word <= row.last
}

/// What an address is for a host, by the first of its rows that holds the address, whose low two bits do not count: a window's place has
/// the index of its word. `Error` is answered exactly where there is no such row. It takes no memory.
pub fn find(rows: &[Row], host: HostId, addr: u32) -> Place
    requires { (row : ARow) → Among row rows.now → row.place ≢ nothing }
    ensures found { IsFound rows.now host addr result }
    ensures error { (result ≡ nothing) ↔ ((row : ARow) → Among row rows.now → ¬ RowHolds row host addr) }
{
    for row in rows {
        if holds(row, host, addr) {
            return with_index(row.place, (aligned(addr) - row.first) / 4);
        }
    }
    Place::Error
}
