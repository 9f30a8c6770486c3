//! What stands at an address.

ghost use Rattle.std.specs.Prelude.{◌≡◌, ◌+◌, ◌-◌, ◌*◌, ◌/◌, ◌^◌, ◌<◌, ◌≤◌, length};
ghost use Rattle.cg_desc.specs.Address.{place_of, IsPlaceAt, EachAddressHasOneTarget};
ghost use Rattle.cg_desc.specs.Laid.{IsLaid};
ghost use Rattle.cg_desc.specs.Target.{aligned, holds_address, target_in, target_at};

use crate::block::{Item, LaidFace, LaidRow};

/// What an access reaches: a register, a word of a window, a device outside the instances, or nothing.
///
/// `inst` and `face` number the instances of a design and the device interfaces of a block, `row` the rows of an
/// interface, and `index` the words of a window, each from 0.
#[derive(Clone, Copy, Debug, PartialEq, Eq)]
pub enum Place {
    Reg {
        inst: u32,
        face: u32,
        row: u32,
    },
    Word {
        inst: u32,
        face: u32,
        row: u32,
        index: u32,
    },
    Outside {
        xbar: u32,
        node: u32,
    },
    Error,
}

/// An address with its low two bits cleared.
fn aligned(address: u32) -> u32
    ensures { result ≡ aligned address }
{
    address / 4 * 4
}

fn holds_address(row: &LaidRow, address: u32) -> bool
    ensures { result ≡ holds_address row.now address }
{
    let word = u64::from(aligned(address));
    let first = u64::from(row.first);
    first <= word && word < first + 4 * u64::from(row.words)
}

/// What an address is that the row of this number holds.
fn place_in(number: u32, row: &LaidRow, address: u32) -> Place
    requires { row.now.first ≤ aligned address }
    ensures { result ≡ place_of (target_in number ((aligned address - row.now.first) / 4) row.now.item) }
{
    match &row.item {
        Item::Reg(_) => Place::Reg {
            inst: 0,
            face: 0,
            row: number,
        },
        Item::Window(_) => Place::Word {
            inst: 0,
            face: 0,
            row: number,
            index: (aligned(address) - row.first) / 4,
        },
        Item::SkipTo { .. } | Item::Reserved { .. } => Place::Error,
    }
}

impl LaidFace {
    /// What stands at an address of the interface, for every address of 32 bits: the low two bits do not count, and
    /// `Error` is answered exactly where no register and no word of a window is. It takes no memory.
    ///
    /// The interface has fewer than 2^32 rows. Where rows overlap, which no laid interface's do, the first one counts.
    pub fn find(&self, addr: u32) -> Place
        requires { length self.now.rows < 2 ^ 32 }
        ensures place { IsLaid self.now → IsPlaceAt self.now addr result }
        ensures first { result ≡ place_of (target_at self.now addr) }
    {
        each_address_has_one_target();
        for (number, row) in self.rows.as_slice().iter().enumerate() {
            if holds_address(row, addr) {
                return place_in(number as u32, row, addr);
            }
        }
        Place::Error
    }
}

/// Each address of a laid interface is just one thing: a register, a word of a window, or nothing.
pub fn each_address_has_one_target()
    ensures { EachAddressHasOneTarget }
{}
