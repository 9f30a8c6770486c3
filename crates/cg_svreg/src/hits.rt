//! Whether the address of an access is in a row.

ghost use Rattle.std.specs.Prelude.{◌≡◌, ◌<◌, ◌+◌, ◌-◌, ◌^◌, IfOk, map};
ghost use Rattle.cg_svspec.specs.Tree.{cut, lit, cat, any, equal, expressions};
ghost use Rattle.cg_sv.specs.Views.{expression_of};
ghost use Rattle.cg_regspec.specs.NetNames.{reg_addr};
ghost use Rattle.cg_regspec.specs.RegisterModule.{window_terms, hit_of};

use cg_base::{List, Memory};
use cg_desc::{Item, LaidRow};
use cg_sv::{Expr, make};
use std::alloc::Global;

/// Whether the address without its lowest `bits + 2` bits is this number.
fn address_is(alloc: Global, bits: u32, number: u64) -> Result<Expr, Memory>
    requires { bits < 30 }
    ensures { IfOk result (λ x. expression_of x ≡ equal (cut reg_addr 31 (bits + 2)) (lit (30 - bits) number)) }
{
    let address = make::cut(alloc, "reg_addr", 31, bits + 2)?;
    let same = make::equal(alloc, address, make::lit(30 - bits, number))?;
    Ok(same)
}

/// Two to the power of `bit`.
fn power_of_two(bit: u32) -> u64
    requires { bit < 64 }
    ensures { result ≡ 2 ^ bit }
{
    1 << bit
}

/// One term for each set bit of `items` below bit 23, the highest first. Word `first` is the first of the window.
fn window_terms(alloc: Global, items: u32, first: u32) -> Result<List<Expr>, Memory>
    ensures { IfOk result (λ terms. expressions (map expression_of terms) ≡ window_terms 23 items first) }
{
    let mut terms = List::new(alloc);
    let mut left = u64::from(items);
    let mut word = u64::from(first);
    for bit in (0..23u32).rev() {
        let size = power_of_two(bit);
        if size <= left {
            let term = address_is(alloc, bit, word / size)?;
            terms.push(term)?;
            left -= size;
            word += size;
        }
    }
    Ok(terms)
}

/// Whether the address is in the row.
pub fn hit_of(alloc: Global, row: &LaidRow) -> Result<Expr, Memory>
    ensures { IfOk result (λ x. expression_of x ≡ hit_of row.now row.now.item) }
{
    let word = row.first / 4;
    match &row.item {
        Item::Reg(_) => {
            let hit = address_is(alloc, 0, u64::from(word))?;
            Ok(hit)
        }
        Item::Window(window) => {
            let terms = window_terms(alloc, window.items, word)?;
            let hit = make::any(alloc, make::cat(terms))?;
            Ok(hit)
        }
        Item::SkipTo { .. } | Item::Reserved { .. } => Ok(make::lit(1, 0)),
    }
}
