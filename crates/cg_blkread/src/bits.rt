//! The bits of a field.

ghost use Rattle.std.specs.Prelude.{◌≡◌, ◌<◌, ◌==◌, IfSome, length, position};
ghost use Rattle.cg_blkread.specs.Bits.{bit_number, bits_in, in_order, parts_at, range_in, up_to_31};

use crate::raw::Bits;
use cg_hjson::Tree;
use cg_keys::{number_within, text};

/// The number that decimal digits spell, where it is up to 31.
#[tactic(auto, unfolding(crate::specs::Bits::up_to_31))]
fn up_to_31(digits: &[u8]) -> Option<u8>
    ensures { result ≡ up_to_31 0 digits.now }
{
    let mut sum: u32 = 0;
    for digit in digits {
        if !digit.is_ascii_digit() {
            return None;
        }
        sum = sum * 10 + (*digit - b'0') as u32;
        if sum > 31 {
            return None;
        }
    }
    Some(sum as u8)
}

#[tactic(auto, unfolding(crate::specs::Bits::bit_number))]
fn bit_number(digits: &[u8]) -> Option<u8>
    ensures { result ≡ bit_number digits.now }
{
    match digits {
        [] => None,
        _ => up_to_31(digits),
    }
}

fn in_order(msb: u8, lsb: u8) -> Option<Bits>
    ensures { result ≡ in_order msb lsb }
{
    if lsb <= msb {
        Some(Bits { msb, lsb })
    } else {
        None
    }
}

fn parts_at(text: &[u8], colon: usize) -> Option<Bits>
    requires { colon < length text.now }
    ensures { result ≡ parts_at text.now colon }
{
    let msb = bit_number(&text[..colon])?;
    let lsb = bit_number(&text[colon + 1..])?;
    in_order(msb, lsb)
}

fn colon_in(text: &[u8]) -> Option<usize>
    ensures place { result ≡ position (λ c. c == 58) text.now }
    ensures inside { IfSome result (λ place. place < length text.now) }
{
    text.iter().position(|byte| *byte == b':')
}

#[tactic(auto, unfolding(crate::specs::Bits::range_in))]
fn range(text: &[u8]) -> Option<Bits>
    ensures { result ≡ range_in text.now }
{
    parts_at(text, colon_in(text)?)
}

/// The bits that a value names: a number up to 31, or `m:l` with 31 ≥ m ≥ l.
#[tactic(auto, unfolding(crate::specs::Bits::bits_in))]
pub(crate) fn bits(tree: &Tree) -> Option<Bits>
    ensures { result ≡ bits_in tree.now }
{
    match number_within(0, 31, tree) {
        Some(number) => Some(Bits {
            msb: number as u8,
            lsb: number as u8,
        }),
        None => range(text(tree)?.as_bytes()),
    }
}
