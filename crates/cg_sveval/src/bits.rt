//! Values as lists of bits, the lowest first.

ghost use Rattle.std.specs.Prelude.{◌≡◌, ◌≤◌, ◌<◌, ◌^◌, ◌-◌, ◌&&◌, ◌||◌, ◌∷◌, [], cond, suc, not, map, take, drop, IfOk, IsTrue};
ghost use Rattle.cg_svspec.specs.Bits.{any_bit, bits, same_bits, zipped};
ghost use Rattle.cg_sveval.specs.Numbers.{number_of};

use cg_base::Memory;
use std::alloc::Global;

/// The lowest bits of a number.
pub(crate) fn bits_of(alloc: Global, width: u32, value: u64) -> Result<Vec<bool>, Memory>
    ensures { IfOk result (λ found. found.items ≡ bits width value) }
{
    let mut found = Vec::new(alloc);
    let mut rest = value;
    for _ in 0..width {
        found.push(rest % 2 == 1)?;
        rest /= 2;
    }
    Ok(found)
}

/// The number of the lowest bits, at most `most` of them.
pub(crate) fn number_of(value: &[bool], most: u32) -> u64
    requires { most ≤ 32 }
    ensures number { result ≡ number_of most value.now }
    ensures below { result < 2 ^ most }
{
    if most == 0 || value.is_empty() {
        return 0;
    }
    let higher = number_of(&value[1..], most - 1);
    bit_number(value[0]) + 2 * higher
}

/// A bit as a number.
fn bit_number(bit: bool) -> u64
    ensures { result ≡ cond bit 1 0 }
{
    if bit { 1 } else { 0 }
}

/// The same bits.
pub(crate) fn copy_of(alloc: Global, value: &[bool]) -> Result<Vec<bool>, Memory>
    ensures { IfOk result (λ found. found.items ≡ value.now) }
{
    let mut found = Vec::new(alloc);
    found.extend_from_slice(value)?;
    Ok(found)
}

/// The bits from `lsb` to `msb`, as far as there are any.
pub(crate) fn cut_of(alloc: Global, value: &[bool], msb: u32, lsb: u32) -> Result<Vec<bool>, Memory>
    ensures { IfOk result (λ found. found.items ≡ take (suc msb - lsb) (drop lsb value.now)) }
{
    let first = (lsb as usize).min(value.len());
    let end = (u64::from(msb) + 1).min(value.len() as u64) as usize;
    if end <= first {
        return Ok(Vec::new(alloc));
    }
    copy_of(alloc, &value[first..end])
}

/// Each bit turned.
pub(crate) fn not_of(alloc: Global, value: &[bool]) -> Result<Vec<bool>, Memory>
    ensures { IfOk result (λ found. found.items ≡ map not value.now) }
{
    let mut found = Vec::new(alloc);
    for bit in value {
        found.push(!*bit)?;
    }
    Ok(found)
}

/// Whether both bits are 1.
fn both(left: bool, right: bool) -> bool
    ensures { result ≡ (left && right) }
{
    left && right
}

/// Whether one of the bits is 1.
fn either(left: bool, right: bool) -> bool
    ensures { result ≡ (left || right) }
{
    left || right
}

/// The and of each two bits.
#[tactic(auto, using(crate::proofs::BitSteps::zips))]
pub(crate) fn and_of(alloc: Global, left: &[bool], right: &[bool]) -> Result<Vec<bool>, Memory>
    ensures { IfOk result (λ found. found.items ≡ zipped ◌&&◌ left.now right.now) }
{
    let mut found = Vec::new(alloc);
    for place in 0..left.len().min(right.len()) {
        found.push(both(left[place], right[place]))?;
    }
    Ok(found)
}

/// The or of each two bits.
#[tactic(auto, using(crate::proofs::BitSteps::zips))]
pub(crate) fn or_of(alloc: Global, left: &[bool], right: &[bool]) -> Result<Vec<bool>, Memory>
    ensures { IfOk result (λ found. found.items ≡ zipped ◌||◌ left.now right.now) }
{
    let mut found = Vec::new(alloc);
    for place in 0..left.len().min(right.len()) {
        found.push(either(left[place], right[place]))?;
    }
    Ok(found)
}

/// Whether some bit is 1.
pub(crate) fn any_of(value: &[bool]) -> bool
    ensures { result ≡ any_bit value.now }
{
    for bit in value {
        if *bit {
            return true;
        }
    }
    false
}

/// Whether the two have the same bits.
pub(crate) fn are_same(left: &[bool], right: &[bool]) -> bool
    ensures { result ≡ same_bits left.now right.now }
{
    if left.len() != right.len() {
        return false;
    }
    for place in 0..left.len() {
        if left[place] != right[place] {
            return false;
        }
    }
    true
}

/// One bit.
pub(crate) fn one_bit(alloc: Global, bit: bool) -> Result<Vec<bool>, Memory>
    ensures { IfOk result (λ found. found.items ≡ bit ∷ []) }
{
    let mut found = Vec::new(alloc);
    found.push(bit)?;
    Ok(found)
}
