//! What the value of a field is after a clock, what a read shows of it, and how a shadowed register takes values, on machine
//! words.
//!
//! The rules are the access table of the OpenTitan Register Tool: hardware writes first where its
//! strobe is 1, then software acts by the field's access kind. The contracts cite the table as
//! `cg_desc` defines it on lists of bits, and hold for every kind, all values and all strobes of
//! fields of up to 32 bits. A shadowed register takes its values by two equal writes, by the definition that the block's step
//! cites. All functions are total under their conditions and take no memory.
//!
//! No other crate calls them yet: they are for what steps a block's fields in software. The block's step
//! and the law of its register module cite the same table, so such a model and the hardware agree.
//!
//! Not promised: anything of a field's place in its register, of write enables, or of fields of
//! external registers, which store nothing. Whether hardware may write the field is the caller's
//! to say, by its strobe.
#![tactic(auto)]

ghost use Rattle.std.specs.Prelude.{◌≡◌, ◌^◌, ◌<◌, ◌≤◌, ◌&&◌, ℕ, false, if◌then◌else◌};
ghost use Rattle.cg_svspec.specs.Bits.{bits};
ghost use Rattle.cg_desc.specs.AccessTable.{after_hardware, is_readable, next_value, read_value};
ghost use Rattle.cg_desc.specs.Shadow.{commits, fails, next_phase};

use cg_base::mask;
use cg_desc::SwAccess;

#[cfg(test)]
mod tests;

/// The value after a clock of a field of kind `kind` and `width` bits that has the value `q`.
///
/// Software writes `wd` where `we` is set and reads where `re` is set; hardware writes `d` where
/// `de` is set. `width` is at most 32, and the three values are below 2^`width`.
#[tactic(auto, using(crate::proofs::WordLemmas::words))]
pub fn next(
    kind: SwAccess,
    q: u32,
    we: bool,
    re: bool,
    wd: u32,
    de: bool,
    d: u32,
    width: u32,
) -> u32
    requires width_within { width ≤ 32 }
    requires value_within { q < 2 ^ width }
    requires written_within { wd < 2 ^ width }
    requires hardware_within { d < 2 ^ width }
    ensures table { bits width result
        ≡ next_value kind we re (bits width wd) (after_hardware de (bits width d) (bits width q)) }
    ensures within { result < 2 ^ width }
{
    let held = pick(de, d, q);
    let ones = mask(width) as u32;
    match kind {
        SwAccess::Rw | SwAccess::Wo => pick(we, wd, held),
        SwAccess::Ro | SwAccess::Nothing => held,
        SwAccess::Rw1s => held | pick(we, wd, 0),
        SwAccess::Rw1c | SwAccess::R0w1c => held & pick(we, ones & !wd, ones),
        SwAccess::Rw0c => held & pick(we, wd, ones),
        SwAccess::Rc => pick(re, 0, held),
    }
}

// The first value where the strobe is 1, else the second.
fn pick(strobe: bool, first: u32, second: u32) -> u32
    ensures { result ≡ (if strobe then first else second) }
{
    if strobe { first } else { second }
}

/// What a read shows of a field of kind `kind` that has the value `q`: 0 where software cannot
/// read it.
#[tactic(auto, using(crate::proofs::WordLemmas::words))]
pub fn reads(kind: SwAccess, q: u32) -> u32
    ensures number { result ≡ (if is_readable kind then q else 0) }
    ensures shown { (width : ℕ) → bits width result ≡ read_value kind (bits width q) }
{
    match kind {
        SwAccess::Ro
        | SwAccess::Rc
        | SwAccess::Rw
        | SwAccess::Rw1s
        | SwAccess::Rw1c
        | SwAccess::Rw0c => q,
        SwAccess::R0w1c | SwAccess::Wo | SwAccess::Nothing => 0,
    }
}

/// What comes of a clock at a shadowed register: its phase after it, whether a write commits, so that the fields take
/// the written values, and whether a write fails, so that the update error shows and no field changes.
#[derive(Clone, Copy, Debug, PartialEq, Eq)]
pub struct ShadowStep {
    pub phase: bool,
    pub commits: bool,
    pub failed: bool,
}

/// The step of a shadowed register of this phase (OpenTitan Register Tool, shadowed registers).
///
/// `we` is set in a write that takes effect and `re` in an accepted read, of which a clock has one at most. `same` tells
/// that every field's written value equals its staged one. A write at phase `false` stages the written values; one at
/// phase `true` commits where it is the same, and fails where it is not.
pub fn shadow(phase: bool, we: bool, re: bool, same: bool) -> ShadowStep
    requires one_access { (we && re) ≡ false }
    ensures phase_after { result.phase ≡ next_phase phase we re }
    ensures commit { result.commits ≡ commits phase we same }
    ensures failure { result.failed ≡ fails phase we same }
{
    let second = we & phase;
    ShadowStep {
        phase: if we { !phase } else { phase & !re },
        commits: second & same,
        failed: second & !same,
    }
}
