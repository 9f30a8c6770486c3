//! Regions of the ports of an instance.

ghost use Rattle.std.specs.Prelude.{◌≡◌, ◌<◌};
ghost use Rattle.cg_desc.specs.FoundBase.{block_of};
ghost use Rattle.cg_pinmux.specs.Checks.{has_one_bit, meets};
ghost use Rattle.cg_pinmux.specs.Regions.{ports_of};

use cg_desc::{IoDesc, MergedTop};

/// The bits of an instance that a signal names: those of the ports from number `first` up to before `end`, of each the bits from `low`
/// up to before `high`, as far as the port has them.
#[derive(Clone, Copy)]
pub(crate) struct Region {
    pub inst: u32,
    pub first: u32,
    pub end: u32,
    pub low: u32,
    pub high: u32,
}

/// The ports of an instance's block.
pub(crate) fn ports_of(top: &MergedTop, inst: u32) -> &[IoDesc]
    ensures { result.now ≡ ports_of top.now inst }
{
    match top.block_of(inst) {
        Some(block) => block.desc.ios.as_slice(),
        None => &[],
    }
}

/// Whether two regions that have bits share one.
#[tactic(auto, unfolding(crate::specs::Checks::meets))]
pub(crate) fn meets(one: Region, other: Region) -> bool
    ensures { result ≡ meets one other }
{
    one.inst == other.inst
        && one.first < other.end
        && other.first < one.end
        && one.low < other.high
        && other.low < one.high
}

/// Whether a region that has bits has one alone.
#[tactic(auto, unfolding(crate::specs::Checks::has_one_bit))]
pub(crate) fn has_one_bit(top: &MergedTop, region: Region) -> bool
    requires ports { region.first < region.end }
    requires bits { region.low < region.high }
    ensures { result ≡ has_one_bit (ports_of top.now region.inst) region }
{
    let ports = ports_of(top, region.inst);
    let Some(port) = ports.get(region.first as usize) else {
        return false;
    };
    region.end - region.first == 1 && port.width.min(region.high) == region.low + 1
}
