//! The first instance with which interrupts or alerts are too many.

ghost use Rattle.std.specs.Prelude.{◌≡◌, Some, None, cond};
ghost use Rattle.cg_finding.specs.Found.{seen, sees};
ghost use Rattle.cg_finding.specs.Told.{TellsFirst};
ghost use Rattle.cg_irq.specs.Instances.{HasBlocks};
ghost use Rattle.cg_irq.specs.Walked.{PassesWith, SomeBreaks};

use crate::counts::{alert_count, counted, interrupt_count, passes};
use cg_desc::MergedTop;
use cg_finding::{Found, earlier_of};

/// What is found, where the test says so.
fn when<'r>(holds: bool, found: Found<'r>) -> Option<Found<'r>>
    ensures { sees result ≡ cond holds (Some (seen found.entry)) None }
{
    if holds { Some(found) } else { None }
}

/// The first instance with which interrupts or alerts pass the limit.
pub(crate) fn first_past_limit(top: &MergedTop) -> Option<Found<'_>>
    requires { HasBlocks top.now }
    ensures { TellsFirst (sees result) (SomeBreaks (PassesWith top.now) top.now.top.insts) }
{
    let mut first = None;
    let mut interrupts = 0;
    let mut alerts = 0;
    for (number, inst) in top.top.insts.as_slice().iter().enumerate() {
        let block = &top.blocks.as_slice()[top.kinds.as_slice()[number] as usize];
        interrupts = counted(interrupts, interrupt_count(block.desc.intrs.as_slice()));
        alerts = counted(alerts, alert_count(block.desc.alerts.len()));
        let here = when(
            passes(interrupts, alerts),
            Found::too_many_sources(inst.at, inst.name.as_str()),
        );
        first = earlier_of(first, here);
    }
    first
}
