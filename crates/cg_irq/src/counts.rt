//! How many bits a block's interrupts and alerts have.

ghost use Rattle.std.specs.Prelude.{◌≡◌, ◌+◌, ◌<◌, ◌≤◌, ◌⊎◌, map, min};
ghost use Rattle.std.specs.Bool.{Decides};
ghost use Rattle.cg_svspec.specs.Printable.{AllOf};
ghost use Rattle.cg_desc.specs.Valid.{IsValidInterrupt};
ghost use Rattle.cg_irq.specs.Listed.{bit_count};

use cg_desc::IntrDesc;

/// How many interrupts, and how many alerts, a top has at most, in bits.
const LIMIT: u32 = 1024;

/// A count of bits with some more, as far as it matters: `LIMIT + 1` stands for all that are more.
pub(crate) fn counted(count: u32, more: u32) -> u32
    requires few { count ≤ 1025 }
    requires few_more { more ≤ 1025 }
    ensures { result ≡ min (count + more) 1025 }
{
    (count + more).min(LIMIT + 1)
}

/// How many bits some interrupts have, as far as it matters.
pub(crate) fn interrupt_count(intrs: &[IntrDesc]) -> u32
    requires { AllOf IsValidInterrupt intrs.now }
    ensures { result ≡ min (bit_count (map (λ interrupt. interrupt.width) intrs.now)) 1025 }
{
    let mut count = 0;
    for intr in intrs {
        count = counted(count, intr.width);
    }
    count
}

/// How many alerts these are, as far as it matters.
pub(crate) fn alert_count(alerts: usize) -> u32
    ensures { result ≡ min alerts 1025 }
{
    alerts.min(LIMIT as usize + 1) as u32
}

/// Whether one of two counts is above the limit.
pub(crate) fn passes(interrupts: u32, alerts: u32) -> bool
    ensures { Decides result ((1024 < interrupts) ⊎ (1024 < alerts)) }
{
    interrupts > LIMIT || alerts > LIMIT
}
