//! The first signal that breaks a rule.

ghost use Rattle.std.specs.Prelude.{◌≡◌, ◌<◌, length, true};
ghost use Rattle.std.specs.Bool.{Decides};
ghost use Rattle.std.specs.List.{list_any};
ghost use Rattle.cg_desc.specs.declared.top.SignalDesc.{SignalDesc as Signal};
ghost use Rattle.cg_finding.specs.Found.{sees};
ghost use Rattle.cg_finding.specs.Rules as rules;
ghost use Rattle.cg_finding.specs.Told.{TellsFirst};
ghost use Rattle.cg_pinmux.specs.Checks.{IsNormalIfAny, IsNumbered, SomeBreaks, is_taken, is_too_many, is_unfit, regions_meet, same_pad, share_bit, share_pad};
ghost use Rattle.cg_pinmux.specs.Pins.{SignalIs};
ghost use Rattle.cg_pinmux.specs.Resolved.{AreResolved};
ghost use Rattle.cg_pinmux.specs.Violations.{BreaksSignal};
ghost use Rattle.cg_pinmux.specs.declared.numbered.Side.TheVariants.{Inputs, Outputs};

use crate::numbered::Numbered;
use crate::region::{Region, has_one_bit, meets};
use crate::resolved::Resolved;
use cg_desc::{Joint, MergedTop, SignalDesc};
use cg_finding::{Found, earlier_of};

/// Whether two regions share a bit, as far as there are two.
fn regions_meet(one: Option<Region>, other: Option<Region>) -> bool
    ensures { result ≡ regions_meet one other }
{
    match (one, other) {
        (Some(one), Some(other)) => meets(one, other),
        (_, _) => false,
    }
}

/// Whether two signals that the top joins share a bit.
#[tactic(auto, unfolding(crate::specs::Checks::share_bit))]
fn share_bit(one: &Resolved, other: &Resolved) -> bool
    ensures { result ≡ share_bit one.now other.now }
{
    match (one.joint, other.joint) {
        (Joint::Manual, _) => false,
        (_, Joint::Manual) => false,
        (_, _) => regions_meet(one.region, other.region),
    }
}

fn same_pad(one: Option<u32>, other: Option<u32>) -> bool
    ensures { result ≡ same_pad one other }
{
    match (one, other) {
        (Some(one), Some(other)) => one == other,
        (_, _) => false,
    }
}

/// Whether two direct signals have one pad.
#[tactic(auto, unfolding(crate::specs::Checks::share_pad))]
fn share_pad(one: &Resolved, other: &Resolved) -> bool
    ensures { result ≡ share_pad one.now other.now }
{
    match (one.joint, other.joint) {
        (Joint::Direct, Joint::Direct) => same_pad(one.pad, other.pad),
        (_, _) => false,
    }
}

/// Whether one of the earlier signals shares a bit with a signal.
fn bit_is_taken(earlier: &[Resolved], signal: &Resolved) -> bool
    ensures { result ≡ list_any (λ other. share_bit other signal.now) earlier.now }
{
    earlier.iter().any(|other| share_bit(other, signal))
}

/// Whether one of the earlier signals has the pad of a signal.
fn pad_is_taken(earlier: &[Resolved], signal: &Resolved) -> bool
    ensures { result ≡ list_any (λ other. share_pad other signal.now) earlier.now }
{
    earlier.iter().any(|other| share_pad(other, signal))
}

/// Whether an earlier signal has a bit or a pad of a signal, where they may not.
fn is_taken(earlier: &[Resolved], signal: &Resolved) -> bool
    ensures { result ≡ is_taken earlier.now signal.now }
{
    bit_is_taken(earlier, signal) || pad_is_taken(earlier, signal)
}

/// Whether what a signal names is not what its joint asks for: a bit, and one bit and a pad where it is direct.
fn is_unfit(top: &MergedTop, signal: &Resolved) -> bool
    requires { IsNormalIfAny top.now signal.now.region }
    ensures { result ≡ is_unfit top.now signal.now }
{
    let Some(region) = signal.region else {
        return true;
    };
    match signal.joint {
        Joint::Direct => signal.pad.is_none() || !has_one_bit(top, region),
        Joint::Muxed => false,
        Joint::Manual => false,
    }
}

/// Whether with a muxed signal a vector has too many bits.
fn is_too_many(number: usize, signal: &Resolved, ins: &Numbered, outs: &Numbered) -> bool
    ensures { result ≡ is_too_many number signal.now ins.now outs.now }
{
    match signal.joint {
        Joint::Muxed => ins.full_from <= number || outs.full_from <= number,
        Joint::Direct => false,
        Joint::Manual => false,
    }
}

/// Whether a signal breaks a rule.
fn is_broken(
    top: &MergedTop,
    signals: &[Resolved],
    number: usize,
    ins: &Numbered,
    outs: &Numbered,
) -> bool
    requires resolved { AreResolved top.now signals.now }
    requires within { number < length signals.now }
    requires ins { IsNumbered top.now Inputs signals.now ins.now }
    requires outs { IsNumbered top.now Outputs signals.now outs.now }
    ensures { (signal : Signal) → SignalIs top.now number signal → Decides result (BreaksSignal top.now number signal) }
{
    let signal = signals[number];
    let unfit = is_unfit(top, &signal);
    let taken = is_taken(&signals[..number], &signal);
    let too_many = is_too_many(number, &signal, ins, outs);
    unfit | taken | too_many
}

/// What a signal breaks.
fn first_in_signal<'r>(is_broken: bool, signal: &'r SignalDesc) -> Option<Found<'r>>
    ensures { TellsFirst (sees result) (λ f. (is_broken ≡ true) × (f ≡ rules.bad_pin signal.now.at signal.now.inst)) }
{
    if is_broken {
        Some(Found::bad_pin(signal.at, signal.inst.as_str()))
    } else {
        None
    }
}

/// The first signal that breaks a rule.
pub(crate) fn first_in_signals<'r>(
    top: &'r MergedTop,
    signals: &[Resolved],
    ins: &Numbered,
    outs: &Numbered,
) -> Option<Found<'r>>
    requires resolved { AreResolved top.now signals.now }
    requires ins { IsNumbered top.now Inputs signals.now ins.now }
    requires outs { IsNumbered top.now Outputs signals.now outs.now }
    ensures { TellsFirst (sees result) (SomeBreaks top.now) }
{
    let mut first = None;
    for (number, signal) in top.top.signals.as_slice().iter().enumerate() {
        let breaks = is_broken(top, signals, number, ins, outs);
        first = earlier_of(first, first_in_signal(breaks, signal));
    }
    first
}
