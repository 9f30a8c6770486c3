//! The sources that a top names for ports.

ghost use Rattle.std.specs.Prelude.{◌≡◌, ◌↔◌, ℕ, List as Items, Some};
ghost use Rattle.std.specs.List.{list_any};
ghost use Rattle.std.specs.Option.{option_copied};
ghost use Rattle.std.specs.Str.{bytes_eq};
ghost use Rattle.cg_clkrst.specs.Owned.{Names};
ghost use Rattle.cg_clkrst.specs.Ties.{IsSourceFor, source_for};

use crate::owned::Owned;
use crate::ports::Port;
use cg_base::Text;
use cg_desc::{MergedTop, NamePair};

/// The source that is named for a port.
fn named_for<'a>(pairs: &'a [NamePair], port: &str) -> Option<&'a str>
    ensures { option_copied result ≡ source_for pairs.now port.now }
{
    for pair in pairs {
        if pair.port.as_str() == port {
            return Some(pair.source.as_str());
        }
    }
    None
}

fn is_known(known: &[Text], name: &str) -> bool
    ensures { result ≡ list_any (λ n. bytes_eq n name.now) known.now }
{
    known.iter().any(|other| other.as_str() == name)
}

/// The source that is named for a port, if it is one of these.
fn known_for<'a>(known: &[Text], pairs: &'a [NamePair], port: &str) -> Option<&'a str>
    ensures { (source : Items ℕ) → (option_copied result ≡ Some source) ↔ IsSourceFor known.now pairs.now port.now source }
{
    let Some(source) = named_for(pairs, port) else {
        return None;
    };
    if is_known(known, source) {
        Some(source)
    } else {
        None
    }
}

/// The source that the top names for a port of an owner, if it has that source.
pub(crate) fn source_of<'a>(top: &MergedTop, owned: &Owned<'a>, port: &Port) -> Option<&'a str>
    ensures { (source : Items ℕ) → (option_copied result ≡ Some source) ↔ Names top.now.top owned.now.clocks.now owned.now.resets.now port.now.reset port.now.name.now source }
{
    if port.reset {
        known_for(top.top.resets.as_slice(), owned.resets, port.name)
    } else {
        known_for(top.top.sources.as_slice(), owned.clocks, port.name)
    }
}
