//! What stands at a key, where it has the form that is asked for.

ghost use Rattle.std.specs.Prelude.{◌≡◌, ◌≤◌, IfSome, option_map};
ghost use Rattle.cg_keys.specs.Lookups.{boolean_at, hardware_at, is_fit_at, number_at, object_at, place_at, software_at, text_at, window_access_at};

use crate::forms::{Form, boolean, fits_one, number_within};
use crate::table::value_at;
use crate::values::{object, text};
use crate::words::{hardware, software, window_access};
use cg_desc::{At, HwAccess, SwAccess};
use cg_hjson::Member;

/// Whether a key is absent, or its value has one of the forms.
#[tactic(auto, unfolding(crate::specs::Lookups::is_fit_at))]
pub fn is_fit_at(forms: &[Form], members: &[Member], key: &str) -> bool
    ensures { result ≡ is_fit_at forms.now key.now members.now }
{
    match value_at(members, key) {
        Some(tree) => fits_one(forms, tree),
        None => true,
    }
}

/// The string at a key.
#[tactic(auto, unfolding(crate::specs::Lookups::text_at))]
pub fn text_at<'a>(members: &'a [Member], key: &str) -> Option<&'a str>
    ensures { option_map (λ text. text.now) result ≡ text_at key.now members.now }
{
    text(value_at(members, key)?)
}

/// The members of the object at a key.
#[tactic(auto, unfolding(crate::specs::Lookups::object_at))]
pub fn object_at<'a>(members: &'a [Member], key: &str) -> Option<&'a [Member]>
    ensures { option_map (λ inner. inner.now) result ≡ object_at key.now members.now }
{
    object(value_at(members, key)?)
}

/// The boolean at a key.
#[tactic(auto, unfolding(crate::specs::Lookups::boolean_at))]
pub fn boolean_at(members: &[Member], key: &str) -> Option<bool>
    ensures { result ≡ boolean_at key.now members.now }
{
    boolean(value_at(members, key)?)
}

/// The number at a key, where it is from `least` to `most`.
#[tactic(auto, unfolding(crate::specs::Lookups::number_at))]
pub fn number_at(least: u64, most: u64, members: &[Member], key: &str) -> Option<u64>
    ensures value { result ≡ number_at least most key.now members.now }
    ensures within { IfSome result (λ number. number ≤ most) }
{
    number_within(least, most, value_at(members, key)?)
}

/// How software accesses a field, by the word at a key.
#[tactic(auto, unfolding(crate::specs::Lookups::software_at))]
pub fn software_at(members: &[Member], key: &str) -> Option<SwAccess>
    ensures { result ≡ software_at key.now members.now }
{
    software(text_at(members, key)?)
}

/// How hardware accesses a field, by the word at a key.
#[tactic(auto, unfolding(crate::specs::Lookups::hardware_at))]
pub fn hardware_at(members: &[Member], key: &str) -> Option<HwAccess>
    ensures { result ≡ hardware_at key.now members.now }
{
    hardware(text_at(members, key)?)
}

/// How software accesses a window, by the word at a key.
#[tactic(auto, unfolding(crate::specs::Lookups::window_access_at))]
pub fn window_access_at(members: &[Member], key: &str) -> Option<SwAccess>
    ensures { result ≡ window_access_at key.now members.now }
{
    window_access(text_at(members, key)?)
}

/// The place of the value at a key, or else `otherwise`.
#[tactic(auto, unfolding(crate::specs::Lookups::place_at))]
pub fn place_at(members: &[Member], key: &str, otherwise: At) -> At
    ensures { result ≡ place_at key.now members.now otherwise }
{
    match value_at(members, key) {
        Some(tree) => tree.at,
        None => otherwise,
    }
}
