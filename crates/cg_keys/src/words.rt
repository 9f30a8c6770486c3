//! The words that a key may have.

ghost use Rattle.std.specs.Prelude.{◌≡◌};
ghost use Rattle.cg_keys.specs.Forms.{hardware, is_one_of, software, window_access};

use cg_desc::{HwAccess, SwAccess};

/// A list of words that a key may have.
#[derive(Clone, Copy, Debug, PartialEq, Eq)]
pub enum Words {
    /// How software accesses a field: `ro rc rw r0w1c rw1s rw1c rw0c wo none`.
    Software,
    /// How hardware accesses a field: `hro hrw hwo none`.
    Hardware,
    /// How software accesses a window: `rw ro wo`.
    WindowAccess,
    /// The direction of a bus interface: `device host`.
    Direction,
    /// What an interrupt is: `event status`.
    InterruptType,
    /// What a node of a crossbar is: `host device`.
    NodeType,
    /// How a signal is joined to a pin: `muxed direct manual`.
    Joint,
    /// The unknown reset value: `x`.
    Unknown,
}

/// How software accesses a field, by its word.
#[tactic(auto, unfolding(crate::specs::Forms::software))]
pub fn software(word: &str) -> Option<SwAccess>
    ensures { result ≡ software word.now }
{
    if word == "ro" {
        Some(SwAccess::Ro)
    } else if word == "rc" {
        Some(SwAccess::Rc)
    } else if word == "rw" {
        Some(SwAccess::Rw)
    } else if word == "r0w1c" {
        Some(SwAccess::R0w1c)
    } else if word == "rw1s" {
        Some(SwAccess::Rw1s)
    } else if word == "rw1c" {
        Some(SwAccess::Rw1c)
    } else if word == "rw0c" {
        Some(SwAccess::Rw0c)
    } else if word == "wo" {
        Some(SwAccess::Wo)
    } else if word == "none" {
        Some(SwAccess::Nothing)
    } else {
        None
    }
}

/// How software accesses a window, by its word.
#[tactic(auto, unfolding(crate::specs::Forms::window_access))]
pub fn window_access(word: &str) -> Option<SwAccess>
    ensures { result ≡ window_access word.now }
{
    if word == "rw" {
        Some(SwAccess::Rw)
    } else if word == "ro" {
        Some(SwAccess::Ro)
    } else if word == "wo" {
        Some(SwAccess::Wo)
    } else {
        None
    }
}

/// How hardware accesses a field, by its word.
#[tactic(auto, unfolding(crate::specs::Forms::hardware))]
pub fn hardware(word: &str) -> Option<HwAccess>
    ensures { result ≡ hardware word.now }
{
    if word == "hro" {
        Some(HwAccess::Hro)
    } else if word == "hrw" {
        Some(HwAccess::Hrw)
    } else if word == "hwo" {
        Some(HwAccess::Hwo)
    } else if word == "none" {
        Some(HwAccess::Nothing)
    } else {
        None
    }
}

/// Whether a string is one of the words.
#[tactic(auto, unfolding(crate::specs::Forms::is_one_of))]
pub fn is_one_of(words: Words, word: &str) -> bool
    ensures { result ≡ is_one_of words word.now }
{
    match words {
        Words::Software => software(word).is_some(),
        Words::Hardware => hardware(word).is_some(),
        Words::WindowAccess => window_access(word).is_some(),
        Words::Direction => word == "device" || word == "host",
        Words::InterruptType => word == "event" || word == "status",
        Words::NodeType => word == "host" || word == "device",
        Words::Joint => word == "muxed" || word == "direct" || word == "manual",
        Words::Unknown => word == "x",
    }
}
