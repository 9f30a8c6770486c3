//! JSON values of plain form.

ghost use Rattle.std.specs.Prelude.{◌≡◌, IfOk};
ghost use Rattle.serde_json.specs.Data.{boolean, string};
ghost use Rattle.serde_json.specs.View.{view};
ghost use Rattle.cg_blkdone.specs.Full.{bits_text, hardware_word, number_of, software_word};

use cg_base::{Memory, Text};
use cg_blkread::Bits;
use cg_desc::{HwAccess, SwAccess};
use serde_json::Value;
use std::alloc::Global;

/// A number.
pub fn number(number: u32) -> Value
    ensures { view result ≡ number_of number }
{
    Value::from(number)
}

/// True or false.
pub(crate) fn truth(truth: bool) -> Value
    ensures { view result ≡ boolean truth }
{
    Value::from(truth)
}

/// A string.
pub fn text(alloc: Global, text: &str) -> Result<Value, Memory>
    ensures { IfOk result (λ value. view value ≡ string text.now) }
{
    Ok(Value::try_from_str(alloc, text)?)
}

#[tactic(auto, unfolding(crate::specs::Full::software_word))]
fn software_word(access: SwAccess) -> &'static str
    ensures { result.now ≡ software_word access }
{
    match access {
        SwAccess::Ro => "ro",
        SwAccess::Rc => "rc",
        SwAccess::Rw => "rw",
        SwAccess::R0w1c => "r0w1c",
        SwAccess::Rw1s => "rw1s",
        SwAccess::Rw1c => "rw1c",
        SwAccess::Rw0c => "rw0c",
        SwAccess::Wo => "wo",
        SwAccess::Nothing => "none",
    }
}

#[tactic(auto, unfolding(crate::specs::Full::hardware_word))]
fn hardware_word(access: HwAccess) -> &'static str
    ensures { result.now ≡ hardware_word access }
{
    match access {
        HwAccess::Hro => "hro",
        HwAccess::Hrw => "hrw",
        HwAccess::Hwo => "hwo",
        HwAccess::Nothing => "none",
    }
}

/// How software accesses a field.
pub(crate) fn software(alloc: Global, access: SwAccess) -> Result<Value, Memory>
    ensures { IfOk result (λ value. view value ≡ string (software_word access)) }
{
    text(alloc, software_word(access))
}

/// How hardware accesses a field.
pub(crate) fn hardware(alloc: Global, access: HwAccess) -> Result<Value, Memory>
    ensures { IfOk result (λ value. view value ≡ string (hardware_word access)) }
{
    text(alloc, hardware_word(access))
}

#[tactic(auto, unfolding(crate::specs::Full::bits_text))]
fn bits_text(alloc: Global, bits: Bits) -> Result<Text, Memory>
    ensures { IfOk result (λ t. t ≡ bits_text bits) }
{
    let Bits { msb, lsb } = bits;
    let text = format!(in alloc; "{msb}:{lsb}")?;
    Ok(Text::from_string(text))
}

/// Bits as `m:l`, also where they are one.
pub(crate) fn bits(alloc: Global, bits: Bits) -> Result<Value, Memory>
    ensures { IfOk result (λ value. view value ≡ string (bits_text bits)) }
{
    let words = bits_text(alloc, bits)?;
    text(alloc, words.as_str())
}
