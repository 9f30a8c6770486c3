//! The registers that hold the copies of a register.

ghost use Rattle.std.specs.Prelude.{◌≡◌, ◌+◌, ◌*◌, ◌^◌, ◌<◌, ◌++◌, IfOk, OnOk};
ghost use Rattle.cg_desc.specs.Items.{copies_in_word, copies_per_word, copy_bits, copy_fields, copy_gate, multireg_word, numbered, word_count, word_fields};
ghost use Rattle.cg_desc.specs.Valid.{IsValidMultireg};
ghost use Rattle.cg_expand.specs.Parts.Copies.{moved, word_name};

use cg_base::{List, Memory, Text};
use cg_desc::{FieldDesc, MultiDesc, RegDesc};
use std::alloc::Global;

/// `<name>_<number>`
fn numbered(alloc: Global, name: &str, number: u32) -> Result<Text, Memory>
    ensures { IfOk result (λ text. text ≡ numbered name.now number) }
{
    let text = format!(in alloc; "{name}_{number}")?;
    Ok(Text::from_string(text))
}

/// The bits from bit 0 up to the top of the one field of a copy.
fn copy_bits(fields: &[FieldDesc]) -> u32
    ensures { result ≡ copy_bits fields.now }
{
    match fields {
        [] => 1,
        [first, ..] => u32::from(first.msb) + 1,
    }
}

/// How many copies a word holds: one, but where they are compacted as many as have room.
#[tactic(auto, unfolding(cg_desc::specs::Items::copies_per_word))]
fn copies_per_word(multireg: &MultiDesc) -> u32
    ensures { result ≡ copies_per_word multireg.now }
{
    if multireg.compact {
        32 / copy_bits(multireg.reg.fields.as_slice())
    } else {
        1
    }
}

/// How many words hold all copies.
#[tactic(auto, unfolding(cg_desc::specs::Items::word_count), using(crate::proofs::Multiregs::per_word))]
pub fn word_count(multireg: &MultiDesc) -> u32
    requires { IsValidMultireg multireg.now }
    ensures { result ≡ word_count multireg.now }
{
    let per_word = copies_per_word(multireg);
    (multireg.count + (per_word - 1)) / per_word
}

/// A field of copy `number`, so many bits higher.
fn moved_field(
    alloc: Global,
    field: &FieldDesc,
    number: u32,
    shift: u8,
) -> Result<FieldDesc, Memory>
    requires msb { field.now.msb + shift < 2 ^ 8 }
    requires lsb { field.now.lsb + shift < 2 ^ 8 }
    ensures { IfOk result (λ f. f ≡ moved number shift field.now) }
{
    let name = numbered(alloc, field.name.as_str(), number)?;
    Ok(FieldDesc {
        name,
        msb: field.msb + shift,
        lsb: field.lsb + shift,
        sw: field.sw,
        hw: field.hw,
        resval: field.resval,
        mubi: field.mubi,
        at: field.at,
    })
}

/// Appends the fields of copy `number`, which stands at this place of its word.
fn add_copy(
    alloc: Global,
    fields: &mut List<FieldDesc>,
    multireg: &MultiDesc,
    number: u32,
    place: u32,
) -> Result<(), Memory>
    requires valid { IsValidMultireg multireg.now }
    requires room { place < copies_per_word multireg.now }
    ensures { OnOk result (fields.new ≡ fields.old ++ copy_fields multireg.now number place) }
{
    let shift = (copy_bits(multireg.reg.fields.as_slice()) * place) as u8;
    for field in multireg.reg.fields.as_slice() {
        fields.push(moved_field(alloc, field, number, shift)?)?;
    }
    Ok(())
}

/// How many copies word `number` holds: as many as have room, or those that are left.
#[tactic(auto, unfolding(cg_desc::specs::Items::copies_in_word))]
fn copies_in_word(multireg: &MultiDesc, number: u32) -> u32
    requires valid { IsValidMultireg multireg.now }
    requires word { number < word_count multireg.now }
    ensures { result ≡ copies_in_word multireg.now number }
{
    let per_word = copies_per_word(multireg);
    per_word.min(multireg.count.saturating_sub(number * per_word))
}

/// The fields of word `number`, of its copies in order.
fn word_fields(alloc: Global, multireg: &MultiDesc, number: u32) -> Result<List<FieldDesc>, Memory>
    requires valid { IsValidMultireg multireg.now }
    requires word { number < word_count multireg.now }
    ensures { IfOk result (λ fields. fields ≡ word_fields multireg.now number) }
{
    let first = number * copies_per_word(multireg);
    let count = copies_in_word(multireg, number);
    let mut fields = List::new(alloc);
    for place in 0..count {
        add_copy(alloc, &mut fields, multireg, first + place, place)?;
    }
    Ok(fields)
}

/// The name of the register that gates copy `number`, if one does: with `regwen_multi` and several
/// copies each has its own.
#[tactic(auto, unfolding(cg_desc::specs::Items::copy_gate))]
fn copy_gate(alloc: Global, multireg: &MultiDesc, number: u32) -> Result<Option<Text>, Memory>
    ensures { IfOk result (λ gate. gate ≡ copy_gate multireg.now number) }
{
    let Some(name) = &multireg.reg.regwen else {
        return Ok(None);
    };
    if multireg.regwen_multi && 1 < multireg.count {
        let name = numbered(alloc, name.as_str(), number)?;
        Ok(Some(name))
    } else {
        let name = name.copy()?;
        Ok(Some(name))
    }
}

/// The name of word `number`, which has the number where there is more than one word.
fn word_name(alloc: Global, multireg: &MultiDesc, number: u32) -> Result<Text, Memory>
    requires { IsValidMultireg multireg.now }
    ensures { IfOk result (λ name. name ≡ word_name multireg.now number) }
{
    if 1 < word_count(multireg) {
        let name = numbered(alloc, multireg.reg.name.as_str(), number)?;
        Ok(name)
    } else {
        let name = multireg.reg.name.copy()?;
        Ok(name)
    }
}

/// The register that is word `number` of the copies.
#[tactic(auto, unfolding(cg_desc::specs::Items::multireg_word))]
pub fn multireg_word(alloc: Global, multireg: &MultiDesc, number: u32) -> Result<RegDesc, Memory>
    requires valid { IsValidMultireg multireg.now }
    requires word { number < word_count multireg.now }
    ensures { IfOk result (λ register. register ≡ multireg_word multireg.now number) }
{
    let register = &multireg.reg;
    Ok(RegDesc {
        name: word_name(alloc, multireg, number)?,
        fields: word_fields(alloc, multireg, number)?,
        regwen: copy_gate(alloc, multireg, number)?,
        regwen_at: register.regwen_at,
        hwext: register.hwext,
        hwqe: register.hwqe,
        hwre: register.hwre,
        shadowed: register.shadowed,
        at: register.at,
    })
}
