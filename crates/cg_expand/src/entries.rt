//! The items that the entries of interfaces stand for.

ghost use Rattle.std.specs.Prelude.{◌≡◌, ◌++◌, IfOk, OnOk};
ghost use Rattle.std.specs.List.{flat_map};
ghost use Rattle.cg_svspec.specs.Printable.{AllOf};
ghost use Rattle.cg_desc.specs.Items.{entry_items, items_of_faces};
ghost use Rattle.cg_desc.specs.Valid.{IsValidEntry, IsValidInterface, IsValidMultireg};
ghost use Rattle.cg_desc.specs.declared.block.Written.TheVariants.{Multi as OfMultireg};

use crate::copies::{multireg_word, word_count};
use cg_base::{List, Memory, Text};
use cg_desc::{FaceDesc, FaceItems, FieldDesc, Item, MultiDesc, RegDesc, WindowDesc, Written};
use std::alloc::Global;
use std::mem;

fn copy_field(field: &FieldDesc) -> Result<FieldDesc, Memory>
    ensures { IfOk result (λ copy. copy ≡ field.now) }
{
    Ok(FieldDesc {
        name: field.name.copy()?,
        msb: field.msb,
        lsb: field.lsb,
        sw: field.sw,
        hw: field.hw,
        resval: field.resval,
        mubi: field.mubi,
        at: field.at,
    })
}

fn copy_fields(alloc: Global, fields: &[FieldDesc]) -> Result<List<FieldDesc>, Memory>
    ensures { IfOk result (λ copies. copies ≡ fields.now) }
{
    let mut copies = List::new(alloc);
    for field in fields {
        copies.push(copy_field(field)?)?;
    }
    Ok(copies)
}

fn copy_if_any(text: &Option<Text>) -> Result<Option<Text>, Memory>
    ensures { IfOk result (λ copy. copy ≡ text.now) }
{
    match text {
        None => Ok(None),
        Some(text) => {
            let copy = text.copy()?;
            Ok(Some(copy))
        }
    }
}

fn copy_register(alloc: Global, register: &RegDesc) -> Result<RegDesc, Memory>
    ensures { IfOk result (λ copy. copy ≡ register.now) }
{
    Ok(RegDesc {
        name: register.name.copy()?,
        fields: copy_fields(alloc, register.fields.as_slice())?,
        regwen: copy_if_any(&register.regwen)?,
        regwen_at: register.regwen_at,
        hwext: register.hwext,
        hwqe: register.hwqe,
        hwre: register.hwre,
        shadowed: register.shadowed,
        at: register.at,
    })
}

fn copy_window(window: &WindowDesc) -> Result<WindowDesc, Memory>
    ensures { IfOk result (λ copy. copy ≡ window.now) }
{
    Ok(WindowDesc {
        name: window.name.copy()?,
        items: window.items,
        byte_write: window.byte_write,
        sw: window.sw,
        at: window.at,
    })
}

/// Appends the words of the copies of a register.
fn add_words(alloc: Global, items: &mut List<Item>, multireg: &MultiDesc) -> Result<(), Memory>
    requires { IsValidMultireg multireg.now }
    ensures { OnOk result (items.new ≡ items.old ++ entry_items (OfMultireg multireg.now)) }
{
    for number in 0..word_count(multireg) {
        items.push(Item::Reg(multireg_word(alloc, multireg, number)?))?;
    }
    Ok(())
}

/// Appends what an entry stands for.
fn add_entry(alloc: Global, items: &mut List<Item>, entry: &Written) -> Result<(), Memory>
    requires { IsValidEntry entry.now }
    ensures { OnOk result (items.new ≡ items.old ++ entry_items entry.now) }
{
    match entry {
        Written::Reg(register) => items.push(Item::Reg(copy_register(alloc, register)?))?,
        Written::Multi(multireg) => add_words(alloc, items, multireg)?,
        Written::Window(window) => items.push(Item::Window(copy_window(window)?))?,
        Written::SkipTo { to, at } => items.push(Item::SkipTo { to: *to, at: *at })?,
        Written::Reserved { words, at } => items.push(Item::Reserved {
            words: *words,
            at: *at,
        })?,
    }
    Ok(())
}

/// Appends what the entries stand for.
fn add_entries(alloc: Global, items: &mut List<Item>, entries: &[Written]) -> Result<(), Memory>
    requires { AllOf IsValidEntry entries.now }
    ensures { OnOk result (items.new ≡ items.old ++ flat_map entry_items entries.now) }
{
    for entry in entries {
        add_entry(alloc, items, entry)?;
    }
    Ok(())
}

/// The items of each interface, of which the first has these in front of its own.
#[tactic(auto, unfolding(cg_desc::specs::Items::items_of_faces))]
pub fn items_of_faces(
    alloc: Global,
    front: List<Item>,
    faces: &[FaceDesc],
) -> Result<List<FaceItems>, Memory>
    requires { AllOf IsValidInterface faces.now }
    ensures { IfOk result (λ all. all ≡ items_of_faces front faces.now) }
{
    let mut all = List::new(alloc);
    let mut front = front;
    for face in faces {
        let mut items = mem::replace(&mut front, List::new(alloc));
        add_entries(alloc, &mut items, face.entries.as_slice())?;
        all.push(FaceItems { items })?;
    }
    Ok(all)
}
