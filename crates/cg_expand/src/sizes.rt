//! How many rows and fields a block has, counted without making them.

ghost use Rattle.std.specs.Prelude.{◌≡◌, ◌+◌, ◌*◌, ◌<◌, nat_lt, ◌||◌, cond, min, sum_by};
ghost use Rattle.cg_svspec.specs.Printable.{AllOf};
ghost use Rattle.cg_desc.specs.Items.{automatic_items, items_of_block};
ghost use Rattle.cg_desc.specs.Valid.{IsValidEntry, IsValidInterface};
ghost use Rattle.cg_expand.specs.Violations.{fields_in, rows_in};
ghost use Rattle.cg_expand.specs.Parts.Sizes.{capped, entry_fields, entry_rows, face_fields, face_rows, is_too_large};

use crate::automatic::{has_alert_register, has_interrupt_registers};
use crate::copies::word_count;
use cg_desc::{BlockDesc, FaceDesc, IntrDesc, Written};

/// How many bits all interrupts may have, and how many alerts there may be.
pub const MOST_BITS: u32 = 32;

/// How many registers and windows a block may have.
const MOST_ROWS: u32 = 2048;

/// How many fields a block may have.
const MOST_FIELDS: u32 = 4096;

/// How many registers and windows there are, and how many fields.
///
/// A block's size goes no further than one past the limits.
#[derive(Clone, Copy)]
struct Size {
    rows: u32,
    fields: u32,
}

impl Size {
    const NONE: Size = Size { rows: 0, fields: 0 };

    /// Both together, as far as one past the limits.
    fn plus(self, other: Size) -> Size
        ensures { result ≡ capped (self.rows + other.rows) (self.fields + other.fields) }
    {
        Size {
            rows: self.rows.saturating_add(other.rows).min(MOST_ROWS + 1),
            fields: self
                .fields
                .saturating_add(other.fields)
                .min(MOST_FIELDS + 1),
        }
    }

    fn is_too_large(self) -> bool
        ensures { result ≡ (nat_lt 2048 self.rows || nat_lt 4096 self.fields) }
    {
        self.rows > MOST_ROWS || self.fields > MOST_FIELDS
    }
}

/// What an entry stands for.
#[tactic(auto, using(crate::proofs::FewFields::few_fields))]
fn entry_size(entry: &Written) -> Size
    requires { IsValidEntry entry.now }
    ensures rows { result.rows ≡ entry_rows entry.now }
    ensures fields { result.fields ≡ entry_fields entry.now }
{
    match entry {
        Written::Reg(register) => Size {
            rows: 1,
            fields: register.fields.len() as u32,
        },
        Written::Multi(multireg) => Size {
            rows: word_count(multireg),
            fields: multireg.count * multireg.reg.fields.len() as u32,
        },
        Written::Window(_) => Size { rows: 1, fields: 0 },
        Written::SkipTo { .. } | Written::Reserved { .. } => Size::NONE,
    }
}

/// What the entries stand for.
fn entries_size(entries: &[Written]) -> Size
    requires { AllOf IsValidEntry entries.now }
    ensures { result ≡ capped (sum_by entry_rows entries.now) (sum_by entry_fields entries.now) }
{
    let mut size = Size::NONE;
    for entry in entries {
        size = size.plus(entry_size(entry));
    }
    size
}

/// What the entries of the interfaces stand for.
fn faces_size(faces: &[FaceDesc]) -> Size
    requires { AllOf IsValidInterface faces.now }
    ensures { result ≡ capped (sum_by face_rows faces.now) (sum_by face_fields faces.now) }
{
    let mut size = Size::NONE;
    for face in faces {
        size = size.plus(entries_size(face.entries.as_slice()));
    }
    size
}

/// So many registers of so many fields each, if they are there.
fn size_if(present: bool, rows: u32, fields: usize) -> Size
    requires { rows < 4 }
    ensures { result ≡ capped (cond present rows 0) (cond present (rows * fields) 0) }
{
    if !present {
        return Size::NONE;
    }
    let each = fields.min(MOST_FIELDS as usize + 1) as u32;
    Size {
        rows,
        fields: (rows * each).min(MOST_FIELDS + 1),
    }
}

/// The automatic registers.
fn automatic_size(block: &BlockDesc) -> Size
    ensures { result ≡ capped (sum_by rows_in (automatic_items block.now)) (sum_by fields_in (automatic_items block.now)) }
{
    let interrupts = size_if(has_interrupt_registers(block), 3, block.intrs.len());
    let alerts = size_if(has_alert_register(block), 1, block.alerts.len());
    interrupts.plus(alerts)
}

/// Whether a block has too many registers and windows, or too many fields. It takes no memory.
pub fn is_too_large(block: &BlockDesc) -> bool
    requires { AllOf IsValidInterface block.now.faces }
    ensures { result ≡ is_too_large (items_of_block block.now) }
{
    if block.faces.is_empty() {
        return false;
    }
    automatic_size(block)
        .plus(faces_size(block.faces.as_slice()))
        .is_too_large()
}

/// Whether the interrupts have too many bits.
pub fn has_many_bits(interrupts: &[IntrDesc]) -> bool
    ensures { result ≡ nat_lt 32 (sum_by (λ i. i.width) interrupts.now) }
{
    let mut bits = 0u32;
    for interrupt in interrupts {
        bits = bits.saturating_add(interrupt.width).min(MOST_BITS + 1);
    }
    bits > MOST_BITS
}
