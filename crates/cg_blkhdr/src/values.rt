//! The numbers of a register's header.

ghost use Rattle.std.specs.Prelude.{◌≡◌, ◌≤◌, ◌<◌, ◌^◌};
ghost use Rattle.cg_hdrspec.specs.BlockHeader.{mask, reset_word};
ghost use Rattle.cg_blkhdr.specs.Small.{FieldsAreSmall};

use cg_base::mask;
use cg_desc::FieldDesc;

/// The ones of a field's width, which are not shifted.
#[tactic(auto, unfolding(cg_hdrspec::specs::BlockHeader::mask))]
pub fn field_mask(field: &FieldDesc) -> u32
    requires order { field.now.lsb ≤ field.now.msb }
    requires within { field.now.msb < 32 }
    ensures { result ≡ mask field.now }
{
    let width = u32::from(field.msb - field.lsb) + 1;
    mask(width) as u32
}

/// The word of the fields' reset values, each at its bits.
pub fn reset_word(fields: &[FieldDesc]) -> u32
    requires fields { FieldsAreSmall fields.now }
    requires word { reset_word fields.now < 2 ^ 32 }
    ensures { result ≡ reset_word fields.now }
{
    let mut word = 0u32;
    for field in fields {
        word += field.resval * (1 << field.lsb);
    }
    word
}
