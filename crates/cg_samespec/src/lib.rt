//! Blocks that are the same but for places, as mathematics: this crate has no code that runs.
//!
//! Its definitions are in `specs/`: what is written of two blocks is the same (`Same`), and the law on two blocks which are the same
//! but for the places of their parts in a file: where one breaks no rule on names, counts, offsets and gates, the other breaks none
//! either, and the same is written of both (`Laws`). The only such rule that looks at places is the one on fields of one name; so the
//! law asks that no two fields of a register have one name, which a second law says of every block that was read from a text and
//! breaks no rule on names.
//!
//! Not promised: anything of blocks whose fields have one name, of which an earlier one in the file decides, nor which rules two
//! such blocks break.
#![tactic(auto)]

ghost use Rattle.cg_samespec.specs.Laws.{ReadFieldsAreApart, SameIsLaid};

/// A block that is the same as a laid one but for places is laid out the same, and the same is written of it.
pub fn same_is_laid()
    ensures { SameIsLaid }
{}

/// In a block that was read from a text, and breaks no rule on names, no two fields of a register have one name.
pub fn read_fields_are_apart()
    ensures { ReadFieldsAreApart }
{}
