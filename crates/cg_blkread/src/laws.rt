//! What the lists of findings say, as facts on a block's document, how fields stand, and what shadowed registers have.

ghost use Rattle.std.specs.Prelude.{◌↔◌, ℕ};
ghost use Rattle.cg_finding.specs.Finding.{Finding};
ghost use Rattle.cg_hjson.specs.declared.tree.Tree.{Tree};
ghost use Rattle.cg_blkread.specs.Described.{block_of};
ghost use Rattle.cg_blkread.specs.Order.{FieldsStandInOrder};
ghost use Rattle.cg_blkread.specs.Plain.{ShadowedArePlain};
ghost use Rattle.cg_blkread.specs.Reads.{IsListed, Violates};

/// What a block breaks is exactly what is listed: the findings of the rules on keys, kinds and the profile, or where there
/// are none those of the rules on values.
pub fn violations_are_listed()
    ensures { (t : Tree) (f : Finding) → Violates t f ↔ IsListed t f }
{}

/// The fields of a description are the written ones in the order of their lowest bits, and where no two begin at one bit,
/// this order is the only one.
pub fn fields_stand_in_order()
    ensures { FieldsStandInOrder }
{}

/// Where a block breaks no rule, each shadowed register of its description has storage, and fields that software reads and
/// writes, and hardware does not write.
pub fn shadowed_registers_are_plain()
    ensures { (t : Tree) (file : ℕ) → ((f : Finding) → ¬ Violates t f) → ShadowedArePlain (block_of file t) }
{}
