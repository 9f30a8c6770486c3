//! What the lists of findings say, as facts with their places and names.

ghost use Rattle.std.specs.Prelude.{◌↔◌, ◌≤◌, IsTrue, List, length, ℕ};
ghost use Rattle.cg_desc.specs.declared.place.At.{At};
ghost use Rattle.cg_finding.specs.Finding.{Finding, In};
ghost use Rattle.cg_hjson.specs.declared.tree.Member.{Member};
ghost use Rattle.cg_hjson.specs.declared.tree.Tree.{Tree};
ghost use Rattle.cg_svspec.specs.Characters.{IsName};
ghost use Rattle.cg_keys.specs.Duplicates.{duplicate_faults};
ghost use Rattle.cg_keys.specs.Forms.{is_name};
ghost use Rattle.cg_keys.specs.Table.{Key, table_faults};
ghost use Rattle.cg_keys.specs.Violations.{BreaksTable, DuplicateKey};

/// The findings of a table of keys are exactly the needed keys that are absent and the values
/// that have none of their key's forms.
#[tactic(auto, using(crate::proofs::Relation::in_table_faults, crate::proofs::Relation::table_faults_has))]
pub fn tables_find_violations()
    ensures { (opener : At) (ms : List Member) (ks : List Key) (f : Finding)
        → In f (table_faults opener ms ks) ↔ BreaksTable opener ms ks f }
{}

/// The findings on keys that stand twice are exactly the keys of objects, anywhere in a value, that
/// an earlier member has.
#[tactic(auto, using(crate::proofs::DuplicateKeys::in_duplicate_faults, crate::proofs::DuplicateKeys::duplicate_faults_has))]
pub fn repeats_are_violations()
    ensures { (root : Tree) (f : Finding) → In f (duplicate_faults root) ↔ DuplicateKey root f }
{}

/// The test for names passes exactly the names of at most so many characters.
#[tactic(auto, using(crate::proofs::NameTests::is_name_tells))]
pub fn names_pass_the_test()
    ensures { (most : ℕ) (s : List ℕ) → IsTrue (is_name most s) ↔ (IsName s × (length s ≤ most)) }
{}
