ghost use Rattle.cg_files.specs.Files.{File, HasTree, BreaksFile};
ghost use Rattle.cg_finding.specs.Finding.{Finding};
ghost use Rattle.cg_hjson.specs.declared.tree.Tree.{Tree};
ghost use Rattle.std.specs.Prelude.{◌≡◌};

/// A file has one tree at most, and where it has one it breaks none of the rules on files and documents.
#[tactic(auto, using(crate::proofs::OneTree::same_tree, crate::proofs::OneTree::unbroken))]
pub fn a_file_has_one_tree()
    ensures one { (file : File) (t u : Tree) → HasTree file t → HasTree file u → t ≡ u }
    ensures unbroken { (file : File) (t : Tree) (f : Finding) → HasTree file t → ¬ BreaksFile file f }
{}
