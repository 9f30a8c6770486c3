//! What is so of each merged top.

ghost use Rattle.cg_merge.specs.Laws.{MergedIsOne};

/// The files of a top are merged in one way: the numbers of the instances' blocks and what the nodes stand for follow from them.
pub fn merged_tops_are_one()
    ensures { MergedIsOne }
{}
