//! That a top has one list of ties.

ghost use Rattle.std.specs.Prelude.{◌≡◌, List};
ghost use Rattle.cg_desc.specs.declared.top.MergedTop.{MergedTop};
ghost use Rattle.cg_clkrst.specs.Ties.{AreTies};
ghost use Rattle.cg_clkrst.specs.declared.tie.Tie.{Tie};

/// The ports of a top with their sources, in their order, are one list.
pub fn ties_are_one()
    ensures { (m : MergedTop) (a b : List Tie) → AreTies m a → AreTies m b → a ≡ b }
{}
