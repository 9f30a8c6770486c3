//! That a crossbar has one list of parts and one list of clocks.

ghost use Rattle.std.specs.Prelude.{◌≡◌, List, ℕ};
ghost use Rattle.cg_desc.specs.declared.crossbar.XbarDesc.{XbarDesc};
ghost use Rattle.cg_nodes.specs.declared.parts.Part.{Part};
ghost use Rattle.cg_nodes.specs.Parts.{IsParts};
ghost use Rattle.cg_nodes.specs.Clocks.{IsClocks};
ghost use Rattle.cg_nodes.specs.Listed.{clocks_of, parts_of};

/// The parts of a crossbar, in their order, are one list: this one.
pub fn parts_are_one()
    ensures listed { (x : XbarDesc) → IsParts x (parts_of x) }
    ensures one { (x : XbarDesc) (parts : List Part) → IsParts x parts → parts ≡ parts_of x }
{}

/// The clocks of a crossbar, in their order, are one list: this one.
pub fn clocks_are_one()
    ensures listed { (x : XbarDesc) → IsClocks x (clocks_of x) }
    ensures one { (x : XbarDesc) (clocks : List (List ℕ)) → IsClocks x clocks → clocks ≡ clocks_of x }
{}
