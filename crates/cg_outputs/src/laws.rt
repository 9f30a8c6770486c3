ghost use Rattle.cg_outputs.specs.Outputs.{OutputsAreOneList};

/// There is one list at most of the outputs that are meant.
pub fn outputs_are_one_list()
    ensures { OutputsAreOneList }
{}
