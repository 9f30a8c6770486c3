//! The subset of SystemVerilog that chipgen writes and reads, as mathematics: this crate has no code that runs.
//!
//! Its definitions are in `specs/`. About texts: the trees of modules (`Tree`), characters and names (`Characters`), tokens by
//! longest match with blanks and comments between (`Tokens`), the grammar as the tokens of each tree (`Grammar`) and as
//! functions that read trees back (`Parse`), which trees are trees of the grammar (`Printable`), the one layout in which modules
//! are written (`Layout`), and what a text stands for (`Stands`). About modules: declared names (`Names`), values (`Bits`,
//! `Value`), and which modules are well formed (`WellFormed`) or register modules (`Register`). About requests on a bus: what one
//! meets at a link of a crossbar (`Links`), and its whole way from a host (`Walk`). The laws are the functions below, whose bodies
//! do nothing; `proofs/Examples.antt` shows what the definitions say of a few texts.
//!
//! Not promised: that any other tool for SystemVerilog accepts these texts, or reads them the same way.
#![tactic(auto)]

ghost use Rattle.cg_svspec.specs.Names.{FirstRepeatIsFirst};
ghost use Rattle.cg_svspec.specs.Register.{RegisterHasValuation, RegisterKeepsWidths};
ghost use Rattle.cg_svspec.specs.Stands.{PrintedTextStands, TextStandsForOneList};
ghost use Rattle.cg_svspec.specs.Walk.{WalkHasOneEnd};
ghost use Rattle.cg_svspec.specs.WellFormed.{ModuleHasValuation};

/// A well-formed register module has states at reset; they have their widths, and so have its outputs, and the states after
/// each clock.
pub fn register_keeps_widths()
    ensures { RegisterKeepsWidths }
{}

/// What is found as the first repeat is the name at the least place whose name stands earlier too, and nothing is found
/// just where no name stands twice.
pub fn first_repeat_is_first()
    ensures { FirstRepeatIsFirst }
{}

/// What is printed stands for just the module that was printed.
pub fn printed_text_stands()
    ensures { PrintedTextStands }
{}

/// A text stands for at most one list of modules.
pub fn text_stands_for_one_list()
    ensures { TextStandsForOneList }
{}

/// A well-formed module has a valuation for all inputs and all values of the nets that instances drive.
pub fn module_has_valuation()
    ensures { ModuleHasValuation }
{}

/// A well-formed register module has a valuation for all inputs and states of their widths.
pub fn register_has_valuation()
    ensures { RegisterHasValuation }
{}

/// A walk has at most one end.
pub fn walk_has_one_end()
    ensures { WalkHasOneEnd }
{}
