//! The register module of a block's interface, as mathematics: this crate has no code that runs.
//!
//! Its definitions are in `specs/`: the names of the module's nets (`NetNames`), its ports and entries in their order
//! (`RegisterModule`), which ports an interface asks for (`Ports`), what it means for a module to act as a register block
//! (`Meaning`), and its runs over many clocks (`Runs`). The laws are the functions below, whose bodies do nothing. One says of
//! every interface that is laid out, and in whose module no name repeats, that the module has its name and just the ports that the
//! interface asks for, is well formed, has a valuation for all inputs and states of their widths, has the fields' reset values at
//! reset, with nothing staged and each phase 0, and takes in every valuation the step of the register block at every address of 32
//! bits. The other says of whatever acts so that from reset, over every list of clocks, it has runs, and each is a run of the register
//! block. The last says that a clock can carry any access, whatever hardware brings in it.
//!
//! The module is told by tables of its own (which ports a kind of field has, which bytes a write needs, which register is a gate),
//! and shares none with the block's step, so the law would not hold of a slip in either.
//!
//! Not promised: anything of an interface whose module repeats a name, or of the data after a clock with no access, or with an
//! accepted write. States and inputs are two-state values, and a clock is one step: nothing is said of delays.
#![tactic(auto)]

ghost use Rattle.cg_regspec.specs.Laws.{RegisterModuleMeans};
ghost use Rattle.cg_regspec.specs.Runs.{EachAccessIsCarried, RunsAreTheBlocks};

/// The register module of a laid interface, in which no name repeats, acts as the interface's register block.
pub fn register_module_means()
    ensures { RegisterModuleMeans }
{}

/// What acts as the register block of a laid interface runs as the block from reset, over every list of clocks.
pub fn runs_are_the_blocks()
    ensures { RunsAreTheBlocks }
{}

/// Each access can be made in any clock, whatever hardware brings in it.
pub fn each_access_is_carried()
    ensures { EachAccessIsCarried }
{}
