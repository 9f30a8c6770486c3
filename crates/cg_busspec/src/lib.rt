//! The module of a crossbar, and what it means, as mathematics: this crate has no code that runs.
//!
//! Its definitions are in `specs/`: the ranges of a crossbar's devices (`Ranges`), a crossbar as its module is made of it
//! (`Crossbar`), the module's ports and entries in their order (`CrossbarModule`), the way of a request inside one module
//! (`Passage`), and what it means for a module to be a described crossbar (`CrossbarMeaning`), which is said with the description
//! alone. The law is the function below, whose body does nothing. It says of every valid crossbar with ranges, in whose module no
//! name repeats, that the module is well formed and has a valuation; that every request of every host ends at the port of the device
//! that has its address, or in an error, alone and as an instance of another module; that each select has the first such device's
//! number; and that FIFOs and sockets stand exactly where clocks differ and hosts connect. `proofs/Examples.antt` shows texts and ways.
//!
//! Not promised: that a FIFO or a socket does what the way takes it to do (`cg_svspec`), and anything where a name repeats.
#![tactic(auto)]

ghost use Rattle.cg_busspec.specs.Laws.{CrossbarModuleMeans};

/// The module of a valid crossbar with its ranges, in which no name repeats, is the crossbar.
pub fn crossbar_module_means()
    ensures { CrossbarModuleMeans }
{}
