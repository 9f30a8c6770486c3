//! The module of a top, and what it means, as mathematics: this crate has no code that runs.
//!
//! Its definitions are in `specs/`: a merged top as its module is made of it (`Top`, `Nets`), the module's ports and entries in their
//! order and spelling (`TopModule`), the lists of names in which none may stand twice (`Clashes`), what the module is made of
//! (`Fits`), the modules behind it (`Modules`), where requests come to (`Ways`), the steps of all device interfaces in a clock
//! (`Select`), that such clocks exist (`Selection`), what nets and connections carry (`NetLaws`), and that the module can be printed
//! and is well formed (`WellFormed`). The laws are the functions below, whose bodies do nothing. Those on requests speak of every
//! valid merged top that breaks no rule on ranges and in whose lists no name repeats, with its crossbars' and blocks' modules behind
//! its own; those on the module's form of every valid merged top with few bits. `proofs/Examples.antt` shows the texts of small tops
//! by computation.
//!
//! Not promised: where a name repeats, more than that the module can be printed and that its vectors have their bits.
#![tactic(auto)]

ghost use Rattle.cg_topspec.specs.NetLaws.{BitIsRead, ConnectionsHold, VectorsHold};
ghost use Rattle.cg_topspec.specs.Select.{SelectMeans, ErrorsAnswer};
ghost use Rattle.cg_topspec.specs.Selection.{SelectionExists, StatesExist};
ghost use Rattle.cg_topspec.specs.Ways.{RequestsCome};
ghost use Rattle.cg_topspec.specs.WellFormed.{FewBitsFollow, TopModuleHasValuation, TopModuleIsPrintable, TopModuleIsWellFormed};

/// Each request of each host that stands for no crossbar comes to what the address map says: to the port of a device outside, to the
/// interface of an instance with the target of the low address bits, or to an error where nothing is.
pub fn requests_come()
    ensures { RequestsCome }
{}

/// In a clock with one request each device interface that a node stands for steps as its register block: the one at which the request
/// ends with the request, of whose address it has the low bits, at the place that the address map gives; every other one without an
/// access.
pub fn select_means()
    ensures { SelectMeans }
{}

/// Where nothing is at the address, a valid request is answered by an error with data all ones.
pub fn errors_answer()
    ensures { ErrorsAnswer }
{}

/// In every valuation of the module the vectors of interrupts, alerts and pins, and the ports that take bits in, have their bits in the
/// order of their numbers.
pub fn vectors_hold()
    ensures { VectorsHold }
{}

/// Bit k of a net that has its width is read as just that bit.
pub fn bit_is_read()
    ensures { BitIsRead }
{}

/// Clock and reset ports have their sources' nets, and interrupts, alerts and pins of an instance their own nets.
pub fn connections_hold()
    ensures { ConnectionsHold }
{}

/// Numbers and pins that break no rule on how many there are have few bits.
pub fn few_bits_follow()
    ensures { FewBitsFollow }
{}

/// The module of a valid merged top with few bits is a tree of the grammar, so that it can be printed.
pub fn top_module_is_printable()
    ensures { TopModuleIsPrintable }
{}

/// Where no name stands twice in a list, the module is well formed: each net that is used is declared and driven above, widths agree,
/// and each wire and each output has one driver.
pub fn top_module_is_well_formed()
    ensures { TopModuleIsWellFormed }
{}

/// Then its nets have values in each clock, whatever its inputs have and whatever its instances drive.
pub fn a_valuation_exists()
    ensures { TopModuleHasValuation }
{}

/// Each request of each host that stands for no crossbar can be made in a clock, from all states and whatever hardware brings.
pub fn a_selection_exists()
    ensures { SelectionExists }
{}

/// And there are such states: at each device interface, of the widths of its register module.
pub fn states_exist()
    ensures { StatesExist }
{}
