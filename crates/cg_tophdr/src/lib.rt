//! The C header of a top, and what it means, as mathematics: this crate has no code that runs.
//!
//! Its definitions are in `specs/`: the constants in their order, their names and the text (`TopHeader`), and what the constants say
//! (`Meaning`): the base and the size of each device interface, and the numbers of interrupts, alerts and pins. The laws are the
//! functions below, whose bodies do nothing.
//!
//! Not promised: anything where a name is defined twice.
#![tactic(auto)]

ghost use Rattle.cg_tophdr.specs.Laws.{BasesAndOffsetsMeet, TopHeaderIsMeant};

/// A header in which no name repeats says of each interface where it is and how large, and of each interrupt, alert and pin its number,
/// and nothing else.
pub fn top_header_is_meant()
    ensures { TopHeaderIsMeant }
{}

/// The base of an interface with the offset of a register or of a window's word is the address at which a host that reaches the interface
/// finds just that.
pub fn bases_and_offsets_meet()
    ensures { BasesAndOffsetsMeet }
{}
