//! What the input of a session asks for, as mathematics: this crate has no code that runs.
//!
//! Its definitions are in `specs/`, and are of the input's bytes alone: what a line says (`Lines`), and what a list of bytes begins with
//! (`Input`), which is a whole command, the line `end`, what is no command, or what is not whole; and so the commands of an input with what
//! stands where they stop. The laws are the functions below, whose bodies do nothing: each line says one thing, and each input reads in
//! one way. How a source cuts the bytes has no part in it.
//!
//! Nothing is known here of files, builds or stores, nor of the bound on an input's length.
#![tactic(auto)]

ghost use Rattle.cg_inputs.specs.Laws.{EveryInputReads, InputReadsOnce, LeastRestHolds, LineSaysOneThing};

/// A line says one thing.
#[tactic(auto, using(crate::proofs::LineLaws::one_thing))]
pub fn line_says_one_thing()
    ensures { LineSaysOneThing }
{}

/// Every input reads as commands, up to where they stop.
#[tactic(auto, using(crate::proofs::Readings::reads_any))]
pub fn every_input_reads()
    ensures { EveryInputReads }
{}

/// And in one way.
#[tactic(auto, using(crate::proofs::Readings::reads_once))]
pub fn input_reads_once()
    ensures { InputReadsOnce }
{}

/// How much of a line is still to come.
#[tactic(auto, using(crate::proofs::LeastRest::least_holds))]
pub fn least_rest_holds()
    ensures { LeastRestHolds }
{}
