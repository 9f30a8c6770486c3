//! C headers as mathematics: this crate has no code that runs.
//!
//! Its definitions are in `specs/`: what a header says (`Header`), where a text stops being one (`HeaderFault`), the header of a
//! block (`BlockHeader`), and what it means for a header to agree with a block (`Meaning`). `Reading` finds the answer of a text
//! line by line, for the proofs and for `cg_blkhdr`. The laws are the functions below, whose bodies do nothing. The first says of
//! every block that is laid out, and in whose header no name repeats, that the header's text has just the block's constants, and
//! that they are the places, bits and reset values of its registers and windows. The other two say that every text has one answer:
//! the constants of a header, or its first line without a form.
//!
//! Not promised: that a compiler of C takes the text, which `tools/interop` shows, or anything of a header that repeats a name.
#![tactic(auto)]

ghost use Rattle.std.specs.Prelude.{ℕ, List};
ghost use Rattle.cg_hdrspec.specs.HeaderFault.{Answer, IsAnswer};
ghost use Rattle.cg_hdrspec.specs.Laws.{BlockHeaderMeans, HeaderHasOneAnswer};

/// The header of a laid block, in which no name repeats, agrees with the block.
pub fn block_header_means()
    ensures { BlockHeaderMeans }
{}

/// Every text is a header of some constants, or has a first line without a form in its place.
pub fn every_text_has_an_answer()
    ensures { (text : List ℕ) → (a : Answer) × IsAnswer text a }
{}

/// No text is both, and none has two lists of constants or two first lines without a form.
pub fn header_has_one_answer()
    ensures { HeaderHasOneAnswer }
{}
