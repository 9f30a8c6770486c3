//! A whole top: from what its files describe to all that is written of it.
//!
//! `chip_of` computes what a merged top needs beside its description: the ranges of its crossbars, the numbers of its interrupts and alerts,
//! the sources of its clocks and resets, and its pins. `build` makes all that is written of it: the top's module, its header and its
//! completed description; the modules of the crossbars; for each block its register modules, its header and its completed
//! description; and the manifest. Both answer the first of all that the files break, exactly where they break something (`Violates`).
//!
//! The laws say that files describe one such top at most, and that there is one list of what is written. Nothing is known here of
//! the command line, of folders or of stores. Not promised: that memory is found.
#![tactic(auto)]

ghost use Rattle.cg_chip.specs.Laws.{BuildIsOne, ChipIsOne, WhatIsWrittenMeans};

use cg_busspec::crossbar_module_means;
use cg_clkrst::ties_are_one;
use cg_design::files_are_of_one_top;
use cg_files::a_file_has_one_tree;
use cg_hdrspec::block_header_means;
use cg_irq::numbering_is_one;
use cg_outputs::outputs_are_one_list;
use cg_pinmux::pins_are_one;
use cg_regspec::register_module_means;
use cg_svspec::printed_text_stands;
use cg_tophdr::{bases_and_offsets_meet, top_header_is_meant};
use cg_topspec::{
    a_selection_exists, a_valuation_exists, connections_hold, errors_answer, few_bits_follow,
    requests_come, select_means, states_exist, top_module_is_printable, top_module_is_well_formed,
    vectors_hold,
};

mod blocks;
mod chip;
mod crossbars;
mod fault;
mod top;
mod whole;

pub use chip::{Chip, XbarRanges, chip_of};
pub use top::{TopTexts, top_texts};
pub use whole::build;

/// Files describe one top at most with all that is computed of it, and there is one list of what is written.
pub fn files_are_of_one_build()
    ensures chip { ChipIsOne }
    ensures build { BuildIsOne }
{
    a_file_has_one_tree();
    files_are_of_one_top();
    numbering_is_one();
    ties_are_one();
    pins_are_one();
    outputs_are_one_list();
}

/// What is written of files that break nothing has its meaning: every access of every host reaches what the address map says.
pub fn what_is_written_means()
    ensures { WhatIsWrittenMeans }
{
    printed_text_stands();
    top_module_is_printable();
    top_module_is_well_formed();
    few_bits_follow();
    requests_come();
    select_means();
    errors_answer();
    a_selection_exists();
    states_exist();
    vectors_hold();
    connections_hold();
    a_valuation_exists();
    crossbar_module_means();
    register_module_means();
    block_header_means();
    top_header_is_meant();
    bases_and_offsets_meet();
}
