ghost use Rattle.cg_block.specs.Laws.{BlockOutputsMean, RegisterTextsDiffer, GoodFileBreaksNothing, GoodFileIsOne};

use cg_blkdone::{completed_is_same, completed_is_sound, completed_reads_back};
use cg_hdrspec::block_header_means;
use cg_jsonspec::documents_are_sayable;
use cg_regspec::register_module_means;
use cg_samespec::{read_fields_are_apart, same_is_laid};
use cg_svspec::printed_text_stands;

/// What is written of a block that breaks nothing has its meaning, and its register texts have names of their own.
pub fn block_outputs_mean()
    ensures mean { BlockOutputsMean }
    ensures differ { RegisterTextsDiffer }
{
    printed_text_stands();
    register_module_means();
    block_header_means();
    completed_reads_back();
    completed_is_same();
    completed_is_sound();
    read_fields_are_apart();
    same_is_laid();
    documents_are_sayable();
}

/// A file is of one block at most that breaks nothing, and then nothing in it is broken.
pub fn one_block_or_none()
    ensures unbroken { GoodFileBreaksNothing }
    ensures one { GoodFileIsOne }
{}
