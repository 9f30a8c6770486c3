ghost use Rattle.cg_crossbar.specs.Laws.{CrossbarOutputMeans, CrossbarFileMeans, GoodFileBreaksNothing, GoodFileIsOne};

use cg_busspec::crossbar_module_means;
use cg_svspec::printed_text_stands;

/// What is written of a crossbar has its meaning: of one whose ranges fit, and of a file of one that breaks nothing.
pub fn crossbar_output_means()
    ensures ranges { CrossbarOutputMeans }
    ensures mean { CrossbarFileMeans }
{
    printed_text_stands();
    crossbar_module_means();
}

/// A file is of one crossbar at most that breaks nothing, and then nothing in it is broken.
pub fn one_crossbar_or_none()
    ensures unbroken { GoodFileBreaksNothing }
    ensures one { GoodFileIsOne }
{}
