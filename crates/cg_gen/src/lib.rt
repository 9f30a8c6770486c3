//! The top call: from the words of the command line to bytes in the store.
//!
//! `run` finds what is due for the words, which is the first fault of the files that they name, their outputs, a sample's counts, or the
//! usage text, and then does it: deeds (`cg_deeds`) in their order, each a file that is written or removed or a line that is said. The words
//! of a session are `cg_session`'s. What each status means is a field of `RunsOnFiles`, or of a session's `SessionRuns` (specs/Run), with its
//! cause and with what the store and the streams hold after it. What is due is in specs/Due, and a command has one page of definitions
//! (specs/Regtool, specs/Tlgen, specs/Topgen, specs/Sample; what the first two share is in specs/OneFile), one source file (src/regtool.rt,
//! src/tlgen.rt, src/topgen.rt, src/samples.rt), and one line in specs/Commands and src/plan.rt.
//!
//! All commands but `probe` are built, whose words are answered by the usage text. Not promised: that memory is found, and anything of
//! content over a store, an input or a stream that tells none.
#![tactic(auto)]

mod due;
mod ending;
mod given;
mod perform;
mod plan;
mod regtool;
mod said;
mod samples;
mod tlgen;
mod told;
mod top;
mod topgen;

pub use cg_deeds::{Deed, Stop, Stream};
pub use due::{Due, Status};
pub use ending::Ending;
pub use given::Given;
pub use samples::{Counts, sample};
pub use top::run;
