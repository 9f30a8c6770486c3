ghost use Rattle.std.specs.Prelude.{◌≡◌, List, map, string_bytes, ℕ};
ghost use Rattle.cg_deeds.specs.Outside.{World, outlets, world};
ghost use Rattle.cg_gen.specs.Inner.{AreWords};
ghost use Rattle.cg_gen.specs.Run.{Runs, Ends};

use crate::ending::Ending;
use crate::perform::perform;
use crate::plan::plan;
use crate::said::{Said, apart};
use cg_base::{Gate, Sink, Source, Steps, Store};
use cg_block::{block_outputs_mean, one_block_or_none};
use cg_crossbar::{crossbar_output_means, one_crossbar_or_none};
use cg_deeds::Stop;
use cg_keep::{a_build_is_one, what_is_built_means};
use cg_outputs::outputs_are_one_list;
use cg_session::{a_session_means, session};
use cg_words::{Command, read_words, words_are_at_most_one_command};
use std::alloc::Global;
use std::sync::ledger::Ledger;
use std::thread::Threads;

/// Finds what is due for words that are no session's, and does it.
fn run_on_files<
    R: Threads + Sync,
    S: Store,
    I: Source,
    O: Sink,
    E: Sink,
    G: Gate + Sync,
    L: Ledger,
>(
    rt: &R,
    alloc: Global,
    command: Option<Command>,
    store: &mut S,
    _input: &mut I,
    out: &mut O,
    err: &mut E,
    gate: &G,
    steps: &mut Steps<L>,
) -> Ending
    requires { (words : List (List ℕ)) × AreWords words command }
    ensures ends { let before : World = world (outlets (S.content store.old) (S.change_faults store.old) (O.held out.old) (O.faults out.old) (E.held err.old) (E.faults err.old)) (S.asked store.old) (S.read_faults store.old) (I.left _input.old) (I.faults _input.old) in
        let after : World = world (outlets (S.content store.new) (S.change_faults store.new) (O.held out.new) (O.faults out.new) (E.held err.new) (E.faults err.new)) (S.asked store.new) (S.read_faults store.new) (I.left _input.new) (I.faults _input.new) in
        (words : List (List ℕ)) → AreWords words command → Ends result words before after }
    ensures input { I.left _input.new ≡ I.left _input.old }
    ensures steps { steps.new ≡ steps.old }
{
    match plan(rt, alloc, command, store, gate, steps) {
        Ok(due) => perform(&due, store, out, err),
        Err(Stop::Failed) => Ending::ReadFailed,
        Err(Stop::Memory) => Ending::Memory,
    }
}

/// Does what the words say on the store and the streams, and answers the status.
///
/// `words` leave out the program's name. With `regtool (-r|-D|-j) -t DIR FILE` the description FILE is read, and the register text of
/// each device interface of its block (`-r`), its C header (`-D`) or its completed description (`-j`) is written into DIR (OpenTitan
/// Register Tool). With `tlgen -t FILE -o DIR` the description FILE is read, and the text of its crossbar is written into DIR (OpenTitan
/// Crossbar Tool). With `topgen -t FILE -o DIR -w N` the description FILE is read, and the files of the crossbars and the blocks that it
/// names, and all texts of its top are written into DIR (OpenTitan Top Generation Tool). With `sample NUMBER` a large top is made of a number
/// and built in memory, and what there is of it is told. With `session -t FILE -o DIR -w N` commands are read from `input` up to its line `end`:
/// files are put, taken away and built, of which FILE is the top's, and what is built is written into DIR. The words of `probe` are not built yet.
/// Only a session uses `input`, and no thread is started.
///
/// The status is 0 where the outputs were written and told, or a session ended so; 1 where the description has a first fault, or the last build of a session had;
/// 2 where the words are no command that is built, or a session's command is none; 3 and 4 where the store, the input or a stream failed; 5 where
/// memory was not found; and 6 where a session's input is too long. What each means is a field of `RunsOnFiles`, or of `SessionRuns`. No clause rules out want
/// of memory, and where the store, the input or a stream tells no content, the clauses on content say nothing of it.
pub fn run<R: Threads + Sync, S: Store, I: Source, O: Sink, E: Sink, G: Gate + Sync, L: Ledger>(
    rt: &R,
    alloc: Global,
    words: &[String],
    store: &mut S,
    input: &mut I,
    out: &mut O,
    err: &mut E,
    gate: &G,
    steps: &mut Steps<L>,
) -> u8
    ensures runs { let before : World = world (outlets (S.content store.old) (S.change_faults store.old) (O.held out.old) (O.faults out.old) (E.held err.old) (E.faults err.old)) (S.asked store.old) (S.read_faults store.old) (I.left input.old) (I.faults input.old) in
        let after : World = world (outlets (S.content store.new) (S.change_faults store.new) (O.held out.new) (O.faults out.new) (E.held err.new) (E.faults err.new)) (S.asked store.new) (S.read_faults store.new) (I.left input.new) (I.faults input.new) in
        Runs result (map string_bytes words.now) before after }
    ensures no_step { steps.new ≡ steps.old }
{
    block_outputs_mean();
    one_block_or_none();
    crossbar_output_means();
    one_crossbar_or_none();
    outputs_are_one_list();
    a_build_is_one();
    what_is_built_means();
    a_session_means();
    words_are_at_most_one_command();
    match apart(read_words(alloc, words)) {
        Said::Session { file, dir, workers } => {
            let file = file.as_str();
            let dir = dir.as_str();
            session(
                rt, alloc, file, dir, workers, store, input, out, err, gate, steps,
            )
            .code()
        }
        Said::OnFiles(command) => {
            run_on_files(rt, alloc, command, store, input, out, err, gate, steps).code()
        }
        Said::Memory => Ending::Memory.code(),
    }
}
