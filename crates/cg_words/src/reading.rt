ghost use Rattle.std.specs.Prelude.{◌≡◌, ◌≢◌, List, true, false, IfOk, IfErr, codes, map, string_bytes};
ghost use Rattle.clap.specs.Words.{Text as Bytes, app_of, found_of, is_simple_and_free, kind_of, matches_of, rows_of};
ghost use Rattle.clap.specs.declared.error.kind.ErrorKind.TheVariants.{OutOfMemory};
ghost use Rattle.cg_words.specs.declared.fault.WordsFault.TheVariants as fault;
ghost use Rattle.cg_words.specs.Tools.{accepts, build_app, probe_app, regtool_app, sample_app, tlgen_app};
ghost use Rattle.cg_words.specs.Words.{IsCommand, ReadsCommand};
ghost use Rattle.cg_words.specs.Words.Reading.{Finds, build_in, command_of, probe_in, regtool_in, sample_in, session_in, taken_by, tlgen_in, topgen_in};

use crate::values::{number_of, output_of};
use crate::{Command, WordsFault, tools};
use cg_base::Text;
use clap::error::ErrorKind;
use clap::{ArgMatches, Error};
use std::alloc::Global;

/// The command that the words are. `words` leave out the program's name.
///
/// `NotCommand` comes exactly where the words are no command.
pub fn read_words(alloc: Global, words: &[String]) -> Result<Command, WordsFault>
    ensures { ReadsCommand (map string_bytes words.now) result }
{
    command_in(alloc, words)
}

/// Words are at most one command.
pub fn words_are_at_most_one_command()
    ensures { (words : List Bytes) (c d : Command) → IsCommand words c → IsCommand words d → c ≡ d }
{}

fn command_in(alloc: Global, words: &[String]) -> Result<Command, WordsFault>
    ensures { Finds (command_of (map string_bytes words.now)) result }
{
    let [tool, rest @ ..] = words else {
        return Err(WordsFault::NotCommand);
    };
    match tool.as_str() {
        "regtool" => read_regtool(alloc, rest),
        "tlgen" => read_tlgen(alloc, rest),
        "topgen" => read_topgen(alloc, rest),
        "session" => read_session(alloc, rest),
        "probe" => read_probe(alloc, rest),
        "sample" => read_sample(alloc, rest),
        _ => Err(WordsFault::NotCommand),
    }
}

/// The command that the words after `regtool` are.
#[tactic(auto, using(crate::proofs::Taken::regtool_free))]
fn read_regtool(alloc: Global, words: &[String]) -> Result<Command, WordsFault>
    ensures { Finds (taken_by regtool_app regtool_in (map string_bytes words.now)) result }
{
    let tool = tools::regtool(alloc)?;
    let matches = matches_by(tool, words)?;
    let command = regtool_from(alloc, &matches)?;
    Ok(command)
}

#[tactic(auto, using(crate::proofs::Rows::first_of_rows))]
fn regtool_from(alloc: Global, matches: &ArgMatches<'_>) -> Result<Command, WordsFault>
    ensures { Finds (regtool_in (rows_of (found_of matches.now))) result }
{
    let Some(made) = output_of(matches) else {
        return Err(WordsFault::NotCommand);
    };
    let Some(dir) = matches.get_str("dir") else {
        return Err(WordsFault::NotCommand);
    };
    let Some(file) = matches.get_str("file") else {
        return Err(WordsFault::NotCommand);
    };
    let dir = Text::of(alloc, dir)?;
    let file = Text::of(alloc, file)?;
    Ok(Command::Regtool { made, dir, file })
}

/// The command that the words after `tlgen` are.
#[tactic(auto, using(crate::proofs::Taken::tlgen_free))]
fn read_tlgen(alloc: Global, words: &[String]) -> Result<Command, WordsFault>
    ensures { Finds (taken_by tlgen_app tlgen_in (map string_bytes words.now)) result }
{
    let tool = tools::tlgen(alloc)?;
    let matches = matches_by(tool, words)?;
    let command = tlgen_from(alloc, &matches)?;
    Ok(command)
}

#[tactic(auto, using(crate::proofs::Rows::first_of_rows))]
fn tlgen_from(alloc: Global, matches: &ArgMatches<'_>) -> Result<Command, WordsFault>
    ensures { Finds (tlgen_in (rows_of (found_of matches.now))) result }
{
    let Some(file) = matches.get_str("file") else {
        return Err(WordsFault::NotCommand);
    };
    let Some(dir) = matches.get_str("dir") else {
        return Err(WordsFault::NotCommand);
    };
    let file = Text::of(alloc, file)?;
    let dir = Text::of(alloc, dir)?;
    Ok(Command::Tlgen { file, dir })
}

/// The command that the words after `topgen` are.
#[tactic(auto, using(crate::proofs::Taken::topgen_free))]
fn read_topgen(alloc: Global, words: &[String]) -> Result<Command, WordsFault>
    ensures { Finds (taken_by (build_app (codes "topgen")) topgen_in (map string_bytes words.now)) result }
{
    let tool = tools::build(alloc, "topgen")?;
    let matches = matches_by(tool, words)?;
    let Build { file, dir, workers } = build_from(alloc, &matches)?;
    Ok(Command::Topgen { file, dir, workers })
}

/// The command that the words after `session` are.
#[tactic(auto, using(crate::proofs::Taken::session_free))]
fn read_session(alloc: Global, words: &[String]) -> Result<Command, WordsFault>
    ensures { Finds (taken_by (build_app (codes "session")) session_in (map string_bytes words.now)) result }
{
    let tool = tools::build(alloc, "session")?;
    let matches = matches_by(tool, words)?;
    let Build { file, dir, workers } = build_from(alloc, &matches)?;
    Ok(Command::Session { file, dir, workers })
}

/// The description, the folder of the outputs and the number of workers.
#[derive(Drop)]
struct Build {
    file: Text,
    dir: Text,
    workers: u8,
}

#[tactic(auto, using(crate::proofs::Rows::first_of_rows))]
fn build_from(alloc: Global, matches: &ArgMatches<'_>) -> Result<Build, WordsFault>
    ensures { Finds (build_in (rows_of (found_of matches.now))) result }
{
    let Some(file) = matches.get_str("file") else {
        return Err(WordsFault::NotCommand);
    };
    let Some(dir) = matches.get_str("dir") else {
        return Err(WordsFault::NotCommand);
    };
    let Some(workers) = number_of(matches, "workers", 1, 64) else {
        return Err(WordsFault::NotCommand);
    };
    let file = Text::of(alloc, file)?;
    let dir = Text::of(alloc, dir)?;
    Ok(Build {
        file,
        dir,
        workers: workers as u8,
    })
}

/// The command that the words after `probe` are.
#[tactic(auto, using(crate::proofs::Taken::probe_free))]
fn read_probe(alloc: Global, words: &[String]) -> Result<Command, WordsFault>
    ensures { Finds (taken_by probe_app probe_in (map string_bytes words.now)) result }
{
    let tool = tools::probe(alloc)?;
    let matches = matches_by(tool, words)?;
    let command = probe_from(alloc, &matches)?;
    Ok(command)
}

#[tactic(auto, using(crate::proofs::Rows::first_of_rows))]
fn probe_from(alloc: Global, matches: &ArgMatches<'_>) -> Result<Command, WordsFault>
    ensures { Finds (probe_in (rows_of (found_of matches.now))) result }
{
    let Some(dir) = matches.get_str("dir") else {
        return Err(WordsFault::NotCommand);
    };
    let Some(host) = matches.get_str("host") else {
        return Err(WordsFault::NotCommand);
    };
    let Some(addr) = number_of(matches, "addr", 0, u32::MAX) else {
        return Err(WordsFault::NotCommand);
    };
    let dir = Text::of(alloc, dir)?;
    let host = Text::of(alloc, host)?;
    Ok(Command::Probe { dir, host, addr })
}

/// The command that the words after `sample` are.
#[tactic(auto, using(crate::proofs::Taken::sample_free))]
fn read_sample(alloc: Global, words: &[String]) -> Result<Command, WordsFault>
    ensures { Finds (taken_by sample_app sample_in (map string_bytes words.now)) result }
{
    let tool = tools::sample(alloc)?;
    let matches = matches_by(tool, words)?;
    match number_of(&matches, "number", 1, 200) {
        Some(number) => Ok(Command::Sample { number }),
        None => Err(WordsFault::NotCommand),
    }
}

/// What a tool makes of the words, where it takes them.
#[tactic(auto, using(crate::proofs::Taken::refused, crate::proofs::Taken::taken, crate::proofs::Taken::free_simple))]
fn matches_by<'a>(
    command: clap::Command<'a>,
    words: &'a [String],
) -> Result<ArgMatches<'a>, WordsFault>
    requires { is_simple_and_free (app_of command) ≡ true }
    ensures accepted { IfOk result (λ m. accepts (app_of command.entry) (map string_bytes words.entry.now) ≡ true) }
    ensures rows { IfOk result (λ m. rows_of (found_of m)
        ≡ matches_of (app_of command.entry) (map string_bytes words.entry.now)) }
    ensures refused { IfErr result (λ e. e ≡ fault.NotCommand
        → accepts (app_of command.entry) (map string_bytes words.entry.now) ≡ false) }
{
    match command.try_get_matches_from(words) {
        Ok(matches) => Ok(matches),
        Err(error) => Err(fault_by(&error)),
    }
}

fn fault_by(error: &Error) -> WordsFault
    ensures refused { result ≡ fault.NotCommand → kind_of error.now ≢ OutOfMemory }
    ensures memory { result ≡ fault.Memory → kind_of error.now ≡ OutOfMemory }
{
    match error.kind() {
        ErrorKind::OutOfMemory => WordsFault::Memory,
        _ => WordsFault::NotCommand,
    }
}
