//! The tools' arguments, as `clap` is told them.

ghost use Rattle.std.specs.Prelude.{◌≡◌, IfOk};
ghost use Rattle.clap.specs.Words.{app_of, with_rule};
ghost use Rattle.cg_words.specs.Tools.{build_app, flag_rule, named_app, option_rule, probe_app, regtool_app, sample_app, tlgen_app, word_rule, with_paths};

use clap::{Arg, ArgAction, Command};
use std::alloc::{AllocError, Global};

/// `regtool (-r or -D or -j) -t DIR FILE`, where any of the three flags may be left out.
#[tactic(auto, unfolding(crate::specs::Tools::regtool_app))]
pub fn regtool<'a>(alloc: Global) -> Result<Command<'a>, AllocError>
    ensures { IfOk result (λ c. app_of c ≡ regtool_app) }
{
    let command = with_flag(named(alloc, "regtool"), alloc, "registers", 'r')?;
    let command = with_flag(command, alloc, "header", 'D')?;
    let command = with_flag(command, alloc, "completed", 'j')?;
    let command = with_option(command, alloc, "dir", 't')?;
    let command = with_word(command, alloc, "file")?;
    Ok(command)
}

/// `tlgen -t FILE -o DIR`.
#[tactic(auto, unfolding(crate::specs::Tools::tlgen_app))]
pub fn tlgen<'a>(alloc: Global) -> Result<Command<'a>, AllocError>
    ensures { IfOk result (λ c. app_of c ≡ tlgen_app) }
{
    let command = with_file_and_dir(named(alloc, "tlgen"), alloc)?;
    Ok(command)
}

/// `topgen` or `session`, `-t FILE -o DIR -w N`.
#[tactic(auto, unfolding(crate::specs::Tools::build_app))]
pub fn build<'a>(alloc: Global, name: &'a str) -> Result<Command<'a>, AllocError>
    ensures { IfOk result (λ c. app_of c ≡ build_app name.entry.now) }
{
    let command = with_file_and_dir(named(alloc, name), alloc)?;
    let command = with_option(command, alloc, "workers", 'w')?;
    Ok(command)
}

/// `probe DIR HOST ADDR`.
#[tactic(auto, unfolding(crate::specs::Tools::probe_app))]
pub fn probe<'a>(alloc: Global) -> Result<Command<'a>, AllocError>
    ensures { IfOk result (λ c. app_of c ≡ probe_app) }
{
    let command = with_word(named(alloc, "probe"), alloc, "dir")?;
    let command = with_word(command, alloc, "host")?;
    let command = with_word(command, alloc, "addr")?;
    Ok(command)
}

/// `sample NUMBER`.
#[tactic(auto, unfolding(crate::specs::Tools::sample_app))]
pub fn sample<'a>(alloc: Global) -> Result<Command<'a>, AllocError>
    ensures { IfOk result (λ c. app_of c ≡ sample_app) }
{
    let command = with_word(named(alloc, "sample"), alloc, "number")?;
    Ok(command)
}

/// A command that takes no words yet: its name does not stand before them, and it answers no
/// `--help` and no `--version`.
fn named<'a>(alloc: Global, name: &'a str) -> Command<'a>
    ensures { app_of result ≡ named_app name.entry.now }
{
    Command::new(alloc, name)
        .no_binary_name(true)
        .disable_help_flag(true)
        .disable_version_flag(true)
}

/// The command with a flag of one letter, which may be left out.
fn with_flag<'a>(
    command: Command<'a>,
    alloc: Global,
    id: &'a str,
    letter: char,
) -> Result<Command<'a>, AllocError>
    ensures { IfOk result (λ c. app_of c
        ≡ with_rule (app_of command.entry) (flag_rule id.entry.now letter)) }
{
    let flag = Arg::new(alloc, id).short(letter).action(ArgAction::SetTrue);
    command.arg(flag)
}

/// The command with a required option of one letter, which takes one value.
fn with_option<'a>(
    command: Command<'a>,
    alloc: Global,
    id: &'a str,
    letter: char,
) -> Result<Command<'a>, AllocError>
    ensures { IfOk result (λ c. app_of c
        ≡ with_rule (app_of command.entry) (option_rule id.entry.now letter)) }
{
    let option = Arg::new(alloc, id)
        .short(letter)
        .required(true)
        .action(ArgAction::Set);
    command.arg(option)
}

/// The command with one more required word, which stands alone.
fn with_word<'a>(
    command: Command<'a>,
    alloc: Global,
    id: &'a str,
) -> Result<Command<'a>, AllocError>
    ensures { IfOk result (λ c. app_of c
        ≡ with_rule (app_of command.entry) (word_rule id.entry.now)) }
{
    let word = Arg::new(alloc, id).required(true).action(ArgAction::Set);
    command.arg(word)
}

/// The command with the options of a description and of the folder of the outputs.
fn with_file_and_dir<'a>(command: Command<'a>, alloc: Global) -> Result<Command<'a>, AllocError>
    ensures { IfOk result (λ c. app_of c ≡ with_paths (app_of command.entry)) }
{
    let command = with_option(command, alloc, "file", 't')?;
    let command = with_option(command, alloc, "dir", 'o')?;
    Ok(command)
}
