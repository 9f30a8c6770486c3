//! The commands that command lines are.

use cg_base::Memory;
use cg_words::{Command, RegOut, WordsFault, read_words};
use std::alloc::Global;

/// The words of a line behind the first, which stands for the program. A space ends each word but the last, so two of them in a
/// row have an empty word between.
fn words_of(alloc: Global, line: &str) -> Result<Vec<String>, Memory> {
    let mut words = Vec::new(alloc);
    if let Some((_program, rest)) = line.split_once(' ') {
        for word in rest.split(' ') {
            words.push(String::from_str(alloc, word)?)?;
        }
    }
    Ok(words)
}

fn output(made: RegOut) -> &'static str {
    match made {
        RegOut::Registers => "registers",
        RegOut::Header => "header",
        RegOut::Completed => "completed",
    }
}

fn spelled(alloc: Global, command: &Command) -> Result<String, Memory> {
    match command {
        Command::Regtool { made, dir, file } => {
            let made = output(*made);
            Ok(format!(in alloc; "regtool {made} dir={dir} file={file}")?)
        }
        Command::Tlgen { file, dir } => Ok(format!(in alloc; "tlgen file={file} dir={dir}")?),
        Command::Topgen { file, dir, workers } => {
            Ok(format!(in alloc; "topgen file={file} dir={dir} workers={workers}")?)
        }
        Command::Session { file, dir, workers } => {
            Ok(format!(in alloc; "session file={file} dir={dir} workers={workers}")?)
        }
        Command::Probe { dir, host, addr } => {
            Ok(format!(in alloc; "probe dir={dir} host={host} addr=0x{addr:x}")?)
        }
        Command::Sample { number } => Ok(format!(in alloc; "sample {number}")?),
    }
}

/// The command with its parts, or that there is none.
pub fn answer(alloc: Global, given: &str) -> Result<String, Memory> {
    match read_words(alloc, &words_of(alloc, given)?) {
        Ok(command) => Ok(spelled(alloc, &command)?),
        Err(WordsFault::NotCommand) => Ok(String::from_str(alloc, "no command")?),
        Err(WordsFault::Memory) => Err(Memory),
    }
}
