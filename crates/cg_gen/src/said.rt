//! Sessions set apart from the commands that read files.

ghost use Rattle.cg_gen.specs.Inner.{IsSaid};

use cg_base::Text;
use cg_words::{Command, WordsFault};

/// Words that were read: a session's; those of another command, or of none; or that memory was not found for reading them.
#[derive(Drop)]
pub enum Said {
    Session { file: Text, dir: Text, workers: u8 },
    OnFiles(Option<Command>),
    Memory,
}

/// Sets a session apart from all other commands.
pub fn apart(read: Result<Command, WordsFault>) -> Said
    ensures { IsSaid read result }
{
    match read {
        Ok(Command::Session { file, dir, workers }) => Said::Session { file, dir, workers },
        Ok(Command::Regtool { made, dir, file }) => {
            Said::OnFiles(Some(Command::Regtool { made, dir, file }))
        }
        Ok(Command::Tlgen { file, dir }) => Said::OnFiles(Some(Command::Tlgen { file, dir })),
        Ok(Command::Topgen { file, dir, workers }) => {
            Said::OnFiles(Some(Command::Topgen { file, dir, workers }))
        }
        Ok(Command::Probe { dir, host, addr }) => {
            Said::OnFiles(Some(Command::Probe { dir, host, addr }))
        }
        Ok(Command::Sample { number }) => Said::OnFiles(Some(Command::Sample { number })),
        Err(WordsFault::NotCommand) => Said::OnFiles(None),
        Err(WordsFault::Memory) => Said::Memory,
    }
}
