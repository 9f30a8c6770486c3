//! The words of a command line, as one of the six commands of the program.
//!
//! `read_words` gives the command that the words are, and refuses them exactly where they are
//! none. The first word names the tool. What the tool takes after it is what the crate `clap`
//! takes for a simple command without help and version flags: its options and flags in any order,
//! values that stand apart or joined as in `-tout` and `-t=out`, flags joined as in `-rtout`, `--`
//! before words that begin with a hyphen, and each of its arguments once. Numbers are read as
//! descriptions write them.
//!
//! Not promised: anything of folders and files beyond their names, which are taken as they stand;
//! any text that says why words are no command; and that memory is found.
#![tactic(auto)]

mod command;
mod fault;
mod reading;
mod tools;
mod values;

pub use command::{Command, RegOut};
pub use fault::WordsFault;
pub use reading::{read_words, words_are_at_most_one_command};
