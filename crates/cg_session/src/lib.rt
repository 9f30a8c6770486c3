//! A session: files are put, taken away and built in one run.
//!
//! `session` reads commands from a source, up to the line `end` and no further. A put keeps a file's bytes and a del takes a file away;
//! a build answers the first of all that the files break, or changes the store from the outputs of the last good build to the new ones, and
//! tells how many files it wrote and removed. What an input asks for is in `cg_inputs`; what its commands do, as deeds, is in `specs/Play`,
//! what a status means in `specs/Session`, and what the store holds in `specs/Holding`. All of it is said of the bytes alone, however the
//! source cuts them. The laws say that commands are played in one way, and that behind each good build the store holds just what is
//! written of the files as they are, with its meaning.
//!
//! Nothing is known here of what a build is made of, nor of the words of the command line. Not promised: that memory is found, and
//! anything of content over a source, a store or a stream that tells none.
#![tactic(auto)]

mod build;
mod changes;
mod command;
mod ending;
mod kept;
mod laws;
mod line;
mod pieces;
mod reader;
mod step;
mod top;
mod turn;

pub use ending::Ending;
pub use laws::{a_session_is_one, a_session_means};
pub use top::session;
