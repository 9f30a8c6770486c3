//! A large top that a number makes: its files, as a designer would have written them.
//!
//! `sample_files` makes the files of the top `sample` of a number n from 1 to 200, in the order in which a build reads them: the top, its
//! crossbars, and its blocks. A host `cpu` reaches n instances of up to 16 types through the crossbar `main` and the crossbars below it,
//! of 32 instances each. `specs/Sample` says each line of each file.
//!
//! Nothing is built here, and nothing is known of what a build makes of the files. Not promised: that memory is found.
#![tactic(auto)]

mod blocks;
mod crossbars;
mod file;
mod lines;
mod sample;
#[cfg(test)]
mod tests;
mod top;

pub use file::SampleFile;
pub use sample::sample_files;
