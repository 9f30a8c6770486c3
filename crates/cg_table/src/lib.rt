//! Tables of rows: what is given, and what was worked out by hand for it from the rules.
//!
//! A program of rows names each of its tables once, with the function that answers its rows (`Tables::tell`). It then says how many rows each
//! table has, and each row that has another answer than the one that is wanted (`ended`). So the file `stdout` beside a program fixes
//! that there is no such row, and that no row is lost. `rows` says how a table is written; a frame stands round each row of a table of
//! blocks, as `with_entries`.
//!
//! Not promised: anything of the answers. What a contract says for every input needs no row; rows show that the contracts mean what
//! the formats mean, by expected texts that no part of this repository has written.
#![tactic(auto)]

mod frames;
mod rows;
mod telling;

pub use frames::{with_entries, with_entries_in_line_3, with_keys};
pub use telling::{Tables, ended};
