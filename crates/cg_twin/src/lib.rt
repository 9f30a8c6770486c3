//! Copies of description data.
//!
//! `copy_xbar` gives a description that equals its source, for whoever must keep one. It takes any value, valid or not.
//!
//! Not promised: that memory is found.
#![tactic(auto)]

mod copies;

pub use copies::copy_xbar;
