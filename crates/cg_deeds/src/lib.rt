//! Deeds: the changes that a run makes of the outside, each by itself and in their order.
//!
//! A deed writes or removes a file of the store, or says a line on a stream. `do_all` does deeds in their order, up to the first that its
//! object refuses. What deeds make of the outside, and where a run may stop among them, is in `specs/Deeds`, and what the outside shows at
//! a moment in `specs/Outside`; `specs/Told` has the names of outputs in the store, and the line of a build.
//!
//! Nothing is known here of commands. Not promised: that memory is found, and anything of content over a store or a stream that tells none.
#![tactic(auto)]

mod deed;
mod perform;
mod stop;
mod told;

pub use deed::{Deed, Stream};
pub use perform::do_all;
pub use stop::Stop;
pub use told::{built_line, stored_name};
