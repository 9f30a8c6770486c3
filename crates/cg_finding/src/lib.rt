//! What breaks a rule in one file, and which of it comes first: for every layer that reads descriptions.
//!
//! A check answers `Option<Found>`: the first fault that it finds, with a borrowed name, so it takes no memory. Its contract
//! says of which list of findings that is the first. `earlier_of` merges two answers, `first_in_all` walks over items by one
//! `Rule`, and `refusal` makes the fault that is told. The first is one of the list, and as faults of one file none of the
//! list is before it in the order of `cg_desc`: phase, byte place, rule, name.
//!
//! Each rule has its constructor of `Found`, as `Found::fields_overlap`, which gives it its phase and its number; when it is
//! broken the layers above say. Not promised: that memory is found, which `refusal` alone takes.
#![tactic(auto)]

mod found;
mod laws;
mod rule;
mod rules;

pub use found::{Found, earlier_of, refusal};
pub use laws::the_first_is_first;
pub use rule::{Rule, first_in_all};

#[cfg(test)]
mod tests;
