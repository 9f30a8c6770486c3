//! The keys of objects in descriptions: which values they may have, and the first fault that a table of keys finds.
//!
//! A layer says by rows which keys an object has, which of them must be there and which forms each value may have.
//! `first_in_table` and its like then give the first of all that is wrong: rule 21 where a needed key is absent, and
//! 22, 24 or 25 where a value has none of its forms. `first_duplicate` gives the first key that stands twice in an object,
//! rule 20, anywhere in a document. All are read in phase 2. The laws say each finding as a fact, both ways.
//!
//! What stands at a key is read by total functions (`text_at`, `number_at`, ..): where a key stands twice, all but rule 20
//! read the first. No value is refused here by what it means, and no call but `first_duplicate` takes memory.
#![tactic(auto)]

mod duplicates;
mod firsts;
mod forms;
mod laws;
mod lists;
mod lookups;
mod names;
mod table;
mod values;
mod words;

pub use duplicates::first_duplicate;
pub use firsts::{first_in_members, first_members};
pub use forms::{Form, boolean, fits, fits_one, number_within, rule_broken};
pub use laws::{names_pass_the_test, repeats_are_violations, tables_find_violations};
pub use lists::{
    elements, first_in_each, first_in_elements, first_in_items, first_in_length, first_in_list,
    first_in_object,
};
pub use lookups::{
    boolean_at, hardware_at, is_fit_at, number_at, object_at, place_at, software_at, text_at,
    window_access_at,
};
pub use names::is_name;
pub use table::{Row, first_in_table, first_in_value, value_at};
pub use values::{array, bool_of, int, items, members, object, text};
pub use words::{Words, hardware, is_one_of, software, window_access};
