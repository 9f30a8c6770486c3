//! The numbers that strings are (the reading of integers in OpenTitan's Register Tool).

use cg_base::{Memory, NumFault, parse_int};
use std::alloc::Global;

/// The number, or why there is none.
pub fn answer(alloc: Global, given: &str) -> Result<String, Memory> {
    match parse_int(given) {
        Ok(number) => Ok(format!(in alloc; "{number}")?),
        Err(NumFault::NotNumber) => Ok(String::from_str(alloc, "no number")?),
        Err(NumFault::TooWide) => Ok(String::from_str(alloc, "too wide")?),
    }
}
