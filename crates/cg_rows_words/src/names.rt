//! The strings that are names.

use cg_base::Memory;
use cg_keys::is_name;
use std::alloc::Global;

/// The least limit of characters that the name keeps, or that the string is no name.
pub fn answer(alloc: Global, given: &str) -> Result<String, Memory> {
    for most in 0..100usize {
        if is_name(most, given) {
            return Ok(format!(in alloc; "name of {most}")?);
        }
    }
    Ok(String::from_str(alloc, "no name")?)
}
