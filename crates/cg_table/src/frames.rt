//! What stands round a row's text, so that the two are a block's description.

use cg_base::Memory;
use std::alloc::Global;

// Entries begin in line 4.
const FRONT: &str = "{name: \"b\", clocking: [{clock: \"clk_i\"}],
 bus_interfaces: [{protocol: \"tlul\", direction: \"device\"}],
 registers: [
";

// The list of entries begins at 2:73, and they in line 3.
const SHORT_FRONT: &str = "{ name: 'b', clocking: [{clock: 'clk_i'}]
  bus_interfaces: [{protocol: 'tlul', direction: 'device'}], registers: [
";

const KEYS_FRONT: &str = "{name: 'b', clocking: [{clock: 'c'}],\n";

fn between(alloc: Global, front: &str, text: &str, end: &str) -> Result<String, Memory> {
    Ok(format!(in alloc; "{front}{text}{end}")?)
}

/// A block with one device interface without a name, and these entries from line 4 on.
pub fn with_entries(alloc: Global, entries: &str) -> Result<String, Memory> {
    between(alloc, FRONT, entries, "\n]}\n")
}

/// The same with the entries from line 3 on.
pub fn with_entries_in_line_3(alloc: Global, entries: &str) -> Result<String, Memory> {
    between(alloc, SHORT_FRONT, entries, "] }")
}

/// A block that has these keys in line 2, beside its name and its clocks.
pub fn with_keys(alloc: Global, keys: &str) -> Result<String, Memory> {
    between(alloc, KEYS_FRONT, keys, "\n}\n")
}
