//! C headers: those of blocks, and what is read of texts.

use crate::blocks::{laid, line};
use cg_base::Memory;
use cg_blkhdr::{Constant, HdrClash, HdrFault, block_header, read};
use std::alloc::Global;

/// How many bytes a text that is read as a header has at most.
const LIMIT: usize = 4_000_000;

/// The header of a block, or the name that clashes.
pub fn answer(alloc: Global, given: &str) -> Result<String, Memory> {
    let block = match laid(alloc, given) {
        Ok(block) => block,
        Err(fault) => return line(alloc, fault),
    };
    match block_header(alloc, &block) {
        Ok(text) => Ok(text.into_string()),
        Err(HdrClash::Clash { name }) => Ok(format!(in alloc; "clash: {name}")?),
        Err(HdrClash::Memory) => Err(Memory),
    }
}

/// Names and values, with `=` between and a blank before each further one, or `none`.
fn shown(alloc: Global, constants: &[Constant]) -> Result<String, Memory> {
    if constants.is_empty() {
        return Ok(String::from_str(alloc, "none")?);
    }
    let mut out = String::new(alloc);
    let mut before = "";
    for constant in constants {
        let name = &constant.name;
        let value = constant.value;
        write!(&mut out, "{before}{name}={value}")?;
        before = " ";
    }
    Ok(out)
}

/// The constants of a text, or its first line without a form.
pub fn constants(alloc: Global, given: &str) -> Result<String, Memory> {
    if given.len() > LIMIT {
        return Err(Memory);
    }
    match read(alloc, given) {
        Ok(constants) => shown(alloc, constants.as_slice()),
        Err(HdrFault::NotHeader { line }) => Ok(format!(in alloc; "line {line}")?),
        Err(HdrFault::Memory) => Err(Memory),
    }
}

/// The constants of a text whose third line defines `A` by this value.
pub fn value(alloc: Global, given: &str) -> Result<String, Memory> {
    let text = format!(in alloc; "//\n#ifndef G\n#define A {given}\n#endif\n")?;
    constants(alloc, text.as_str())
}
