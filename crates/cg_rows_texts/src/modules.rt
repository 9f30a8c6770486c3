//! Register modules of blocks: their texts, and single lines of them.

ghost use Rattle.std.specs.Prelude.{◌<◌, length};
ghost use Rattle.cg_hdrspec.specs.Laws.{IsNamed};

use crate::blocks::{laid, line};
use cg_base::{Memory, Text};
use cg_desc::LaidBlock;
use cg_regspec::register_module_means;
use cg_sv::{SvRegFault, print};
use cg_svreg::reg_module;
use std::alloc::Global;

/// How many device interfaces a block has at most.
const MOST_FACES: usize = 8;

/// The text of the module of the interface with this number.
fn module_text(alloc: Global, block: &LaidBlock, face: u32) -> Result<Text, SvRegFault>
    requires within { face < length block.now.faces }
    requires named { IsNamed block.now }
{
    register_module_means();
    let module = reg_module(alloc, block, face)?;
    let text = print(alloc, &module)?;
    Ok(text)
}

/// The texts of the modules of all interfaces.
fn module_texts(alloc: Global, block: &LaidBlock) -> Result<String, SvRegFault>
    requires { IsNamed block.now }
{
    let mut texts = Text::new(alloc);
    if block.faces.len() > MOST_FACES {
        return Err(SvRegFault::Memory);
    }
    for face in 0..block.faces.len() {
        let text = module_text(alloc, block, face as u32)?;
        texts.add(text.as_str())?;
    }
    Ok(texts.into_string())
}

/// The texts of the modules of a block, or the name that clashes.
pub fn answer(alloc: Global, given: &str) -> Result<String, Memory> {
    let block = match laid(alloc, given) {
        Ok(block) => block,
        Err(fault) => return line(alloc, fault),
    };
    match module_texts(alloc, &block) {
        Ok(texts) => Ok(texts),
        Err(SvRegFault::Clash { name }) => Ok(format!(in alloc; "clash: {name}")?),
        Err(SvRegFault::Memory) => Err(Memory),
    }
}

/// Whether a line drives the net of this name, or begins the instance or the module of this name.
fn is_of(line: &str, name: &str) -> bool {
    let mut behind = false;
    for word in line.split(' ') {
        if behind && (word == "=" || word == "(") {
            return true;
        }
        behind = word == name;
    }
    false
}

/// Adds the lines of the net, the instance or the module of this name.
fn add_lines(lines: &mut String, texts: &str, name: &str) -> Result<(), Memory> {
    for line in texts.lines() {
        if is_of(line, name) {
            lines.push_str(line)?;
            lines.push('\n')?;
        }
    }
    Ok(())
}

/// The lines of a block's modules that are of the names in the first line, name by name.
pub fn lines(alloc: Global, given: &str) -> Result<String, Memory> {
    let (names, block) = given.split_once('\n').unwrap_or((given, ""));
    let texts = answer(alloc, block)?;
    let mut lines = String::new(alloc);
    for name in names.split(' ') {
        add_lines(&mut lines, texts.as_str(), name)?;
    }
    lines.pop();
    Ok(lines)
}
