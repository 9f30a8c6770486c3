//! Lines of a description, and the names in them.

ghost use Rattle.std.specs.Prelude.{◌≡◌, ◌+◌, ◌<◌, ◌^◌, ◌++◌, ◌∷◌, [], IfOk, OnOk, map, string_bytes};
ghost use Rattle.std.specs.List.{range_with_len};
ghost use Rattle.cg_sample.specs.Sample.{named, name_line};

use cg_base::{List, Memory, Text};
use std::alloc::Global;

/// Adds a line.
pub fn add(lines: &mut List<Text>, line: &str) -> Result<(), Memory>
    ensures { OnOk result (lines.new ≡ lines.old ++ line.now ∷ []) }
{
    let line = Text::of(lines.alloc(), line)?;
    lines.push(line)
}

/// Adds some lines.
pub fn add_all(lines: &mut List<Text>, more: &[&str]) -> Result<(), Memory>
    ensures { OnOk result (lines.new ≡ lines.old ++ map (λ line. line.now) more.now) }
{
    for line in more {
        add(lines, line)?;
    }
    Ok(())
}

/// The line with a description's name.
pub fn name_line(alloc: Global, name: &str) -> Result<String, Memory>
    ensures { IfOk result (λ line. string_bytes line ≡ name_line name.now) }
{
    Ok(format!(in alloc; "  name: '{name}'")?)
}

/// The name of a thing that has a number.
pub fn named(alloc: Global, start: &str, number: u32) -> Result<Text, Memory>
    ensures { IfOk result (λ name. name ≡ named start.now number) }
{
    let name = format!(in alloc; "{start}{number}")?;
    Ok(Text::from_string(name))
}

/// The names of the things with the numbers from `first` on.
pub fn names(alloc: Global, start: &str, first: u32, count: u32) -> Result<List<Text>, Memory>
    requires { first + count < 2 ^ 32 }
    ensures { IfOk result (λ names. names ≡ map (named start.now) (range_with_len first count)) }
{
    let mut names = List::new(alloc);
    for offset in 0..count {
        let name = named(alloc, start, first + offset)?;
        names.push(name)?;
    }
    Ok(names)
}
