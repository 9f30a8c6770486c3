//! The reader of headers.

ghost use Rattle.std.specs.Prelude.{◌≡◌, ◌≤◌, ◌^◌, ◌==◌, ◌++◌, true, false, length, map, IfOk, MatchOption};
ghost use Rattle.cg_hdrspec.specs.HeaderFault.{Answer, IsAnswer};
ghost use Rattle.cg_hdrspec.specs.Reading.{is_nil, given, joined, at_end, answer};
ghost use Rattle.cg_blkhdr.specs.Answers.{IsRight, Tells, constant_of};
ghost use Rattle.cg_blkhdr.specs.Contents.{gives};
ghost use Rattle.cg_blkhdr.specs.declared.reading.HdrFault.TheVariants as fault;

use crate::Constant;
use crate::line::{Content, given};
use crate::pieces::cut;
use cg_base::{List, Memory, Text};
use cg_hdrspec::header_has_one_answer;
use std::alloc::Global;

/// Why a text gives no constants: the first line that has no form in its place, counted from 1, or that memory was not found.
#[derive(Clone, Copy, Debug, PartialEq, Eq)]
pub enum HdrFault {
    NotHeader { line: u32 },
    Memory,
}

impl From<Memory> for HdrFault {
    ghost from_gives = { λ _ f. f ≡ fault.Memory };

    fn from(_: Memory) -> Self {
        HdrFault::Memory
    }
}

/// Adds the constant of a line, if it gives one. Says whether the line has a form.
fn add_given(constants: &mut List<Constant>, alloc: Global, line: Content) -> Result<bool, Memory>
    ensures { IfOk result (λ has_form. MatchOption (gives line.entry) (has_form ≡ false)
        (λ cs. (has_form ≡ true) × (map constant_of constants.new ≡ map constant_of constants.old ++ cs))) }
{
    match line {
        Content::Formless => Ok(false),
        Content::Nothing => Ok(true),
        Content::Named { name, value } => {
            let name = Text::of(alloc, name)?;
            constants.push(Constant { name, value })?;
            Ok(true)
        }
    }
}

/// Reads one line, of which `after` stands behind. Says whether the line has a form in its place.
fn add_line(
    constants: &mut List<Constant>,
    alloc: Global,
    number: u32,
    line: &str,
    after: &str,
) -> Result<bool, Memory>
    ensures { IfOk result (λ has_form. MatchOption (given (number == 2) (is_nil after.now) line.now) (has_form ≡ false)
        (λ cs. (has_form ≡ true) × (map constant_of constants.new ≡ map constant_of constants.old ++ cs))) }
{
    let line = given(number == 2, after.is_empty(), line);
    let has_form = add_given(constants, alloc, line)?;
    Ok(has_form)
}

/// Behind the lines, of which `number` is one more: nothing may stand there, and line 2 must be among them.
fn at_end(constants: List<Constant>, number: u32, rest: &str) -> Result<List<Constant>, HdrFault>
    ensures { Tells (joined (map constant_of constants) (at_end number rest.now)) result }
{
    if !rest.is_empty() {
        return Err(HdrFault::NotHeader { line: number });
    }
    if number < 3 {
        return Err(HdrFault::NotHeader { line: 2 });
    }
    Ok(constants)
}

/// The answer of a text, line by line.
fn read_lines(alloc: Global, text: &str) -> Result<List<Constant>, HdrFault>
    requires { length text.now ≤ 2 ^ 31 }
    ensures { Tells (answer text.now) result }
{
    let mut constants = List::new(alloc);
    let mut rest = text;
    let mut number = 1u32;
    while let Some((line, after)) = cut('\n', rest) {
        let has_form = add_line(&mut constants, alloc, number, line, after)?;
        if !has_form {
            return Err(HdrFault::NotHeader { line: number });
        }
        rest = after;
        number += 1;
    }
    at_end(constants, number, rest)
}

/// The constants of a header, in order.
///
/// A line is empty, a comment `//`, `#ifndef N`, `#define N`, `#define N V` or `#endif`, and ends in a line feed. Line 2 is the only
/// `#ifndef` and the last line the only `#endif`; a missing line 2 counts as one without a form, and so does a rest without a line
/// feed. `V` is decimal, or `0x` and lower-case hexadecimal, without leading zeros and below 2^64. The text has at most 2^31 bytes.
#[tactic(auto, using(crate::proofs::Cuts::is_right, crate::proofs::Cuts::tells))]
pub fn read(alloc: Global, text: &str) -> Result<List<Constant>, HdrFault>
    requires { length text.now ≤ 2 ^ 31 }
    ensures right { IsRight text.now result }
    ensures exact { (a : Answer) → IsAnswer text.now a → Tells a result }
{
    header_has_one_answer();
    read_lines(alloc, text)
}
