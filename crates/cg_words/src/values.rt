//! The values that the words give the arguments of a tool.

ghost use Rattle.std.specs.Prelude.{◌≡◌, ◌≤◌, IfSome};
ghost use Rattle.clap.specs.Words.{found_of, rows_of};
ghost use Rattle.cg_words.specs.Words.Reading.{is_given, number_between, number_in, one_output, output_in};

use crate::RegOut;
use cg_base::parse_int;
use clap::ArgMatches;

/// The one output that is asked for, `None` where none or several are.
pub fn output_of(matches: &ArgMatches<'_>) -> Option<RegOut>
    ensures { result ≡ output_in (rows_of (found_of matches.now)) }
{
    let registers = has_flag(matches, "registers");
    let header = has_flag(matches, "header");
    let completed = has_flag(matches, "completed");
    only_output(registers, header, completed)
}

/// The number from `low` to `high` that an argument has, `None` where it has another value or none.
#[tactic(auto, using(crate::proofs::Rows::first_of_rows))]
pub fn number_of(matches: &ArgMatches<'_>, id: &str, low: u32, high: u32) -> Option<u32>
    ensures number { result ≡ number_in id.now low high (rows_of (found_of matches.now)) }
    ensures within { IfSome result (λ n. n ≤ high) }
{
    number_from(matches.get_str(id)?, low, high)
}

#[tactic(auto, using(crate::proofs::Rows::first_of_rows))]
fn has_flag(matches: &ArgMatches<'_>, id: &str) -> bool
    ensures { result ≡ is_given id.now (rows_of (found_of matches.now)) }
{
    match matches.get_str(id) {
        Some(text) => text == "true",
        None => false,
    }
}

fn only_output(registers: bool, header: bool, completed: bool) -> Option<RegOut>
    ensures { result ≡ one_output registers header completed }
{
    match (registers, header, completed) {
        (true, false, false) => Some(RegOut::Registers),
        (false, true, false) => Some(RegOut::Header),
        (false, false, true) => Some(RegOut::Completed),
        _ => None,
    }
}

fn number_from(text: &str, low: u32, high: u32) -> Option<u32>
    ensures number { result ≡ number_between low high text.now }
    ensures within { IfSome result (λ n. n ≤ high) }
{
    match parse_int(text) {
        Ok(n) => {
            if u128::from(low) <= n && n <= u128::from(high) {
                Some(n as u32)
            } else {
                None
            }
        }
        Err(_) => None,
    }
}
