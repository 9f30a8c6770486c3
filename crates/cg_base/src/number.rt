ghost use Rattle.std.specs.Prelude.{◌≡◌, ◌↔◌, ◌+◌, ◌*◌, ◌<◌, ◌≤◌, ℕ, List, Some};
ghost use Rattle.cg_base.specs.Number.{IsNumber, ReadsNumber};
ghost use Rattle.cg_base.specs.Number.Scan.{Finds, StandsFor, digits_of, number_of};

/// Why a string gives no number.
#[derive(Clone, Copy, Debug, PartialEq, Eq)]
pub enum NumFault {
    /// The string is no number.
    NotNumber,
    /// The string is a number, of 2^128 or more.
    TooWide,
}

/// The number that a string is, in decimal, in hexadecimal behind `0x` or `0X`, or in binary behind
/// `0b` or `0B`. A single `_` may stand between two digits, and zeros may stand in front. It takes
/// no memory.
#[tactic(auto, using(crate::proofs::Numbers::reads_found))]
pub fn parse_int(s: &str) -> Result<u128, NumFault>
    ensures reads { ReadsNumber s.now result }
    ensures finds { Finds (number_of s.now) result }
{
    number_in(s.as_bytes())
}

fn number_in(s: &[u8]) -> Result<u128, NumFault>
    ensures { Finds (number_of s.now) result }
{
    match s {
        [b'0', b'x' | b'X', digits @ ..] => digits_number(digits, 16),
        [b'0', b'b' | b'B', digits @ ..] => digits_number(digits, 2),
        digits => digits_number(digits, 10),
    }
}

/// `number_of` gives exactly the number that a string is, so a string is at most one.
pub fn number_of_is_exact()
    ensures { (s : List ℕ) (n : ℕ) → (number_of s ≡ Some n) ↔ IsNumber s n }
{}

/// The number that digits of a base say.
fn digits_number(bytes: &[u8], base: u32) -> Result<u128, NumFault>
    requires low { 2 ≤ base }
    requires high { base ≤ 36 }
    ensures { Finds (digits_of base bytes.now) result }
{
    let mut number = Some(0);
    let mut after_digit = false;
    for byte in bytes {
        match char::from(*byte).to_digit(base) {
            Some(digit) => {
                number = with_digit(number, base, digit);
                after_digit = true;
            }
            None if *byte == b'_' && after_digit => after_digit = false,
            None => return Err(NumFault::NotNumber),
        }
    }
    if after_digit {
        number.ok_or(NumFault::TooWide)
    } else {
        Err(NumFault::NotNumber)
    }
}

/// The number with one more digit, or `None` from 2^128 on.
fn with_digit(number: Option<u128>, base: u32, digit: u32) -> Option<u128>
    requires { 0 < base }
    ensures { (n : ℕ) → StandsFor number n → StandsFor result (n * base + digit) }
{
    number?
        .checked_mul(u128::from(base))?
        .checked_add(u128::from(digit))
}
