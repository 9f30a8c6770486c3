//! Places in a text.

ghost use Rattle.std.specs.Prelude.{◌≡◌, ◌+◌, ◌≤◌, ◌<◌, ◌^◌, length};
ghost use Rattle.std.specs.Str.{chars};
ghost use Rattle.cg_docspec.specs.Place.{next_place, origin, place_after};
ghost use Rattle.cg_hjson.specs.Views.{place_of};

use cg_desc::At;

/// The place of a file's first character.
pub const START: At = At {
    byte: 0,
    line: 1,
    column: 1,
};

/// The place behind a character.
pub(crate) fn next_place(at: At, c: char) -> At
    requires byte { at.byte + 4 < 2 ^ 32 }
    requires line { at.line + 1 < 2 ^ 32 }
    requires column { at.column + 1 < 2 ^ 32 }
    ensures { place_of result ≡ next_place (place_of at) c }
{
    if c == '\n' {
        At {
            byte: at.byte + 1,
            line: at.line + 1,
            column: 1,
        }
    } else {
        At {
            byte: at.byte + c.len_utf8() as u32,
            line: at.line,
            column: at.column + 1,
        }
    }
}

/// The place behind a text with which a file begins.
///
/// The text has at most 2^31 bytes. A line ends behind its line feed, and a column counts characters.
pub fn place_behind(text: &str) -> At
    requires { length text.now ≤ 2 ^ 31 }
    ensures { place_of result ≡ place_after origin (chars text.now) }
{
    let mut at = START;
    for c in text.chars() {
        at = next_place(at, c);
    }
    at
}
