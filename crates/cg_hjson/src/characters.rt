//! Classes of characters.

ghost use Rattle.std.specs.Prelude.{◌≡◌};
ghost use Rattle.cg_docspec.specs.Characters.{is_blank, is_control, is_key, is_mark, is_quote, is_space};
ghost use Rattle.cg_docspec.specs.Literal.{ends_literal};

/// A space or a tab.
pub fn is_space(c: char) -> bool
    ensures { result ≡ is_space c }
{
    c == ' ' || c == '\t'
}

/// A blank of one character.
pub fn is_blank(c: char) -> bool
    ensures { result ≡ is_blank c }
{
    c == ' ' || c == '\t' || c == '\n'
}

/// Below U+0020 and no tab.
pub fn is_control(c: char) -> bool
    ensures { result ≡ is_control c }
{
    c < ' ' && c != '\t'
}

/// One of `,:[]{}`.
pub fn is_mark(c: char) -> bool
    ensures { result ≡ is_mark c }
{
    c == ',' || c == ':' || c == '[' || c == ']' || c == '{' || c == '}'
}

/// Whether the character may stand in a key without quotes.
pub fn is_key(c: char) -> bool
    ensures { result ≡ is_key c }
{
    c > ' ' && !is_mark(c)
}

/// Whether the character opens a quoted string.
pub fn is_quote(c: char) -> bool
    ensures { result ≡ is_quote c }
{
    c == '"' || c == '\''
}

/// Whether a literal may end before the character.
pub fn ends_literal(c: char) -> bool
    ensures { result ≡ ends_literal c }
{
    c == ',' || c == ']' || c == '}' || c == '#'
}
