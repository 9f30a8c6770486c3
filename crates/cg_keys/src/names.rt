//! Names.

ghost use Rattle.std.specs.Prelude.{◌≡◌};
ghost use Rattle.std.specs.List.{list_all};
ghost use Rattle.cg_svspec.specs.Characters.{is_first, is_keyword, is_name_character};
ghost use Rattle.cg_keys.specs.Forms.{is_name, is_word};

fn is_first(byte: u8) -> bool
    ensures { result ≡ is_first byte }
{
    byte.is_ascii_lowercase() || byte.is_ascii_uppercase() || byte == b'_'
}

fn is_name_character(byte: u8) -> bool
    ensures { result ≡ is_name_character byte }
{
    is_first(byte) || byte.is_ascii_digit()
}

fn are_name_characters(bytes: &[u8]) -> bool
    ensures { result ≡ list_all is_name_character bytes.now }
{
    bytes.iter().all(|byte| is_name_character(*byte))
}

/// Whether the bytes are a letter or an underscore, then letters, digits and underscores.
fn is_word(bytes: &[u8]) -> bool
    ensures { result ≡ is_word bytes.now }
{
    match bytes {
        [] => false,
        [first, rest @ ..] => is_first(*first) && are_name_characters(rest),
    }
}

/// Whether the grammar of hardware quotes the word.
fn is_keyword(word: &str) -> bool
    ensures { result ≡ is_keyword word.now }
{
    word == "module"
        || word == "endmodule"
        || word == "input"
        || word == "output"
        || word == "wire"
        || word == "assign"
}

/// Whether a string is a name of at most so many characters: a letter or an underscore, then letters,
/// digits and underscores, and none of `module`, `endmodule`, `input`, `output`, `wire`, `assign`.
#[tactic(auto, unfolding(crate::specs::Forms::is_name))]
pub fn is_name(most: usize, text: &str) -> bool
    ensures { result ≡ is_name most text.now }
{
    is_word(text.as_bytes()) && text.len() <= most && !is_keyword(text)
}
