//! Prefixes of a text, and its first cut.

ghost use Rattle.std.specs.Prelude.{◌≡◌, ◌<◌, option_map};
ghost use Rattle.cg_inputs.specs.Reading.{without, cut};

/// What stands behind a prefix, where the text begins with it.
#[tactic(auto, using(crate::proofs::Splits::prefix_is))]
pub fn behind<'a>(prefix: &str, text: &'a str) -> Option<&'a str>
    ensures { option_map (λ rest. rest.now) result ≡ without prefix.now text.now }
{
    text.strip_prefix(prefix)
}

/// What stands before the first such character, and behind it.
#[tactic(auto, using(crate::proofs::Splits::cut_is))]
pub fn cut(separator: char, text: &str) -> Option<(&str, &str)>
    requires { separator < 128 }
    ensures { option_map (λ parts. (parts.0.now, parts.1.now)) result ≡ cut separator text.now }
{
    text.split_once(separator)
}
