//! Names that have one spelling in SystemVerilog, where a dot is two underscores.

ghost use Rattle.std.specs.Prelude.{◌≡◌, false};
ghost use Rattle.std.specs.Str.{bytes_eq};
ghost use Rattle.cg_svspec.specs.Links.{spelled};
ghost use Rattle.cg_merge.specs.Spelling.{behind_byte, behind_spelled, is_left, left_of};

/// What is left of a spelling: that of `bytes`, behind an underscore that is `owed` for a dot.
#[derive(Clone, Copy)]
struct Rest<'a> {
    owed: bool,
    bytes: &'a [u8],
}

/// What is left behind one byte of a spelling, if it is this one.
#[tactic(auto, unfolding(crate::specs::Spelling::behind_byte))]
fn behind_byte<'a>(rest: Rest<'a>, byte: u8) -> Option<Rest<'a>>
    ensures { left_of result ≡ behind_byte rest.entry.owed rest.entry.bytes.now byte }
{
    if rest.owed {
        if byte == b'_' {
            return Some(Rest {
                owed: false,
                bytes: rest.bytes,
            });
        }
        return None;
    }
    let Some((first, bytes)) = rest.bytes.split_first() else {
        return None;
    };
    if *first == b'.' {
        if byte == b'_' {
            return Some(Rest { owed: true, bytes });
        }
        return None;
    }
    if byte == *first {
        return Some(Rest { owed: false, bytes });
    }
    None
}

/// What is left behind the spelling of one byte.
#[tactic(auto, unfolding(crate::specs::Spelling::behind_spelled))]
fn behind_spelled<'a>(rest: Rest<'a>, byte: u8) -> Option<Rest<'a>>
    ensures { left_of result ≡ behind_spelled rest.entry.owed rest.entry.bytes.now byte }
{
    if byte != b'.' {
        return behind_byte(rest, byte);
    }
    match behind_byte(rest, b'_') {
        Some(rest) => behind_byte(rest, b'_'),
        None => None,
    }
}

fn is_left(name: &str, other: &str) -> bool
    ensures { result ≡ is_left false name.now other.now }
{
    let mut rest = Rest {
        owed: false,
        bytes: name.as_bytes(),
    };
    for byte in other.as_bytes() {
        match behind_spelled(rest, *byte) {
            Some(more) => rest = more,
            None => return false,
        }
    }
    if rest.owed {
        false
    } else {
        rest.bytes.is_empty()
    }
}

/// Whether two names have one spelling.
pub(crate) fn same_spelling(name: &str, other: &str) -> bool
    ensures { result ≡ bytes_eq (spelled name.now) (spelled other.now) }
{
    is_left(name, other)
}
