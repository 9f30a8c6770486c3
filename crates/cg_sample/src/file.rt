//! A file by its lines.

ghost use Rattle.std.specs.Prelude.{◌≡◌, ◌++◌, ◌∷◌, [], IfOk, OnOk, flat_map};
ghost use Rattle.cg_sample.specs.Sample.{file_of};

use cg_base::{List, Memory, Text};
use std::alloc::Global;

/// A file of the sample: its name, and its bytes.
#[derive(Drop)]
pub struct SampleFile {
    pub name: Text,
    pub bytes: List<u8>,
}

/// The text of the lines, each with a line feed at its end.
fn joined(alloc: Global, lines: &[Text]) -> Result<Text, Memory>
    ensures { IfOk result (λ text. text ≡ flat_map (λ line. line ++ 10 ∷ []) lines.now) }
{
    let mut text = Text::new(alloc);
    for line in lines {
        text.add(line.as_str())?;
        text.add("\n")?;
    }
    Ok(text)
}

/// The file of this name that has these lines.
pub fn file_of(name: Text, lines: &[Text]) -> Result<SampleFile, Memory>
    ensures { IfOk result (λ file. file ≡ file_of name lines.now) }
{
    let text = joined(name.alloc(), lines)?;
    let bytes = List::from_vec(text.into_string().into_bytes());
    Ok(SampleFile { name, bytes })
}
