//! A file's bytes, its text and its tree.

ghost use Rattle.std.specs.Prelude.{◌≡◌, ◌≤◌, length};
ghost use Rattle.std.specs.Str.{IsValidUpTo};
ghost use Rattle.cg_finding.specs.Refusal.{Names};
ghost use Rattle.cg_finding.specs.Rules as rules;
ghost use Rattle.cg_files.specs.Files.{HasTree, Finds, IsText, limit, place_behind, some_file};

use cg_desc::DescFault;
use cg_finding::{Found, refusal};
use cg_hjson::{HjsonFault, Tree, place_behind, read};
use std::alloc::Global;

/// The largest description, in bytes.
pub const LIMIT: usize = 1_048_576;

/// The most bytes that all descriptions of a build have together.
pub const LIMIT_OF_ALL: u64 = 67_108_864;

/// There is no such file.
pub fn absent_file(alloc: Global, file: u32) -> DescFault
    ensures { Names result file rules.file_absent }
{
    refusal(alloc, Found::file_absent(), file)
}

/// The file, or the files up to it together, are too large.
pub fn large_file(alloc: Global, file: u32) -> DescFault
    ensures { Names result file rules.file_too_large }
{
    refusal(alloc, Found::file_too_large(), file)
}

/// The bytes are not UTF-8 behind the first `good` of them.
fn not_utf8(alloc: Global, file: u32, bytes: &[u8], good: usize) -> DescFault
    requires few { length bytes.now ≤ limit }
    requires good { IsValidUpTo bytes.now good }
    ensures { Names result file (rules.not_utf8 (place_behind bytes.now good)) }
{
    match simdutf8::compat::from_utf8(&bytes[..good]) {
        Ok(front) => refusal(alloc, Found::not_utf8(place_behind(front)), file),
        Err(_) => DescFault::Memory,
    }
}

/// The bytes as a text, where there are not too many of them.
fn text_of(alloc: Global, file: u32, before: u64, bytes: &[u8]) -> Result<&str, DescFault>
    ensures { Finds result (some_file file before bytes.now) (λ text. (text.now ≡ bytes.now) × IsText (some_file file before bytes.now) bytes.now) }
{
    if bytes.len() > LIMIT || before > LIMIT_OF_ALL - bytes.len() as u64 {
        return Err(large_file(alloc, file));
    }
    match simdutf8::compat::from_utf8(bytes) {
        Ok(text) => Ok(text),
        Err(error) => Err(not_utf8(alloc, file, bytes, error.valid_up_to())),
    }
}

/// The tree of the document that a file is.
///
/// `file` is the file's number, and `before` how many bytes the files before it have together. A refusal names the first of all that
/// the file breaks (rules 11, 12, 15 and 16); a file that the store does not have is told by `absent_file`.
pub fn tree_of(alloc: Global, file: u32, before: u64, bytes: &[u8]) -> Result<Tree, DescFault>
    ensures { Finds result (some_file file before bytes.now) (λ tree. HasTree (some_file file before bytes.now) tree) }
{
    let text = text_of(alloc, file, before, bytes)?;
    match read(alloc, text) {
        Ok(tree) => Ok(tree),
        Err(HjsonFault::NotDocument { at }) => {
            Err(refusal(alloc, Found::not_a_document(at), file))
        }
        Err(HjsonFault::TooDeep { at }) => Err(refusal(alloc, Found::too_deep(at), file)),
        Err(HjsonFault::Memory) => Err(DescFault::Memory),
    }
}
