//! The manifest of a build: a line for each of its files, with the file's digest (SHA-256, FIPS 180-4).
//!
//! `manifest` writes the name of the top, and then the digest and the name of each file in their order, so that `sha256sum -c` can
//! check the lines behind the first. The manifest itself is not among the files. Its text is the one of `specs/Manifest`.
//!
//! Not promised: that memory is found.
#![tactic(auto)]

ghost use Rattle.std.specs.Prelude.{◌≡◌, ◌++◌, IfOk, OnOk, flat_map};
ghost use Rattle.cg_manifest.specs.Manifest.{digest_line, manifest_of, manifest_text};

use cg_base::{Memory, Text};
use cg_outputs::OutFile;
use sha2::{Digest, Sha256};
use std::alloc::Global;

/// Adds the line of a file.
#[tactic(auto, unfolding(crate::specs::Manifest::digest_line))]
fn add_digest(alloc: Global, text: &mut Text, file: &OutFile) -> Result<(), Memory>
    ensures { OnOk result (text.new ≡ text.old ++ digest_line file.now) }
{
    let digest = Sha256::digest(file.bytes.as_slice());
    let digest = hex::encode(alloc, digest)?;
    let name = file.name.as_str();
    let line = format!(in alloc; "{digest} {name}\n")?;
    text.add(line.as_str())?;
    Ok(())
}

/// Adds the lines of files, in their order.
fn add_digests(alloc: Global, text: &mut Text, files: &[OutFile]) -> Result<(), Memory>
    ensures { OnOk result (text.new ≡ text.old ++ flat_map digest_line files.now) }
{
    for file in files {
        add_digest(alloc, text, file)?;
    }
    Ok(())
}

/// The text of the manifest of a top with these files.
#[tactic(auto, unfolding(crate::specs::Manifest::manifest_text))]
fn text_of(alloc: Global, top: &str, files: &[OutFile]) -> Result<Text, Memory>
    ensures { IfOk result (λ text. text ≡ manifest_text top.now files.now) }
{
    let head = format!(in alloc; "top {top}\n")?;
    let mut text = Text::from_string(head);
    add_digests(alloc, &mut text, files)?;
    Ok(text)
}

/// The manifest of the files of a top of this name: `manifest.txt`.
pub fn manifest(alloc: Global, top: &str, files: &[OutFile]) -> Result<OutFile, Memory>
    ensures { IfOk result (λ o. o ≡ manifest_of top.now files.now) }
{
    let text = text_of(alloc, top, files)?;
    Ok(OutFile::of_text(Text::of(alloc, "manifest.txt")?, text))
}
