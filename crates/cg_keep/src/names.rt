//! The names of a build's files.

ghost use Rattle.std.specs.Prelude.{◌≡◌, ◌++◌, ◌∷◌, List, ℕ, codes, map, option_map, IfOk, OnOk};
ghost use Rattle.cg_desc.specs.Top.{AreTypes};
ghost use Rattle.cg_design.specs.Files.{block_file, crossbar_file, named_files};
ghost use Rattle.cg_keep.specs.Files.{AreWanted};

use cg_base::{List, Memory, Text};
use cg_desc::{DescFault, TopDesc, XbarUse};
use cg_design::read_top;
use cg_topread::types_of;
use std::alloc::Global;

/// Adds the file names of crossbars.
fn add_crossbar_files(
    alloc: Global,
    names: &mut List<Text>,
    xbars: &[XbarUse],
) -> Result<(), Memory>
    ensures { OnOk result (names.new ≡ names.old ++ map (λ u. crossbar_file u.name) xbars.now) }
{
    for xbar in xbars {
        let name = xbar.name.as_str();
        let file = format!(in alloc; "xbar_{name}.hjson")?;
        names.push(Text::from_string(file))?;
    }
    Ok(())
}

/// Adds the file names of types of blocks.
fn add_block_files(alloc: Global, names: &mut List<Text>, types: &[Text]) -> Result<(), Memory>
    ensures { OnOk result (names.new ≡ names.old ++ map block_file types.now) }
{
    for kind in types {
        let file = format!(in alloc; "{kind}.hjson")?;
        names.push(Text::from_string(file))?;
    }
    Ok(())
}

/// The names of the files that a top names: of its crossbars, and of the types of its instances.
pub(crate) fn file_names(
    alloc: Global,
    top: &TopDesc,
    types: &List<Text>,
) -> Result<List<Text>, Memory>
    ensures { IfOk result (λ names. names ≡ named_files top.now types.now) }
{
    let mut names = List::new(alloc);
    add_crossbar_files(alloc, &mut names, top.xbars.as_slice())?;
    add_block_files(alloc, &mut names, types.as_slice())?;
    Ok(names)
}

/// The name of the top's own file, and behind it those of the files that a top names.
fn all_names(alloc: Global, own: &str, top: &TopDesc) -> Result<List<Text>, Memory>
    ensures { IfOk result (λ names. (types : List (List ℕ)) × AreTypes top.now.insts types × (names ≡ own.now ∷ named_files top.now types)) }
{
    let types = types_of(alloc, top)?;
    let mut names = file_names(alloc, top, &types)?;
    names.insert(0, Text::of(alloc, own)?)?;
    Ok(names)
}

/// The names of the files of a build, by the name of the top's own file and what there is of it.
pub(crate) fn wanted_names(
    alloc: Global,
    given: Option<&[u8]>,
    own: &str,
) -> Result<List<Text>, Memory>
    ensures { IfOk result (λ names. AreWanted (option_map (λ b. b.now) given.entry) own.now names) }
{
    match read_top(alloc, given) {
        Ok(source) => all_names(alloc, own, &source.top),
        Err(DescFault::Fault(_)) => {
            let mut names = List::new(alloc);
            names.push(Text::of(alloc, own)?)?;
            Ok(names)
        }
        Err(DescFault::Memory) => Err(Memory),
    }
}
