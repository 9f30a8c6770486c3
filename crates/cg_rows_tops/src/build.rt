//! A build of a top: which files it has, and the top joined with them, or the first fault of all files.

ghost use Rattle.std.specs.Prelude.{◌≡◌, true, IfOk, OnOk, map};
ghost use Rattle.cg_svspec.specs.Printable.{AllOf};
ghost use Rattle.cg_desc.specs.Crossbar.{IsValidCrossbar};
ghost use Rattle.cg_desc.specs.Merged.{IsMerged, IsValidLaidBlock};
ghost use Rattle.cg_desc.specs.Top.{AreTypes, IsValidTop};

use crate::files::{Place, block_at, crossbar_at, top_at};
use crate::given::Given;
use cg_base::{List, Memory, Text};
use cg_desc::{DescFault, Fault, LaidBlock, MergedTop, TopDesc, XbarDesc, XbarUse};
use cg_merge::merge;
use cg_topread::types_of;
use std::alloc::Global;

/// A number as it stands in a place; there are never more than 32 bits of them.
pub fn number_of(place: usize) -> u32 {
    match u32::try_from(place) {
        Ok(number) => number,
        Err(_) => u32::MAX,
    }
}

/// A build: the names of the files that were looked at, how many bytes they have together, and the first fault of one of them.
#[derive(Drop)]
pub struct Build {
    pub names: List<Text>,
    pub bytes: u64,
    pub first: Option<Fault>,
}

impl Build {
    /// No file was looked at yet.
    pub fn new(alloc: Global) -> Build {
        Build {
            names: List::new(alloc),
            bytes: 0,
            first: None,
        }
    }

    /// The next file is the one of this name.
    fn next(&mut self, alloc: Global, name: &str) -> Result<u32, Memory> {
        let number = number_of(self.names.len());
        self.names.push(Text::of(alloc, name)?)?;
        Ok(number)
    }

    /// A file was looked at.
    fn pass(&mut self, given: &Given, name: &str) {
        if let Some(text) = given.text_of(name) {
            self.bytes = self.bytes.saturating_add(text.len() as u64);
        }
    }

    /// A fault was found; the first of all is kept.
    fn keep(&mut self, refused: DescFault) -> Result<(), Memory> {
        match refused {
            DescFault::Memory => Err(Memory),
            DescFault::Fault(fault) => {
                let earlier = match &self.first {
                    Some(first) => fault.before(first),
                    None => true,
                };
                if earlier {
                    self.first = Some(fault);
                }
                Ok(())
            }
        }
    }

    /// The name of the file of this number.
    pub fn name_of(&self, file: u32) -> &str {
        match self.names.as_slice().get(file as usize) {
            Some(name) => name.as_str(),
            None => "",
        }
    }

    /// Adds a crossbar that is good, or keeps its fault.
    fn add_crossbar(
        &mut self,
        read: Result<XbarDesc, DescFault>,
        crossbars: &mut List<XbarDesc>,
    ) -> Result<(), Memory>
        requires good { IfOk read (λ crossbar. IsValidCrossbar crossbar) }
        requires all { AllOf IsValidCrossbar crossbars.old }
        ensures { OnOk result (AllOf IsValidCrossbar crossbars.new) }
    {
        match read {
            Ok(crossbar) => push_crossbar(crossbars, crossbar),
            Err(fault) => self.keep(fault),
        }
    }

    /// The crossbars that a top lists, in its order, as far as they are good.
    fn crossbars(
        &mut self,
        alloc: Global,
        given: &Given,
        listed: &[XbarUse],
    ) -> Result<List<XbarDesc>, Memory>
        ensures { IfOk result (λ crossbars. AllOf IsValidCrossbar crossbars) }
    {
        let mut crossbars = List::new(alloc);
        for one in listed {
            let listed = one.name.as_str();
            let name = format!(in alloc; "xbar_{listed}.hjson")?;
            let number = self.next(alloc, name.as_str())?;
            let place = Place {
                number,
                name: name.as_str(),
                before: self.bytes,
            };
            let read = crossbar_at(alloc, given, place, listed);
            self.add_crossbar(read, &mut crossbars)?;
            self.pass(given, name.as_str());
        }
        Ok(crossbars)
    }

    /// Adds a block that is good, or keeps its fault.
    fn add_block(
        &mut self,
        read: Result<LaidBlock, DescFault>,
        blocks: &mut List<LaidBlock>,
    ) -> Result<(), Memory>
        requires good { IfOk read (λ block. IsValidLaidBlock block) }
        requires all { AllOf IsValidLaidBlock blocks.old }
        ensures { OnOk result (AllOf IsValidLaidBlock blocks.new) }
    {
        match read {
            Ok(block) => push_block(blocks, block),
            Err(fault) => self.keep(fault),
        }
    }

    /// The blocks of these types, in their order, as far as they are good.
    fn blocks(
        &mut self,
        alloc: Global,
        given: &Given,
        kinds: &[Text],
    ) -> Result<List<LaidBlock>, Memory>
        ensures { IfOk result (λ blocks. AllOf IsValidLaidBlock blocks) }
    {
        let mut blocks = List::new(alloc);
        for kind in kinds {
            let kind = kind.as_str();
            let name = format!(in alloc; "{kind}.hjson")?;
            let number = self.next(alloc, name.as_str())?;
            let place = Place {
                number,
                name: name.as_str(),
                before: self.bytes,
            };
            let read = block_at(alloc, given, place, kind);
            self.add_block(read, &mut blocks)?;
            self.pass(given, name.as_str());
        }
        Ok(blocks)
    }

    /// The top that the first file describes.
    fn top(&mut self, alloc: Global, given: &Given) -> Result<TopDesc, DescFault>
        ensures { IfOk result (λ top. IsValidTop top) }
    {
        let name = given.top();
        self.next(alloc, name)?;
        let top = top_at(alloc, given, name)?;
        self.pass(given, name);
        Ok(top)
    }

    /// The top joined with its files, or the first fault of all of them.
    pub fn merged(&mut self, alloc: Global, given: &Given) -> Result<MergedTop, DescFault>
        ensures { IfOk result (λ merged. IsMerged merged) }
    {
        let top = self.top(alloc, given)?;
        let kinds = types_of(alloc, &top)?;
        let crossbars = self.crossbars(alloc, given, top.xbars.as_slice())?;
        let blocks = self.blocks(alloc, given, kinds.as_slice())?;
        if let Some(fault) = std::mem::take(&mut self.first) {
            return Err(DescFault::Fault(fault));
        }
        joined(alloc, top, crossbars, blocks, &kinds)
    }
}

/// Adds a valid crossbar.
#[tactic(auto, using(crate::proofs::Laying::crossbar_more))]
fn push_crossbar(crossbars: &mut List<XbarDesc>, crossbar: XbarDesc) -> Result<(), Memory>
    requires good { IsValidCrossbar crossbar }
    requires all { AllOf IsValidCrossbar crossbars.old }
    ensures { OnOk result (AllOf IsValidCrossbar crossbars.new) }
{
    crossbars.push(crossbar)
}

/// Adds a valid block.
#[tactic(auto, using(crate::proofs::Laying::block_more))]
fn push_block(blocks: &mut List<LaidBlock>, block: LaidBlock) -> Result<(), Memory>
    requires good { IsValidLaidBlock block }
    requires all { AllOf IsValidLaidBlock blocks.old }
    ensures { OnOk result (AllOf IsValidLaidBlock blocks.new) }
{
    blocks.push(block)
}

/// The names of crossbars.
fn crossbar_names(alloc: Global, crossbars: &[XbarDesc]) -> Result<List<Text>, Memory>
    ensures { IfOk result (λ names. names ≡ map (λ x. x.name) crossbars.now) }
{
    let mut names = List::new(alloc);
    for crossbar in crossbars {
        names.push(Text::of(alloc, crossbar.name.as_str())?)?;
    }
    Ok(names)
}

/// The names of the crossbars that a top lists.
fn listed_names(alloc: Global, listed: &[XbarUse]) -> Result<List<Text>, Memory>
    ensures { IfOk result (λ names. names ≡ map (λ u. u.name) listed.now) }
{
    let mut names = List::new(alloc);
    for one in listed {
        names.push(Text::of(alloc, one.name.as_str())?)?;
    }
    Ok(names)
}

/// The names of blocks.
fn block_names(alloc: Global, blocks: &[LaidBlock]) -> Result<List<Text>, Memory>
    ensures { IfOk result (λ names. names ≡ map (λ b. b.desc.name) blocks.now) }
{
    let mut names = List::new(alloc);
    for block in blocks {
        names.push(Text::of(alloc, block.desc.name.as_str())?)?;
    }
    Ok(names)
}

/// Whether names are these.
fn are_names(names: &List<Text>, others: &List<Text>) -> bool
    ensures { result ≡ true → names.now ≡ others.now }
{
    names.same(others)
}

/// A top joined with its crossbars and with the blocks of its types, or the first that they break on one another.
fn joined(
    alloc: Global,
    top: TopDesc,
    crossbars: List<XbarDesc>,
    blocks: List<LaidBlock>,
    kinds: &List<Text>,
) -> Result<MergedTop, DescFault>
    requires top { IsValidTop top }
    requires kinds { AreTypes top.insts kinds.now }
    requires crossbars { AllOf IsValidCrossbar crossbars }
    requires blocks { AllOf IsValidLaidBlock blocks }
    ensures { IfOk result (λ merged. IsMerged merged) }
{
    let listed = listed_names(alloc, top.xbars.as_slice())?;
    let read = crossbar_names(alloc, crossbars.as_slice())?;
    let laid = block_names(alloc, blocks.as_slice())?;
    if !are_names(&read, &listed) {
        return Err(DescFault::Memory);
    }
    if !are_names(&laid, kinds) {
        return Err(DescFault::Memory);
    }
    let merged = merge(alloc, top, crossbars, blocks)?;
    Ok(merged)
}
