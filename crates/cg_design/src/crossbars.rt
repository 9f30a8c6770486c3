//! The files of all crossbars that a top lists.

ghost use Rattle.std.specs.Prelude.{◌≡◌, ◌≤◌, ℕ, length, map, option_map, IfOk};
ghost use Rattle.cg_design.specs.Files.{files_from};
ghost use Rattle.cg_design.specs.Inner.Reading.{AreCrossbarsRead, IsCountOf};

use crate::crossbar::read_crossbar;
use crate::reading::{Reading, behind};
use cg_base::Memory;
use cg_desc::{XbarDesc, XbarUse};
use std::alloc::Global;

/// The crossbars that these files describe, which the top lists so, and the first of all that the files break.
///
/// The first of them is the first file behind the top's own; `before` is how many bytes that one has.
pub(crate) fn read_crossbars(
    alloc: Global,
    listed: &[XbarUse],
    before: u64,
    given: &[Option<&[u8]>],
) -> Result<Reading<XbarDesc>, Memory>
    requires count { length given.now ≡ length listed.now }
    requires few { length listed.now ≤ 16 }
    ensures { (exact : ℕ) → IsCountOf before exact
        → IfOk result (λ r. AreCrossbarsRead listed.now (files_from 1 exact (map (option_map (λ b. b.now)) given.now)) (length listed.now) r) }
{
    let mut reading = Reading::new(alloc);
    let mut count = before;
    for (number, bytes) in given.iter().enumerate() {
        let name = listed[number].name.as_str();
        let read = read_crossbar(alloc, 1 + number as u32, count, *bytes, name);
        reading = reading.add(read)?;
        count = behind(count, *bytes);
    }
    Ok(reading)
}
