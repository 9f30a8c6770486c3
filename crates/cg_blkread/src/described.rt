//! The description of a block that breaks no rule.

ghost use Rattle.std.specs.Prelude.{◌≡◌, IfOk};
ghost use Rattle.cg_blkread.specs.Described.{block_of};

use crate::described_interfaces::{describe_devices, describe_hosts};
use crate::described_lists::{
    describe_alerts, describe_clocks, describe_interrupts, describe_pins, text_copy,
};
use crate::parameters::Parameters;
use crate::read_fields::is_true;
use cg_base::Memory;
use cg_desc::BlockDesc;
use cg_hjson::Tree;
use cg_keys::{elements, members, place_at};
use std::alloc::Global;

/// The description of a block, which the file of this number says.
#[tactic(auto, unfolding(crate::specs::Described::block_of))]
pub(crate) fn describe_block(alloc: Global, tree: &Tree, file: u32) -> Result<BlockDesc, Memory>
    ensures { IfOk result (λ described. described ≡ block_of file tree.now) }
{
    let members = members(tree);
    let parameters = Parameters::of(alloc, members)?;
    let faces = describe_devices(alloc, &parameters, members)?;
    let name = text_copy(alloc, members, "name")?;
    let clocking = describe_clocks(alloc, elements(members, "clocking"))?;
    let hosts = describe_hosts(alloc, members)?;
    let intrs = describe_interrupts(alloc, elements(members, "interrupt_list"))?;
    let alerts = describe_alerts(alloc, elements(members, "alert_list"))?;
    let ios = describe_pins(alloc, members)?;
    Ok(BlockDesc {
        file,
        name,
        clocking,
        faces,
        hosts,
        intrs,
        intrs_at: place_at(members, "interrupt_list", tree.at),
        alerts,
        alerts_at: place_at(members, "alert_list", tree.at),
        auto_intr: !is_true(members, "no_auto_intr_regs"),
        auto_alert: !is_true(members, "no_auto_alert_regs"),
        ios,
        at: place_at(members, "registers", tree.at),
    })
}
