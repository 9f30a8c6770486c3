//! The registers that come of themselves: three for the interrupts, and one for the alerts.

ghost use Rattle.std.specs.Prelude.{◌≡◌, ◌+◌, ◌-◌, ◌<◌, ◌≤◌, ◌++◌, true, ◌&&◌, length, sum_by, IfOk, OnOk};
ghost use Rattle.cg_svspec.specs.Printable.{AllOf};
ghost use Rattle.cg_desc.specs.Items.{alert_fields, automatic_register, has_some, interrupt_fields};
ghost use Rattle.cg_desc.specs.Valid.{IsValidInterrupt};
ghost use Rattle.cg_desc.specs.declared.block.Item.TheVariants.{Reg as OfRegister};
ghost use Rattle.cg_expand.specs.Parts.Automatic.{alert_registers, automatic_with, hardware_of, interrupt_register, interrupt_registers, is_external, software_of};

use cg_base::{List, Memory, Text};
use cg_desc::{AlertDesc, At, BlockDesc, FieldDesc, HwAccess, IntrDesc, Item, RegDesc, SwAccess};
use std::alloc::Global;

/// What a register of the interrupts is for.
#[derive(Clone, Copy)]
enum Use {
    State,
    Enable,
    Test,
}

/// How software accesses the field of an interrupt.
fn software_of(reason: Use, interrupt: &IntrDesc) -> SwAccess
    ensures { result ≡ software_of reason interrupt.now }
{
    match reason {
        Use::State => {
            if interrupt.status {
                SwAccess::Ro
            } else {
                SwAccess::Rw1c
            }
        }
        Use::Enable => SwAccess::Rw,
        Use::Test => SwAccess::Wo,
    }
}

/// How hardware accesses the field of an interrupt.
fn hardware_of(reason: Use) -> HwAccess
    ensures { result ≡ hardware_of reason }
{
    match reason {
        Use::State => HwAccess::Hrw,
        Use::Enable => HwAccess::Hro,
        Use::Test => HwAccess::Hro,
    }
}

/// Whether hardware has the register's fields, which are not stored.
fn is_external(reason: Use) -> bool
    ensures { result ≡ is_external reason }
{
    match reason {
        Use::State | Use::Enable => false,
        Use::Test => true,
    }
}

/// The fields of a register of the interrupts: one for each, at the next free bit.
#[tactic(auto, unfolding(cg_desc::specs::Items::interrupt_fields))]
fn interrupt_fields(
    alloc: Global,
    interrupts: &[IntrDesc],
    reason: Use,
) -> Result<List<FieldDesc>, Memory>
    requires valid { AllOf IsValidInterrupt interrupts.now }
    requires room { sum_by (λ i. i.width) interrupts.now ≤ 32 }
    ensures { IfOk result (λ fields. fields ≡ interrupt_fields (software_of reason) (hardware_of reason) 0 interrupts.now) }
{
    let mut fields = List::new(alloc);
    let mut lsb = 0;
    for interrupt in interrupts {
        fields.push(FieldDesc {
            name: interrupt.name.copy()?,
            msb: (lsb + interrupt.width - 1) as u8,
            lsb: lsb as u8,
            sw: software_of(reason, interrupt),
            hw: hardware_of(reason),
            resval: 0,
            mubi: false,
            at: interrupt.at,
        })?;
        lsb += interrupt.width;
    }
    Ok(fields)
}

/// The fields of the register of the alerts: a bit for each.
#[tactic(auto, unfolding(cg_desc::specs::Items::alert_fields))]
fn alert_fields(alloc: Global, alerts: &[AlertDesc]) -> Result<List<FieldDesc>, Memory>
    requires { length alerts.now ≤ 32 }
    ensures { IfOk result (λ fields. fields ≡ alert_fields 0 alerts.now) }
{
    let mut fields = List::new(alloc);
    let mut bit = 0u8;
    for alert in alerts {
        fields.push(FieldDesc {
            name: alert.name.copy()?,
            msb: bit,
            lsb: bit,
            sw: SwAccess::Wo,
            hw: HwAccess::Hro,
            resval: 0,
            mubi: false,
            at: alert.at,
        })?;
        bit += 1;
    }
    Ok(fields)
}

/// An automatic register, all of whose keys but these have their defaults.
fn automatic_register(
    alloc: Global,
    name: &str,
    fields: List<FieldDesc>,
    hwext: bool,
    at: At,
) -> Result<Item, Memory>
    ensures { IfOk result (λ item. item ≡ OfRegister (automatic_register name.now fields hwext at)) }
{
    Ok(Item::Reg(RegDesc {
        name: Text::of(alloc, name)?,
        fields,
        regwen: None,
        regwen_at: at,
        hwext,
        hwqe: false,
        hwre: false,
        shadowed: false,
        at,
    }))
}

/// A register of the interrupts, with its fields where they are wanted.
fn interrupt_register(
    alloc: Global,
    name: &str,
    reason: Use,
    wanted: bool,
    block: &BlockDesc,
) -> Result<Item, Memory>
    requires valid { AllOf IsValidInterrupt block.now.intrs }
    requires room { wanted ≡ true → sum_by (λ i. i.width) block.now.intrs ≤ 32 }
    ensures { IfOk result (λ item. item ≡ interrupt_register name.now reason wanted block.now) }
{
    let fields = if wanted {
        interrupt_fields(alloc, block.intrs.as_slice(), reason)?
    } else {
        List::new(alloc)
    };
    let hwext = is_external(reason);
    let item = automatic_register(alloc, name, fields, hwext, block.intrs_at)?;
    Ok(item)
}

/// Appends the registers of the interrupts, with their fields where they are wanted.
fn add_interrupt_registers(
    alloc: Global,
    items: &mut List<Item>,
    wanted: bool,
    block: &BlockDesc,
) -> Result<(), Memory>
    requires valid { AllOf IsValidInterrupt block.now.intrs }
    requires room { wanted ≡ true → sum_by (λ i. i.width) block.now.intrs ≤ 32 }
    ensures { OnOk result (items.new ≡ items.old ++ interrupt_registers wanted block.now) }
{
    items.push(interrupt_register(alloc, "INTR_STATE", Use::State, wanted, block)?)?;
    items.push(interrupt_register(alloc, "INTR_ENABLE", Use::Enable, wanted, block)?)?;
    items.push(interrupt_register(alloc, "INTR_TEST", Use::Test, wanted, block)?)?;
    Ok(())
}

/// Appends the register of the alerts, with its fields where they are wanted.
fn add_alert_registers(
    alloc: Global,
    items: &mut List<Item>,
    wanted: bool,
    block: &BlockDesc,
) -> Result<(), Memory>
    requires room { wanted ≡ true → length block.now.alerts ≤ 32 }
    ensures { OnOk result (items.new ≡ items.old ++ alert_registers wanted block.now) }
{
    let fields = if wanted {
        alert_fields(alloc, block.alerts.as_slice())?
    } else {
        List::new(alloc)
    };
    items.push(automatic_register(alloc, "ALERT_TEST", fields, true, block.alerts_at)?)?;
    Ok(())
}

/// Whether a block has registers of its interrupts.
pub fn has_interrupt_registers(block: &BlockDesc) -> bool
    ensures { result ≡ (block.now.auto_intr && has_some block.now.intrs) }
{
    block.auto_intr && !block.intrs.is_empty()
}

/// Whether a block has a register of its alerts.
pub fn has_alert_register(block: &BlockDesc) -> bool
    ensures { result ≡ (block.now.auto_alert && has_some block.now.alerts) }
{
    block.auto_alert && !block.alerts.is_empty()
}

/// The automatic registers of a block, with their fields where they are wanted.
#[tactic(auto, unfolding(crate::specs::Parts::Automatic::automatic_with))]
pub fn automatic_items(alloc: Global, wanted: bool, block: &BlockDesc) -> Result<List<Item>, Memory>
    requires valid { AllOf IsValidInterrupt block.now.intrs }
    requires interrupts { wanted ≡ true → sum_by (λ i. i.width) block.now.intrs ≤ 32 }
    requires alerts { wanted ≡ true → length block.now.alerts ≤ 32 }
    ensures { IfOk result (λ items. items ≡ automatic_with wanted block.now) }
{
    let mut items = List::new(alloc);
    if has_interrupt_registers(block) {
        add_interrupt_registers(alloc, &mut items, wanted, block)?;
    }
    if has_alert_register(block) {
        add_alert_registers(alloc, &mut items, wanted, block)?;
    }
    Ok(items)
}
