//! That a top has one numbering, and that a valid merged top has what numbers ask of it.

ghost use Rattle.std.specs.Prelude.{◌≡◌};
ghost use Rattle.cg_desc.specs.Merged.{IsValidMerged};
ghost use Rattle.cg_desc.specs.declared.top.MergedTop.{MergedTop};
ghost use Rattle.cg_irq.specs.Instances.{HasBlocks};
ghost use Rattle.cg_irq.specs.Listed.{alert_widths, bits_of, interrupt_widths, widths_of};
ghost use Rattle.cg_irq.specs.Numbers.{AreNumbers};
ghost use Rattle.cg_irq.specs.declared.bits.IrqMap.{IrqMap};

/// The interrupts and alerts of a top, in their order, are one map: this one. Entry k of its interrupts is source k + 1.
pub fn numbering_is_one()
    ensures listed { (m : MergedTop) → AreNumbers m (record { intr = bits_of 0 (widths_of interrupt_widths m); alert = bits_of 0 (widths_of alert_widths m) }) }
    ensures one { (m : MergedTop) (a b : IrqMap) → AreNumbers m a → AreNumbers m b → a ≡ b }
{}

/// A valid merged top has the blocks of its instances.
pub fn merged_has_blocks()
    ensures { (m : MergedTop) → IsValidMerged m → HasBlocks m }
{}
