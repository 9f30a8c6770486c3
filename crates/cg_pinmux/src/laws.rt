//! That a top has one map of pins, in which no bit and no pad stands twice.

ghost use Rattle.std.specs.Prelude.{◌≡◌, ◌↔◌, ℕ, Some, slice_get};
ghost use Rattle.cg_svspec.specs.Names.{Among};
ghost use Rattle.cg_desc.specs.declared.top.MergedTop.{MergedTop};
ghost use Rattle.cg_irq.specs.declared.bits.Bit.{Bit};
ghost use Rattle.cg_pinmux.specs.Laws.{AreApart, StandOnce, TieOnce};
ghost use Rattle.cg_pinmux.specs.Pins.{ArePins};
ghost use Rattle.cg_pinmux.specs.Violations.{IsPinned};
ghost use Rattle.cg_pinmux.specs.declared.map.PadTie.{PadTie};
ghost use Rattle.cg_pinmux.specs.declared.map.PinMap.{PinMap};

/// A top has one map of pins at most, whether or not it breaks a rule.
pub fn pins_are_one()
    ensures { (m : MergedTop) (a b : PinMap) → ArePins m a → ArePins m b → a ≡ b }
{}

/// In the map of a top that breaks nothing, each bit has one number at most in `mio_in`, and one in `mio_out`.
pub fn each_bit_has_one_number()
    ensures inputs { (m : MergedTop) (pins : PinMap) → IsPinned m pins → StandOnce pins.ins }
    ensures outputs { (m : MergedTop) (pins : PinMap) → IsPinned m pins → StandOnce pins.outs }
{}

/// In it each pad is tied to one bit at most, and each bit to one pad.
pub fn each_pad_has_one_bit()
    ensures { (m : MergedTop) (pins : PinMap) → IsPinned m pins → TieOnce pins.pads }
{}

/// In it a bit with a pad of its own has no number.
pub fn bits_of_pads_have_no_number()
    ensures inputs { (m : MergedTop) (pins : PinMap) → IsPinned m pins → AreApart pins.pads pins.ins }
    ensures outputs { (m : MergedTop) (pins : PinMap) → IsPinned m pins → AreApart pins.pads pins.outs }
{}
