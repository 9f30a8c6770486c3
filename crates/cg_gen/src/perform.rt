//! The doing of what is due.

ghost use Rattle.std.specs.Prelude.{◌≡◌};
ghost use Rattle.cg_deeds.specs.Outside.{Outlets, Later, outlets};
ghost use Rattle.cg_deeds.specs.Inner.{DeedEnds, DeedsEnd};
ghost use Rattle.cg_gen.specs.Inner.{PerformEnds};

use crate::due::Due;
use crate::ending::Ending;
use cg_base::{Sink, Store};
use cg_deeds::{Stop, do_all};

/// Does what is due, up to the first deed that its object refuses.
pub fn perform<S: Store, O: Sink, E: Sink>(
    due: &Due,
    store: &mut S,
    out: &mut O,
    err: &mut E,
) -> Ending
    ensures ends { let before : Outlets = outlets (S.content store.old) (S.change_faults store.old) (O.held out.old) (O.faults out.old) (E.held err.old) (E.faults err.old) in
        let after : Outlets = outlets (S.content store.new) (S.change_faults store.new) (O.held out.new) (O.faults out.new) (E.held err.new) (E.faults err.new) in
        PerformEnds result due.now before after }
    ensures reads { S.read_faults store.new ≡ S.read_faults store.old }
    ensures asked { S.asked store.new ≡ S.asked store.old }
{
    match do_all(due.deeds.as_slice(), store, out, err) {
        Ok(()) => Ending::Done(due.status),
        Err(Stop::Failed) => Ending::WriteFailed,
        Err(Stop::Memory) => Ending::Memory,
    }
}
