//! The doing of deeds.

ghost use Rattle.std.specs.Prelude.{◌≡◌};
ghost use Rattle.cg_deeds.specs.Outside.{Outlets, Later, outlets};
ghost use Rattle.cg_deeds.specs.Inner.{DeedEnds, DeedsEnd};

use crate::deed::{Deed, Stream};
use crate::stop::Stop;
use cg_base::{Sink, SinkFault, Store, StoreFault};

/// Does one deed.
fn do_deed<S: Store, O: Sink, E: Sink>(
    deed: &Deed,
    store: &mut S,
    out: &mut O,
    err: &mut E,
) -> Result<(), Stop>
    ensures ends { let before : Outlets = outlets (S.content store.old) (S.change_faults store.old) (O.held out.old) (O.faults out.old) (E.held err.old) (E.faults err.old) in
        let after : Outlets = outlets (S.content store.new) (S.change_faults store.new) (O.held out.new) (O.faults out.new) (E.held err.new) (E.faults err.new) in
        DeedEnds result deed.now before after }
    ensures later { let before : Outlets = outlets (S.content store.old) (S.change_faults store.old) (O.held out.old) (O.faults out.old) (E.held err.old) (E.faults err.old) in
        let after : Outlets = outlets (S.content store.new) (S.change_faults store.new) (O.held out.new) (O.faults out.new) (E.held err.new) (E.faults err.new) in
        Later before after }
    ensures reads { S.read_faults store.new ≡ S.read_faults store.old }
    ensures asked { S.asked store.new ≡ S.asked store.old }
{
    match deed {
        Deed::Write { name, bytes } => match store.write(name.as_str(), bytes.as_slice()) {
            Ok(()) => Ok(()),
            Err(StoreFault::Failed) => Err(Stop::Failed),
            Err(StoreFault::Memory) => Err(Stop::Memory),
        },
        Deed::Remove { name } => match store.remove(name.as_str()) {
            Ok(()) => Ok(()),
            Err(StoreFault::Failed) => Err(Stop::Failed),
            Err(StoreFault::Memory) => Err(Stop::Memory),
        },
        Deed::Say { stream, line } => match stream {
            Stream::Out => match out.put(line.as_str().as_bytes()) {
                Ok(()) => Ok(()),
                Err(SinkFault::Failed) => Err(Stop::Failed),
                Err(SinkFault::Memory) => Err(Stop::Memory),
            },
            Stream::Err => match err.put(line.as_str().as_bytes()) {
                Ok(()) => Ok(()),
                Err(SinkFault::Failed) => Err(Stop::Failed),
                Err(SinkFault::Memory) => Err(Stop::Memory),
            },
        },
    }
}

/// Does the deeds in their order, up to the first that its object refuses.
pub fn do_all<S: Store, O: Sink, E: Sink>(
    deeds: &[Deed],
    store: &mut S,
    out: &mut O,
    err: &mut E,
) -> Result<(), Stop>
    ensures ends { let before : Outlets = outlets (S.content store.old) (S.change_faults store.old) (O.held out.old) (O.faults out.old) (E.held err.old) (E.faults err.old) in
        let after : Outlets = outlets (S.content store.new) (S.change_faults store.new) (O.held out.new) (O.faults out.new) (E.held err.new) (E.faults err.new) in
        DeedsEnd result deeds.now before after }
    ensures reads { S.read_faults store.new ≡ S.read_faults store.old }
    ensures asked { S.asked store.new ≡ S.asked store.old }
{
    for deed in deeds {
        do_deed(deed, store, out, err)?;
    }
    Ok(())
}
