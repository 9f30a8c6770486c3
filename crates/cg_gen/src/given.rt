//! A file as the store gave it.

ghost use Rattle.std.specs.Prelude.{◌≡◌, ◌≤◌, [], ◌∷◌, IfOk, Err, Option, List, ℕ};
ghost use Rattle.cg_base.specs.Outside.{Rose, also_asked};
ghost use Rattle.cg_gen.specs.Reads.{Gave, read};
ghost use Rattle.cg_gen.specs.Inner.{IsGiven};

use cg_base::{Found, List, Store, StoreFault};
use cg_deeds::Stop;
use cg_files::LIMIT;
use std::alloc::Global;

/// What a store gave for a file: its bytes, or that there is none, or that it has more bytes than a description may have.
#[derive(Drop)]
pub enum Given {
    Absent,
    Large,
    Bytes(List<u8>),
}

/// Reads the file of this whole name.
pub fn read_file<S: Store>(alloc: Global, name: &str, store: &mut S) -> Result<Given, Stop>
    ensures gave { IfOk result (λ held. (g : Option (List ℕ)) × IsGiven held g × Gave (S.content store.old) (read name.now g)) }
    ensures rose { result ≡ Err Stop.Failed → Rose (S.read_faults store.old) (S.read_faults store.new) }
    ensures later { S.read_faults store.old ≤ S.read_faults store.new }
    ensures asked { S.asked store.new ≡ also_asked (S.asked store.old) (name.now ∷ []) }
    ensures same { S.content store.new ≡ S.content store.old }
    ensures changes { S.change_faults store.new ≡ S.change_faults store.old }
{
    let mut bytes = Vec::new(alloc);
    match store.read(name, LIMIT, &mut bytes) {
        Ok(Found::Yes) => Ok(Given::Bytes(List::from_vec(bytes))),
        Ok(Found::Absent) => Ok(Given::Absent),
        Ok(Found::Large) => Ok(Given::Large),
        Err(StoreFault::Failed) => Err(Stop::Failed),
        Err(StoreFault::Memory) => Err(Stop::Memory),
    }
}
