//! The changes from the last good build's outputs to a new one's.

ghost use Rattle.std.specs.Prelude.{◌≡◌, ◌<◌, ◌++◌, ◌^◌, length, map, ◌&&◌, OnOk, OnErr, IsErrOf};
ghost use Rattle.std.specs.Str.{bytes_eq};
ghost use Rattle.cg_base.specs.Outside.{HasCause};
ghost use Rattle.cg_session.specs.Play.{has_output, has_name, new_ones, old_ones, write_of, removal_of, texts_of, manifest_of, changes};
ghost use Rattle.cg_session.specs.Turns.{after_changes, StoppedIn};

use cg_base::{Store, StoreFault};
use cg_outputs::OutFile;

fn same_output(p: &OutFile, o: &OutFile) -> bool
    ensures { result ≡ (bytes_eq p.now.name o.now.name && bytes_eq p.now.bytes o.now.bytes) }
{
    p.name == o.name && p.bytes.as_slice() == o.bytes.as_slice()
}

fn has_output(os: &[OutFile], o: &OutFile) -> bool
    ensures { result ≡ has_output os.now o.now }
{
    os.iter().any(|p| same_output(p, o))
}

fn has_name(os: &[OutFile], o: &OutFile) -> bool
    ensures { result ≡ has_name os.now o.now.name }
{
    os.iter().any(|p| p.name == o.name)
}

/// The outputs but for the manifest, which is the last of them.
pub fn texts_of(os: &[OutFile]) -> &[OutFile]
    ensures { result.now ≡ texts_of os.now }
{
    &os[..os.len().saturating_sub(1)]
}

/// The manifest alone.
pub fn manifest_of(os: &[OutFile]) -> &[OutFile]
    ensures { result.now ≡ manifest_of os.now }
{
    &os[os.len().saturating_sub(1)..]
}

/// Writes the outputs that the last ones did not have, or had with other bytes.
#[tactic(auto, using(cg_base::specs::Outside::same_OnlyAt, cg_base::specs::Outside::written_OnlyAt))]
fn write_new<S: Store>(last: &[OutFile], new: &[OutFile], store: &mut S) -> Result<(), StoreFault>
    ensures written { OnOk result (S.content store.new ≡ after_changes (map write_of (new_ones last.now new.now)) (S.content store.old)) }
    ensures stopped { OnErr result (StoppedIn (map write_of (new_ones last.now new.now)) (S.content store.old) (S.content store.new)) }
    ensures cause { HasCause (IsErrOf result StoreFault.Failed) (S.change_faults store.old) (S.change_faults store.new) }
    ensures asked { S.asked store.new ≡ S.asked store.old }
    ensures reads { S.read_faults store.new ≡ S.read_faults store.old }
{
    for o in new {
        if !has_output(last, o) {
            store.write(o.name.as_str(), o.bytes.as_slice())?;
        }
    }
    Ok(())
}

/// Removes the last outputs that are outputs no more.
#[tactic(auto, using(cg_base::specs::Outside::same_OnlyAt, cg_base::specs::Outside::removed_OnlyAt))]
fn remove_old<S: Store>(last: &[OutFile], new: &[OutFile], store: &mut S) -> Result<(), StoreFault>
    ensures written { OnOk result (S.content store.new ≡ after_changes (map removal_of (old_ones last.now new.now)) (S.content store.old)) }
    ensures stopped { OnErr result (StoppedIn (map removal_of (old_ones last.now new.now)) (S.content store.old) (S.content store.new)) }
    ensures cause { HasCause (IsErrOf result StoreFault.Failed) (S.change_faults store.old) (S.change_faults store.new) }
    ensures asked { S.asked store.new ≡ S.asked store.old }
    ensures reads { S.read_faults store.new ≡ S.read_faults store.old }
{
    for o in last {
        if !has_name(new, o) {
            store.remove(o.name.as_str())?;
        }
    }
    Ok(())
}

/// Makes the changes from the last outputs to new ones, in their order, up to the first that is refused.
#[tactic(auto, using(crate::proofs::Changing::changes_behind, crate::proofs::Changing::stopped_left, crate::proofs::Changing::stopped_right))]
pub fn perform<S: Store>(last: &[OutFile], new: &[OutFile], store: &mut S) -> Result<(), StoreFault>
    ensures written { OnOk result (S.content store.new ≡ after_changes (changes last.now new.now) (S.content store.old)) }
    ensures stopped { OnErr result (StoppedIn (changes last.now new.now) (S.content store.old) (S.content store.new)) }
    ensures cause { HasCause (IsErrOf result StoreFault.Failed) (S.change_faults store.old) (S.change_faults store.new) }
    ensures asked { S.asked store.new ≡ S.asked store.old }
    ensures reads { S.read_faults store.new ≡ S.read_faults store.old }
{
    write_new(last, texts_of(new), store)?;
    remove_old(last, new, store)?;
    write_new(last, manifest_of(new), store)?;
    Ok(())
}

/// How many outputs the last ones did not have, or had with other bytes.
#[tactic(auto)]
pub fn count_new(last: &[OutFile], new: &[OutFile]) -> usize
    ensures count { result ≡ length (new_ones last.now new.now) }
    ensures few { result < 2 ^ 63 }
{
    new.iter().filter(|o| !has_output(last, o)).count()
}

/// How many of the last outputs are outputs no more.
#[tactic(auto)]
pub fn count_old(last: &[OutFile], new: &[OutFile]) -> usize
    ensures { result ≡ length (old_ones last.now new.now) }
{
    last.iter().filter(|o| !has_name(new, o)).count()
}
