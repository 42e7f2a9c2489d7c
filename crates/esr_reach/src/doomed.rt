//! The names that a delete dooms.
ghost use Rattle.std.specs.Prelude.{◌≡◌, ◌↔◌, true, IfOk, map};
ghost use Rattle.std.specs.BTreeSet.{contains};
ghost use Rattle.esr_names.specs.declared.blob.BlobName.{BlobName as CodeName};
ghost use Rattle.esr_formats.specs.Names.{name_of};
ghost use Rattle.esr_model.specs.Values.{Has};
ghost use Rattle.esr_reach.specs.Names.{AreNames, AreOnce, IsWithout};

use crate::Names;
use esr_names::BlobName;
use esr_seq::Seq;
use std::alloc::{AllocError, Global};
use std::collections::BTreeSet;

/// The names, each once.
pub fn set_of(alloc: Global, names: &[BlobName]) -> Result<BTreeSet<BlobName>, AllocError>
    ensures { IfOk result (λ set. (name : CodeName) → (contains ⟦<BlobName as Ord>⟧.cmp set name ≡ true) ↔ Has (map name_of names.now) (name_of name)) }
{
    let mut set = BTreeSet::new(alloc);
    for name in names {
        set.insert(*name)?;
    }
    Ok(set)
}

/// The names that an old root reached and the new one doesn't, in their order. Want of memory is the only error.
pub fn doomed_by_delete(alloc: Global, old: &Names, new: &Names) -> Result<Names, AllocError>
    ensures names { IfOk result (λ doomed. AreNames doomed (λ name. Has (map name_of old.now) name × (Has (map name_of new.now) name → ⊥))) }
    ensures once { IfOk result (λ doomed. AreOnce (map name_of old.now) → AreOnce (map name_of doomed)) }
    ensures order { IfOk result (λ doomed. IsWithout (map name_of new.now) (map name_of old.now) (map name_of doomed)) }
{
    let kept = set_of(alloc, new.as_slice())?;
    let mut doomed = Seq::new(alloc);
    for name in old.as_slice() {
        if !kept.contains(name) {
            doomed.push(*name)?;
        }
    }
    Ok(doomed)
}
