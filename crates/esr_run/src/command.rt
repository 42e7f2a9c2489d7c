//! The commands that lines ask for.
ghost use Rattle.std.specs.Prelude.{◌≡◌, map, IfOk};
ghost use Rattle.esr_core.specs.Entry.{DeleteSnapshots};
ghost use Rattle.esr_ops.specs.Asked.{asked_of, asked_index_of};
ghost use Rattle.esr_complete.specs.Lines.{index_of_line, command_of_line};

use esr_names::{SnapName, SnapNames};
use esr_ops::{AskedIndex, AskedIndices, Command};
use esr_script::AskedIndex as LineIndex;
use esr_seq::{Seq, TryClone};
use std::alloc::{AllocError, Global};

fn index_of(alloc: Global, index: &LineIndex) -> Result<AskedIndex, AllocError>
    ensures { IfOk result (λ a. asked_index_of a ≡ index_of_line index.now) }
{
    Ok(AskedIndex {
        name: index.name.try_clone(alloc)?,
        shards: index.shards,
        place: index.place.try_clone(alloc)?,
    })
}

fn indices_of(alloc: Global, indices: &[LineIndex]) -> Result<AskedIndices, AllocError>
    ensures { IfOk result (λ asked. map asked_index_of asked ≡ map index_of_line indices.now) }
{
    let mut asked = Seq::with_capacity(alloc, indices.len())?;
    for index in indices {
        asked.push(index_of(alloc, index)?)?;
    }
    Ok(asked)
}

/// The command of a line that asks for a snapshot.
pub(crate) fn snapshot_of(
    alloc: Global,
    name: &SnapName,
    indices: &[LineIndex],
    moment: u64,
) -> Result<Command, AllocError>
    ensures { IfOk result (λ c. asked_of c ≡ command_of_line name.now indices.now moment) }
{
    Ok(Command::Create {
        name: name.try_clone(alloc)?,
        indices: indices_of(alloc, indices)?,
        moment,
    })
}

/// The command of a line that asks for a delete.
pub(crate) fn delete_of(alloc: Global, names: &SnapNames) -> Result<Command, AllocError>
    ensures { IfOk result (λ c. asked_of c ≡ DeleteSnapshots names.now) }
{
    let names = names.try_clone(alloc)?;
    Ok(Command::Delete { names })
}
