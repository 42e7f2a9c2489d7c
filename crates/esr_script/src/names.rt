//! Names that stand in a line.
ghost use Rattle.std.specs.Prelude.{◌≡◌, [], map, IfOk, IfSome};
ghost use Rattle.std.specs.Option.{ok_or};
ghost use Rattle.esr_script.specs.Items.{each_once, has_repeat, index_name, read_all, read_from, snap_name, with_name};
ghost use Rattle.esr_script.specs.Script.{Gives};
ghost use Rattle.esr_script.specs.declared.refusal.Why.TheVariants.{Name};

use crate::refusal::{Fault, Why};
use esr_names::{IndexName, IndexNames, NameRefusal, SnapName, SnapNames};
use esr_seq::{Seq, Text};
use std::alloc::{AllocError, AllocFailed, Global};

pub(crate) fn snap_name(alloc: Global, text: &str) -> Result<SnapName, Fault>
    ensures { Gives result (ok_or (snap_name text.now) Name) }
{
    match SnapName::new(alloc, text) {
        Ok(name) => Ok(name),
        Err(NameRefusal::Memory) => Err(Fault::Memory),
        Err(NameRefusal::Bad(_)) => Err(Fault::Bad(Why::Name)),
    }
}

pub(crate) fn index_name(alloc: Global, text: &str) -> Result<IndexName, Fault>
    ensures { Gives result (ok_or (index_name text.now) Name) }
{
    match IndexName::new(alloc, text) {
        Ok(name) => Ok(name),
        Err(NameRefusal::Memory) => Err(Fault::Memory),
        Err(NameRefusal::Bad(_)) => Err(Fault::Bad(Why::Name)),
    }
}

#[tactic(auto, unfolding(crate::specs::Items::read_from))]
pub(crate) fn snap_names(alloc: Global, words: &[Text]) -> Result<SnapNames, Fault>
    ensures { Gives result (read_all snap_name Name words.now) }
{
    let mut names = Seq::new(alloc);
    for word in words {
        names.push(snap_name(alloc, word.as_str())?)?;
    }
    Ok(names)
}

#[tactic(auto, unfolding(crate::specs::Items::read_from))]
pub(crate) fn index_names(alloc: Global, words: &[Text]) -> Result<IndexNames, Fault>
    ensures { Gives result (read_all index_name Name words.now) }
{
    let mut names = Seq::new(alloc);
    for word in words {
        names.push(index_name(alloc, word.as_str())?)?;
    }
    Ok(names)
}

/// The names in order, each where it stands first.
pub(crate) fn each_snap_once(alloc: Global, names: SnapNames) -> Result<SnapNames, AllocError>
    ensures { IfOk result (λ kept. kept ≡ each_once names) }
{
    let mut kept = Seq::new(alloc);
    for name in names.into_vec() {
        if !kept.as_slice().contains(&name) {
            kept.push(name)?;
        }
    }
    Ok(kept)
}

/// The names in order, each where it stands first.
pub(crate) fn each_index_once(alloc: Global, names: IndexNames) -> Result<IndexNames, AllocError>
    ensures { IfOk result (λ kept. kept ≡ each_once names) }
{
    let mut kept = Seq::new(alloc);
    for name in names.into_vec() {
        if !kept.as_slice().contains(&name) {
            kept.push(name)?;
        }
    }
    Ok(kept)
}

pub(crate) fn has_repeat(names: &[IndexName]) -> bool
    ensures { result ≡ has_repeat names.now }
{
    let mut rest = names;
    while let [name, later @ ..] = rest {
        if later.contains(name) {
            return true;
        }
        rest = later;
    }
    false
}
