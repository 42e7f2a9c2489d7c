//! Which lines of a script can be carried out.
ghost use Rattle.std.specs.Prelude.{◌≡◌, Ok, IfOk, IfErr};
ghost use Rattle.esr_script.specs.Script.{script_of};
ghost use Rattle.esr_run.specs.Script.{has_shards, have_shards, is_named, has_name, have_own_names, is_askable, is_same_name, names_one, have_names_once, is_carried, first_bad};
ghost use Rattle.esr_run.specs.Stops.{AreGood, IsBadIn};

use crate::stop::Stop;
use esr_names::IndexName;
use esr_script::{AskedIndex, Item, Script, ScriptLine, ScriptRefusal, script_read};
use std::alloc::Global;

#[tactic(auto, unfolding(crate::specs::Script::has_shards))]
fn has_shards(index: &AskedIndex) -> bool
    ensures { result ≡ has_shards index.now }
{
    0 < index.shards && index.shards < 1025
}

fn have_shards(indices: &[AskedIndex]) -> bool
    ensures { result ≡ have_shards indices.now }
{
    for index in indices {
        if !has_shards(index) {
            return false;
        }
    }
    true
}

#[tactic(auto, unfolding(crate::specs::Script::is_named))]
fn is_named(name: &IndexName, index: &AskedIndex) -> bool
    ensures { result ≡ is_named name.now index.now }
{
    index.name == *name
}

fn has_name(name: &IndexName, indices: &[AskedIndex]) -> bool
    ensures { result ≡ has_name name.now indices.now }
{
    for index in indices {
        if is_named(name, index) {
            return true;
        }
    }
    false
}

fn have_own_names(indices: &[AskedIndex]) -> bool
    ensures { result ≡ have_own_names indices.now }
{
    let mut left = indices;
    while let [index, rest @ ..] = left {
        if has_name(&index.name, rest) {
            return false;
        }
        left = rest;
    }
    true
}

#[tactic(auto, unfolding(crate::specs::Script::is_askable))]
fn is_askable(indices: &[AskedIndex]) -> bool
    ensures { result ≡ is_askable indices.now }
{
    have_shards(indices) && have_own_names(indices)
}

#[tactic(auto, unfolding(crate::specs::Script::is_same_name))]
fn is_same_name(name: &IndexName, other: &IndexName) -> bool
    ensures { result ≡ is_same_name name.now other.now }
{
    *other == *name
}

fn names_one(name: &IndexName, names: &[IndexName]) -> bool
    ensures { result ≡ names_one name.now names.now }
{
    for other in names {
        if is_same_name(name, other) {
            return true;
        }
    }
    false
}

fn have_names_once(names: &[IndexName]) -> bool
    ensures { result ≡ have_names_once names.now }
{
    let mut left = names;
    while let [name, rest @ ..] = left {
        if names_one(name, rest) {
            return false;
        }
        left = rest;
    }
    true
}

/// The line can be carried out.
pub(crate) fn is_carried(item: &Item) -> bool
    ensures { result ≡ is_carried item.now }
{
    match item {
        Item::Snapshot { name: _, indices } => is_askable(indices.as_slice()),
        Item::Clone {
            source: _,
            name: _,
            indices,
        } => have_names_once(indices.as_slice()),
        _ => true,
    }
}

/// The number of the first line that can't be carried out.
fn first_bad(lines: &[ScriptLine]) -> Option<u32>
    ensures { result ≡ first_bad lines.now }
{
    for line in lines {
        if !is_carried(&line.item) {
            return Some(line.number);
        }
    }
    None
}

fn script_of(alloc: Global, bytes: &[u8]) -> Result<Script, Stop>
    ensures ok { IfOk result (λ lines. script_of bytes.now ≡ Ok lines) }
    ensures err { IfErr result (IsBadIn (script_of bytes.now)) }
{
    match script_read(alloc, bytes) {
        Ok(script) => Ok(script),
        Err(ScriptRefusal::Memory) => Err(Stop::Memory),
        Err(ScriptRefusal::TooLong) => Err(Stop::BadScript),
        Err(ScriptRefusal::BadLine { number, why: _ }) => Err(Stop::BadLine { number }),
    }
}

/// The lines of a script, each of which can be carried out.
pub(crate) fn lines_of(alloc: Global, bytes: &[u8]) -> Result<Script, Stop>
    ensures ok { IfOk result (AreGood (script_of bytes.now)) }
    ensures err { IfErr result (IsBadIn (script_of bytes.now)) }
{
    let script = script_of(alloc, bytes)?;
    match first_bad(script.as_slice()) {
        Some(number) => Err(Stop::BadLine { number }),
        None => Ok(script),
    }
}
