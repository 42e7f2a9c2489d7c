//! What the words of a line ask for.
ghost use Rattle.std.specs.Prelude.{◌≡◌, ◌++◌, ◌<◌, ◌∷◌, [], Ok, Err, OnOk, if◌then◌else◌, string_bytes};
ghost use Rattle.std.specs.List.{list_any};
ghost use Rattle.esr_script.specs.Items.{alone, clone_of, delete_of, item_of, restore_of, snapshot_of, verb_of};
ghost use Rattle.esr_script.specs.Lines.{is_bad_byte, with_piece, words_from, words_of};
ghost use Rattle.esr_script.specs.Script.{Gives, asked_by, line_of};
ghost use Rattle.esr_script.specs.declared.refusal.Why.TheVariants.{Byte};

use crate::item::Item;
use crate::names::{
    each_index_once, each_snap_once, has_repeat, index_names, snap_name, snap_names,
};
use crate::parts::{asked_indices, counts_of, names_of, place, places_of};
use crate::refusal::{Fault, Why};
use esr_seq::{Seq, Text};
use std::alloc::{AllocError, AllocFailed, Global};

fn snapshot_of(alloc: Global, words: &[Text]) -> Result<Item, Fault>
    ensures { Gives result (snapshot_of words.now) }
{
    let [name, parts @ ..] = words else {
        return Err(Fault::Bad(Why::Count));
    };
    let name = snap_name(alloc, name.as_str())?;
    let names = names_of(alloc, parts)?;
    let counts = counts_of(alloc, parts)?;
    let places = places_of(alloc, parts)?;
    if has_repeat(names.as_slice()) {
        return Err(Fault::Bad(Why::Repeat));
    }
    let indices = asked_indices(alloc, names, counts, places)?;
    Ok(Item::Snapshot { name, indices })
}

fn clone_of(alloc: Global, words: &[Text]) -> Result<Item, Fault>
    ensures { Gives result (clone_of words.now) }
{
    let [source, name, indices @ ..] = words else {
        return Err(Fault::Bad(Why::Count));
    };
    let source = snap_name(alloc, source.as_str())?;
    let name = snap_name(alloc, name.as_str())?;
    let indices = index_names(alloc, indices)?;
    let indices = each_index_once(alloc, indices)?;
    Ok(Item::Clone {
        source,
        name,
        indices,
    })
}

fn delete_of(alloc: Global, words: &[Text]) -> Result<Item, Fault>
    ensures { Gives result (delete_of words.now) }
{
    if words.is_empty() {
        return Err(Fault::Bad(Why::Count));
    }
    let names = snap_names(alloc, words)?;
    let names = each_snap_once(alloc, names)?;
    Ok(Item::Delete { names })
}

fn restore_of(alloc: Global, words: &[Text]) -> Result<Item, Fault>
    ensures { Gives result (restore_of words.now) }
{
    let [name, to] = words else {
        return Err(Fault::Bad(Why::Count));
    };
    let name = snap_name(alloc, name.as_str())?;
    let place = place(alloc, to.as_str())?;
    Ok(Item::Restore { name, place })
}

fn alone(item: Item, words: &[Text]) -> Result<Item, Fault>
    ensures { Gives result (alone item words.now) }
{
    if words.is_empty() {
        Ok(item)
    } else {
        drop(item);
        Err(Fault::Bad(Why::Count))
    }
}

/// What a verb asks for with the words after it.
#[tactic(auto, unfolding(crate::specs::Items::verb_of))]
pub(crate) fn verb_of(alloc: Global, verb: &str, words: &[Text]) -> Result<Item, Fault>
    ensures { Gives result (verb_of verb.now words.now) }
{
    match verb {
        "snapshot" => snapshot_of(alloc, words),
        "clone" => clone_of(alloc, words),
        "delete" => delete_of(alloc, words),
        "restore" => restore_of(alloc, words),
        "cleanup" => alone(Item::Cleanup, words),
        "failover" => alone(Item::Failover, words),
        "wait" => alone(Item::Wait, words),
        "list" => alone(Item::List, words),
        "check" => alone(Item::Check, words),
        "verify" => alone(Item::Verify, words),
        _ => Err(Fault::Bad(Why::Verb)),
    }
}

/// What words ask for: a verb and what belongs to it.
pub(crate) fn item_of(alloc: Global, words: &[Text]) -> Result<Item, Fault>
    ensures { Gives result (item_of words.now) }
{
    match words {
        [verb, words @ ..] => verb_of(alloc, verb.as_str(), words),
        [] => Err(Fault::Bad(Why::Verb)),
    }
}

/// Adds a word that isn't empty.
fn end_word(words: &mut Seq<Text>, word: String) -> Result<(), AllocFailed<Text>>
    ensures { OnOk result (words.new ≡ with_piece words.old (string_bytes word)) }
{
    if !word.is_empty() {
        words.push(Text::from_string(word))?;
    }
    Ok(())
}

fn push_byte(word: &mut String, c: u8) -> Result<(), AllocError>
    requires { c < 128 }
    ensures { OnOk result (string_bytes word.new ≡ string_bytes word.old ++ c ∷ []) }
{
    word.push(char::from(c))
}

/// The words of a line, whose bytes are looked at first.
#[tactic(auto, unfolding(crate::specs::Lines::words_from))]
fn words_of(alloc: Global, line: &[u8]) -> Result<Seq<Text>, Fault>
    ensures { Gives result (if list_any is_bad_byte line.now then Err Byte else Ok (words_of line.now)) }
{
    let mut words = Seq::new(alloc);
    let mut word = String::new(alloc);
    for c in line {
        if *c < 32 || *c > 126 {
            return Err(Fault::Bad(Why::Byte));
        }
        if *c == b' ' {
            end_word(&mut words, word)?;
            word = String::new(alloc);
        } else {
            push_byte(&mut word, *c)?;
        }
    }
    end_word(&mut words, word)?;
    Ok(words)
}

/// What a line asks for, if it asks for anything.
pub(crate) fn line_of(alloc: Global, line: &[u8]) -> Result<Option<Item>, Fault>
    ensures { Gives result (line_of line.now) }
{
    let words = words_of(alloc, line)?;
    let Some(first) = words.as_slice().first() else {
        return Ok(None);
    };
    if first.as_str().as_bytes().starts_with(b"#") {
        return Ok(None);
    }
    let item = item_of(alloc, words.as_slice())?;
    Ok(Some(item))
}
