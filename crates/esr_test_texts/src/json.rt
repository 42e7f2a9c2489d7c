//! The parts of JSON values.
use crate::words::{Said, cut, cut_last, say, say_bytes, say_unknown};
use esr_json::{
    Key, Reason, items, items_or_none, members, number, number_or, parse, text, text_item,
    text_value, write,
};
use serde_json::{Map, Value};
use std::alloc::Global;

static KEYS: [Key; 23] = [
    Key::Bytes,
    Key::Files,
    Key::Id,
    Key::Indices,
    Key::Kind,
    Key::Length,
    Key::Moment,
    Key::Name,
    Key::Op,
    Key::Ops,
    Key::PartSize,
    Key::Pending,
    Key::PhysicalName,
    Key::Safe,
    Key::Sha256,
    Key::ShardGenerations,
    Key::Shards,
    Key::Snapshots,
    Key::Source,
    Key::State,
    Key::Term,
    Key::Uuid,
    Key::Uuids,
];

/// The member of this name.
fn key_of(name: &str) -> Option<Key> {
    for key in &KEYS {
        if key.text() == name {
            return Some(*key);
        }
    }
    None
}

/// Says the text of the value of a text.
pub(crate) fn say_again(alloc: Global, line: &mut String, bytes: &[u8]) -> Said {
    let value = parse(alloc, bytes)?;
    let _ = write!(line, "{value}");
    Ok(())
}

/// Says the value of a text, as it is written.
fn say_written(alloc: Global, line: &mut String, text: &str) -> Said {
    let value = text_value(alloc, text)?;
    say_bytes(line, write(alloc, &value)?.as_slice());
    Ok(())
}

fn say_text(line: &mut String, text: Result<&str, Reason>) -> Said {
    say(line, text?);
    Ok(())
}

/// Says how many items there are, and the first of them.
fn say_items(line: &mut String, items: Result<&[Value], Reason>) -> Said {
    let items = items?;
    match items.first() {
        Some(first) => {
            let _ = write!(line, "{} items {first}", items.len());
        }
        None => say(line, "no items"),
    }
    Ok(())
}

/// Says the names of the members.
fn say_members(line: &mut String, members: Result<&Map<String, Value>, Reason>) -> Said {
    let members = members?;
    say(line, "members");
    for (name, _) in members.iter() {
        say(line, " ");
        say(line, name.as_str());
    }
    Ok(())
}

fn say_number(line: &mut String, number: Result<i128, Reason>) -> Said {
    let number = number?;
    let _ = write!(line, "{number}");
    Ok(())
}

/// A number of any size that a word spells, else 0.
fn wide(word: &str) -> i128 {
    word.parse::<i128>().unwrap_or(0)
}

/// Says a number from the least to the limit, which the words are.
fn say_in_range(line: &mut String, value: &Value, key: Key, words: &str) -> Said {
    let (least, limit) = cut(words);
    say_number(line, number(value, key, wide(least), wide(limit)))
}

/// Says a number from the least to the limit, or the one that is wanted where there is none: the words.
fn say_in_range_or(line: &mut String, value: &Value, key: Key, words: &str) -> Said {
    let (least, rest) = cut(words);
    let (limit, absent) = cut(rest);
    let (least, limit, absent) = (wide(least), wide(limit), wide(absent));
    if absent < least || limit < absent {
        return say_unknown(line);
    }
    say_number(line, number_or(value, key, least, limit, absent))
}

/// Says a part of a value, by the name of a member and more words.
fn say_part(line: &mut String, question: &str, words: &str, value: &Value) -> Said {
    let (name, words) = cut(words);
    let Some(key) = key_of(name) else {
        return say_unknown(line);
    };
    match question {
        "text" => say_text(line, text(value, key)),
        "text-item" => say_text(line, text_item(value, key)),
        "items" => say_items(line, items(value, key)),
        "items-or-none" => say_items(line, items_or_none(value, key)),
        "members" => say_members(line, members(value, key)),
        "number" => say_in_range(line, value, key, words),
        "number-or" => say_in_range_or(line, value, key, words),
        _ => say_unknown(line),
    }
}

pub(crate) fn answer(alloc: Global, line: &mut String, question: &str, text: &str) -> Said {
    match question {
        "again" => say_again(alloc, line, text.as_bytes()),
        "write" => say_written(alloc, line, text),
        "key" => {
            let _ = write!(line, "{:?}", key_of(text));
            Ok(())
        }
        _ => {
            let (words, json) = cut_last(text);
            say_part(line, question, words, &parse(alloc, json.as_bytes())?)
        }
    }
}
