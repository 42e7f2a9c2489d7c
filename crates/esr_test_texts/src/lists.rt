//! Lists, bytes and texts, with ample memory.
use crate::words::{Said, cut, number, say, say_unknown};
use esr_seq::{Bytes, Seq, Text, TryClone};
use std::alloc::{AllocError, Global};

/// Adds two numbers to a list, then three more at its end, and then one before its second.
fn grow(list: &mut Seq<u64>, [a, b, c, d, e, second]: [u64; 6]) -> Result<(), AllocError> {
    list.push(a)?;
    list.push(b)?;
    list.extend_from_slice(&[c, d, e])?;
    list.insert(1, second)?;
    Ok(())
}

fn six(text: &str) -> [u64; 6] {
    let (a, text) = cut(text);
    let (b, text) = cut(text);
    let (c, text) = cut(text);
    let (d, text) = cut(text);
    let (e, f) = cut(text);
    [
        number(a),
        number(b),
        number(c),
        number(d),
        number(e),
        number(f),
    ]
}

/// Says the numbers of a copy, how many the list has and whether it has none, and the last one that it had.
fn say_copy(line: &mut String, copy: &[u64], list: &Seq<u64>, last: Option<u64>) {
    let (len, empty) = (list.len(), list.is_empty());
    let _ = write!(line, "{copy:?} {len} {empty} {last:?}");
}

/// Says the copy of a list without its last number, how many that are, and the last one.
fn say_list(alloc: Global, line: &mut String, list: &mut Seq<u64>) -> Said {
    let last = list.pop();
    let copy = Seq::from_slice(alloc, list.as_slice())?.into_vec();
    say_copy(line, copy.as_slice(), list, last);
    Ok(())
}

fn say_numbers(alloc: Global, line: &mut String, text: &str) -> Said {
    let mut list = Seq::with_capacity(alloc, 4)?;
    grow(&mut list, six(text))?;
    say_list(alloc, line, &mut list)
}

/// The list of a text, or of none where it is empty.
fn list_of(alloc: Global, text: &str) -> Result<Seq<Text>, AllocError> {
    let mut texts = Seq::new(alloc);
    if !text.is_empty() {
        texts.push(Text::from_str(alloc, text)?)?;
    }
    Ok(Seq::from_vec(texts.into_vec()))
}

/// Says the last text of a list, if there is one, with its length.
fn say_popped(line: &mut String, last: Option<Text>) {
    match last {
        Some(text) => {
            let _ = write!(line, "{} {}", text.as_str(), text.len());
        }
        None => say(line, "none"),
    }
}

/// Says the last text of a list, with its length, and whether the list was empty.
fn say_last(alloc: Global, line: &mut String, text: &str) -> Said {
    let mut texts = list_of(alloc, text)?;
    let word = if texts.is_empty() { " true" } else { " false" };
    say_popped(line, texts.pop());
    say(line, word);
    Ok(())
}

/// Says bytes, with their number, and whether they are none.
fn say_bytes(line: &mut String, bytes: &Bytes) {
    let text = str::from_utf8(bytes.as_slice()).unwrap_or("?");
    let _ = write!(line, "{text:?} {} {}", bytes.len(), bytes.is_empty());
}

/// Bytes of a slice, or new ones where it is empty, which went through a vector.
fn bytes_of(alloc: Global, text: &str) -> Result<Bytes, AllocError> {
    if text.is_empty() {
        return Ok(Bytes::new(alloc));
    }
    let bytes = Bytes::from_slice(alloc, text.as_bytes())?;
    Ok(Bytes::from_vec(bytes.into_vec()))
}

/// Adds a slice and the byte `.`.
fn extend(bytes: &mut Bytes, text: &str) -> Result<(), AllocError> {
    bytes.extend_from_slice(text.as_bytes())?;
    bytes.push(b'.')
}

/// Says the order of a copy and what grew from it, whether they are equal, and both.
fn say_bytes_beside(line: &mut String, copy: &Bytes, bytes: &Bytes) {
    let (order, same) = (copy.cmp(bytes), copy == bytes);
    let _ = write!(line, "{order:?} {same}: ");
    say_bytes(line, copy);
    say(line, ", ");
    say_bytes(line, bytes);
}

/// Says bytes that grow by a word, beside the copy before.
fn say_bytes_with(alloc: Global, line: &mut String, bytes: &mut Bytes, word: &str) -> Said {
    let copy = bytes.try_clone(alloc)?;
    extend(bytes, word)?;
    say_bytes_beside(line, &copy, bytes);
    Ok(())
}

/// Says bytes that grow by two words, each with a dot, beside the copy between.
fn say_bytes_from(alloc: Global, line: &mut String, bytes: &mut Bytes, text: &str) -> Said {
    let (front, back) = cut(text);
    extend(bytes, front)?;
    say_bytes_with(alloc, line, bytes, back)
}

/// Says bytes that are none at first and grow by a word and then by another.
fn say_bytes_grown(alloc: Global, line: &mut String, text: &str) -> Said {
    let mut bytes = Bytes::with_capacity(alloc, 2)?;
    if !bytes.is_empty() {
        return say_unknown(line);
    }
    say_bytes_from(alloc, line, &mut bytes, text)
}

/// Says a text, with its length, and whether it is empty.
fn say_text(line: &mut String, text: &Text) {
    let _ = write!(
        line,
        "{:?} {} {}",
        text.as_str(),
        text.len(),
        text.is_empty()
    );
}

/// A text, or a new one where it is empty, which went through a string.
fn text_of(alloc: Global, text: &str) -> Result<Text, AllocError> {
    if text.is_empty() {
        return Ok(Text::new(alloc));
    }
    let text = Text::from_str(alloc, text)?;
    Ok(Text::from_string(text.into_string()))
}

/// Says the order of a copy and what grew from it, whether they are equal, and both.
fn say_text_beside(line: &mut String, copy: &Text, text: &Text) {
    let (order, same) = (copy.cmp(text), copy == text);
    let _ = write!(line, "{order:?} {same}: ");
    say_text(line, copy);
    say(line, ", ");
    say_text(line, text);
}

/// Says a text that grows by a word, beside the copy before.
fn say_text_with(alloc: Global, line: &mut String, text: &mut Text, word: &str) -> Said {
    let copy = text.try_clone(alloc)?;
    text.push_str(word)?;
    say_text_beside(line, &copy, text);
    Ok(())
}

/// Says a text that grows from one word by another.
fn say_text_grown(alloc: Global, line: &mut String, text: &str) -> Said {
    let (front, back) = cut(text);
    let mut text = Text::from_str(alloc, front)?;
    say_text_with(alloc, line, &mut text, back)
}

fn say_bytes_of(alloc: Global, line: &mut String, text: &str) -> Said {
    let bytes = bytes_of(alloc, text)?;
    say_bytes(line, &bytes);
    Ok(())
}

fn say_text_of(alloc: Global, line: &mut String, text: &str) -> Said {
    let text = text_of(alloc, text)?;
    say_text(line, &text);
    Ok(())
}

pub(crate) fn answer(alloc: Global, line: &mut String, question: &str, text: &str) -> Said {
    match question {
        "numbers" => say_numbers(alloc, line, text),
        "last" => say_last(alloc, line, text),
        "bytes" => say_bytes_of(alloc, line, text),
        "bytes-grown" => say_bytes_grown(alloc, line, text),
        "text" => say_text_of(alloc, line, text),
        "text-grown" => say_text_grown(alloc, line, text),
        _ => say_unknown(line),
    }
}
