//! The notation of texts in a line: `<TEXT*COUNT>` is the text so many times, and `%HH` the byte of two hexadecimal digits.
use esr_seq::Bytes;
use percent_encoding::percent_decode;
use std::alloc::{AllocError, Global};

/// Adds the bytes of a text that repeats nothing.
fn push_plain(bytes: &mut Vec<u8>, text: &str) -> Result<(), AllocError> {
    percent_decode(text.as_bytes()).append_to(bytes)
}

/// Adds bytes so many times.
fn push_repeated(
    bytes: &mut Vec<u8>,
    alloc: Global,
    once: &[u8],
    count: usize,
) -> Result<(), AllocError> {
    let many = once.repeat(alloc, count)?;
    bytes.extend_from_slice(many.as_slice())
}

/// Adds a text as often as it says, which is once where it doesn't say.
fn push_times(bytes: &mut Vec<u8>, alloc: Global, text: &str) -> Result<(), AllocError> {
    let (unit, count) = text.split_once('*').unwrap_or((text, "1"));
    let mut once = Vec::new(alloc);
    push_plain(&mut once, unit)?;
    let count = count.parse::<usize>().unwrap_or(1);
    push_repeated(bytes, alloc, once.as_slice(), count)
}

/// Adds a piece that begins with a repeated text and its end mark, or has none.
fn push_piece(bytes: &mut Vec<u8>, alloc: Global, piece: &str) -> Result<(), AllocError> {
    match piece.split_once('>') {
        Some((repeated, rest)) => {
            push_times(bytes, alloc, repeated)?;
            push_plain(bytes, rest)
        }
        None => push_plain(bytes, piece),
    }
}

/// The bytes that a text in this notation stands for.
pub(crate) fn bytes_of(alloc: Global, text: &str) -> Result<Bytes, AllocError> {
    let mut bytes = Vec::new(alloc);
    for piece in text.split('<') {
        push_piece(&mut bytes, alloc, piece)?;
    }
    Ok(Bytes::from_vec(bytes))
}
