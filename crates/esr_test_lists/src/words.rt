//! Ids and names of blobs, as words.
use esr_names::{BlobName, Id, parse_name};
use esr_scenes::Words;

/// An id as its term and its counter: `1.8`.
pub(crate) fn id_of(words: &mut Words) -> Id {
    match words.word().split_once('.') {
        Some((term, counter)) => Id::new(words.number_in(term), words.number_in(counter)),
        None => words.refuse("not an id", Id::new(0, 0)),
    }
}

pub(crate) fn blob_of(words: &mut Words) -> BlobName {
    match parse_name(words.word().as_bytes()) {
        Some(name) => name,
        None => words.refuse("not the name of a blob", BlobName::Latest),
    }
}
