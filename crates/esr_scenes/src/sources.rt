//! Sources in memory, as words.
use esr_seq::Seq;
use esr_source::{Address, MemFile, MemSource};
use std::alloc::{AllocError, Global};

/// The parts of a line that tells a source: its place, index, shard, and the names and texts of its files.
#[derive(Clone, Copy)]
pub struct SourceLine<'a> {
    pub place: &'a str,
    pub index: &'a str,
    pub shard: &'a str,
    pub files: &'a str,
}

/// The parts of a line `PLACE INDEX/SHARD NAME=TEXT ..`. The shard is 0 where none is told.
pub fn source_line(line: &str) -> SourceLine<'_> {
    let (place, rest) = line.split_once(' ').unwrap_or((line, ""));
    let (which, files) = rest.split_once(' ').unwrap_or((rest, ""));
    let (index, shard) = which.split_once('/').unwrap_or((which, "0"));
    SourceLine {
        place,
        index,
        shard,
        files,
    }
}

/// The file in memory of `NAME=TEXT`.
fn file_of(alloc: Global, text: &str) -> Result<MemFile, AllocError> {
    let (name, bytes) = text.split_once('=').unwrap_or((text, ""));
    MemFile::new(alloc, name, bytes.as_bytes())
}

/// Adds the files of a shard in memory, from names and texts.
fn add_files(alloc: Global, files: &mut Seq<MemFile>, texts: &str) -> Result<(), AllocError> {
    for text in texts.split_whitespace() {
        files.push(file_of(alloc, text)?)?;
    }
    Ok(())
}

/// The shard in memory of a line.
pub fn source_of(alloc: Global, line: &str) -> Result<MemSource, AllocError> {
    let told = source_line(line);
    let mut files = Seq::new(alloc);
    add_files(alloc, &mut files, told.files)?;
    let number = told.shard.parse().unwrap_or(0);
    let address = Address::new(alloc, told.place, told.index, number)?;
    Ok(MemSource { address, files })
}
